//! What a worker does: it takes a batch under the lock, lets it pass all filters that are left and
//! folds its rows outside, and gives it back. A batch that it cuts itself it carries at once, and
//! writes its rows outside too. Where no batch wants a filter it makes one of the other events.
#![tactic(auto)]

mod carried;
mod crossing;
mod looking;
mod looping;
mod making;
mod managing;
mod passing;
mod signal;
mod working;

pub use carried::Carried;
pub use crossing::{boards_of_cores_may_be_shared, seats_of_cores_may_be_sent};
pub use looking::{Look, is_more_to_do, worker_look};
pub use looping::{WorkerEnd, give_if_done, worker_loop};
pub use managing::{Managed, manage_one};
pub use passing::{Gate, NoGate, do_work};
pub use signal::{Signal, signal_behind, signal_if_more};
pub use working::{TakenWork, give_work, take_work};
