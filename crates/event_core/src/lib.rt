//! The core of the shared scan in code: what each event makes of it. When an event may come, and
//! what it changes, is defined in `core_state`.
#![tactic(auto)]

mod batches;
mod board;
mod choosing;
mod crossing;
mod cutting;
mod filtering;
mod folding;
mod laws_of_batches;
mod laws_of_boards;
mod laws_of_core;
mod laws_of_distribution;
mod laws_of_filters;
mod laws_of_passing;
mod laws_of_slots;
mod laws_of_statements;
mod laws_of_steps;
mod logged;
mod machine;
mod marks;
mod next_parts;
mod replies;
mod slots;
mod spoiling;
mod statements;
mod stepping;
mod work;

pub use choosing::EventKind;
pub use crossing::cores_may_be_sent;
pub use laws_of_boards::{own_steps_keep_a_board, what_is_beside_stays_lent};
pub use laws_of_steps::{every_core_is_sound, idle_cores_lend_nothing, taken_events_are_steps};
pub use machine::Core;
pub use marks::Marks;
pub use replies::Ready;
pub use stepping::{EventsFault, StepFault, SubmitFault};
pub use work::{BlankWork, Folding, Work};
