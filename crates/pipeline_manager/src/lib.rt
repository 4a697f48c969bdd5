//! The lives of star queries and the states of slots in a shared scan: which query holds
//! which slot, how far it is, and which event may come next by them. What a life and a
//! state are, is in `life`.
#![tactic(auto)]

mod crossing;
mod enabling;
mod laws;
mod life;
mod manager;
mod next_events;
mod number_set;
mod old_lives;
mod queries;
mod query_lives;
mod sets;
mod slots;

pub use crossing::{managers_may_be_sent, managers_may_be_shared};
pub use enabling::{
    built_of, may_abandon, may_build, may_clear, may_end, may_release, may_reserve, may_start,
    slot_at,
};
pub use laws::{
    calls_on_queries_keep_lives_sound, calls_on_slots_keep_lives_sound, holders_are_found,
    lives_change_alone, slots_change_alone,
};
pub use life::{Life, QueryLife, SlotState};
pub use manager::Manager;
pub use next_events::{
    Reservation, ToBuild, ToClear, next_build, next_clear, next_release, next_reservation,
    next_start,
};
pub use sets::has;
