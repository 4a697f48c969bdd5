//! The driver of a core: it makes the events that no statement brings, a turn at a time.
#![tactic(auto)]

mod driver;

pub use driver::{finish_all, turn};
