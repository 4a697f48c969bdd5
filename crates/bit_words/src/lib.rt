//! Sets of small numbers, held in words of 64 bits.
#![tactic(auto)]

mod bits;
mod laws;
mod rows;
mod slots;

pub use bits::Bits;
pub use laws::{least_numbers_are_the_members, numbers_go_in_and_out, sets_are_their_members};
pub use rows::and_all;
pub use slots::MAX_SLOTS;
