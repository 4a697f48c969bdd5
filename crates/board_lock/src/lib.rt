//! One state, lent to one seat after another. What the state is, is for the crates above.
#![tactic(auto)]

mod bell;
mod board;
mod crossing;
mod lock;
mod seat;
mod small_board;
mod view;

pub use board::Board;
pub use crossing::{locks_may_be_shared, seats_may_be_sent};
pub use seat::{BoardLock, BoardSeat, MAX_SEATS};
pub use small_board::{SmallBoard, end_both, submit_once};
pub use view::{Parted, View};
