//! A script from bytes to bytes: each statement is replied to as soon as it is whole.
#![tactic(auto)]

mod answer;
mod board_run;
mod board_seats;
mod front;
mod halt;
mod host;
mod laws;
mod pace;
mod piece;
mod reply;
mod run;
mod seat_ahead;
mod seat_front;
mod seat_rest;
mod seat_run;
mod seat_script;
mod seat_turn;
mod shared;
mod waiting;

pub use board_run::{Crew, open_crew};
pub use board_seats::work_beside;
pub use halt::Halt;
pub use host::Host;
pub use laws::{a_seat_alone_is_a_run, laps_add_up_over_pieces};
pub use piece::{Piece, read_piece};
pub use run::{PIECE_BYTES, run_alone};
pub use seat_front::SeatFront;
pub use shared::{RunDone, run_on_one_thread, run_script};
