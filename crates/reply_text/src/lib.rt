//! How a reply is written, and how it is read from the front of bytes. What is replied is for the
//! crates above.
#![tactic(auto)]

mod cells;
mod crossing;
mod numbers;
mod printing;
mod reading;
mod refusals;
mod reply;
mod rows;
mod table_name;

pub use crossing::replies_cross_threads;
pub use printing::print_reply;
pub use reading::{read_reply, replies_have_one_spelling};
pub use reply::Reply;
