//! A fixed stock of frames of raw words. What stands in a frame is for the crates above.
#![tactic(auto)]

mod frame;
mod pool;

pub use frame::Frame;
pub use pool::Pool;
