//! What do seats fold apart, and how does it come home? What a distributor is is in the crate below.
#![tactic(auto)]

mod crossing;
mod going;
mod landing;
mod laws;
mod seats;
mod shared;
mod shared_seats;

pub use crossing::shared_distributors_may_be_sent;
pub use shared::SharedDistributor;
