//! The filters of the core of the shared scan: their versions, what each did so far, the order in
//! which rows meet them, the one that drops the most rows first, and references to the
//! versions that are made ahead.
#![tactic(auto)]

mod drop_tallies;
mod filter_version;
mod filters;
mod laws;
mod order;
mod rates;
mod spares;
mod versions;

pub use drop_tallies::DropTallies;
pub use filter_version::{FilterVersion, Reference, References};
pub use filters::Filters;
pub use laws::orders_by_drop_rate_are_equal;
pub use order::{Order, best_order};
pub use spares::Spares;
pub use versions::{MAX_FILTERS, Versions};
