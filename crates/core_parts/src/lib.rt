//! The parts that the core of the shared scan is put together from: batches in flight, and which of
//! them may come next, seats and accepted queries.
#![tactic(auto)]

mod accepted_query;
mod crossing;
mod flight;
pub mod flights;
mod hand;
mod home;
mod lent;
mod next_flights;
mod passing;
mod queries;
mod seat;
mod submitted;
mod version_numbers;

pub use accepted_query::AcceptedQuery;
pub use crossing::{
    filters_may_be_shared, flights_may_be_sent, queries_may_be_sent, seats_may_be_sent,
};
pub use filter_order::{
    DropTallies, FilterVersion, Filters, MAX_FILTERS, References, Spares, Versions,
};
pub use flight::Flight;
pub use flights::Flights;
pub use hand::Hand;
pub use next_flights::{is_through, is_wanting, next_finish, next_through, next_wanting};
pub use queries::Queries;
pub use seat::{Seat, may_be_answered};
pub use submitted::{Standing, Submitted};
