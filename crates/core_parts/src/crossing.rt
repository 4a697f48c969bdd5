//! That batches in flight, seats and accepted queries may cross to other threads, and that filters
//! may be shared with them.
use crate::flights::Flights;
use crate::queries::Queries;
use crate::seat::Seat;
use filter_order::Filters;

/// Batches in flight may be sent to another thread.
pub fn flights_may_be_sent() {
    is_sent::<Flights>();
}

/// Seats may be sent to another thread.
pub fn seats_may_be_sent() {
    is_sent::<Seat>();
}

/// Accepted queries may be sent to another thread.
pub fn queries_may_be_sent() {
    is_sent::<Queries>();
}

/// Filters may be shared with another thread.
pub fn filters_may_be_shared() {
    is_shared::<Filters>();
}

fn is_sent<T: Send>() {}

fn is_shared<T: Sync>() {}
