//! That replies may cross to other threads.
use crate::reply::Reply;

/// A reply may be sent to another thread, and shared with one.
pub fn replies_cross_threads() {
    crosses_threads::<Reply>();
}

fn crosses_threads<T: Send + Sync>() {}
