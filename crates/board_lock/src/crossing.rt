//! That a lock may be shared by threads, and a seat sent to one, where the state may be sent.
use crate::board::Board;
use crate::seat::{BoardLock, BoardSeat};

/// A seat over a state that may be sent to another thread may be sent too.
pub fn seats_may_be_sent<S: Board + Send>() {
    is_sent::<BoardSeat<S>>();
}

/// A lock over a state that may be sent to another thread may be sent and shared.
pub fn locks_may_be_shared<S: Board + Send>() {
    is_sent::<BoardLock<S>>();
    is_shared::<BoardLock<S>>();
}

fn is_sent<T: Send>() {}

fn is_shared<T: Sync>() {}
