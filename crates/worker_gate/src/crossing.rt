//! That a board over a core may be shared by threads, and its seats sent to them.
use board_lock::{BoardLock, BoardSeat};
use event_core::Core;

/// A seat over a core may be sent to another thread.
pub fn seats_of_cores_may_be_sent() {
    is_sent::<BoardSeat<Core>>();
}

/// A board over a core may be sent to another thread, and shared with it.
pub fn boards_of_cores_may_be_shared() {
    is_sent::<BoardLock<Core>>();
    is_shared::<BoardLock<Core>>();
}

fn is_sent<T: Send>() {}

fn is_shared<T: Sync>() {}
