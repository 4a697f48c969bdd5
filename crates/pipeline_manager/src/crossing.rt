//! That a manager may cross to other threads.
use crate::manager::Manager;

/// A manager may be sent to another thread.
pub fn managers_may_be_sent() {
    is_sent::<Manager>();
}

/// A manager may be shared with another thread.
pub fn managers_may_be_shared() {
    is_shared::<Manager>();
}

fn is_sent<T: Send>() {}

fn is_shared<T: Sync>() {}
