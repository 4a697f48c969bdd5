//! That a core may cross to other threads.
use crate::machine::Core;

/// A core may be sent to another thread.
pub fn cores_may_be_sent() {
    is_sent::<Core>();
}

fn is_sent<T: Send>() {}
