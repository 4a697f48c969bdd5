//! That groups may cross to other threads.
use crate::groups::Groups;

/// Groups may be sent to another thread.
pub fn groups_may_be_sent() {
    is_sent::<Groups>();
}

fn is_sent<T: Send>() {}
