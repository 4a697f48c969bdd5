//! That a shared distributor may cross to other threads.
use crate::shared::SharedDistributor;

/// A shared distributor may be sent to another thread.
pub fn shared_distributors_may_be_sent() {
    is_sent::<SharedDistributor>();
}

fn is_sent<T: Send>() {}
