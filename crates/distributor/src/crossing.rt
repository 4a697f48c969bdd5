//! That a distributor may cross to other threads.
use crate::distributor::Distributor;

/// A distributor may be sent to another thread.
pub fn distributors_may_be_sent() {
    is_sent::<Distributor>();
}

fn is_sent<T: Send>() {}
