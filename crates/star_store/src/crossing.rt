//! That the tables may cross to other threads.
use crate::store::Store;
use crate::tables::Tables;

/// The tables may be sent to another thread.
pub fn store_may_be_sent() {
    is_sent::<Store>();
}

/// The tables may be shared with another thread.
pub fn store_may_be_shared() {
    is_shared::<Store>();
}

/// A share of the tables may be sent to another thread.
pub fn tables_may_be_sent() {
    is_sent::<Tables>();
}

/// A share of the tables may be shared with another thread.
pub fn tables_may_be_shared() {
    is_shared::<Tables>();
}

fn is_sent<T: Send>() {}

fn is_shared<T: Sync>() {}
