//! That a dimension's rows may cross to other threads.
use crate::dimension_rows::DimensionRows;

/// The rows may be sent to another thread.
pub fn dimension_rows_may_be_sent() {
    is_sent::<DimensionRows>();
}

/// The rows may be shared with another thread.
pub fn dimension_rows_may_be_shared() {
    is_shared::<DimensionRows>();
}

fn is_sent<T: Send>() {}

fn is_shared<T: Sync>() {}
