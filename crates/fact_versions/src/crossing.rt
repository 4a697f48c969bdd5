//! That a fact table's versions may cross to other threads.
use crate::fact_versions::FactVersions;

/// The versions may be sent to another thread.
pub fn fact_versions_may_be_sent() {
    is_sent::<FactVersions>();
}

/// The versions may be shared with another thread.
pub fn fact_versions_may_be_shared() {
    is_shared::<FactVersions>();
}

fn is_sent<T: Send>() {}

fn is_shared<T: Sync>() {}
