//! That a scan and what it cuts may cross to other threads.
use crate::blank::Blanked;
use crate::scan::{CutOutcome, Scan};

/// A scan may be sent to another thread.
pub fn scans_may_be_sent() {
    is_sent::<Scan>();
}

/// What a cut gives may be sent to another thread.
pub fn cuts_may_be_sent() {
    is_sent::<CutOutcome>();
}

/// A batch whose rows are not written yet may be sent to another thread.
pub fn blanks_may_be_sent() {
    is_sent::<Blanked>();
}

fn is_sent<T: Send>() {}
