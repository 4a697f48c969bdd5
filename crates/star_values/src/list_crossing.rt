//! That lists may cross to other threads where their members may.
use crate::fading::Fading;
use crate::list_of::ListOf;
use crate::list_with_room::ListWithRoom;
use crate::trail::Trail;

/// A list of members that may be sent to another thread may be sent too.
pub fn lists_may_be_sent<T: Send>() {
    is_sent::<ListOf<T>>();
    is_sent::<ListWithRoom<T>>();
    is_sent::<Fading<T>>();
    is_sent::<Trail<T>>();
}

/// A list of members that may be shared with another thread may be shared too.
pub fn lists_may_be_shared<T: Sync>() {
    is_shared::<ListOf<T>>();
    is_shared::<ListWithRoom<T>>();
    is_shared::<Fading<T>>();
    is_shared::<Trail<T>>();
}

fn is_sent<T: Send>() {}

fn is_shared<T: Sync>() {}
