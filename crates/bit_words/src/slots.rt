//! How many slots there are at most. The numbers of slots are below that.

/// How many queries may run at once at most: each has a slot of its own.
pub const MAX_SLOTS: usize = 64;
