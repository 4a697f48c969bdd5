//! What the machine gives to a run.
use std::alloc::Global;
use std::hash::RandomState;

/// What the machine gives to a run. `R` is a reference to what has the threads.
#[derive(Clone, Copy)]
pub struct Host<R> {
    /// Threads, and waiting.
    pub rt: R,

    /// Memory.
    pub alloc: Global,

    /// The keys of hashes, by which rows and groups are found. No reply depends on them.
    pub hash_keys: RandomState,
}
