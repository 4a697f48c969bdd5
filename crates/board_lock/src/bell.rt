//! What idle threads sleep on. No promise rests on it.
//!
//! No wake is lost. Who rests found nothing in the turn in which it read the number, so what there
//! is to do came in a later one. Whoever had that turn looks again itself, or rings behind it and
//! finds the reader counted: then nobody who read the old number falls asleep, and one of those
//! asleep wakes, looks in a turn, and goes by the same rule. What some alone would find, as a reply
//! to them, is rung for to all.
use crossbeam_utils::CachePadded;
use std::sync::atomic::AtomicU64;
use std::sync::atomic::Ordering::SeqCst;
use std::sync::{Condvar, Mutex, Wait};

/// A number that changes when somebody may have something to do.
///
/// Each `read` is followed by one `rest`. To ring takes a lock and calls the kernel, so nothing is
/// done while nobody rests or is about to.
#[derive(Drop)]
pub struct Bell {
    number: CachePadded<Mutex<u32>>,
    changed: Condvar,

    // How many have read the number whose rest has not ended yet.
    resting: AtomicU64,
}

impl Bell {
    pub fn new() -> Bell {
        Bell {
            number: CachePadded::new(Mutex::new(0)),
            changed: Condvar::new(),
            resting: AtomicU64::new(0),
        }
    }

    pub fn read<R: Wait>(&self, rt: &R) -> u32 {
        // Counted while the reader has the turn: who has it next, and changes
        // something, finds the count.
        self.resting.fetch_add(1, SeqCst);
        let number: &Mutex<u32> = &self.number;
        *number.lock(rt)
    }

    /// Wakes one of those who rest.
    pub fn ring<R: Wait>(&self, rt: &R) {
        if self.change(rt) {
            self.changed.notify_one();
        }
    }

    /// Wakes all who rest.
    pub fn ring_all<R: Wait>(&self, rt: &R) {
        if self.change(rt) {
            self.changed.notify_all();
        }
    }

    /// Whether somebody rests or is about to.
    pub fn has_resting(&self) -> bool {
        self.resting.load(SeqCst) != 0
    }

    // Changes the number if somebody rests or is about to, and tells whether it did.
    fn change<R: Wait>(&self, rt: &R) -> bool {
        if !self.has_resting() {
            return false;
        }
        let number: &Mutex<u32> = &self.number;
        let mut now = number.lock(rt);
        *now = now.wrapping_add(1);
        true
    }

    pub fn rest<R: Wait>(&self, rt: &R, seen: u32) {
        let number: &Mutex<u32> = &self.number;
        drop(
            self.changed
                .wait_while(rt, number.lock(rt), |now| *now == seen),
        );
        self.resting.fetch_sub(1, SeqCst);
    }
}
