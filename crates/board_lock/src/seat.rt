//! The lock and its seats. What they do is in `lock`.
ghost use Rattle.std.specs.Prelude.{◌≡◌, true};

use crate::bell::Bell;
use crate::board::Board;
use crate::view::{Turns, View};
use atomic_table::{Seat, Table};
use std::alloc::Global;
use std::snapshot::Snapshot;
use std::sync::atomic::AtomicU64;

/// The most seats that one lock lends its state to, the first one counted.
pub const MAX_SEATS: u32 = 128;

// One word, the turn: 0, or 1 more than the number of the seat that has the state.
// One slot, for the state.
pub(crate) type StateTable<S> = Table<Option<S>, View<S>, Snapshot<S>, Turns, Global>;

/// A state, and the turn to have it.
#[derive(Drop)]
pub struct BoardLock<S: Board> {
    pub(crate) table: StateTable<S>,
    // How many threads sleep until the turn is given. It spares the wake where none does.
    pub(crate) sleepers: AtomicU64,
    pub(crate) seats: u32,
    pub(crate) bell: Bell,
    ghost sized: { (table.shared.table_id.words ≡ 1) × (table.shared.table_id.slots ≡ 1) },
}

/// The right of one thread to enter.
#[derive(Drop)]
pub struct BoardSeat<S> {
    pub(crate) seat: Seat<Option<S>, View<S>>,
    pub(crate) number: u32,
    // How many seats were made, of the first one.
    pub(crate) made: u32,
    ghost numbered: { (seat.me.0.live ≡ true) × (seat.me.0.number ≡ number)
        × (seat.me.0.made ≡ made) },
}
