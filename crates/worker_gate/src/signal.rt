//! Whom a seat wakes after its turn. No reply depends on it. Why no wake is lost is
//! said in `board_lock`.
ghost use Rattle.std.specs.Prelude.{◌≡◌, ◌↔◌, IsTrue};
ghost use Rattle.worker_gate.specs.Signals.{HasComeHome, WakesAfter, WakesForMore, WakesIfMore, signal_of};

use crate::looking::{Look, is_more_to_do};
use board_lock::BoardLock;
use event_core::{Core, EventKind};
use std::sync::Wait;

/// What is decided in a turn, and done after it.
#[derive(Clone, Copy, Debug, PartialEq, Eq)]
pub enum Signal {
    /// Nobody is woken: nothing is left to do, or the seat looks again at once.
    Nobody,

    /// One seat that rests is woken: something is left to do, and any seat that looks finds it.
    One,

    /// All seats that rest are woken: what some of them wait for may have come, or memory ran out,
    /// or a statement waits for the tables.
    All,

    /// The seat rests while this is the bell's number.
    Rest(u32),
}

/// The signal after a look, decided in the turn of the look.
pub fn signal_behind<R: Wait>(rt: &R, board: &BoardLock<Core>, core: &Core, look: &Look) -> Signal
    ensures home { HasComeHome core.now → result ≡ Signal.All }
    ensures after { ¬ (HasComeHome core.now) → WakesAfter look.now core.now result }
{
    if is_all_home(core) {
        return Signal::All;
    }
    match look {
        Look::Got(_) => signal_for_more(board.has_resting(), core),
        Look::Did(kind) => signal_of(*kind),
        // Read in the turn: whoever has the next one finds that the seat is to rest.
        Look::Rest => Signal::Rest(board.bell(rt)),
        Look::Closed => Signal::Nobody,
        Look::Memory => Signal::All,
    }
}

/// The signal of a seat that goes on to something else, and looks again only after that.
pub fn signal_if_more(board: &BoardLock<Core>, core: &Core) -> Signal
    ensures home { HasComeHome core.now → result ≡ Signal.All }
    ensures more { ¬ (HasComeHome core.now) → WakesIfMore core.now result }
{
    if is_all_home(core) {
        return Signal::All;
    }
    signal_for_more(board.has_resting(), core)
}

/// Whom a seat wakes that leaves something to do, if somebody rests: any one who looks. While a
/// statement waits for the tables that one may be a seat that does not look, so all are woken.
fn signal_for_more(resting: bool, core: &Core) -> Signal
    ensures { WakesForMore resting core.now result }
{
    // Asked in this order, since the second question takes some time: while nobody rests, turns are
    // as short as without it.
    if !(resting && is_more_to_do(core)) {
        return Signal::Nobody;
    }
    if core.is_waiting() {
        Signal::All
    } else {
        Signal::One
    }
}

/// Whether what a statement waits for has come: the tables are lent to nobody any more.
fn is_all_home(core: &Core) -> bool
    ensures { IsTrue result ↔ HasComeHome core.now }
{
    core.is_waiting() && !core.is_any_out()
}

/// The signal after an event: a Finish may bring a reply. The seat that made the event looks again.
fn signal_of(kind: EventKind) -> Signal
    ensures { result ≡ signal_of kind }
{
    match kind {
        EventKind::Finish => Signal::All,
        _ => Signal::Nobody,
    }
}

impl Signal {
    /// Wakes those that it names, or rests. Call it after the turn.
    pub fn give<R: Wait>(self, rt: &R, board: &BoardLock<Core>) {
        match self {
            Signal::Nobody => {}
            Signal::One => board.ring(rt),
            Signal::All => board.ring_all(rt),
            Signal::Rest(seen) => board.rest(rt, seen),
        }
    }
}
