//! Which queries hold the slots, and what becomes of those that find no memory
//! for the rows of a batch.
ghost use Rattle.std.specs.Prelude.{◌≡◌, ◌==◌, if◌then◌else◌, ◌<◌, fold, length, All, None};
ghost use Rattle.std.specs.Int.{bit_at};
ghost use Rattle.bit_words.specs.declared.slots.TheConstants.{MAX_SLOTS};
ghost use Rattle.pipeline_manager.specs.Changes.{after_spoil};
ghost use Rattle.pipeline_manager.specs.Conditions.{CanSpoil};
ghost use Rattle.pipeline_manager.specs.Lives.{slot_at};
ghost use Rattle.pipeline_manager.specs.Sound.{AreSoundLives};
ghost use Rattle.core_state.specs.Found.{holder_of};
ghost use Rattle.core_state.specs.Scanned.{stopped_for};
ghost use Rattle.event_core.specs.Core.{AreHolders, holders_in};

use batch_flow::SlotBits;
use bit_words::MAX_SLOTS;
use continuous_scan::Scan;
use pipeline_manager::{Manager, SlotState};

/// The query that holds a slot, if one does.
fn query_at(manager: &Manager, slot: u32) -> Option<u64>
    requires { slot < length manager.now.slots }
    ensures query { result ≡ holder_of (slot_at manager.now slot) }
    ensures sound { AreSoundLives manager.now }
{
    match manager.slot(slot) {
        SlotState::Held { query, .. } => Some(query),
        SlotState::Free | SlotState::Clearing(_) => None,
    }
}

/// For each slot the number of the query that holds it, and 0 where none does. Only
/// the slots in use are read.
pub(crate) fn holders_of(manager: &Manager) -> [u64; MAX_SLOTS]
    ensures { AreHolders manager.now result }
{
    let mut holders = [0; MAX_SLOTS];
    for slot in 0..manager.used() {
        holders[slot as usize] = query_at(manager, slot).unwrap_or(0);
    }
    holders
}

/// The query that holds a slot of a set, if one does.
fn query_in(manager: &Manager, slots: SlotBits, slot: u32) -> Option<u64>
    requires there { slot < length manager.now.slots }
    requires few { slot < MAX_SLOTS }
    ensures query { result
        ≡ if bit_at slots slot == 1 then holder_of (slot_at manager.now slot) else None }
    ensures sound { AreSoundLives manager.now }
{
    let holder = query_at(manager, slot);
    if slots.has(slot) { holder } else { None }
}

/// Spoils the queries that hold the slots of a set, which all have begun and may still be answered,
/// and ends what runs there. Only the slots in use are gone over.
pub(crate) fn spoil_holders(manager: &mut Manager, scan: &mut Scan, slots: SlotBits)
    requires begun { All (λ query. CanSpoil query manager.old) (holders_in manager.old slots) }
    requires slots { length manager.old.slots ≡ length scan.old.running }
    ensures lives { manager.new
        ≡ fold (λ lives query. after_spoil query lives) manager.old (holders_in manager.old slots) }
    ensures scan { scan.new
        ≡ fold (λ now query. stopped_for manager.old query now) scan.old
        (holders_in manager.old slots) }
{
    for slot in 0..manager.used() {
        if let Some(query) = query_in(manager, slots, slot) {
            scan.stop(slot);
            manager.spoil(query);
        }
    }
}
