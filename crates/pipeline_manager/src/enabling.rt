//! Which events may come, by the lives of the queries and the states of the slots.
ghost use Rattle.std.specs.Prelude.{◌≡◌, ◌↔◌, IsTrue};
ghost use Rattle.pipeline_manager.specs.Conditions.{CanAbandon, CanBuild, CanClear, CanEnd, CanFree, CanRun};
ghost use Rattle.pipeline_manager.specs.Lives.{built_of, life_of, slot_at};
ghost use Rattle.pipeline_manager.specs.Slots.{MayGetSlot};

use crate::life::{Life, SlotState};
use crate::manager::Manager;
use crate::sets::{has, is_within};

/// Whether a query is the one that waits the longest, and a slot is free for it.
pub fn may_reserve(manager: &Manager, query: u64, slot: u32) -> bool
    ensures { IsTrue result ↔ MayGetSlot query slot manager.now }
{
    slot < manager.slots()
        && manager.oldest_waiting() == Some(query)
        && manager.slot(slot) == SlotState::Free
}

/// Whether the filter of a dimension may be built for a query.
pub fn may_build(manager: &Manager, query: u64, dimension: u8) -> bool
    ensures { IsTrue result ↔ CanBuild query dimension manager.now }
{
    is_building(manager, query)
        && has(manager.filters(), dimension)
        && !has(built_of(manager, query), dimension)
}

/// Whether a query may begin to run: every filter is built for it.
pub fn may_start(manager: &Manager, query: u64) -> bool
    ensures { IsTrue result ↔ CanRun query manager.now }
{
    is_building(manager, query) && is_within(manager.filters(), built_of(manager, query))
}

/// Whether a slot may be taken from its query, which is to be answered or has no answer.
pub fn may_end(manager: &Manager, slot: u32) -> bool
    ensures { IsTrue result ↔ CanEnd slot manager.now }
{
    match slot_at(manager, slot) {
        SlotState::Held { query, .. } => matches!(
            manager.life(query),
            Some(Life::Ending | Life::Spoiled | Life::Abandoned)
        ),
        _ => false,
    }
}

/// Whether a dimension is still to be cleared of a slot.
pub fn may_clear(manager: &Manager, slot: u32, dimension: u8) -> bool
    ensures { IsTrue result ↔ CanClear slot dimension manager.now }
{
    match slot_at(manager, slot) {
        SlotState::Clearing(left) => has(left, dimension),
        _ => false,
    }
}

/// Whether a slot is cleared, and nothing of it is left to be.
pub fn may_release(manager: &Manager, slot: u32) -> bool
    ensures { IsTrue result ↔ CanFree slot manager.now }
{
    slot_at(manager, slot) == SlotState::Clearing(0)
}

/// Whether a query may still be answered, so that it may be abandoned.
pub fn may_abandon(manager: &Manager, query: u64) -> bool
    ensures { IsTrue result ↔ CanAbandon query manager.now }
{
    matches!(
        manager.life(query),
        Some(Life::Waiting | Life::Building | Life::Running { .. } | Life::Ending)
    )
}

/// Whether filters are being built for a query.
pub(crate) fn is_building(manager: &Manager, query: u64) -> bool
    ensures { IsTrue result ↔ (life_of manager.now query ≡ Some Life.Building) }
{
    manager.life(query) == Some(Life::Building)
}

/// The state of a slot; past the last slot it is free.
pub fn slot_at(manager: &Manager, slot: u32) -> SlotState
    ensures { result ≡ slot_at manager.now slot }
{
    if slot < manager.slots() {
        manager.slot(slot)
    } else {
        SlotState::Free
    }
}

/// The set of the dimensions that are built for a query, empty where it holds no slot.
pub fn built_of(manager: &Manager, query: u64) -> u8
    ensures { result ≡ built_of manager.now query }
{
    match manager.slot_of(query) {
        None => 0,
        Some(slot) => match manager.slot(slot) {
            SlotState::Held { built, .. } => built,
            _ => 0,
        },
    }
}
