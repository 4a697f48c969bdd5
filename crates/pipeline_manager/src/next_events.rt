//! Which event of queries and slots may come next.
ghost use Rattle.std.specs.Prelude.{◌≡◌, ℕ, ◌<◌, length, IfSome, IsSomeAnd};
ghost use Rattle.pipeline_manager.specs.Conditions.{CanBuild, CanRun, CanClear, CanFree};
ghost use Rattle.pipeline_manager.specs.Lives.{built_of, slot_of};
ghost use Rattle.pipeline_manager.specs.Slots.{MayGetSlot};

use crate::enabling::{is_building, may_release};
use crate::laws::holders_are_found;
use crate::life::SlotState;
use crate::manager::Manager;
use crate::sets::{is_within, least_of, least_outside};

/// A query that may get a slot.
#[derive(Clone, Copy, Debug, PartialEq, Eq)]
pub struct Reservation {
    pub query: u64,
    pub slot: u32,
}

/// A query, and a dimension whose filter may be built for it.
#[derive(Clone, Copy, Debug, PartialEq, Eq)]
pub struct ToBuild {
    pub query: u64,
    pub dimension: u8,
}

/// A slot, and a dimension whose filter may be cleared of it.
#[derive(Clone, Copy, Debug, PartialEq, Eq)]
pub struct ToClear {
    pub slot: u32,
    pub dimension: u8,
}

/// A query that holds a slot, and the set of the dimensions that are built for it.
#[derive(Clone, Copy, Debug)]
struct Holder {
    query: u64,
    built: u8,
}

/// A query that waits the longest and a free slot for it, or `None` where no query
/// waits or no slot is free.
pub fn next_reservation(manager: &Manager) -> Option<Reservation>
    ensures some { IfSome result (λ found. MayGetSlot found.query found.slot manager.now) }
    ensures none { result ≡ None → (query slot : ℕ) → MayGetSlot query slot manager.now → ⊥ }
{
    let query = manager.oldest_waiting()?;
    let slot = manager.free_slot()?;
    Some(Reservation { query, slot })
}

/// A query and a dimension whose filter may be built for it, or `None`.
pub fn next_build(manager: &Manager) -> Option<ToBuild>
    ensures some { IfSome result (λ found. CanBuild found.query found.dimension manager.now) }
    ensures none { result ≡ None → (query dimension : ℕ) → CanBuild query dimension manager.now →
        ⊥ }
{
    for slot in 0..manager.used() {
        if let Some(found) = build_at(manager, slot) {
            return Some(found);
        }
    }
    None
}

/// A query for which every filter is built, so that it may begin to run, or `None`.
pub fn next_start(manager: &Manager) -> Option<u64>
    ensures some { IfSome result (λ query. CanRun query manager.now) }
    ensures none { result ≡ None → (query : ℕ) → CanRun query manager.now → ⊥ }
{
    for slot in 0..manager.used() {
        if let Some(found) = start_at(manager, slot) {
            return Some(found);
        }
    }
    None
}

/// A slot and a dimension whose filter may be cleared of it, or `None`.
pub fn next_clear(manager: &Manager) -> Option<ToClear>
    ensures some { IfSome result (λ found. CanClear found.slot found.dimension manager.now) }
    ensures none { result ≡ None → (slot dimension : ℕ) → CanClear slot dimension manager.now → ⊥ }
{
    for slot in 0..manager.used() {
        if let Some(found) = clear_at(manager, slot) {
            return Some(found);
        }
    }
    None
}

/// A slot of which everything is cleared, or `None`.
pub fn next_release(manager: &Manager) -> Option<u32>
    ensures some { IfSome result (λ slot. CanFree slot manager.now) }
    ensures none { result ≡ None → (slot : ℕ) → CanFree slot manager.now → ⊥ }
{
    for slot in 0..manager.used() {
        if may_release(manager, slot) {
            return Some(slot);
        }
    }
    None
}

/// The query that holds a slot, and a dimension whose filter may be built for it.
fn build_at(manager: &Manager, slot: u32) -> Option<ToBuild>
    requires { slot < length manager.now.slots }
    ensures some { IfSome result (λ found. CanBuild found.query found.dimension manager.now) }
    ensures none { result ≡ None → (query dimension : ℕ) → slot_of manager.now query ≡ Some slot →
        CanBuild query dimension manager.now → ⊥ }
{
    let holder = holder_at(manager, slot)?;
    let dimension = least_outside(manager.filters(), holder.built)?;
    // Asked last, since a life is searched for: every filter is built for most queries.
    if !is_building(manager, holder.query) {
        return None;
    }
    Some(ToBuild {
        query: holder.query,
        dimension,
    })
}

/// The query that holds a slot, if it may begin to run.
fn start_at(manager: &Manager, slot: u32) -> Option<u64>
    requires { slot < length manager.now.slots }
    ensures some { IfSome result (λ query. CanRun query manager.now) }
    ensures none { result ≡ None → (query : ℕ) → slot_of manager.now query ≡ Some slot →
        CanRun query manager.now → ⊥ }
{
    let holder = holder_at(manager, slot)?;
    if !is_within(manager.filters(), holder.built) {
        return None;
    }
    if !is_building(manager, holder.query) {
        return None;
    }
    Some(holder.query)
}

/// The query that holds a slot, if one does.
fn holder_at(manager: &Manager, slot: u32) -> Option<Holder>
    requires { slot < length manager.now.slots }
    ensures some { IfSome result (λ holder. built_of manager.now holder.query ≡ holder.built) }
    ensures only { (query : ℕ) → slot_of manager.now query ≡ Some slot →
        IsSomeAnd result (λ holder. holder.query ≡ query) }
{
    holders_are_found();
    match manager.slot(slot) {
        SlotState::Held { query, built } => Some(Holder { query, built }),
        SlotState::Free | SlotState::Clearing(_) => None,
    }
}

/// A slot, and the least dimension that is still to be cleared of it.
fn clear_at(manager: &Manager, slot: u32) -> Option<ToClear>
    requires { slot < length manager.now.slots }
    ensures some { IfSome result (λ found. CanClear found.slot found.dimension manager.now) }
    ensures none { result ≡ None → (dimension : ℕ) → CanClear slot dimension manager.now → ⊥ }
{
    match manager.slot(slot) {
        SlotState::Clearing(left) => {
            let dimension = least_of(left)?;
            Some(ToClear { slot, dimension })
        }
        _ => None,
    }
}
