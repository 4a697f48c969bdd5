//! How groups of a seat's own go out with it.
ghost use Rattle.std.specs.Prelude.{◌≡◌, ℕ, ◌<◌, ◌≤◌, List, [], Option, IfSome, IsSome, None, Some, OnOk, length, slice_index};
ghost use Rattle.bit_words.specs.Sets.{Has};
ghost use Rattle.bit_words.specs.declared.slots.TheConstants.{MAX_SLOTS};
ghost use Rattle.aggregations.specs.Grouped.{Grouped};
ghost use Rattle.shared_distributor.specs.Apart.{HasMoved, IsPair, IsLentAsWanted, LeavesOthers, at_slot, count_in};
ghost use Rattle.shared_distributor.specs.Seats.{FitsHome, GoesOutWith, HaveMoved, IsSeat, MayGoOut, lending_in, own_in};

use crate::seats::{LentGroups, SeatGroups, put_seat, take_back};
use batch_flow::SlotBits;
use bit_words::MAX_SLOTS;
use distributor::Distributor;
use star_values::NoMemory;
use std::alloc::Global;
use std::hash::RandomState;
use std::mem;
use std::snapshot::Snapshot;

/// Sees to what a seat has at a slot before it goes out: groups where these are wanted and there
/// are some at home, and else nothing. Nothing that is seen changes, also where memory is wanting.
fn prepare_slot(
    alloc: Global,
    hash_keys: RandomState,
    home: &mut Distributor,
    own: &mut Distributor,
    slot: u32,
    wanted: bool,
) -> Result<(), NoMemory>
    requires slot { slot < length home.old }
    requires long { length own.old ≡ length home.old }
    requires pair { IsPair (at_slot slot home.old) (at_slot slot own.old) }
    ensures moved { HasMoved [] (at_slot slot home.old) (at_slot slot own.old)
        (at_slot slot home.new) (at_slot slot own.new) }
    ensures ready { OnOk result
        (IsLentAsWanted wanted (at_slot slot home.new) (at_slot slot own.new)) }
    ensures others { LeavesOthers slot home.old home.new × LeavesOthers slot own.old own.new }
{
    if !wanted || !home.has(slot) {
        take_back(home, own, slot);
        return Ok(());
    }
    if own.has(slot) {
        return Ok(());
    }
    let _first = home.count_at(slot);
    let Some(groups) = home.like_at(slot, alloc, hash_keys)? else {
        return Ok(());
    };
    own.attach(slot, groups);
    Ok(())
}

/// Does that with all slots.
fn prepare(
    alloc: Global,
    hash_keys: RandomState,
    home: &mut Distributor,
    own: &mut Distributor,
    slots: &SlotBits,
) -> Result<(), NoMemory>
    requires long { length own.old ≡ length home.old }
    requires pairs { (slot : ℕ) → IsPair (at_slot slot home.old) (at_slot slot own.old) }
    ensures moved { HaveMoved home.old own.old home.new own.new }
    ensures ready { OnOk result ((slot : ℕ) → (IsSome (at_slot slot own.new)
        → Has slots.now slot × IsSome (at_slot slot home.new))
        × (Has slots.now slot → IsSome (at_slot slot home.new) → IsSome (at_slot slot own.new))) }
    ensures long { (length home.new ≡ length home.old) × (length own.new ≡ length own.old) }
{
    for slot in 0..home.slots() {
        prepare_slot(alloc, hash_keys, home, own, slot, slots.has(slot))?;
    }
    Ok(())
}

/// How many groups there are at each slot.
fn counts_of(own: &Distributor) -> [usize; MAX_SLOTS]
    ensures { (slot : ℕ) → slot < length own.now →
        slice_index result slot ≡ count_in (at_slot slot own.now) }
{
    let mut counts = [0; MAX_SLOTS];
    for slot in 0..own.slots() {
        counts[slot as usize] = own.count_at(slot);
    }
    counts
}

/// The groups of a seat that is not out, or such for which there are none yet.
fn own_of(alloc: Global, slots: u32, seat: SeatGroups) -> Option<Distributor>
    requires some { 1 ≤ slots }
    requires few { slots ≤ MAX_SLOTS }
    requires home { lending_in seat ≡ None }
    ensures own { IfSome result
        (λ own. (slot : ℕ) → at_slot slot own ≡ at_slot slot (own_in seat)) }
    ensures long { IfSome result (λ own. (home : List (Option Grouped)) → length home ≡ slots
        → IsSeat home seat → length own ≡ length home) }
    ensures none { result ≡ None → own_in seat ≡ [] }
{
    match seat {
        SeatGroups::AtHome(own) => Some(own),
        SeatGroups::NotYet | SeatGroups::Away(_) => Distributor::new(alloc, slots).ok(),
    }
}

/// Lends a seat that has nothing with it groups of its own for some slots. There are none
/// where memory is wanting.
pub(crate) fn lend_to_seat(
    alloc: Global,
    hash_keys: RandomState,
    home: &mut Distributor,
    seat: &mut SeatGroups,
    slots: SlotBits,
) -> Option<Distributor>
    requires some { 1 ≤ length home.old }
    requires may { MayGoOut home.old seat.old }
    ensures moved { HaveMoved home.old (own_in seat.old) home.new (own_in seat.new) }
    ensures seat { FitsHome home.old home.new seat.new }
    ensures out { GoesOutWith slots result home.new seat.new }
{
    let mut own = own_of(alloc, home.slots(), mem::replace(seat, SeatGroups::NotYet))?;
    if prepare(alloc, hash_keys, home, &mut own, &slots).is_err() {
        put_seat(seat, SeatGroups::AtHome(own));
        return None;
    }
    let lent = LentGroups {
        slots,
        counts: counts_of(&own),
        groups: Snapshot::of(&own),
    };
    put_seat(seat, SeatGroups::Away(lent));
    Some(own)
}
