//! What goes out with seats of a shared distributor, and comes home.
ghost use Rattle.std.specs.Prelude.{◌≡◌, ◌↔◌, ℕ, ◌+◌, ◌^◌, ◌<◌, ◌≤◌, List, All, IfOk, IfSome, IsSome, IsSomeAnd, IsTrue, None, Some, length, map, replicate, slice_get, slice_index, slice_index_or, slice_set};
ghost use Rattle.bit_words.specs.Sets.{Has};
ghost use Rattle.star_values.specs.Roomy.{Roomy};
ghost use Rattle.fact_versions.specs.declared.version.Version.{Version};
ghost use Rattle.dimension_rows.specs.declared.dimension_row.DimensionRow.{DimensionRow};
ghost use Rattle.shared_distributor.specs.declared.seats.SeatGroups.TheVariants.{NotYet};
ghost use Rattle.distributor.specs.Folded.{after_batch};
ghost use Rattle.shared_distributor.specs.Seats.{AreShared, AreSharedWith, lending_in, seen_of};
ghost use Rattle.shared_distributor.specs.Shared.{AreBitsWithin, AreFolded, Lending};

use crate::going::lend_to_seat;
use crate::landing::land_at_seat;
use crate::laws::rows_fold_apart;
use crate::seats::SeatGroups;
use batch_flow::{Batch, SlotBits};
use distributor::{Distributor, Spoils};
use star_values::{ListOf, NoMemory};
use std::alloc::Global;
use std::hash::RandomState;

/// So many seats, which have nothing yet.
pub(crate) fn new_seats(alloc: Global, count: u32) -> Result<ListOf<SeatGroups>, NoMemory>
    ensures { IfOk result (λ seats. seats ≡ replicate count NotYet) }
{
    let mut seats = ListOf::new(alloc);
    for seat in 0..count {
        seats.push(SeatGroups::NotYet)?;
    }
    Ok(seats)
}

/// Whether a seat has nothing with it.
fn is_home(seat: &SeatGroups) -> bool
    ensures { IsTrue result ↔ (lending_in seat.now ≡ None) }
{
    match seat {
        SeatGroups::NotYet | SeatGroups::AtHome(_) => true,
        SeatGroups::Away(_) => false,
    }
}

/// Whether no seat has something with it.
pub(crate) fn are_all_home(seats: &[SeatGroups]) -> bool
    ensures { IsTrue result ↔ All (λ lending. lending ≡ None) (map lending_in seats.now) }
{
    for k in 0..seats.len() {
        if !is_home(&seats[k]) {
            return false;
        }
    }
    true
}

/// Lends a seat groups of its own, for some slots.
pub(crate) fn lend_to(
    alloc: Global,
    hash_keys: RandomState,
    home: &mut Distributor,
    seats: &mut [SeatGroups],
    seat: u32,
    slots: SlotBits,
) -> Option<Distributor>
    requires shared { AreShared home.old seats.old }
    requires home { slice_get (map lending_in seats.old) seat ≡ Some None }
    ensures seen { (seen_of seats.new home.new ≡ seen_of seats.old home.old)
        × AreShared home.new seats.new }
    ensures out { IfSome result (λ own. map lending_in seats.new
        ≡ slice_set (map lending_in seats.old) seat
        (Some (record { slots = slots; groups = own }))) }
    ensures none { result ≡ None → map lending_in seats.new ≡ map lending_in seats.old }
    ensures few { IfSome result (λ own. (slot : ℕ) → IfSome (slice_index_or own slot None)
        (λ groups. IsSomeAnd (slice_index_or (seen_of seats.old home.old) slot None)
        (λ seen. groups.rows ≤ seen.rows))) }
{
    rows_fold_apart();
    lend_to_seat(alloc, hash_keys, home, &mut seats[seat as usize], slots)
}

/// Takes home what a seat had with it, with the rows of a batch more.
pub(crate) fn land_at(
    home: &mut Distributor,
    seats: &mut [SeatGroups],
    seat: u32,
    own: Distributor,
    lost: SlotBits,
    batch: &Batch,
) -> Spoils
    requires shared { AreShared home.old seats.old }
    requires folded { IsSomeAnd (slice_index_or (map lending_in seats.old) seat None)
        (λ lending. AreBitsWithin batch.now lending.slots
        × ((dims : List (Roomy DimensionRow)) × (versions : List Version)
        × AreFolded dims batch.now versions lost own lending)) }
    requires room { All (λ attached. IfSome attached
        (λ groups. groups.rows + batch.now.count ≤ 2 ^ 32)) (seen_of seats.old home.old) }
    ensures seen { (dims : List (Roomy DimensionRow)) (versions : List Version)
        (lending : Lending) →
        slice_index_or (map lending_in seats.old) seat None ≡ Some lending →
        AreFolded dims batch.now versions lost own lending → seen_of seats.new home.new
        ≡ after_batch dims batch.now versions result.slots (seen_of seats.old home.old) }
    ensures spoiled { (slot : ℕ) → Has result.slots slot
        → (IsSome (slice_index_or (seen_of seats.old home.old) slot None)
        × (slot < length (seen_of seats.old home.old)))
        × ((row : ℕ) × Has (slice_index batch.now.bits row) slot) }
    ensures stays { AreSharedWith (slice_set (map lending_in seats.old) seat None)
        home.new seats.new }
{
    rows_fold_apart();
    Spoils {
        slots: land_at_seat(home, &mut seats[seat as usize], own, &lost),
    }
}
