//! How groups of a seat's own come home, with the rows of a batch more.
ghost use Rattle.std.specs.Prelude.{◌≡◌, ◌+◌, ◌^◌, ℕ, ◌<◌, ◌≤◌, ◌==◌, List, IfSome, None, length, slice_index, is_err};
ghost use Rattle.std.specs.Int.{bit_at};
ghost use Rattle.star_values.specs.declared.value.Value as cell;
ghost use Rattle.star_plan.specs.declared.place.Place.{Place};
ghost use Rattle.bit_words.specs.declared.slots.TheConstants.{MAX_SLOTS};
ghost use Rattle.aggregations.specs.Absorbing.{with_all, without_rows};
ghost use Rattle.shared_distributor.specs.declared.seats.LentGroups.{LentGroups};
ghost use Rattle.shared_distributor.specs.Apart.{HasLanded, HasSettled, LeavesOthers, MayLand, at_slot};
ghost use Rattle.shared_distributor.specs.Seats.{FitsHome, HaveLanded, MayComeHome, lending_in, own_in};

use crate::laws::rows_fold_apart;
use crate::seats::{LentGroups, SeatGroups, put_seat};
use batch_flow::SlotBits;
use distributor::Distributor;
use star_values::NoMemory;
use std::mem;
use std::snapshot::Snapshot;

/// Takes what a seat has at a slot into the groups at home, if it has texts. After an
/// `Err` there are none at home.
fn settle(home: &mut Distributor, own: &mut Distributor, slot: u32) -> Result<(), NoMemory>
    requires slot { slot < length home.old }
    requires long { length own.old ≡ length home.old }
    requires room { IfSome (at_slot slot home.old) (λ groups. IfSome (at_slot slot own.old)
        (λ its. groups.rows + its.rows ≤ 2 ^ 32)) }
    requires rows { IfSome (at_slot slot home.old) (λ groups. IfSome (at_slot slot own.old)
        (λ its. (rows : List (Place → cell.Value)) × (its ≡ with_all rows (without_rows groups)))) }
    ensures settled { HasSettled (is_err result) (at_slot slot home.old) (at_slot slot own.old)
        (at_slot slot home.new) (at_slot slot own.new) }
    ensures others { LeavesOthers slot home.old home.new × LeavesOthers slot own.old own.new }
{
    if !own.has_texts_at(slot) {
        return Ok(());
    }
    let Some(mut groups) = own.detach(slot) else {
        return Ok(());
    };
    let taken = home.absorb_at(slot, &mut groups);
    drop(groups);
    taken
}

/// Makes the groups at home that a seat has at a slot from a number on, and takes those in that may
/// not stay with it. Says whether there was no memory for that.
fn spoils_slot(
    home: &mut Distributor,
    own: &mut Distributor,
    slot: u32,
    is_lost: bool,
    from: usize,
    out: &Snapshot<Distributor>,
) -> bool
    requires slot { slot < length home.old }
    requires long { length own.old ≡ length home.old }
    requires may { MayLand is_lost from (at_slot slot home.old) (at_slot slot out.now.value)
        (at_slot slot own.old) }
    ensures landed { HasLanded is_lost result (at_slot slot home.old) (at_slot slot out.now.value)
        (at_slot slot own.old) (at_slot slot home.new) (at_slot slot own.new) }
    ensures others { LeavesOthers slot home.old home.new × LeavesOthers slot own.old own.new }
{
    rows_fold_apart();
    if !home.has(slot) {
        return false;
    }
    if is_lost {
        drop(home.detach(slot));
        return true;
    }
    let _first = home.count_at(slot);
    if home.add_groups_at(slot, own, from).is_err() {
        return true;
    }
    settle(home, own, slot).is_err()
}

/// Does that with all slots, of which some were lost, and answers those that are spoiled.
fn take_home(
    home: &mut Distributor,
    own: &mut Distributor,
    lost: &SlotBits,
    lent: &LentGroups,
) -> SlotBits
    requires long { length own.old ≡ length home.old }
    requires few { length home.old ≤ MAX_SLOTS }
    requires may { (slot : ℕ) → slot < length home.old →
        MayLand (bit_at lost.now slot == 1) (slice_index lent.now.counts slot)
        (at_slot slot home.old) (at_slot slot lent.now.groups.value) (at_slot slot own.old) }
    ensures landed { HaveLanded lost.now result
        home.old lent.now.groups.value own.old home.new own.new }
    ensures long { (length home.new ≡ length home.old) × (length own.new ≡ length own.old) }
{
    let mut spoiled = SlotBits::empty();
    for slot in 0..home.slots() {
        let from = lent.counts[slot as usize];
        let spoils = spoils_slot(home, own, slot, lost.has(slot), from, &lent.groups);
        spoiled = spoiled.with_if(slot, spoils);
    }
    spoiled
}

/// Takes home what a seat had with it. Some slots of it were lost.
pub(crate) fn land_at_seat(
    home: &mut Distributor,
    seat: &mut SeatGroups,
    own: Distributor,
    lost: &SlotBits,
) -> SlotBits
    requires few { length home.old ≤ MAX_SLOTS }
    requires may { MayComeHome lost.now own home.old seat.old }
    ensures landed { HaveLanded lost.now result
        home.old (own_in seat.old) own home.new (own_in seat.new) }
    ensures seat { FitsHome home.old home.new seat.new }
    ensures home { lending_in seat.new ≡ None }
{
    let SeatGroups::Away(lent) = mem::replace(seat, SeatGroups::NotYet) else {
        return SlotBits::empty();
    };
    let mut own = own;
    let spoiled = take_home(home, &mut own, lost, &lent);
    put_seat(seat, SeatGroups::AtHome(own));
    spoiled
}
