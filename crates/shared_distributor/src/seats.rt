//! What seats have of a shared distributor: groups of their own, at home or out with them. How
//! these go out is in `going`, and how they come home in `landing`.
ghost use Rattle.std.specs.Prelude.{◌≡◌, ◌<◌, All, IfSome, None, length, slice_set, map};
ghost use Rattle.bit_words.specs.Sets.{Has};
ghost use Rattle.shared_distributor.specs.Apart.{ComesFrom, IsPair, at_slot};
ghost use Rattle.shared_distributor.specs.Seats.{AreShared, AreSharedWith, IsSeat, IsWithout, lending_in, own_in, owns_at, seen_of};
ghost use Rattle.shared_distributor.specs.Shared.{IsAllIn};

use crate::laws::rows_fold_apart;
use batch_flow::SlotBits;
use bit_words::MAX_SLOTS;
use distributor::Distributor;
use std::snapshot::Snapshot;

/// What a seat has.
#[derive(Drop)]
pub(crate) enum SeatGroups {
    /// Nothing was lent to it yet.
    NotYet,
    /// Its groups are at home.
    AtHome(Distributor),
    /// They are out with it.
    Away(LentGroups),
}

/// What is known at home of groups that are out: for which slots they are, and how many there were
/// at each, all of which are at home too. Contracts go on seeing what went out.
#[derive(Drop)]
pub(crate) struct LentGroups {
    pub(crate) slots: SlotBits,
    pub(crate) counts: [usize; MAX_SLOTS],
    pub(crate) groups: Snapshot<Distributor>,
}

/// Puts what a seat has in place of what it had, which falls.
pub(crate) fn put_seat(seat: &mut SeatGroups, new: SeatGroups)
    ensures { seat.new ≡ new }
{
    *seat = new;
}

/// Takes what a seat has at a slot into the groups at home, if there are some, and else
/// drops it. No memory is taken.
pub(crate) fn take_back(home: &mut Distributor, own: &mut Distributor, slot: u32)
    requires home { slot < length home.old }
    requires own { slot < length own.old }
    requires pair { IsPair (at_slot slot home.old) (at_slot slot own.old) }
    ensures taken { ComesFrom (at_slot slot own.old) slot home.old home.new }
    ensures own { own.new ≡ slice_set own.old slot None }
{
    rows_fold_apart();
    let Some(mut groups) = own.detach(slot) else {
        return;
    };
    let _ = home.absorb_at(slot, &mut groups);
    drop(groups);
}

/// Does that with a seat, unless its groups are out.
fn take_from_seat(home: &mut Distributor, seat: &mut SeatGroups, slot: u32)
    requires slot { slot < length home.old }
    requires seat { IsSeat home.old seat.old }
    requires pair { IsPair (at_slot slot home.old) (at_slot slot (own_in seat.old)) }
    requires inside { IfSome (lending_in seat.old) (λ one. ¬ (Has one.slots slot)) }
    ensures taken { ComesFrom (at_slot slot (own_in seat.old)) slot home.old home.new }
    ensures seat { IsWithout slot seat.old seat.new }
{
    match seat {
        SeatGroups::AtHome(own) => take_back(home, own, slot),
        SeatGroups::NotYet | SeatGroups::Away(_) => {}
    }
}

/// Does that with all seats. No seat that is out has the slot.
pub(crate) fn take_from_seats(home: &mut Distributor, seats: &mut [SeatGroups], slot: u32)
    requires slot { slot < length home.old }
    requires shared { AreShared home.old seats.old }
    requires inside { IsAllIn slot (map lending_in seats.old) }
    ensures seen { seen_of seats.new home.new ≡ seen_of seats.old home.old }
    ensures stays { AreSharedWith (map lending_in seats.old) home.new seats.new }
    ensures none { All (λ own. own ≡ None) (owns_at slot seats.new) }
{
    rows_fold_apart();
    for k in 0..seats.len() {
        take_from_seat(home, &mut seats[k], slot);
    }
}
