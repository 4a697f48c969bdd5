//! How a query gets a slot, begins its lap, and leaves its slot.
ghost use Rattle.std.specs.Prelude.{◌≡◌, ◌≢◌, ◌↔◌, ◌<◌, List, length, map, slice_set, AllPairs, Some, None, IfSome, IsTrue};
ghost use Rattle.std.specs.Arc.{arc_value};
ghost use Rattle.std.specs.Option.{option_map_or};
ghost use Rattle.pipeline_manager.specs.Conditions.{CanAbandon, CanFree, CanRun};
ghost use Rattle.pipeline_manager.specs.declared.life.Life.TheVariants.{Ending};
ghost use Rattle.continuous_scan.specs.Calls.{CanStart};
ghost use Rattle.continuous_scan.specs.Range as scanned;
ghost use Rattle.continuous_scan.specs.Range.{after_stop, first_of};
ghost use Rattle.core_state.specs.Admitting.{after_finish, after_release, after_reserving, after_start};
ghost use Rattle.core_state.specs.Events.{MayFinish, MayReserve};
ghost use Rattle.core_state.specs.Submitting.{after_abandoning, without_pending};
ghost use Rattle.core_parts.specs.Asked.{AreAskedRising, IsNotAmong, with_kept_at};
ghost use Rattle.event_core.specs.Changes.{statements_at};
ghost use Rattle.core_parts.specs.Known.{Known};
ghost use Rattle.core_parts.specs.Seats.{seat_as};
ghost use Rattle.event_core.specs.CoreParts.{beside_of};
ghost use Rattle.event_core.specs.Seen.{state_of};

use crate::laws_of_slots::{
    abandoned_queries_follow_the_core, finishes_follow_the_core, slots_follow_the_core,
    starts_follow_the_core,
};
use crate::machine::Core;
use aggregations::Groups;
use continuous_scan::Scan;
use core_parts::{Queries, Seat};
use pipeline_manager::{Life, SlotState};
use shared_distributor::SharedDistributor;
use star_plan::StarQuery;
use star_values::ListOf;
use std::alloc::Global;
use std::sync::Arc;

impl Core {
    /// The query that waits the longest, which has this number, gets a free slot.
    pub(crate) fn reserve(&mut self, query: u64, slot: u32)
        requires { MayReserve query slot (state_of self.old) }
        ensures after { state_of self.new ≡ after_reserving slot (state_of self.old) }
        ensures beside { beside_of self.new ≡ beside_of self.old }
    {
        slots_follow_the_core();
        let _ = query;
        self.manager.reserve(slot);
    }

    /// A query for which every filter is built begins its lap. Its bound form
    /// is handed on to the scan.
    pub(crate) fn start(&mut self, query: u64)
        requires { CanRun query (state_of self.old).lives }
        ensures after { state_of self.new ≡ after_start query (state_of self.old) }
        ensures beside { beside_of self.new ≡ beside_of self.old }
    {
        starts_follow_the_core();
        let slot = self.manager.slot_of(query).unwrap();
        let extent = self.manager.extent(query);
        let length = self.tables.store().facts().len();
        let snapshot = self.asked.asked_of(query).snapshot();
        let bound = self.asked.hand_on(query);
        let start = first_position(&self.scan, length);
        start_scan(&mut self.scan, slot, bound, snapshot, extent, length);
        let groups = self.asked.take_kept(query).unwrap();
        self.distributor.attach(slot, groups);
        self.manager.run(query, start);
    }

    /// A slot is taken from its query, which no batch in flight has on its roster. The groups of
    /// one that is answered are kept.
    pub(crate) fn finish(&mut self, slot: u32)
        requires { MayFinish slot (state_of self.old) }
        ensures after { state_of self.new ≡ after_finish slot (state_of self.old) }
        ensures beside { beside_of self.new ≡ beside_of self.old }
    {
        finishes_follow_the_core();
        if let SlotState::Held { query, .. } = self.manager.slot(slot) {
            let life = self.manager.life(query);
            let groups = self.distributor.detach(slot);
            keep_ending(&mut self.asked, query, life, groups);
            self.manager.end(slot);
        }
    }

    /// A slot of which no filter has a bit is free again.
    pub(crate) fn release(&mut self, slot: u32)
        requires { CanFree slot (state_of self.old).lives }
        ensures after { state_of self.new ≡ after_release slot (state_of self.old) }
        ensures beside { beside_of self.new ≡ beside_of self.old }
    {
        slots_follow_the_core();
        self.manager.free(slot);
    }

    /// Nobody wants the answer of a query any more. It keeps its slot until that is finished.
    pub(crate) fn abandon(&mut self, query: u64)
        requires { CanAbandon query (state_of self.old).lives }
        ensures after { state_of self.new ≡ after_abandoning query (state_of self.old) }
        ensures beside { beside_of self.new ≡ beside_of self.old }
    {
        abandoned_queries_follow_the_core();
        let seat = self.asked.asked_of(query).seat();
        let slot = self.manager.slot_of(query);
        give_up(&mut self.seats, seat, query);
        self.asked.give_up(query);
        drop_at(&mut self.distributor, slot);
        stop_at(&mut self.scan, slot);
        self.manager.abandon(query);
        self.asked.settle(&self.manager);
    }
}

/// Where the lap of a query begins that starts now.
fn first_position(scan: &Scan, length: u32) -> u32
    ensures { result ≡ first_of scan.now.position length }
{
    if scan.position() == length {
        0
    } else {
        scan.position()
    }
}

/// The scan has a query in a slot from now on, where a position is to come for it.
fn start_scan(
    scan: &mut Scan,
    slot: u32,
    query: Arc<StarQuery, Global>,
    snapshot: u64,
    extent: u32,
    length: u32,
)
    requires { extent ≢ 0 → CanStart slot extent length scan.old }
    ensures none { extent ≡ 0 → scan.new ≡ scan.old }
    ensures some { extent ≢ 0 →
        scan.new ≡ scanned.after_start slot (arc_value query) snapshot extent length scan.old }
{
    if extent > 0 {
        scan.start(slot, query, snapshot, extent, length);
    }
}

/// Keeps these groups beside a query with this life, if it is to be answered.
fn keep_ending(asked: &mut Queries, query: u64, life: Option<Life>, groups: Option<Groups>)
    requires rising { AreAskedRising asked.old.items }
    requires stands { life ≡ Some Ending → IsNotAmong asked.old.gone query }
    ensures ending { life ≡ Some Ending →
        asked.new ≡ record asked.old { items = with_kept_at query groups asked.old.items } }
    ensures others { life ≢ Some Ending → asked.new ≡ asked.old }
    ensures gone { asked.new.gone ≡ asked.old.gone }
    ensures handed { asked.new.handed ≡ asked.old.handed }
{
    if is_ending(life) {
        asked.keep(query, groups);
    }
}

/// Whether a query with this life is to be answered.
fn is_ending(life: Option<Life>) -> bool
    ensures { IsTrue result ↔ (life ≡ Some Ending) }
{
    matches!(life, Some(Life::Ending))
}

/// The seat of this number does not wait for a query any more.
fn give_up(seats: &mut ListOf<Seat>, seat: u32, query: u64)
    requires there { seat < length seats.old }
    requires rising { AllPairs (λ statement later. statement < later)
        (map (λ submitted. submitted.number)
        (statements_at (map (λ seat. seat.items) seats.old) seat)) }
    ensures seat { (known : List Known) →
        seat_as known (statements_at (map (λ seat. seat.items) seats.new) seat)
        ≡ without_pending query
        (seat_as known (statements_at (map (λ seat. seat.items) seats.old) seat)) }
    ensures others { map (λ seat. seat.items) seats.new
        ≡ slice_set (map (λ seat. seat.items) seats.old) seat
        (statements_at (map (λ seat. seat.items) seats.new) seat) }
{
    seats.as_mut_slice()[seat as usize].abandon(query);
}

/// Nothing is attached at this slot any more, if there is one.
fn drop_at(distributor: &mut SharedDistributor, slot: Option<u32>)
    requires { IfSome slot (λ slot. slot < length distributor.old.attached) }
    ensures attached { distributor.new.attached ≡
        option_map_or (λ slot. slice_set distributor.old.attached slot None)
        slot distributor.old.attached }
    ensures out { distributor.new.out ≡ distributor.old.out }
{
    if let Some(slot) = slot {
        distributor.drop_at(slot);
    }
}

/// Nothing runs in this slot any more, if there is one.
fn stop_at(scan: &mut Scan, slot: Option<u32>)
    requires { IfSome slot (λ slot. slot < length scan.old.running) }
    ensures { scan.new ≡ option_map_or (λ slot. after_stop slot scan.old) slot scan.old }
{
    if let Some(slot) = slot {
        scan.stop(slot);
    }
}
