//! What runs in the slots of a scan. Which positions that gives is in `scan`.
ghost use Rattle.std.specs.Prelude.{◌≡◌, ◌<◌, ◌≤◌, ◌-◌, ◌++◌, length, map, replicate, slice_set, None, Some, IfOk};
ghost use Rattle.bit_words.specs.declared.slots.TheConstants.{MAX_SLOTS};
ghost use Rattle.continuous_scan.specs.Range.{some_run, cut_slot};
ghost use Rattle.continuous_scan.specs.Stamped.{roster_of};
ghost use Rattle.continuous_scan.specs.Inside.{RunBelow, AreUsed};

use crate::runner::Runner;
use batch_flow::SlotBits;
use star_values::{ListOf, NoMemory};
use std::alloc::Global;
use std::marker::Model;

/// The slots of a scan, and in each the query that runs there, if one does.
///
/// Those in use, up to the last in which a query runs, are walked, and no others.
#[derive(Debug, Drop)]
pub(crate) struct Slots {
    running: ListOf<Option<Runner>>,

    /// How many slots are in use.
    used: usize,
}

impl Model for Slots {
    ghost use Rattle.std.specs.Prelude.{List, Option};
    ghost use Rattle.continuous_scan.specs.Scanning.{Running};
    ghost use Rattle.continuous_scan.specs.Inside.{AreUsed};

    ghost Value = { List (Option Running) };

    ghost use Rattle.star_plan.specs.contracts.star_query.StarQuery as star_query;
    ghost use Rattle.std.specs.Coded.{codes};

    ghost coded = { Prim.hlevel (codes, star_query.the_row.coded) };

    ghost view = { λ slots. slots.running };

    ghost invariant = { λ slots. AreUsed slots.used slots.running };
}

impl Slots {
    /// So many slots in which no query runs.
    pub(crate) fn new(alloc: Global, count: u32) -> Result<Slots, NoMemory>
        ensures { IfOk result (λ slots. slots ≡ replicate count None) }
    {
        let running = empty_slots(alloc, count)?;
        Ok(Slots { running, used: 0 })
    }

    /// Puts a query into a slot.
    pub(crate) fn put(&mut self, slot: u32, query: Runner)
        requires { slot < length self.old }
        ensures { self.new ≡ slice_set self.old slot (Some query) }
    {
        set_slot(&mut self.running, slot as usize, Some(query));
        self.used = self.used.max(slot as usize + 1);
    }

    /// Ends the query in a slot, if one runs there.
    pub(crate) fn clear(&mut self, slot: u32)
        requires { slot < length self.old }
        ensures { self.new ≡ slice_set self.old slot None }
    {
        set_slot(&mut self.running, slot as usize, None);
        self.used = used_below(self.running.as_slice(), self.used);
    }

    /// Whether a query runs in some slot.
    pub(crate) fn some_run(&self) -> bool
        ensures { result ≡ some_run self.now }
    {
        self.used > 0
    }

    /// All slots.
    pub(crate) fn as_slice(&self) -> &[Option<Runner>]
        ensures { result.now ≡ self.now }
    {
        self.running.as_slice()
    }

    /// The slots in which a query runs.
    pub(crate) fn roster(&self) -> SlotBits
        requires { length self.now ≤ MAX_SLOTS }
        ensures { result ≡ roster_of self.now }
    {
        roster_of(self.in_use())
    }

    /// The same slots once more. The queries are shared, and not copied.
    pub(crate) fn copy(&self, alloc: Global) -> Result<Slots, NoMemory>
        ensures { IfOk result (λ slots. slots ≡ self.now) }
    {
        let running = copies(alloc, self.running.as_slice())?;
        Ok(Slots {
            running,
            used: self.used,
        })
    }

    /// The slots in use.
    pub(crate) fn in_use(&self) -> &[Option<Runner>]
        ensures used { AreUsed (length result.now) self.now }
        ensures split { self.now
            ≡ result.now ++ replicate (length self.now - length result.now) None }
    {
        &self.running.as_slice()[..self.used]
    }

    /// Lowers what is left of each query as the positions from `first` to before `end` are cut, and
    /// ends those of which nothing is left.
    pub(crate) fn cut(&mut self, first: u32, end: u32)
        ensures { self.new ≡ map (cut_slot first end) self.old }
    {
        cut_slots(self.running.as_mut_slice(), self.used, first, end);
        self.used = used_below(self.running.as_slice(), self.used);
    }
}

/// So many slots in which no query runs.
fn empty_slots(alloc: Global, slots: u32) -> Result<ListOf<Option<Runner>>, NoMemory>
    ensures { IfOk result (λ running. running ≡ replicate slots None) }
{
    let mut running = ListOf::new(alloc);
    for slot in 0..slots {
        running.push(None)?;
    }
    Ok(running)
}

/// What is in a slot, once more.
fn copy_of(slot: &Option<Runner>) -> Result<Option<Runner>, NoMemory>
    ensures { IfOk result (λ copy. copy ≡ slot.now) }
{
    match slot {
        None => Ok(None),
        Some(query) => Ok(Some(query.another()?)),
    }
}

/// What is in some slots, once more.
fn copies(alloc: Global, running: &[Option<Runner>]) -> Result<ListOf<Option<Runner>>, NoMemory>
    ensures { IfOk result (λ copies. copies ≡ running.now) }
{
    let mut copies = ListOf::new(alloc);
    copies.reserve(running.len())?;
    for slot in 0..running.len() {
        copies.push(copy_of(&running[slot])?)?;
    }
    Ok(copies)
}

/// Puts a query into a slot, or none.
fn set_slot(running: &mut ListOf<Option<Runner>>, slot: usize, query: Option<Runner>)
    requires { slot < length running.old }
    ensures { running.new ≡ slice_set running.old slot query }
{
    running.as_mut_slice()[slot] = query;
}

/// How many slots are in use, where no query runs in one from `end` on.
fn used_below(running: &[Option<Runner>], end: usize) -> usize
    requires { RunBelow end running.now }
    ensures { AreUsed result running.now }
{
    let mut used = end;
    while used > 0 {
        if running[used - 1].is_some() {
            return used;
        }
        used -= 1;
    }
    used
}

/// The slots in which a query runs.
pub(crate) fn roster_of(running: &[Option<Runner>]) -> SlotBits
    requires { length running.now ≤ MAX_SLOTS }
    ensures { result ≡ roster_of running.now }
{
    let mut roster = SlotBits::empty();
    for slot in 0..running.len() {
        roster = roster.with_if(slot as u32, running[slot].is_some());
    }
    roster
}

/// Lowers what is left of the query in a slot, if one runs there, and ends
/// it where nothing is left.
fn cut_slot(slot: &mut Option<Runner>, first: u32, end: u32)
    ensures { slot.new ≡ cut_slot first end slot.old }
{
    let over = match slot {
        None => false,
        Some(query) => query.lower(first, end),
    };
    if over {
        *slot = None;
    }
}

/// Lowers what is left of each query as the positions from `first` to before `end` are cut. None
/// runs in a slot from `used` on.
fn cut_slots(running: &mut [Option<Runner>], used: usize, first: u32, end: u32)
    requires { RunBelow used running.old }
    ensures { running.new ≡ map (cut_slot first end) running.old }
{
    for slot in 0..used {
        cut_slot(&mut running[slot], first, end);
    }
}
