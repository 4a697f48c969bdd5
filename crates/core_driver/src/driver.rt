//! A turn, and turn after turn until every query is answered. Each step takes events of some kinds,
//! as long as one may come.
ghost use Rattle.std.specs.Prelude.{◌≡◌, ◌↔◌, ◌<◌, All, IfSome, IsTrue, OnErr, OnOk, false, true};
ghost use Rattle.core_state.specs.Events.{IsEnabled};
ghost use Rattle.core_state.specs.declared.event.Event.{Event};
ghost use Rattle.event_core.specs.Chosen.{AreIdle, AreManaged};
ghost use Rattle.event_core.specs.CoreParts.{beside_of};
ghost use Rattle.event_core.specs.Seen.{state_of};
ghost use Rattle.event_core.specs.Took.{IsLed, Took};
ghost use Rattle.core_driver.specs.Driven.{Admits, CutsAll, FinishesAll, IsDriven, IsLanded, IsOfLanding, IsOfRound, IsOfSome, IsRound, IsTurn, IsWholeTurn, MayClear, MayGoOn, MayWantOne, NeverWants, NoneOfMayCome, OrdersFilters, StaysIdle};
ghost use Rattle.core_driver.specs.Lap.{SharesLap};
ghost use Rattle.core_driver.specs.Work.{BringsOn, CutsMore, TookSome, work_in};

use core_state::{Event, every_step_keeps_a_core_sound};
use event_core::{Core, EventKind, every_core_is_sound};
use star_values::NoMemory;
use std::thread::Threads;

/// By these a query is admitted: it gets a slot, its filters are built, and it begins to run.
const ADMISSION: [EventKind; 3] = [EventKind::Reserve, EventKind::Build, EventKind::Start];

/// By these a slot is free again: it is taken from its query, each filter is cleared
/// of it, and it is released.
const RETIREMENT: [EventKind; 3] = [EventKind::Finish, EventKind::Clear, EventKind::Release];

/// Without one of these that may come, no query waits, is built for or runs,
/// once nothing is in flight.
const GOING_ON: [EventKind; 4] = [
    EventKind::Reserve,
    EventKind::Build,
    EventKind::Start,
    EventKind::Cut,
];

/// One turn: admits the queries that can be admitted, cuts batches while a frame is free and a
/// query runs, lets them pass the filters and distributes them, answers the queries whose lap
/// is over, frees their slots, and orders the filters. No batch is in a hand, before and after
/// it. Only a filter that is cleared of a slot may find no memory: the core is then as the
/// events before that leave it.
pub fn turn<R: Threads + Sync>(rt: &R, core: &mut Core) -> Result<(), NoMemory>
    requires { AreIdle (state_of core.old) }
    ensures turn { IsTurn (state_of core.old) (state_of core.new) }
    ensures whole { OnOk result (IsWholeTurn (state_of core.old) (state_of core.new)) }
    ensures on { BringsOn (state_of core.old) (state_of core.new) }
    ensures memory { OnErr result (MayClear (state_of core.new)) }
    ensures stays { StaysIdle core.old core.new }
{
    // Both are called for what they ensure.
    every_step_keeps_a_core_sound();
    every_core_is_sound(core);
    admit(core);
    go_round(rt, core)
}

/// Lets every query come to its end: each that waits, is built for, runs or is ending is answered,
/// or found no memory, and every slot is free. Queries that can have slots together share one lap.
/// No batch is in a hand, before and after it. Only a filter that is cleared of a slot may find no
/// memory: the core is then as the events before that leave it.
pub fn finish_all<R: Threads + Sync>(rt: &R, core: &mut Core) -> Result<(), NoMemory>
    requires { AreIdle (state_of core.old) }
    ensures driven { IsLed IsDriven (state_of core.old) (state_of core.new) }
    ensures finishes { OnOk result (FinishesAll (state_of core.old) (state_of core.new)) }
    ensures lap { SharesLap (state_of core.old) (state_of core.new) }
    ensures memory { OnErr result (MayClear (state_of core.new)) }
    ensures stays { StaysIdle core.old core.new }
{
    // Both are called for what they ensure.
    every_step_keeps_a_core_sound();
    every_core_is_sound(core);
    land(rt, core)?;
    'turns: while may_go_on(core) {
        turn(rt, core)?;
    }
    Ok(())
}

/// Admits the queries that can be admitted.
fn admit(core: &mut Core)
    ensures admits { Admits (state_of core.old) (state_of core.new) }
    ensures some { TookSome (state_of core.old) (state_of core.new) }
    ensures stays { StaysIdle core.old core.new }
{
    take_all(core, &ADMISSION);
}

/// The scan goes on by as many batches as there are frames, what is in flight lands, and
/// the filters are ordered.
fn go_round<R: Threads + Sync>(rt: &R, core: &mut Core) -> Result<(), NoMemory>
    requires { AreIdle (state_of core.old) }
    ensures led { IsLed IsOfRound (state_of core.old) (state_of core.new) }
    ensures round { OnOk result (IsRound (state_of core.old) (state_of core.new)) }
    ensures more { CutsMore (state_of core.old) (state_of core.new) }
    ensures memory { OnErr result (MayClear (state_of core.new)) }
    ensures stays { StaysIdle core.old core.new }
{
    // Both are called for what they ensure.
    every_step_keeps_a_core_sound();
    every_core_is_sound(core);
    cut(core);
    land(rt, core)?;
    reorder(core);
    Ok(())
}

/// Cuts batches while a frame is free and a query runs.
fn cut(core: &mut Core)
    ensures all { CutsAll (state_of core.old) (state_of core.new) }
    ensures more { CutsMore (state_of core.old) (state_of core.new) }
    ensures stays { StaysIdle core.old core.new }
{
    // Both are called for what they ensure.
    every_step_keeps_a_core_sound();
    every_core_is_sound(core);
    take_all(core, &[EventKind::Cut]);
}

/// What is in flight passes the filters and is distributed, and slots whose
/// queries are over are freed.
fn land<R: Threads + Sync>(rt: &R, core: &mut Core) -> Result<(), NoMemory>
    requires { AreIdle (state_of core.old) }
    ensures led { IsLed IsOfLanding (state_of core.old) (state_of core.new) }
    ensures landed { OnOk result (IsLanded (state_of core.new)) }
    ensures memory { OnErr result (MayClear (state_of core.new)) }
    ensures stays { StaysIdle core.old core.new }
{
    // Both are called for what they ensure.
    every_step_keeps_a_core_sound();
    every_core_is_sound(core);
    core.pass_all(rt);
    take_all(core, &[EventKind::Distribute]);
    try_take_all(core, &RETIREMENT)
}

/// Orders the filters by their drop rates, where there are any.
fn reorder(core: &mut Core)
    ensures orders { OrdersFilters (state_of core.old) (state_of core.new) }
    ensures stays { StaysIdle core.old core.new }
{
    // Before the fact table is declared there are no filters to order, and nothing has changed.
    let _ = core.step(Event::Reorder);
}

/// Whether a query may be admitted or a batch cut.
fn may_go_on(core: &Core) -> bool
    ensures { IsTrue result ↔ MayGoOn (state_of core.now) }
{
    next_of(core, &GOING_ON).is_some()
}

/// Takes events of these kinds, which are managed and never allocate, as long as one may come.
fn take_all(core: &mut Core, kinds: &[EventKind])
    requires managed { AreManaged kinds.now }
    requires never { All NeverWants kinds.now }
    ensures led { IsLed (IsOfSome kinds.now) (state_of core.old) (state_of core.new) }
    ensures none { NoneOfMayCome kinds.now (state_of core.new) }
    ensures some { TookSome (state_of core.old) (state_of core.new) }
    ensures stays { StaysIdle core.old core.new }
{
    // An event that runs out of memory would end the loop: of these kinds there is none.
    let _ = try_take_all(core, kinds);
}

/// Takes events of these kinds, as long as one of them may come. If one runs out of memory, the
/// events before it were taken.
fn try_take_all(core: &mut Core, kinds: &[EventKind]) -> Result<(), NoMemory>
    requires managed { AreManaged kinds.now }
    ensures led { IsLed (IsOfSome kinds.now) (state_of core.old) (state_of core.new) }
    ensures none { OnOk result (NoneOfMayCome kinds.now (state_of core.new)) }
    ensures some { TookSome (state_of core.old) (state_of core.new) }
    ensures memory { OnErr result (MayWantOne kinds.now (state_of core.new)) }
    ensures stays { StaysIdle core.old core.new }
{
    'events: while take_one(core, kinds)? {}
    Ok(())
}

/// Takes an event of one of these kinds, and returns whether one could come. If it runs out of
/// memory, it may still come.
fn take_one(core: &mut Core, kinds: &[EventKind]) -> Result<bool, NoMemory>
    requires managed { AreManaged kinds.now }
    ensures taken { result ≡ Ok true →
        (event : Event)
        × (IsOfSome kinds.now event × Took event (state_of core.old) (state_of core.new)) }
    ensures less { result ≡ Ok true → work_in (state_of core.new) < work_in (state_of core.old) }
    ensures none { result ≡ Ok false →
        (core.new ≡ core.old) × NoneOfMayCome kinds.now (state_of core.old) }
    ensures err { OnErr result (core.new ≡ core.old) }
    ensures memory { OnErr result (MayWantOne kinds.now (state_of core.new)) }
    ensures beside { beside_of core.new ≡ beside_of core.old }
{
    // It is called for its clause.
    every_core_is_sound(core);
    let Some(event) = next_of(core, kinds) else {
        return Ok(false);
    };
    match core.step(event) {
        Ok(()) => Ok(true),
        Err(_) => Err(NoMemory),
    }
}

/// An event that may come, of the first of these kinds that has one.
fn next_of(core: &Core, kinds: &[EventKind]) -> Option<Event>
    requires managed { AreManaged kinds.now }
    ensures kind { IfSome result (IsOfSome kinds.now) }
    ensures enabled { IfSome result (IsEnabled (state_of core.now)) }
    ensures none { result ≡ None → NoneOfMayCome kinds.now (state_of core.now) }
{
    for kind in kinds {
        if let Some(event) = core.next_event(*kind) {
            return Some(event);
        }
    }
    None
}
