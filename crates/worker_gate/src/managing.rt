//! Which event a worker makes where no batch wants a filter.
ghost use Rattle.std.specs.Prelude.{◌≡◌, All, IfSome, IsSome, IsTrue, None};
ghost use Rattle.core_state.specs.Tables.{tables_of};
ghost use Rattle.event_core.specs.Chosen.{AreManaged, NoneMayCome};
ghost use Rattle.event_core.specs.Seen.{state_of};
ghost use Rattle.worker_gate.specs.Left.{LeavesAllLoans, LeavesRows};
ghost use Rattle.worker_gate.specs.Managed.{IsFirstOf, NoneIsLeft, OrdersIf, TellsManaged, counted_by, counted_home, is_sixteenth, is_sixteenth_home, managed_kinds};

use crate::making::make;
use core_state::{Event, a_step_moves_one_row};
use event_core::{Core, EventKind, every_core_is_sound, what_is_beside_stays_lent};

/// These are asked for in turn: what a batch that is through and a slot whose query is over wait
/// for comes first, and a batch is cut only where nothing else is left.
const MANAGED: [EventKind; 8] = [
    EventKind::Distribute,
    EventKind::Finish,
    EventKind::Clear,
    EventKind::Release,
    EventKind::Reserve,
    EventKind::Build,
    EventKind::Start,
    EventKind::Cut,
];

/// What came of making an event.
#[derive(Clone, Copy, Debug, PartialEq, Eq)]
pub enum Managed {
    /// One of this kind was made.
    Did(EventKind),

    /// None may come.
    Idle,

    /// No memory was left to clear a filter of a slot. Nothing has changed.
    Memory,
}

/// An event that may come, and its kind.
#[derive(Drop)]
pub(crate) struct NextEvent {
    pub(crate) kind: EventKind,
    pub(crate) event: Event,
}

/// Makes one event of the first kind of which one may come: Distribute, Finish, Clear, Release,
/// Reserve, Build, Start, Cut. Behind each sixteenth Distribute the filters are ordered in the same
/// call. Only a Clear may find no memory.
pub fn manage_one(core: &mut Core) -> Managed
    ensures tells { TellsManaged result core.old core.new }
    ensures leaves { LeavesRows (state_of core.old) (state_of core.new) }
    ensures loans { LeavesAllLoans core.old core.new }
{
    match next_managed(core) {
        Some(next) => make_next(core, next),
        None => Managed::Idle,
    }
}

/// The event to make, or `None` where none may come.
pub(crate) fn next_managed(core: &Core) -> Option<NextEvent>
    ensures first { IfSome result (λ next.
        IsFirstOf managed_kinds (state_of core.now) next.kind next.event) }
    ensures none { result ≡ None → NoneIsLeft (state_of core.now) }
{
    next_of(core, &MANAGED)
}

/// An event of the first of these kinds of which one may come.
fn next_of(core: &Core, kinds: &[EventKind]) -> Option<NextEvent>
    requires { AreManaged kinds.now }
    ensures first { IfSome result (λ next.
        IsFirstOf kinds.now (state_of core.now) next.kind next.event) }
    ensures none { result ≡ None → All (λ each. NoneMayCome each (state_of core.now)) kinds.now }
{
    for kind in kinds {
        if let Some(event) = core.next_event(*kind) {
            return Some(NextEvent { kind: *kind, event });
        }
    }
    None
}

/// Makes an event that may come, and counts it.
pub(crate) fn make_next(core: &mut Core, next: NextEvent) -> Managed
    requires { IsFirstOf managed_kinds (state_of core.old) next.kind next.event }
    ensures tells { TellsManaged result core.old core.new }
    ensures leaves { LeavesRows (state_of core.old) (state_of core.new) }
    ensures loans { LeavesAllLoans core.old core.new }
{
    // All three are called for what they ensure.
    every_core_is_sound(core);
    a_step_moves_one_row();
    what_is_beside_stays_lent();
    let NextEvent { kind, event } = next;
    match core.step(event) {
        Ok(()) => {
            count(core, kind);
            Managed::Did(kind)
        }
        Err(_) => Managed::Memory,
    }
}

/// Counts an event of a kind that was made, and orders the filters if it is time.
fn count(core: &mut Core, kind: EventKind)
    requires { kind ≡ EventKind.Distribute → IsSome (tables_of (state_of core.old)).schema.fact }
    ensures counted { core.new.marks ≡ counted_by kind core.old.marks }
    ensures orders { OrdersIf (is_sixteenth kind core.old.marks)
        (state_of core.old) (state_of core.new) }
    ensures loans { LeavesAllLoans core.old core.new }
{
    match kind {
        EventKind::Distribute => count_distribute(core),
        _ => {}
    }
}

/// Counts the Distribute of a batch that came home, where it was folded outside, and orders the
/// filters if it is time.
pub(crate) fn count_home(core: &mut Core, is_folded: bool)
    requires { IsTrue is_folded → IsSome (tables_of (state_of core.old)).schema.fact }
    ensures counted { core.new.marks ≡ counted_home is_folded core.old.marks }
    ensures orders { OrdersIf (is_sixteenth_home is_folded core.old.marks)
        (state_of core.old) (state_of core.new) }
    ensures loans { LeavesAllLoans core.old core.new }
{
    if is_folded {
        count_distribute(core);
    }
}

/// Counts a Distribute, and orders the filters if it is the sixteenth.
fn count_distribute(core: &mut Core)
    requires { IsSome (tables_of (state_of core.old)).schema.fact }
    ensures counted { core.new.marks ≡ counted_by EventKind.Distribute core.old.marks }
    ensures orders { OrdersIf (is_sixteenth EventKind.Distribute core.old.marks)
        (state_of core.old) (state_of core.new) }
    ensures loans { LeavesAllLoans core.old core.new }
{
    if core.count_up() != 0 {
        return;
    }
    make(core, Event::Reorder);
}
