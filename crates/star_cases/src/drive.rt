//! How far a core is driven on by more than one event, and how that is written.
use crate::told::driven;
use crate::unlent::UnlentCore;
use std::thread::Threads;

/// How far a core is driven on.
#[derive(Clone, Copy)]
pub(crate) enum Drive {
    /// All batches pass the filters.
    PassAll,

    /// One turn.
    Turn,

    /// Turn after turn, until every query is answered.
    FinishAll,
}

/// How far a line says that the core is driven on, if it says so.
pub(crate) fn drive_of(line: &str) -> Option<Drive> {
    match line {
        "pass all" => Some(Drive::PassAll),
        "turn" => Some(Drive::Turn),
        "finish all" => Some(Drive::FinishAll),
        _ => None,
    }
}

/// The core is driven on, where no batch is in a hand.
pub(crate) fn drive_on<R: Threads + Sync>(
    rt: &R,
    core: &mut UnlentCore,
    drive: Drive,
) -> &'static str {
    if !core.is_idle() {
        return "in a hand";
    }
    match drive {
        Drive::PassAll => {
            core.pass_all(rt);
            ""
        }
        Drive::Turn => driven(core.turn(rt)),
        Drive::FinishAll => driven(core.finish_all(rt)),
    }
}
