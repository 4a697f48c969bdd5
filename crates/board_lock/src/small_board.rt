//! A small board: the last statement of each of three seats, and a list of all. Tests and edits
//! show on it what the lock promises.
ghost use Rattle.std.specs.Prelude.{◌≡◌, ◌≢◌, ℕ, ◌<◌, ◌++◌, ◌∷◌, [], IfOk, IfErr, slice_set};
ghost use mathlib.Core.List.{IsPrefix};
ghost use Rattle.board_lock.specs.Views.{row_in, list_in};
ghost use Rattle.board_lock.specs.Seats.{view_of, IsOutside, IsOf};
ghost use Rattle.board_lock.specs.Small.{small_row, small_entries, ComesOutAgain, SubmitsBehind};

use crate::board::Board;
use crate::seat::{BoardLock, BoardSeat};
use star_values::NoMemory;
use std::alloc::Global;
use std::sync::Wait;

/// What three seats did: the last statement of each, where 0 is none, and all
/// statements in their order.
#[derive(Debug, Drop)]
pub struct SmallBoard {
    pub name: u32,
    pub last: [u32; 3],
    pub entries: Vec<u32>,
}

impl Board for SmallBoard {
    ghost use Rattle.std.specs.Prelude.{ℕ};
    ghost use Rattle.board_lock.specs.Small.{small_row, small_entries};

    ghost Row = { ℕ };

    ghost Entry = { ℕ };

    ghost Fixed = { ℕ };

    ghost row = { small_row };

    ghost empty = { 0 };

    ghost commits = { small_entries };

    ghost fixed = { λ board. board.name };
}

impl SmallBoard {
    pub fn new(alloc: Global, name: u32) -> SmallBoard
        ensures { (result.name ≡ name) × (result.last ≡ 0 ∷ 0 ∷ 0 ∷ [])
            × (result.entries.items ≡ []) }
    {
        SmallBoard {
            name,
            last: [0; 3],
            entries: Vec::new(alloc),
        }
    }

    /// Adds a statement to a seat's row and to the list. Without memory nothing has changed.
    pub fn submit(&mut self, seat: u32, statement: u32) -> Result<(), NoMemory>
        requires { seat < 3 }
        ensures name { self.new.name ≡ self.old.name }
        ensures others { (k : ℕ) → k ≢ seat → small_row self.new k ≡ small_row self.old k }
        ensures goes_on { IsPrefix (small_entries self.old) (small_entries self.new) }
        ensures submitted { IfOk result (λ done.
            (self.new.last ≡ slice_set self.old.last seat statement)
            × (self.new.entries.items ≡ self.old.entries.items ++ statement ∷ [])) }
        ensures refused { IfErr result (λ fault. (self.new.last ≡ self.old.last)
            × (self.new.entries.items ≡ self.old.entries.items)) }
    {
        self.entries.push(statement)?;
        self.last[seat as usize] = statement;
        Ok(())
    }
}

/// Enters, submits a statement, and leaves. It answers the seat's statement before.
pub fn submit_once<R: Wait>(
    rt: &R,
    lock: &BoardLock<SmallBoard>,
    seat: &mut BoardSeat<SmallBoard>,
    statement: u32,
) -> Result<u32, NoMemory>
    requires own { IsOf lock.now seat.old }
    requires outside { IsOutside seat.old }
    requires three { seat.old.number < 3 }
    ensures again { ComesOutAgain seat.old seat.new }
    ensures submitted { IfOk result (λ before.
        SubmitsBehind seat.old seat.new before statement) }
    ensures seen { IsPrefix (list_in small_entries (view_of seat.old).seen)
        (list_in small_entries (view_of seat.new).seen) }
{
    let mut board = lock.enter(rt, seat);
    let before = board.last[seat.number as usize];
    let done = board.submit(seat.number, statement);
    lock.leave(seat, board);
    done?;
    Ok(before)
}

/// Joins the second seat, and ends the lock.
pub fn end_both(
    lock: BoardLock<SmallBoard>,
    mut first: BoardSeat<SmallBoard>,
    second: BoardSeat<SmallBoard>,
) -> SmallBoard
    requires own { IsOf lock first × IsOf lock second }
    requires outside { IsOutside first × IsOutside second }
    requires two { ((view_of first).number ≡ 0) × ((view_of first).made ≡ 2)
        × ((view_of first).joined ≡ []) }
    ensures first { small_row result 0 ≡ row_in small_row 0 (view_of first).last 0 }
    ensures second { small_row result second.number
        ≡ row_in small_row 0 (view_of second).last second.number }
    ensures entries { IsPrefix (list_in small_entries (view_of first).seen) (small_entries result)
        × IsPrefix (list_in small_entries (view_of second).seen) (small_entries result) }
{
    lock.join(&mut first, second);
    lock.close(first)
}
