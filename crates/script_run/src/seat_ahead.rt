//! Large blocks, which a seat reads before it has the turn in which they are loaded.
ghost use Rattle.std.specs.Prelude.{◌≡◌, None};
ghost use Rattle.board_lock.specs.Seats.{view_of};
ghost use Rattle.worker_gate.specs.Turns.{IsReady, sight_in};
ghost use Rattle.script_run.specs.SeatTurns.{SitsStill, StaysReady};

use board_lock::{BoardLock, BoardSeat};
use event_core::{Core, own_steps_keep_a_board};
use script_reader::{Block, Statement};
use star_store::{BlockForm, ReadStatement};
use std::alloc::Global;
use std::sync::Wait;

/// From so many bytes on a block is read ahead. A smaller one is read within the turn in less
/// time than a turn more takes.
const LARGE: usize = 16 * 1024;

/// Reads the block of a statement, if it is large, by the form that its table has now. Where no
/// memory is left for that, or there is no such table, it is read as the statement is carried out.
pub(crate) fn read_ahead<'a, R: Wait>(
    rt: &R,
    board: &BoardLock<Core>,
    seat: &mut BoardSeat<Core>,
    alloc: Global,
    statement: &'a Statement,
) -> ReadStatement<'a>
    requires { IsReady board.now None seat.old }
    ensures seat { StaysReady board.now seat.old seat.new }
    ensures stays { SitsStill (view_of seat.old).number
        (sight_in (view_of seat.old)) (sight_in (view_of seat.new)) }
    ensures statement { result ≡ statement.now }
{
    if has_large_block(statement) {
        let form = form_turn(rt, board, seat, statement);
        read_if(alloc, statement, form)
    } else {
        ReadStatement::unread(statement)
    }
}

/// Whether a statement has a block of many bytes that a dot line ended.
fn has_large_block(statement: &Statement) -> bool {
    match &statement.block {
        Block::Closed(bytes) => bytes.as_bytes().len() >= LARGE,
        Block::Absent | Block::Unclosed(_) => false,
    }
}

/// Asks in a turn of the seat by what form the block of a statement is to be read. Nothing is
/// changed.
fn form_turn<R: Wait>(
    rt: &R,
    board: &BoardLock<Core>,
    seat: &mut BoardSeat<Core>,
    statement: &Statement,
) -> Option<BlockForm>
    requires { IsReady board.now None seat.old }
    ensures seat { StaysReady board.now seat.old seat.new }
    ensures stays { SitsStill (view_of seat.old).number
        (sight_in (view_of seat.old)) (sight_in (view_of seat.new)) }
{
    // It is called for what it ensures.
    own_steps_keep_a_board();
    let core = board.enter(rt, seat);
    let form = form_in(&core, statement);
    board.leave(seat, core);
    form
}

/// By what form the block of a statement is to be read. There is none where no memory is left to
/// tell.
fn form_in(core: &Core, statement: &Statement) -> Option<BlockForm> {
    match core.block_form(statement) {
        Ok(form) => form,
        Err(_) => None,
    }
}

/// A statement whose block is read by a form, if there is one and memory for the rows.
fn read_if(alloc: Global, statement: &Statement, form: Option<BlockForm>) -> ReadStatement<'_>
    ensures { result ≡ statement.now }
{
    match form {
        Some(form) => read_by(alloc, statement, form),
        None => ReadStatement::unread(statement),
    }
}

/// A statement whose block is read by a form, if there is memory for the rows.
fn read_by(alloc: Global, statement: &Statement, form: BlockForm) -> ReadStatement<'_>
    ensures { result ≡ statement.now }
{
    match ReadStatement::read(alloc, statement, form) {
        Ok(read) => read,
        Err(_) => ReadStatement::unread(statement),
    }
}
