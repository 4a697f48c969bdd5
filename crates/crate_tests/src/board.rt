//! Seats that take turns over one board: what each finds, and that no entry is lost
//! where two threads submit.
ghost use Rattle.std.specs.Prelude.{◌<◌};
ghost use Rattle.board_lock.specs.Seats.{view_of, IsOutside, IsSameSeat, IsOf};
ghost use Rattle.board_lock.specs.Small.{IsSameTeam};

use board_lock::{BoardLock, BoardSeat, SmallBoard, end_both, submit_once};
use std::sync::Wait;
use std::thread::join_mut;

/// Submits the statements from 1 on, and says whether there was memory for all.
fn submit_all<R: Wait>(
    rt: &R,
    lock: &BoardLock<SmallBoard>,
    seat: &mut BoardSeat<SmallBoard>,
    count: u32,
) -> bool
    requires own { IsOf lock.now seat.old }
    requires outside { IsOutside seat.old }
    requires three { (view_of seat.old).number < 3 }
    ensures same { IsSameSeat seat.old seat.new × IsOutside seat.new }
    ensures team { IsSameTeam (view_of seat.old) (view_of seat.new) }
{
    let mut all = true;
    for statement in 1..=count {
        all &= submit_once(rt, lock, seat, statement).is_ok();
    }
    all
}

#[test]
fn a_seat_finds_its_row_and_all_entries(rt: HostRuntime) {
    let Ok((lock, mut first)) = BoardLock::new(rt.alloc(), SmallBoard::new(rt.alloc(), 7), 3) else {
        panic!(rt; "there is memory for a board")
    };
    assert!(rt; submit_once(&rt, &lock, &mut first, 1).is_ok());
    let mut second = lock.split(&mut first);
    let mut board = lock.enter(&rt, &mut second);
    assert!(rt; board.last[1] == 0 && board.entries.as_slice() == [1].as_slice());
    assert!(rt; board.submit(1, 2).is_ok());
    lock.leave(&mut second, board);
    let board = lock.enter(&rt, &mut first);
    assert!(rt; board.last[0] == 1 && board.entries.as_slice() == [1, 2].as_slice());
    lock.leave(&mut first, board);
    let board = end_both(lock, first, second);
    assert!(rt;
        board.name == 7 && board.last[1] == 2 && board.entries.as_slice() == [1, 2].as_slice()
    );
}

#[test]
fn two_threads_lose_no_entry(rt: HostRuntime) {
    let Ok((lock, mut first)) = BoardLock::new(rt.alloc(), SmallBoard::new(rt.alloc(), 7), 3) else {
        panic!(rt; "there is memory for a board")
    };
    let mut second = lock.split(&mut first);
    let (one, two) = join_mut(
        &rt,
        &mut || submit_all(&rt, &lock, &mut first, 1000),
        &mut || submit_all(&rt, &lock, &mut second, 1000),
    );
    let board = end_both(lock, first, second);
    assert!(rt; one && two && board.last == [1000, 1000, 0] && board.entries.len() == 2000);
}

#[test]
fn a_ring_ends_a_rest(rt: HostRuntime) {
    let Ok((lock, _first)) = BoardLock::new(rt.alloc(), SmallBoard::new(rt.alloc(), 7), 1) else {
        panic!(rt; "there is memory for a board")
    };
    let seen = lock.bell(&rt);
    join_mut(&rt, &mut || lock.rest(&rt, seen), &mut || lock.ring(&rt));
    assert!(rt; lock.bell(&rt) != seen);
}

#[test]
fn two_rings_end_two_rests(rt: HostRuntime) {
    let Ok((lock, _first)) = BoardLock::new(rt.alloc(), SmallBoard::new(rt.alloc(), 7), 1) else {
        panic!(rt; "there is memory for a board")
    };
    let (one, other) = (lock.bell(&rt), lock.bell(&rt));
    join_mut(
        &rt,
        &mut || lock.rest(&rt, one),
        &mut || {
            join_mut(
                &rt,
                &mut || lock.rest(&rt, other),
                &mut || {
                    lock.ring(&rt);
                    lock.ring(&rt);
                },
            )
        },
    );
    assert!(rt; lock.bell(&rt) != one);
}

#[test]
fn a_ring_for_all_ends_two_rests(rt: HostRuntime) {
    let Ok((lock, _first)) = BoardLock::new(rt.alloc(), SmallBoard::new(rt.alloc(), 7), 1) else {
        panic!(rt; "there is memory for a board")
    };
    let (one, other) = (lock.bell(&rt), lock.bell(&rt));
    join_mut(
        &rt,
        &mut || lock.rest(&rt, one),
        &mut || {
            join_mut(
                &rt,
                &mut || lock.rest(&rt, other),
                &mut || lock.ring_all(&rt),
            )
        },
    );
    assert!(rt; lock.bell(&rt) != one);
}
