//! The calls of the lock. What each promises holds in every order in which threads make them.
ghost use Rattle.std.specs.Prelude.{◌≡◌, ℕ, true, ◌+◌, ◌<◌, ◌≤◌, ◌∷◌, [], IfOk, IfErr, MatchResult, Some, length};
ghost use Rattle.board_lock.specs.Views.{HasEmptyRow, BeginsWithBoth, first_view, entered, left, new_view};
ghost use Rattle.board_lock.specs.Views.{joined_view, Finds, Keeps, AreUnmadeEmpty};
ghost use Rattle.board_lock.specs.Rule.{TakesTurn, Looks, Compares};
ghost use Rattle.board_lock.specs.declared.seat.TheConstants.{MAX_SEATS};
ghost use Rattle.board_lock.specs.Seats.{view_of, IsOutside, IsInside, IsSameSeat, MakesOneMore, IsOf};

use crate::bell::Bell;
use crate::board::Board;
use crate::seat::{BoardLock, BoardSeat, StateTable};
use crate::view::{Compare, FirstLook, Give, Glue, Parting, Take, View};
use atomic_table::{Refused, Seat, Table};
use star_values::NoMemory;
use std::alloc::{AllocFailed, Global};
use std::hint::spin_loop;
use std::snapshot::Snapshot;
use std::sync::Wait;
use std::sync::atomic::AtomicU64;
use std::sync::atomic::Ordering::SeqCst;

type SeatToken<S> = Seat<Option<S>, View<S>>;

// How many times a thread tries for the turn and spins, before it tries once more and sleeps. Most
// turns end sooner than a thread falls asleep and wakes.
const SPINS: u32 = 64;

// Room for one state, with the state in it.
fn room_for<S>(alloc: Global, state: S) -> Result<Vec<Option<S>>, S>
    ensures { MatchResult result (λ room. room.items ≡ Some state ∷ []) (λ back. back ≡ state) }
{
    let mut room = Vec::new(alloc);
    match room.push(Some(state)) {
        Ok(()) => Ok(room),
        Err(failed) => {
            let AllocFailed { value } = failed;
            room.destroy_empty();
            Err(value.unwrap())
        }
    }
}

// The state that came back from a table that was not made.
fn out_of<S>(mut room: Vec<Option<S>>) -> S
    requires { (state : S) × (room.items ≡ Some state ∷ []) }
    ensures { room.items ≡ Some result ∷ [] }
{
    let state = room.pop().unwrap().unwrap();
    room.destroy_empty();
    state
}

// A table with the state in its slot, and the turn free.
fn table_of<S: Board>(alloc: Global, state: S) -> Result<(StateTable<S>, SeatToken<S>), S>
    requires { (k : ℕ) → S.Board.row state k ≡ S.Board.empty }
    ensures { MatchResult result
        (λ made. (made.0.shared.table_id.words ≡ 1) × (made.0.shared.table_id.slots ≡ 1)
        × (made.1.table_id ≡ made.0.shared.table_id) × (made.1.me ≡ (first_view state, [])))
        (λ back. back ≡ state) }
{
    let opening = Snapshot::of(&state);
    let room = room_for(alloc, state)?;
    match Table::new(alloc, &[0], room, &opening) {
        Ok(made) => Ok(made),
        Err(Refused { slots }) => Err(out_of(slots)),
    }
}

impl<S: Board> BoardLock<S> {
    /// Lends a state to at most `seats` seats, from 1 to `MAX_SEATS`, and gives the first of them.
    /// Where no memory is left the state comes back.
    pub fn new(
        alloc: Global,
        state: S,
        seats: u32,
    ) -> Result<(BoardLock<S>, BoardSeat<S>), (S, NoMemory)>
        requires few { (1 ≤ seats) × (seats ≤ MAX_SEATS) }
        requires empty { AreUnmadeEmpty S.Board.row S.Board.empty 0 state }
        ensures lock { IfOk result (λ made. made.0.seats ≡ seats) }
        ensures seat { IfOk result (λ made. IsOf made.0 made.1 × IsOutside made.1
            × (view_of made.1 ≡ first_view state)) }
        ensures refused { IfErr result (λ refused. refused.0 ≡ state) }
    {
        match table_of(alloc, state) {
            Ok((table, seat)) => {
                let lock = BoardLock {
                    table,
                    sleepers: AtomicU64::new(0),
                    seats,
                    bell: Bell::new(),
                };
                Ok((
                    lock,
                    BoardSeat {
                        seat,
                        number: 0,
                        made: 1,
                    },
                ))
            }
            Err(state) => Err((state, NoMemory)),
        }
    }

    // Learns that the next number has an empty row in what the first seat knows.
    fn look(&self, seat: &mut SeatToken<S>)
        requires own { seat.old.table_id ≡ self.now.table.shared.table_id }
        requires first { (seat.old.me.0.live ≡ true) × (seat.old.me.0.number ≡ 0) }
        ensures same { (seat.new.table_id ≡ seat.old.table_id) × (seat.new.id ≡ seat.old.id) }
        ensures empty { Looks S.Board.row S.Board.empty seat.old.me seat.new.me }
    {
        self.table.shared.load::<FirstLook>(seat, 0);
    }

    /// Makes the next seat, which any thread may have: of `seats` seats,
    /// where there are fewer so far.
    pub fn split(&self, seat: &mut BoardSeat<S>) -> BoardSeat<S>
        requires own { IsOf self.now seat.old }
        requires first { (view_of seat.old).number ≡ 0 }
        requires room { (view_of seat.old).made < self.now.seats }
        ensures seat { MakesOneMore seat.old seat.new }
        ensures new { IsOf self.now result × IsOutside result
            × (view_of result ≡ new_view (view_of seat.old)) }
        ensures empty { HasEmptyRow S.Board.row S.Board.empty (view_of result)
            (view_of result).number }
    {
        self.look(&mut seat.seat);
        let other = self.table.shared.split_seat::<Parting>(&mut seat.seat);
        let number = seat.made;
        seat.made += 1;
        BoardSeat {
            seat: other,
            number,
            made: 0,
        }
    }

    // Takes the turn, and the slot with the state, if it is free. Answers what the turn was: 0
    // where it was free. Else the seat is as it was.
    fn try_turn(&self, seat: &mut BoardSeat<S>) -> u64
        requires own { IsOf self.now seat.old }
        requires outside { IsOutside seat.old }
        ensures same { IsSameSeat seat.old seat.new }
        ensures takes { TakesTurn S.Board.row S.Board.empty S.Board.commits S.Board.fixed
            seat.old.seat.me result seat.new.seat.me }
    {
        let turn = seat.number as u64 + 1;
        self.table
            .shared
            .compare_exchange::<Take>(&mut seat.seat, 0, 0, turn)
    }

    // The same, with some tries. Answers what the turn was at the last of them.
    fn spin(&self, seat: &mut BoardSeat<S>) -> u64
        requires own { IsOf self.now seat.old }
        requires outside { IsOutside seat.old }
        ensures same { IsSameSeat seat.old seat.new }
        ensures takes { TakesTurn S.Board.row S.Board.empty S.Board.commits S.Board.fixed
            seat.old.seat.me result seat.new.seat.me }
    {
        'tries: for _ in 0..SPINS {
            let found = self.try_turn(seat);
            if found == 0 {
                return found;
            }
            spin_loop();
        }
        self.try_turn(seat)
    }

    // Takes the turn, and the slot with the state. A thread counts itself before it sleeps, so that
    // who leaves knows whether there is somebody to wake.
    fn take_turn<R: Wait>(&self, rt: &R, seat: &mut BoardSeat<S>)
        requires own { IsOf self.now seat.old }
        requires outside { IsOutside seat.old }
        ensures same { IsSameSeat seat.old seat.new }
        ensures took { (state : S)
            × (seat.new.seat.me ≡ (entered (view_of seat.old) state, (0, Some state) ∷ []))
            × Finds S.Board.row S.Board.empty S.Board.commits S.Board.fixed
            (view_of seat.old) state }
    {
        for _ in rt.forever() {
            let found = self.spin(seat);
            if found == 0 {
                return;
            }
            self.sleepers.fetch_add(1, SeqCst);
            self.table.shared.park(rt, 0, (found % (1 << 32)) as u32);
            self.sleepers.fetch_sub(1, SeqCst);
        }
        unreachable!()
    }

    /// Waits until the state is free, and takes it.
    pub fn enter<R: Wait>(&self, rt: &R, seat: &mut BoardSeat<S>) -> S
        requires own { IsOf self.now seat.old }
        requires outside { IsOutside seat.old }
        ensures same { IsSameSeat seat.old seat.new }
        ensures inside { IsInside seat.new
            × (view_of seat.new ≡ entered (view_of seat.old) result) }
        ensures finds { Finds S.Board.row S.Board.empty S.Board.commits S.Board.fixed
            (view_of seat.old) result }
    {
        self.take_turn(rt, seat);
        let slot = self.table.shared.exchange(&mut seat.seat, 0, None);
        slot.unwrap()
    }

    /// Puts a state back, for the next seat. It changed nothing but the seat's own row and
    /// the list, which goes on.
    pub fn leave(&self, seat: &mut BoardSeat<S>, state: S)
        requires own { IsOf self.now seat.old }
        requires inside { IsInside seat.old }
        requires keeps { Keeps S.Board.row S.Board.empty S.Board.commits S.Board.fixed
            (view_of seat.old) state }
        ensures same { IsSameSeat seat.old seat.new }
        ensures outside { IsOutside seat.new × (view_of seat.new ≡ left (view_of seat.old) state) }
    {
        let gone = self.table.shared.exchange(&mut seat.seat, 0, Some(state));
        let None = gone else { unreachable!() };
        self.table.shared.store::<Give>(&mut seat.seat, 0, 0);
        if self.sleepers.load(SeqCst) > 0 {
            self.table.shared.wake_one(0);
        }
    }

    // Learns which of the two lists is longer, that of the first seat or of the
    // one that it joined last.
    fn compare(&self, seat: &mut SeatToken<S>)
        requires own { seat.old.table_id ≡ self.now.table.shared.table_id }
        requires live { seat.old.me.0.live ≡ true }
        ensures same { (seat.new.table_id ≡ seat.old.table_id) × (seat.new.id ≡ seat.old.id) }
        ensures compared { Compares S.Board.commits seat.old.me seat.new.me }
    {
        self.table.shared.load::<Compare>(seat, 0);
    }

    /// Ends a seat. The first one keeps its row, and has seen the longer of their two lists.
    pub fn join(&self, seat: &mut BoardSeat<S>, other: BoardSeat<S>)
        requires own { IsOf self.now seat.old × IsOf self.now other }
        requires first { (view_of seat.old).number ≡ 0 }
        requires outside { IsOutside seat.old × IsOutside other }
        ensures same { IsSameSeat seat.old seat.new × IsOutside seat.new }
        ensures joined { view_of seat.new
            ≡ joined_view S.Board.commits (view_of seat.old) (view_of other) }
        ensures seen { BeginsWithBoth S.Board.commits (view_of seat.old).seen
            (view_of other).seen (view_of seat.new).seen }
    {
        let BoardSeat {
            seat: other,
            number: _,
            made: _,
        } = other;
        self.table.shared.join_seat::<Glue>(&mut seat.seat, other);
        self.compare(&mut seat.seat);
    }

    /// Ends the lock, and gives the state. Every other seat was joined.
    pub fn close(self, seat: BoardSeat<S>) -> S
        requires own { IsOf self seat }
        requires first { (view_of seat).number ≡ 0 }
        requires outside { IsOutside seat }
        requires alone { length (view_of seat).joined + 1 ≡ (view_of seat).made }
        ensures finds { Finds S.Board.row S.Board.empty S.Board.commits S.Board.fixed
            (view_of seat) result }
        ensures unmade { AreUnmadeEmpty S.Board.row S.Board.empty (view_of seat).made result }
    {
        let BoardLock {
            table,
            sleepers: _,
            seats: _,
            bell: _,
        } = self;
        let BoardSeat {
            seat,
            number: _,
            made: _,
        } = seat;
        let mut closed = table.close_with(seat);
        let slot = closed.take(0);
        closed.free();
        slot.unwrap()
    }

    /// The bell's number, for the `rest` that follows. Read it between an `enter` and its `leave`.
    pub fn bell<R: Wait>(&self, rt: &R) -> u32 {
        self.bell.read(rt)
    }

    /// Whether somebody rests or is about to. Where nobody does between an `enter` and its `leave`,
    /// no ring is needed for what is left to do then: who rests later has looked later.
    pub fn has_resting(&self) -> bool {
        self.bell.has_resting()
    }

    /// Changes the bell's number and wakes one of those who rest, if anybody does or is about to.
    ///
    /// Ring so after a `leave` where something is left to do, which any one who looks finds. The
    /// one that wakes has to look, and to ring for the next where it goes on to something else.
    pub fn ring<R: Wait>(&self, rt: &R) {
        self.bell.ring(rt);
    }

    /// Changes the bell's number and wakes all who rest, if anybody does or is about to.
    ///
    /// Ring so after a `leave` where what some of them wait for may have come, and the others would
    /// not find it.
    pub fn ring_all<R: Wait>(&self, rt: &R) {
        self.bell.ring_all(rt);
    }

    /// Waits while the bell's number is `seen`, once for each time that it was read.
    pub fn rest<R: Wait>(&self, rt: &R, seen: u32) {
        self.bell.rest(rt, seen);
    }
}

impl<S> BoardSeat<S> {
    /// The seat's number. The first seat has 0.
    pub fn number(&self) -> u32
        ensures { result ≡ (view_of self.now).number }
    {
        self.number
    }
}
