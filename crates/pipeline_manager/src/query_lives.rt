//! The lives of all queries, of which those in front are let go once they are over. What is read
//! and written of the others is in `queries`.
ghost use Rattle.std.specs.Prelude.{◌≡◌, ℕ, ◌<◌, ◌≤◌, ◌↔◌, [], ◌∷◌, ◌++◌, length, map, take, drop, find, option_map, All, Any, IsTrue, OnOk, OnErr, false};
ghost use Rattle.pipeline_manager.specs.declared.life.Life.TheVariants.{Waiting};
ghost use Rattle.pipeline_manager.specs.Lives.{is_waiting, life_in, extent_in};
ghost use Rattle.pipeline_manager.specs.Conditions.{IsRunning, is_open};
ghost use Rattle.pipeline_manager.specs.Changes.{with_life, with_answer, cut_query};
ghost use Rattle.pipeline_manager.specs.Sound.{AreRising, FitsSlots, slots_held};
ghost use Rattle.pipeline_manager.specs.LetGo.{AreClosed, AreLetGo, IsClosed, IsOpenIn};

use crate::life::{Life, QueryLife, SlotState};
use crate::old_lives::OldLives;
use crate::queries;
use star_values::{ListOf, NoMemory};
use std::alloc::Global;
use std::marker::Model;
use std::mem;

/// The queries in the order of their submission, each with its life.
///
/// Those in front whose lives are over are let go, and keep two bits each. No call takes memory but
/// `push`.
#[derive(Debug, Drop)]
pub(crate) struct QueryLives {
    alloc: Global,
    gone: OldLives,
    rest: ListOf<QueryLife>,

    /// How many queries at the front of the rest are known not to wait.
    passed: usize,

    /// How many lives at the front of the rest are known to be over.
    closed: usize,
}

impl Model for QueryLives {
    ghost use Rattle.std.specs.Prelude.{List, ◌++◌};
    ghost use Rattle.pipeline_manager.specs.declared.life.QueryLife.{QueryLife};
    ghost use Rattle.pipeline_manager.specs.LetGo.{AreLetGo};

    ghost Value = { List QueryLife };

    ghost view = { λ lives. lives.gone.queries ++ lives.rest };

    ghost invariant = { λ lives. AreLetGo lives.gone lives.rest lives.passed lives.closed };
}

impl QueryLives {
    /// No queries.
    pub(crate) fn new(alloc: Global) -> QueryLives
        ensures { result ≡ [] }
    {
        QueryLives {
            alloc,
            gone: OldLives::new(alloc),
            rest: ListOf::new(alloc),
            passed: 0,
            closed: 0,
        }
    }

    /// Puts a query behind all others, which waits, and makes room for the
    /// bits that it keeps at last.
    pub(crate) fn push(&mut self, query: u64, extent: u32) -> Result<(), NoMemory>
        ensures ok { OnOk result
            (self.new
            ≡ self.old ++ record { query = query; extent = extent; life = Waiting } ∷ []) }
        ensures err { OnErr result (self.new ≡ self.old) }
    {
        let entry = QueryLife {
            query,
            extent,
            life: Life::Waiting,
        };
        push(&mut self.gone, &mut self.rest, entry)?;
        Ok(())
    }

    /// The number of the query that waits the longest, or `None` where none waits.
    pub(crate) fn oldest_waiting(&self) -> Option<u64>
        ensures { result
            ≡ option_map (λ entry. entry.query) (find (λ entry. is_waiting entry.life) self.now) }
    {
        queries::oldest_waiting(self.rest.as_slice(), self.passed)
    }

    /// The life of a query, or `None` where none has the number.
    pub(crate) fn life(&self, query: u64) -> Option<Life>
        requires { AreRising self.now }
        ensures { result ≡ life_in self.now query }
    {
        queries::life_of(self.rest.as_slice(), query).or(self.gone.life(query))
    }

    /// The extent of a query that may still be answered.
    pub(crate) fn extent(&self, query: u64) -> u32
        requires rising { AreRising self.now }
        requires may { IsOpenIn self.now query }
        ensures { result ≡ extent_in self.now query }
    {
        queries::extent_of(self.rest.as_slice(), query)
    }

    /// Whether some query is Running. Only the holders of slots are looked at.
    pub(crate) fn some_run(&self, slots: &[SlotState]) -> bool
        requires rising { AreRising self.now }
        requires held { (query : ℕ) →
            FitsSlots (life_in self.now query) (slots_held query slots.now) }
        ensures { IsTrue result ↔ Any (λ entry. IsRunning entry.life) self.now }
    {
        queries::some_holder_runs(self.rest.as_slice(), slots)
    }

    /// Gives a query that may still be answered another life, in which it does not wait.
    pub(crate) fn set_life(&mut self, query: u64, life: Life)
        requires rising { AreRising self.old }
        requires may { IsOpenIn self.old query }
        requires passed { is_waiting life ≡ false }
        ensures { self.new ≡ with_life query life self.old }
    {
        queries::set_life(&mut self.rest, query, life);
        settle(
            self.alloc,
            &mut self.gone,
            &mut self.rest,
            &mut self.passed,
            &mut self.closed,
        );
    }

    /// Notes that a query is Answered, if it was Ending.
    pub(crate) fn answer(&mut self, query: u64)
        requires { AreRising self.old }
        ensures { self.new ≡ with_answer query self.old }
    {
        queries::answer(&mut self.rest, query);
        settle(
            self.alloc,
            &mut self.gone,
            &mut self.rest,
            &mut self.passed,
            &mut self.closed,
        );
    }

    /// Notes that the positions from `first` to `last`, both included, were scanned. Only the
    /// holders of slots are looked at.
    pub(crate) fn cut(&mut self, slots: &[SlotState], first: u32, last: u32)
        requires rising { AreRising self.old }
        requires held { (query : ℕ) →
            FitsSlots (life_in self.old query) (slots_held query slots.now) }
        ensures { self.new ≡ map (cut_query first last) self.old }
    {
        queries::cut_holders(&mut self.rest, slots, first, last);
    }
}

/// Puts a query behind the others, and makes room for its life among those that were let go.
fn push(gone: &mut OldLives, rest: &mut ListOf<QueryLife>, entry: QueryLife) -> Result<(), NoMemory>
    ensures gone { gone.new.queries ≡ gone.old.queries }
    ensures more { gone.old.room ≤ gone.new.room }
    ensures room { OnOk result (entry.query < gone.new.room) }
    ensures ok { OnOk result (rest.new ≡ rest.old ++ entry ∷ []) }
    ensures err { OnErr result (rest.new ≡ rest.old) }
{
    gone.grow(entry.query)?;
    rest.push(entry)
}

/// Notes which queries in front do not wait any more, and which lives there are over.
/// Once the latter are as many as those behind them, they are let go. So no more are
/// moved down than are let go.
fn settle(
    alloc: Global,
    gone: &mut OldLives,
    rest: &mut ListOf<QueryLife>,
    passed: &mut usize,
    closed: &mut usize,
)
    requires rising { AreRising (gone.old.queries ++ rest.old) }
    requires kept { AreLetGo gone.old rest.old passed.old closed.old }
    ensures kept { AreLetGo gone.new rest.new passed.new closed.new }
    ensures same { gone.new.queries ++ rest.new ≡ gone.old.queries ++ rest.old }
{
    *passed = queries::first_waiting(rest.as_slice(), *passed);
    *closed = queries::first_open(rest.as_slice(), *closed);
    if *closed >= rest.len() - *closed {
        let_go(alloc, gone, rest, *closed);
        *passed = passed.saturating_sub(*closed);
        *closed = 0;
    }
}

/// Lets the first queries go, so many, whose lives are over.
fn let_go(alloc: Global, gone: &mut OldLives, rest: &mut ListOf<QueryLife>, count: usize)
    requires rising { AreRising (gone.old.queries ++ rest.old) }
    requires closed { AreClosed count rest.old }
    requires room { All (λ entry. entry.query < gone.old.room) rest.old }
    ensures queries { gone.new.queries ≡ gone.old.queries ++ take count rest.old }
    ensures room { gone.new.room ≡ gone.old.room }
    ensures rest { rest.new ≡ drop count rest.old }
{
    let_all_go(gone, queries::in_front(rest.as_slice(), count));
    drop_first(alloc, rest, count);
}

/// Lets all these queries go.
fn let_all_go(gone: &mut OldLives, queries: &[QueryLife])
    requires rising { AreRising (gone.old.queries ++ queries.now) }
    requires over { All IsClosed queries.now }
    requires room { All (λ entry. entry.query < gone.old.room) queries.now }
    ensures queries { gone.new.queries ≡ gone.old.queries ++ queries.now }
    ensures room { gone.new.room ≡ gone.old.room }
{
    for entry in queries {
        gone.let_go(*entry);
    }
}

/// Takes the first members of a list away, so many. Those behind them move down.
fn drop_first(alloc: Global, list: &mut ListOf<QueryLife>, count: usize)
    requires { count ≤ length list.old }
    ensures { list.new ≡ drop count list.old }
{
    let mut members = mem::replace(list, ListOf::new(alloc)).into_vec();
    members.drain(..count);
    *list = ListOf::from(members);
}
