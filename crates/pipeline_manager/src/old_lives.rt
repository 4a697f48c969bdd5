//! The lives of queries that were let go, of which each keeps two bits. All
//! lives are in `query_lives`.
ghost use Rattle.std.specs.Prelude.{◌≡◌, ◌<◌, ◌≤◌, [], ◌∷◌, ◌++◌, false, All, OnOk};
ghost use Rattle.pipeline_manager.specs.Conditions.{is_open};
ghost use Rattle.pipeline_manager.specs.Lives.{life_in};
ghost use Rattle.pipeline_manager.specs.LetGo.{is_first, is_second, life_by};

use crate::life::{Life, QueryLife};
use crate::number_set::NumberSet;
use star_values::{NoMemory, Trail};
use std::alloc::Global;
use std::marker::Model;

/// Queries that were let go, with their lives, which are over. Each has two bits, at its number.
///
/// No call takes memory but `grow`.
#[derive(Debug, Drop)]
pub(crate) struct OldLives {
    queries: Trail<QueryLife>,

    /// The numbers of those that are Answered or Spoiled.
    first: NumberSet,

    /// The numbers of those that are Abandoned or Spoiled.
    second: NumberSet,
}

impl Model for OldLives {
    ghost use Rattle.pipeline_manager.specs.LetGo.{LetGo, AreTold, room_in};

    ghost Value = { LetGo };

    ghost view = { λ lives. record {
      queries = lives.queries;
      room = room_in lives.first lives.second;
    } };

    ghost invariant = { λ lives. AreTold lives.queries lives.first lives.second };
}

impl OldLives {
    /// No queries, and no room for any.
    pub(crate) fn new(alloc: Global) -> OldLives
        ensures { result.queries ≡ [] }
    {
        OldLives {
            queries: Trail::new(),
            first: NumberSet::new(alloc),
            second: NumberSet::new(alloc),
        }
    }

    /// The life of a query that was let go, or `None` where none with this number was.
    pub(crate) fn life(&self, query: u64) -> Option<Life>
        ensures { result ≡ life_in self.now.queries query }
    {
        life_by(self.first.has(query), self.second.has(query))
    }

    /// Makes room for the lives of the queries up to this number.
    pub(crate) fn grow(&mut self, query: u64) -> Result<(), NoMemory>
        ensures queries { self.new.queries ≡ self.old.queries }
        ensures more { self.old.room ≤ self.new.room }
        ensures room { OnOk result (query < self.new.room) }
    {
        self.first.grow(query)?;
        self.second.grow(query)
    }

    /// Lets a query go whose life is over. Its number is greater than theirs.
    pub(crate) fn let_go(&mut self, entry: QueryLife)
        requires room { entry.query < self.old.room }
        requires over { is_open entry.life ≡ false }
        requires above { All (λ other. other.query < entry.query) self.old.queries }
        ensures queries { self.new.queries ≡ self.old.queries ++ entry ∷ [] }
        ensures room { self.new.room ≡ self.old.room }
    {
        self.first.put_if(entry.query, is_first(&entry.life));
        self.second.put_if(entry.query, is_second(&entry.life));
        self.queries.push(entry);
    }
}

fn is_first(life: &Life) -> bool
    ensures { result ≡ is_first life.now }
{
    matches!(life, Life::Answered | Life::Spoiled)
}

fn is_second(life: &Life) -> bool
    ensures { result ≡ is_second life.now }
{
    matches!(life, Life::Abandoned | Life::Spoiled)
}

/// The life that two bits tell.
fn life_by(first: bool, second: bool) -> Option<Life>
    ensures { result ≡ life_by first second }
{
    match (first, second) {
        (false, false) => None,
        (false, true) => Some(Life::Abandoned),
        (true, false) => Some(Life::Answered),
        (true, true) => Some(Life::Spoiled),
    }
}
