//! An accepted query. The lives of queries are in the manager.
ghost use Rattle.std.specs.Prelude.{◌≡◌, ◌↔◌, [], IfOk, IfSome, IsTrue, None, Some, is_some, true, false};
ghost use Rattle.std.specs.Arc.{arc_value};
ghost use Rattle.star_plan.specs.Test.{query_of};
ghost use Rattle.aggregations.specs.Grouped.{grouped_of};

use aggregations::Groups;
use star_plan::StarQuery;
use star_values::NoMemory;
use std::alloc::Global;
use std::fmt;
use std::hash::RandomState;
use std::marker::Model;
use std::snapshot::Snapshot;
use std::sync::Arc;

/// A query that was accepted.
///
/// Its bound form is handed on to the scan as the query starts, or let go where it never does:
/// contracts go on seeing it.
#[derive(Drop)]
pub struct AcceptedQuery {
    /// Its number, which is that of its statement.
    number: u64,

    /// Who submitted it.
    seat: u32,

    /// The query as it was bound, for contracts.
    seen: Snapshot<Arc<StarQuery, Global>>,

    /// The query, until it is handed on.
    query: Option<Arc<StarQuery, Global>>,

    /// The last commit that it sees.
    snapshot: u64,

    /// The groups of its rows, while none are attached for it at a slot and
    /// they may still be asked for.
    kept: Option<Groups>,
}

impl Model for AcceptedQuery {
    ghost use Rattle.std.specs.Prelude.{◌≡◌, IfSome, is_some};
    ghost use Rattle.std.specs.Arc.{arc_value};
    ghost use Rattle.core_parts.specs.Asked.{AskedEntry};

    ghost Value = { AskedEntry };

    ghost use Rattle.star_plan.specs.contracts.star_query.StarQuery as star_query;
    ghost use Rattle.std.specs.Coded.{codes};

    ghost coded = { Prim.hlevel (codes, star_query.the_row.coded) };

    ghost view = { λ asked. record {
      asked = record {
        number = asked.number;
        seat = asked.seat;
        query = arc_value asked.seen.value;
        snapshot = asked.snapshot;
        kept = asked.kept;
      };
      whole = is_some asked.query;
    } };

    ghost invariant = { λ asked.
        IfSome asked.query (λ query. arc_value query ≡ arc_value asked.seen.value) };
}

impl AcceptedQuery {
    /// A query of which no row has come yet. Its groups are found by hashes with these keys.
    pub fn new(
        alloc: Global,
        hash_keys: RandomState,
        number: u64,
        seat: u32,
        query: StarQuery,
        snapshot: u64,
    ) -> Result<AcceptedQuery, NoMemory>
        ensures asked { IfOk result (λ asked. asked.asked ≡ record {
          number = number;
          seat = seat;
          query = query;
          snapshot = snapshot;
          kept = Some (grouped_of (query_of query) []);
        }) }
        ensures whole { IfOk result (λ asked. asked.whole ≡ true) }
    {
        let groups = Groups::new(alloc, hash_keys, &query)?;
        match Arc::new(alloc, query) {
            Ok(query) => Ok(AcceptedQuery {
                number,
                seat,
                seen: Snapshot::of(&query),
                query: Some(query),
                snapshot,
                kept: Some(groups),
            }),
            Err(_) => Err(NoMemory),
        }
    }

    pub fn number(&self) -> u64
        ensures { result ≡ self.now.asked.number }
    {
        self.number
    }

    pub fn seat(&self) -> u32
        ensures { result ≡ self.now.asked.seat }
    {
        self.seat
    }

    pub fn snapshot(&self) -> u64
        ensures { result ≡ self.now.asked.snapshot }
    {
        self.snapshot
    }

    /// Whether nothing is kept beside it.
    pub fn is_bare(&self) -> bool
        ensures { IsTrue result ↔ (self.now.asked.kept ≡ None) }
    {
        matches!(self.kept, None)
    }

    /// The query, which was not handed on.
    pub fn query(&self) -> &StarQuery
        requires { self.now.whole ≡ true }
        ensures { result.now ≡ self.now.asked.query }
    {
        match &self.query {
            Some(query) => query,
            None => unreachable!(),
        }
    }

    /// Hands the query on, which was not handed on before.
    pub fn hand_on(&mut self) -> Arc<StarQuery, Global>
        requires { self.old.whole ≡ true }
        ensures query { arc_value result ≡ self.old.asked.query }
        ensures handed { self.new ≡ record self.old { whole = false } }
    {
        match self.query.take() {
            Some(query) => query,
            None => unreachable!(),
        }
    }

    /// Lets the query go, and what is kept beside it.
    pub fn give_up(&mut self)
        ensures { self.new
            ≡ record { asked = record self.old.asked { kept = None }; whole = false } }
    {
        self.query = None;
        self.kept = None;
    }

    /// Keeps these groups, or none, beside the query.
    pub fn keep(&mut self, kept: Option<Groups>)
        ensures { self.new ≡ record self.old { asked = record self.old.asked { kept = kept } } }
    {
        self.kept = kept;
    }

    /// Takes the groups away that are kept, if some are.
    pub fn take_kept(&mut self) -> Option<Groups>
        ensures groups { result ≡ self.old.asked.kept }
        ensures left { self.new
            ≡ record self.old { asked = record self.old.asked { kept = None } } }
    {
        self.kept.take()
    }
}

impl fmt::Debug for AcceptedQuery {
    fn fmt<W: fmt::Write>(&self, f: &mut fmt::Formatter<W>) -> fmt::Result {
        f.write_str("AcceptedQuery")
    }
}
