//! The accepted queries in the order of their numbers, which rise. One query is in
//! `accepted_query`.
ghost use Rattle.std.specs.Prelude.{◌≡◌, ◌+◌, ◌<◌, ◌≤◌, ◌==◌, [], ◌∷◌, ◌++◌, All, Contains, find, length, position, slice_get, take, true, IsSome, IsTrue, IfSome, None, Some, OnOk};
ghost use Rattle.std.specs.Arc.{arc_value};
ghost use Rattle.std.specs.List.Sorted.{IsPartitionPoint};
ghost use Rattle.std.specs.Option.{option_and_then, option_map_or};
ghost use Rattle.core_parts.specs.LetGo.{AreDone, IsDone, IsForgotten};
ghost use Rattle.core_parts.specs.Asked.{AreFinished, AreAskedRising, CanHandOn, IsNoneOf, IsNotAmong, IsQueryOver, asked_at, asked_in, handed_in, with_kept_at};

use crate::accepted_query::AcceptedQuery;
use aggregations::Groups;
use pipeline_manager::{Life, Manager};
use star_plan::StarQuery;
use star_values::{Fading, NoMemory};
use std::alloc::Global;
use std::marker::Model;
use std::sync::Arc;

/// The accepted queries, in the order of their numbers. A query is handed on as it starts. Those at
/// the front that are over, and beside which nothing is kept, are let go: contracts go on seeing
/// them, and they have no bytes.
///
/// Only `reserve` takes memory.
#[derive(Debug, Drop)]
pub struct Queries {
    asked: Fading<AcceptedQuery>,

    /// How often queries were to be let go since the front was looked at. It is looked at once for
    /// as many as a half of those that stand, so that all looks together take time in their number.
    calls: usize,
}

impl Model for Queries {
    ghost use Rattle.std.specs.Prelude.{◌++◌};
    ghost use Rattle.core_parts.specs.Asked.{AreBare, AskedQueries, asked_in, handed_in};

    ghost Value = { AskedQueries };

    ghost use Rattle.star_plan.specs.contracts.star_query.StarQuery as star_query;
    ghost use Rattle.std.specs.Coded.{codes};

    ghost coded = { Prim.hlevel (codes, star_query.the_row.coded) };

    ghost view = { λ queries. record {
      items = asked_in queries.asked.gone ++ asked_in queries.asked.rest;
      gone = asked_in queries.asked.gone;
      handed = handed_in queries.asked.rest;
      room = queries.asked.room;
    } };

    ghost invariant = { λ queries. AreBare (asked_in queries.asked.gone) };
}

impl Queries {
    /// No queries.
    pub fn new(alloc: Global) -> Queries
        ensures items { result.items ≡ [] }
        ensures gone { result.gone ≡ [] }
        ensures handed { result.handed ≡ [] }
    {
        Queries {
            asked: Fading::new(alloc),
            calls: 0,
        }
    }

    /// Makes room for one query more.
    pub fn reserve(&mut self) -> Result<(), NoMemory>
        ensures items { self.new.items ≡ self.old.items }
        ensures gone { self.new.gone ≡ self.old.gone }
        ensures handed { self.new.handed ≡ self.old.handed }
        ensures room { OnOk result (0 < self.new.room) }
    {
        self.asked.reserve(1)
    }

    /// Puts a query behind the others, into room that was reserved. It was not handed on.
    pub fn push(&mut self, query: AcceptedQuery)
        requires room { 0 < self.old.room }
        requires whole { query.whole ≡ true }
        ensures items { self.new.items ≡ self.old.items ++ query.asked ∷ [] }
        ensures gone { self.new.gone ≡ self.old.gone }
        ensures handed { self.new.handed ≡ self.old.handed }
    {
        self.asked.push_reserved(query);
    }

    /// The query of a number, which was not let go. It is whole unless it was handed on.
    pub fn asked_of(&self, number: u64) -> &AcceptedQuery
        requires rising { AreAskedRising self.now.items }
        requires there { IsSome (asked_at self.now.items number) }
        requires stands { IsNotAmong self.now.gone number }
        ensures asked { asked_at self.now.items number ≡ Some result.now.asked }
        ensures whole { IsNoneOf self.now.handed number → result.now.whole ≡ true }
    {
        asked_of(self.asked.rest(), number)
    }

    /// The snapshot of the query of a number beside which something is kept.
    pub fn snapshot_of(&self, number: u64) -> u64
        requires { AreAskedRising self.now.items }
        ensures { IsSome (option_and_then (λ entry. entry.kept) (asked_at self.now.items number)) →
            result ≡ option_map_or (λ entry. entry.snapshot) (asked_at self.now.items number) 0 }
    {
        snapshot_of(self.asked.rest(), number)
    }

    /// Hands the query of a number on, which was neither let go nor handed on before.
    pub fn hand_on(&mut self, number: u64) -> Arc<StarQuery, Global>
        requires stands { IsNotAmong self.old.gone number }
        requires can { CanHandOn number self.old.items self.old.handed }
        ensures query { IfSome (asked_at self.old.items number) (λ entry.
            arc_value result ≡ entry.query) }
        ensures items { self.new.items ≡ self.old.items }
        ensures gone { self.new.gone ≡ self.old.gone }
        ensures handed { All (Contains (number ∷ self.old.handed)) self.new.handed }
    {
        hand_on(self.asked.rest_mut(), number)
    }

    /// Lets the query of a number go, which was not let go before, and what is kept beside it.
    pub fn give_up(&mut self, number: u64)
        requires rising { AreAskedRising self.old.items }
        requires stands { IsNotAmong self.old.gone number }
        ensures items { self.new.items ≡ with_kept_at number None self.old.items }
        ensures gone { self.new.gone ≡ self.old.gone }
        ensures handed { All (Contains (number ∷ self.old.handed)) self.new.handed }
    {
        give_up(self.asked.rest_mut(), number);
    }

    /// Keeps these groups, or none, beside the query of a number, which was not let go.
    pub fn keep(&mut self, number: u64, kept: Option<Groups>)
        requires rising { AreAskedRising self.old.items }
        requires stands { IsNotAmong self.old.gone number }
        ensures { self.new ≡ record self.old { items = with_kept_at number kept self.old.items } }
    {
        keep(self.asked.rest_mut(), number, kept);
    }

    /// Takes what is kept beside the query of a number away, if something is.
    pub fn take_kept(&mut self, number: u64) -> Option<Groups>
        requires { AreAskedRising self.old.items }
        ensures groups { result
            ≡ option_and_then (λ entry. entry.kept) (asked_at self.old.items number) }
        ensures left { self.new
            ≡ record self.old { items = with_kept_at number None self.old.items } }
    {
        take_kept(self.asked.rest_mut(), number)
    }

    /// Lets queries at the front go that are over.
    pub fn settle(&mut self, manager: &Manager)
        ensures items { self.new.items ≡ self.old.items }
        ensures finished { AreFinished manager.now self.old → AreFinished manager.now self.new }
    {
        settle(&mut self.asked, &mut self.calls, manager);
    }
}

/// The place of the accepted query of a number.
fn place_of(asked: &[AcceptedQuery], number: u64) -> Option<usize>
    requires { AreAskedRising (asked_in asked.now) }
    ensures place { result ≡ position (λ entry. entry.asked.number == number) asked.now }
    ensures there { option_and_then (slice_get asked.now) result
        ≡ find (λ entry. entry.asked.number == number) asked.now }
{
    let place = first_from(asked, number);
    if place < asked.len() && asked[place].number() == number {
        Some(place)
    } else {
        None
    }
}

/// The place of the first query with this number or a greater one.
fn first_from(asked: &[AcceptedQuery], number: u64) -> usize
    requires { AreAskedRising (asked_in asked.now) }
    ensures bound { result ≤ length asked.now }
    ensures halves { IsPartitionPoint (λ entry. entry.asked.number < number)
        (λ entry. number ≤ entry.asked.number) asked.now result }
{
    asked.partition_point(|entry| entry.number() < number)
}

/// The accepted query of a number.
fn asked_of(asked: &[AcceptedQuery], number: u64) -> &AcceptedQuery
    requires rising { AreAskedRising (asked_in asked.now) }
    requires there { IsSome (asked_at (asked_in asked.now) number) }
    ensures asked { asked_at (asked_in asked.now) number ≡ Some result.now.asked }
    ensures whole { IsNoneOf (handed_in asked.now) number → result.now.whole ≡ true }
{
    let place = place_of(asked, number).unwrap();
    &asked[place]
}

/// The snapshot of an accepted query, 0 where none has this number.
fn snapshot_of(asked: &[AcceptedQuery], number: u64) -> u64
    requires { AreAskedRising (asked_in asked.now) }
    ensures { result
        ≡ option_map_or (λ entry. entry.snapshot) (asked_at (asked_in asked.now) number) 0 }
{
    match place_of(asked, number) {
        None => 0,
        Some(place) => asked[place].snapshot(),
    }
}

/// Hands the query of a number on.
fn hand_on(asked: &mut [AcceptedQuery], number: u64) -> Arc<StarQuery, Global>
    requires { CanHandOn number (asked_in asked.old) (handed_in asked.old) }
    ensures query { IfSome (asked_at (asked_in asked.old) number) (λ entry.
        arc_value result ≡ entry.query) }
    ensures length { length asked.new ≡ length asked.old }
    ensures items { asked_in asked.new ≡ asked_in asked.old }
    ensures handed { All (Contains (number ∷ handed_in asked.old)) (handed_in asked.new) }
{
    let place = place_of(asked, number).unwrap();
    asked[place].hand_on()
}

/// Lets the query of a number go, and what is kept beside it.
fn give_up(asked: &mut [AcceptedQuery], number: u64)
    requires { AreAskedRising (asked_in asked.old) }
    ensures length { length asked.new ≡ length asked.old }
    ensures items { asked_in asked.new ≡ with_kept_at number None (asked_in asked.old) }
    ensures handed { All (Contains (number ∷ handed_in asked.old)) (handed_in asked.new) }
{
    if let Some(place) = place_of(asked, number) {
        asked[place].give_up();
    }
}

/// Keeps these groups, or none, beside the query of a number.
fn keep(asked: &mut [AcceptedQuery], number: u64, kept: Option<Groups>)
    requires { AreAskedRising (asked_in asked.old) }
    ensures length { length asked.new ≡ length asked.old }
    ensures items { asked_in asked.new ≡ with_kept_at number kept (asked_in asked.old) }
    ensures handed { handed_in asked.new ≡ handed_in asked.old }
{
    if let Some(place) = place_of(asked, number) {
        asked[place].keep(kept);
    }
}

/// Takes what is kept beside the query of a number away, if something is.
fn take_kept(asked: &mut [AcceptedQuery], number: u64) -> Option<Groups>
    requires { AreAskedRising (asked_in asked.old) }
    ensures groups { result
        ≡ option_and_then (λ entry. entry.kept) (asked_at (asked_in asked.old) number) }
    ensures length { length asked.new ≡ length asked.old }
    ensures items { asked_in asked.new ≡ with_kept_at number None (asked_in asked.old) }
    ensures handed { handed_in asked.new ≡ handed_in asked.old }
{
    let place = place_of(asked, number)?;
    asked[place].take_kept()
}

/// Lets the first queries go that are done, at one of so many calls.
fn settle(asked: &mut Fading<AcceptedQuery>, calls: &mut usize, manager: &Manager)
    ensures { IsForgotten manager.now asked.old asked.new }
{
    *calls = calls.saturating_add(1);
    if *calls < asked.rest().len() / 2 {
        return;
    }
    *calls = 0;
    forget_done(asked, manager);
}

/// Lets the first queries go that are over, and beside which nothing is kept.
fn forget_done(asked: &mut Fading<AcceptedQuery>, manager: &Manager)
    ensures { IsForgotten manager.now asked.old asked.new }
{
    let done = count_done(asked.rest(), manager);
    asked.forget(done);
}

/// How many of the first queries are over and have nothing kept beside them.
fn count_done(asked: &[AcceptedQuery], manager: &Manager) -> usize
    ensures bound { result ≤ length asked.now }
    ensures done { AreDone manager.now (take result asked.now) }
{
    for place in 0..asked.len() {
        if !is_done(&asked[place], manager) {
            return place;
        }
    }
    asked.len()
}

/// Whether a query is over, and nothing is kept beside it.
fn is_done(asked: &AcceptedQuery, manager: &Manager) -> bool
    ensures { IsTrue result → IsDone manager.now asked.now }
{
    asked.is_bare() && is_over(asked.number(), manager)
}

/// Whether a query was answered, spoiled or abandoned.
fn is_over(number: u64, manager: &Manager) -> bool
    ensures { IsTrue result → IsQueryOver manager.now number }
{
    match manager.life(number) {
        None => false,
        Some(life) => matches!(life, Life::Answered | Life::Spoiled | Life::Abandoned),
    }
}
