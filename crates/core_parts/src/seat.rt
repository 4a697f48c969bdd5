//! A seat of the core in code. What becomes of one statement is in `submitted`.
ghost use Rattle.std.specs.Prelude.{◌≡◌, ℕ, ◌<◌, ◌≤◌, ◌++◌, ◌∷◌, [], List, length, map, find, option_map, option_and_then, slice_get, slice_set, slice_index_or, AllPairs, IsSome, IfSome, IfNone, OnOk, true, false};
ghost use Rattle.std.specs.Option.{option_map_or};
ghost use Rattle.std.specs.List.Sorted.{IsPartitionPoint};
ghost use Rattle.pipeline_manager.specs.Conditions.{is_open};
ghost use Rattle.pipeline_manager.specs.Lives.{life_of};
ghost use Rattle.star_values.specs.Faded.{items_of};
ghost use Rattle.core_parts.specs.Seated.{with_taken, without_pending};
ghost use Rattle.core_parts.specs.Known.{Known};
ghost use Rattle.core_parts.specs.Seats.{seat_as, pending_as, is_waited, when_taken, standing_as, is_waited_as, NoneIsWaitedAs, IsWaitedAt, AreGone, AreInTurn, is_open_in};
ghost use Rattle.core_parts.specs.declared.submitted.Submitted.{Submitted};
ghost use Rattle.core_parts.specs.declared.submitted.Standing.TheVariants.{IsAbandoned};

use crate::submitted::{Standing, Submitted, TakenReply};
use pipeline_manager::{Life, Manager};
use star_values::{Fading, NoMemory};
use std::alloc::Global;
use std::marker::Model;
use std::mem;

/// The statements that a seat submitted, in their order. Replies are taken in that order, and a
/// statement that is not waited for any more costs nothing once those before it are not either.
#[derive(Debug, Drop)]
pub struct Seat {
    statements: Fading<Submitted>,

    /// How many statements at the front of those that were not let go are known not to be
    /// waited for. With each reply it comes to the next statement that is waited for, so no
    /// search begins at the front.
    next: usize,
}

impl Model for Seat {
    ghost use Rattle.star_values.specs.Roomy.{Roomy};
    ghost use Rattle.star_values.specs.Faded.{items_of};
    ghost use Rattle.core_parts.specs.declared.submitted.Submitted.{Submitted};
    ghost use Rattle.core_parts.specs.Seats.{AreGone, AreInTurn};

    ghost Value = { Roomy Submitted };

    ghost view = { λ seat.
        record { items = items_of seat.statements; room = seat.statements.room } };

    ghost invariant = { λ seat.
        AreInTurn seat.next seat.statements.rest × AreGone seat.statements.gone };
}

impl Seat {
    pub fn new(alloc: Global) -> Seat
        ensures { result.items ≡ [] }
    {
        Seat {
            statements: Fading::new(alloc),
            next: 0,
        }
    }

    /// Makes room for one statement more.
    pub fn reserve(&mut self) -> Result<(), NoMemory>
        ensures items { self.new.items ≡ self.old.items }
        ensures room { OnOk result (0 < self.new.room) }
    {
        self.statements.reserve(1)
    }

    /// Puts a statement behind the others, into room that was reserved. It is waited for.
    pub fn submit(&mut self, number: u64, standing: Standing)
        requires room { 0 < self.old.room }
        requires waited { is_waited standing ≡ true }
        ensures { self.new.items
            ≡ self.old.items ++ record { number = number; standing = standing } ∷ [] }
    {
        self.statements
            .push_reserved(Submitted { number, standing });
    }

    /// The first statement that is waited for, if any is.
    pub fn first(&self) -> Option<&Submitted>
        ensures first { option_map (λ submitted. submitted.now) result
            ≡ find (λ submitted. is_waited submitted.standing) self.now.items }
        ensures pending { (known : List Known) →
            option_and_then (pending_as known) (option_map (λ submitted. submitted.now) result)
            ≡ slice_get (seat_as known self.now.items).pending 0 }
    {
        first_in(self.statements.rest(), self.next)
    }

    /// Takes the reply to the first statement that is waited for, and gives
    /// how that statement stood.
    pub fn take(&mut self) -> Standing
        requires { IsSome (find (λ submitted. is_waited submitted.standing) self.old.items) }
        ensures first { IfSome (find (λ submitted. is_waited submitted.standing) self.old.items)
            (λ submitted. submitted.standing ≡ result) }
        ensures taken { (known : List Known) →
            seat_as known self.new.items ≡ with_taken (seat_as known self.old.items) }
        ensures numbers { map (λ submitted. submitted.number) self.new.items
            ≡ map (λ submitted. submitted.number) self.old.items }
    {
        let place = first_waited(self.statements.rest(), self.next);
        let standing = take_at(&mut self.statements, place);
        self.next = first_waited(self.statements.rest(), place + 1);
        settle(&mut self.statements, &mut self.next);
        standing
    }

    /// Gives up the statement of this number, if it is waited for: nobody waits for it any more.
    pub fn abandon(&mut self, number: u64)
        requires rising { AllPairs (λ statement later. statement < later)
            (map (λ submitted. submitted.number) self.old.items) }
        ensures abandoned { (known : List Known) →
            seat_as known self.new.items ≡ without_pending number (seat_as known self.old.items) }
        ensures numbers { map (λ submitted. submitted.number) self.new.items
            ≡ map (λ submitted. submitted.number) self.old.items }
    {
        abandon_in(&mut self.statements, number);
        self.next = first_waited(self.statements.rest(), self.next);
        settle(&mut self.statements, &mut self.next);
    }

    /// The number of the first statement that is waited for and is a query
    /// that may still be answered.
    pub fn first_open(&self, manager: &Manager) -> Option<u64>
        ensures { (known : List Known) → result ≡ option_map (λ pending. pending.statement)
            (find (λ pending. option_map_or is_open (life_of manager.now pending.statement) false)
            (seat_as known self.now.items).pending) }
    {
        first_open_in(self.statements.rest(), self.next, manager)
    }
}

/// Lets the first statements go, so many, none of which is waited for, once they are as many as
/// those behind them: no more are moved than let go.
fn settle(statements: &mut Fading<Submitted>, next: &mut usize)
    requires turn { AreInTurn next.old statements.old.rest }
    requires gone { AreGone statements.old.gone }
    ensures turn { AreInTurn next.new statements.new.rest }
    ensures gone { AreGone statements.new.gone }
    ensures items { items_of statements.new ≡ items_of statements.old }
{
    if *next >= statements.rest().len() - *next {
        statements.forget(*next);
        *next = 0;
    }
}

/// The place of the first statement that is waited for, or how many statements there are. None in
/// front of `from` is.
fn first_waited(statements: &[Submitted], from: usize) -> usize
    requires { AreInTurn from statements.now }
    ensures turn { AreInTurn result statements.now }
    ensures waited { slice_get statements.now result
        ≡ find (λ submitted. is_waited submitted.standing) statements.now }
{
    for place in from..statements.len() {
        if is_waited(&statements[place].standing) {
            return place;
        }
    }
    statements.len()
}

fn is_waited(standing: &Standing) -> bool
    ensures { result ≡ is_waited standing.now }
{
    matches!(standing, Standing::Waits(_) | Standing::IsAsked)
}

/// How a statement stands whose reply is taken. Where nobody waits for the reply, there is
/// none to take.
fn when_taken(standing: &Standing) -> Standing
    ensures { result ≡ when_taken standing.now }
{
    match standing {
        Standing::Waits(reply) => Standing::IsTaken(TakenReply::of(reply)),
        Standing::IsAsked => Standing::IsAnswered,
        Standing::IsTaken(_) | Standing::IsAnswered | Standing::IsAbandoned => {
            Standing::IsAbandoned
        }
    }
}

/// The first statement that is waited for, if any is. None in front of `from` is.
fn first_in(statements: &[Submitted], from: usize) -> Option<&Submitted>
    requires { AreInTurn from statements.now }
    ensures { option_map (λ submitted. submitted.now) result
        ≡ find (λ submitted. is_waited submitted.standing) statements.now }
{
    statements.get(first_waited(statements, from))
}

/// Writes how the statement at a place stands, and gives how it stood.
fn replace_standing(
    statements: &mut Fading<Submitted>,
    place: usize,
    standing: Standing,
) -> Standing
    requires { place < length statements.old.rest }
    ensures before { (d : Submitted) →
        result ≡ (slice_index_or statements.old.rest place d).standing }
    ensures after { (d : Submitted) → statements.new.rest
        ≡ slice_set statements.old.rest place
        (standing_as standing (slice_index_or statements.old.rest place d)) }
    ensures gone { statements.new.gone ≡ statements.old.gone }
{
    mem::replace(&mut statements.rest_mut()[place].standing, standing)
}

/// Takes the reply to the statement at a place, and gives how the statement stood.
fn take_at(statements: &mut Fading<Submitted>, place: usize) -> Standing
    requires { place < length statements.old.rest }
    ensures before { (d : Submitted) →
        result ≡ (slice_index_or statements.old.rest place d).standing }
    ensures after { (d : Submitted) → statements.new.rest ≡ slice_set statements.old.rest place
        (standing_as (when_taken (slice_index_or statements.old.rest place d).standing)
        (slice_index_or statements.old.rest place d)) }
    ensures gone { statements.new.gone ≡ statements.old.gone }
{
    let standing = when_taken(&statements.rest()[place].standing);
    replace_standing(statements, place, standing)
}

/// Gives up the statement of this number, if it is waited for.
fn abandon_in(statements: &mut Fading<Submitted>, number: u64)
    requires { AllPairs (λ statement later. statement < later)
        (map (λ submitted. submitted.number) statements.old.rest) }
    ensures seat { (known : List Known) →
        seat_as known statements.new.rest
        ≡ without_pending number (seat_as known statements.old.rest) }
    ensures numbers { map (λ submitted. submitted.number) statements.new.rest
        ≡ map (λ submitted. submitted.number) statements.old.rest }
    ensures turn { (next : ℕ) → AreInTurn next statements.old.rest →
        AreInTurn next statements.new.rest }
    ensures gone { statements.new.gone ≡ statements.old.gone }
{
    if let Some(place) = waited_place(statements.rest(), number) {
        replace_standing(statements, place, Standing::IsAbandoned);
    }
}

/// The place of the statement of this number, if it is waited for.
fn waited_place(statements: &[Submitted], number: u64) -> Option<usize>
    requires { AllPairs (λ statement later. statement < later)
        (map (λ submitted. submitted.number) statements.now) }
    ensures none { IfNone result (NoneIsWaitedAs number statements.now) }
    ensures there { IfSome result (λ place. IsWaitedAt number place statements.now) }
{
    let place = first_from(statements, number);
    if is_waited_at(statements, place, number) {
        Some(place)
    } else {
        None
    }
}

/// The place of the first statement with this number or a greater one.
fn first_from(statements: &[Submitted], number: u64) -> usize
    requires { AllPairs (λ statement later. statement < later)
        (map (λ submitted. submitted.number) statements.now) }
    ensures { IsPartitionPoint (λ submitted. submitted.number < number)
        (λ submitted. number ≤ submitted.number) statements.now result }
{
    statements.partition_point(|submitted| submitted.number < number)
}

/// Whether the statement at a place has this number and is waited for.
fn is_waited_at(statements: &[Submitted], place: usize, number: u64) -> bool
    ensures { result ≡ option_map_or (is_waited_as number) (slice_get statements.now place) false }
{
    match statements.get(place) {
        None => false,
        Some(submitted) => submitted.number == number && is_waited(&submitted.standing),
    }
}

/// The number of the first statement that is waited for and is a query that may still be answered.
/// None in front of `from` is waited for.
fn first_open_in(statements: &[Submitted], from: usize, manager: &Manager) -> Option<u64>
    requires { AreInTurn from statements.now }
    ensures { result
        ≡ option_map (λ submitted. submitted.number)
        (find (is_open_in manager.now) statements.now) }
{
    for place in from..statements.len() {
        let submitted = &statements[place];
        if is_open(submitted, manager) {
            return Some(submitted.number);
        }
    }
    None
}

/// Whether a statement is waited for and is a query that may still be answered.
fn is_open(submitted: &Submitted, manager: &Manager) -> bool
    ensures { result ≡ is_open_in manager.now submitted.now }
{
    is_waited(&submitted.standing) && may_be_answered(submitted.number, manager)
}

/// Whether a statement is a query that may still be answered.
pub fn may_be_answered(number: u64, manager: &Manager) -> bool
    ensures { result ≡ option_map_or is_open (life_of manager.now number) false }
{
    match manager.life(number) {
        None => false,
        Some(life) => matches!(
            life,
            Life::Waiting | Life::Building | Life::Running { .. } | Life::Ending
        ),
    }
}
