//! What becomes of the parts of a core is what becomes of its state: statements and replies.
ghost use Rattle.std.specs.Prelude.{◌≡◌, true, false, ℕ, ◌+◌, ◌<◌, List, [], ◌∷◌, ◌++◌, length, find, Some, None, IsSome};
ghost use Rattle.std.specs.Option.{option_map_or};
ghost use Rattle.script_reader.specs.declared.statement.Statement.{Statement};
ghost use Rattle.star_plan.specs.Test.{query_of};
ghost use Rattle.star_plan.specs.declared.star_query.StarQuery.{StarQuery};
ghost use Rattle.query_meaning.specs.History.{Change, after_change};
ghost use Rattle.query_meaning.specs.Keyed.{IsKeyed, KeyedStore, plain};
ghost use Rattle.star_store.specs.Kinds.{kind_of_change};
ghost use Rattle.star_store.specs.Outcome as outcome;
ghost use Rattle.star_store.specs.Outcome.{outcome_of};
ghost use Rattle.reply_text.specs.declared.reply.Reply.{Reply};
ghost use Rattle.reply_text.specs.declared.reply.Reply.TheVariants.{Memory};
ghost use Rattle.aggregations.specs.Grouped.{Grouped, grouped_of};
ghost use Rattle.pipeline_manager.specs.Conditions.{IsNew, is_open};
ghost use Rattle.pipeline_manager.specs.Lives.{life_of};
ghost use Rattle.pipeline_manager.specs.declared.life.Life.TheVariants.{Answered, Spoiled};
ghost use Rattle.core_state.specs.Submitting.{Grouping, Whole, after_submitting, after_taking, next_ready, with_taken};
ghost use Rattle.core_state.specs.Tables.{tables_of};
ghost use Rattle.core_parts.specs.declared.submitted.Submitted.{Submitted};
ghost use Rattle.core_parts.specs.declared.submitted.Standing.TheVariants.{Waits, IsAsked};
ghost use Rattle.core_parts.specs.Asked.{AskedQuery, asked_at, known_in};
ghost use Rattle.event_core.specs.Changes.{accepted, changed, forgotten_at, statements_at, submitted};
ghost use Rattle.event_core.specs.Core.{Becomes, IsCore};
ghost use Rattle.event_core.specs.CoreParts.{CoreParts};
ghost use Rattle.core_parts.specs.Seats.{is_waited, seat_as};
ghost use Rattle.event_core.specs.Seen.{state_of};
ghost use Rattle.event_core.specs.Taking.{kept_for, ready_with, snapshot_for};

use core_state::{
    a_reply_that_may_be_taken_is_right, changes_follow_from_the_tables,
    deletes_name_ascending_positions, every_step_keeps_a_core_sound,
    other_events_leave_a_distributor, other_events_leave_a_scan,
};
use query_meaning::accepted_histories_are_settled;
use star_store::outcomes_fit_the_tables;

/// A statement that a seat submits stands behind its others, with what is told of it; a change is
/// logged, and a query waits.
pub(crate) fn submissions_follow_the_core()
    ensures tables { (parts : CoreParts) → IsCore parts →
        plain parts.tables ≡ tables_of (state_of parts) }
    ensures replied { (parts : CoreParts) (seat : ℕ) (statement : Statement) (reply : Reply) →
        IsCore parts → seat < length parts.seats →
        outcome_of (tables_of (state_of parts)) statement
        ≡ outcome.only_tells (outcome.Replied reply) →
        Becomes (submitted seat (parts.numbers.statement + 1)
        (statements_at parts.seats seat
        ++ record { number = parts.numbers.statement + 1; standing = Waits reply } ∷ [])
        parts)
        (after_submitting seat statement (state_of parts)) }
    ensures changed { (parts : CoreParts) (seat : ℕ) (statement : Statement) (reply : Reply)
        (change : Change) (tables : KeyedStore) → IsCore parts → seat < length parts.seats →
        outcome_of (tables_of (state_of parts)) statement
        ≡ record { change = Some change; told = outcome.Replied reply } →
        plain tables ≡ after_change (tables_of (state_of parts)) change → IsKeyed tables →
        Becomes (changed seat (parts.numbers.statement + 1)
        (statements_at parts.seats seat
        ++ record { number = parts.numbers.statement + 1; standing = Waits reply } ∷ [])
        (kind_of_change change) tables parts)
        (after_submitting seat statement (state_of parts)) }
    ensures accepted { (parts : CoreParts) (seat : ℕ) (statement : Statement) (query : StarQuery)
        (snapshot : ℕ) →
        IsCore parts → seat < length parts.seats →
        outcome_of (tables_of (state_of parts)) statement
        ≡ outcome.only_tells (outcome.Accepted (query_of query) snapshot) →
        Becomes (accepted seat (parts.numbers.statement + 1)
        (statements_at parts.seats seat
        ++ record { number = parts.numbers.statement + 1; standing = IsAsked } ∷ [])
        (record {
          number = parts.numbers.statement + 1;
          seat = seat;
          query = query;
          snapshot = snapshot;
          kept = Some (grouped_of (query_of query) []);
        }) parts)
        (after_submitting seat statement (state_of parts)) }
    ensures new { (parts : CoreParts) → IsCore parts →
        IsNew (parts.numbers.statement + 1) parts.lives }
{
    accepted_histories_are_settled();
    changes_follow_from_the_tables();
    deletes_name_ascending_positions();
    outcomes_fit_the_tables();
    other_events_leave_a_distributor();
    other_events_leave_a_scan();
    every_step_keeps_a_core_sound();
}

/// The reply that a seat may take is that to its first statement that is waited for: the reply that
/// waits, `memory` where the query found none, or the groups that are kept beside an answered
/// query. It may be taken unless the statement is a query that may still be answered.
pub(crate) fn next_replies_follow_the_core()
    ensures nothing { (parts : CoreParts) (seat : ℕ) → IsCore parts →
        find (λ submitted. is_waited submitted.standing) (statements_at parts.seats seat) ≡ None →
        next_ready (state_of parts) seat ≡ None }
    ensures reply { (parts : CoreParts) (seat : ℕ) (first : Submitted) (reply : Reply) →
        IsCore parts →
        find (λ submitted. is_waited submitted.standing) (statements_at parts.seats seat)
        ≡ Some first →
        first.standing ≡ Waits reply → next_ready (state_of parts) seat ≡ Some (Whole reply) }
    ensures open { (parts : CoreParts) (seat : ℕ) (first : Submitted) → IsCore parts →
        find (λ submitted. is_waited submitted.standing) (statements_at parts.seats seat)
        ≡ Some first → first.standing ≡ IsAsked →
        option_map_or is_open (life_of parts.lives first.number) false ≡ true →
        next_ready (state_of parts) seat ≡ None }
    ensures closed { (parts : CoreParts) (seat : ℕ) (first : Submitted) → IsCore parts →
        find (λ submitted. is_waited submitted.standing) (statements_at parts.seats seat)
        ≡ Some first →
        (first.standing ≡ IsAsked →
        option_map_or is_open (life_of parts.lives first.number) false ≡ false) →
        next_ready (state_of parts) seat
        ≡ Some (ready_with first.standing (snapshot_for parts.asked first.number)
        (kept_for parts.asked first.number)) }
    ensures spoiled { (parts : CoreParts) (seat : ℕ) (first : Submitted) → IsCore parts →
        find (λ submitted. is_waited submitted.standing) (statements_at parts.seats seat)
        ≡ Some first → first.standing ≡ IsAsked → life_of parts.lives first.number ≡ Some Spoiled →
        next_ready (state_of parts) seat ≡ Some (Whole Memory) }
    ensures answered { (parts : CoreParts) (seat : ℕ) (first : Submitted) → IsCore parts →
        find (λ submitted. is_waited submitted.standing) (statements_at parts.seats seat)
        ≡ Some first → first.standing ≡ IsAsked → life_of parts.lives first.number ≡ Some Answered →
        (asked : AskedQuery) × (asked_at parts.asked first.number ≡ Some asked) × (groups : Grouped)
        × (asked.kept ≡ Some groups)
        × (next_ready (state_of parts) seat ≡ Some (Grouping asked.snapshot groups)) }
{
    a_reply_that_may_be_taken_is_right();
}

/// Where a seat takes the reply to its first statement that is waited for, nothing is kept any more
/// beside the query of its number.
pub(crate) fn taken_replies_follow_the_core()
    ensures { (parts : CoreParts) (seat : ℕ) (first : Submitted) (statements : List Submitted) →
        IsCore parts →
        find (λ submitted. is_waited submitted.standing) (statements_at parts.seats seat)
        ≡ Some first → IsSome (next_ready (state_of parts) seat) →
        seat_as (known_in parts.asked) statements
        ≡ with_taken (seat_as (known_in parts.asked) (statements_at parts.seats seat)) →
        Becomes (forgotten_at seat first.number statements parts)
        (after_taking seat (state_of parts)) }
{
    other_events_leave_a_distributor();
    other_events_leave_a_scan();
    every_step_keeps_a_core_sound();
}
