//! What a seat waits for stays what it was told, and it takes its replies in the
//! order of its statements.
ghost use Rattle.std.specs.Prelude.{◌≡◌, ◌≢◌, ℕ, ◌+◌, ◌<◌, ◌≤◌, List, [], ◌∷◌, ◌++◌, length, map, drop, slice_get, AllPairs, Some, None, IsSome, IfSome};
ghost use Rattle.script_reader.specs.declared.statement.Statement.{Statement};
ghost use Rattle.star_store.specs.Effect.{effect_of};
ghost use Rattle.star_store.specs.Outcome.{outcome_of};
ghost use Rattle.core_state.specs.Answers.{Gives};
ghost use Rattle.core_state.specs.Sound.{IsSound};
ghost use Rattle.core_state.specs.State.{Pending, State};
ghost use Rattle.core_state.specs.Steps.{Step, Done, MayStep, MayStepAll, after_step, after_steps, awaited_at};
ghost use Rattle.core_state.specs.Submitting.{Ready, after_submitting, after_taking, awaited_by, next_ready, seat_at, taken_by};
ghost use Rattle.core_state.specs.Tables.{tables_of};
ghost use Rattle.core_state.specs.declared.event.Event.TheVariants.{Submit};

use crate::laws_of_runs::every_step_keeps_a_core_sound;
use query_meaning::{accepted_histories_are_settled, later_changes_are_not_seen};
use star_plan::answers_ignore_the_order_of_rows;
use star_store::outcomes_fit_the_tables;

/// A step leaves what a seat waits for as it was told: it is still waited for with the same, or it
/// is waited for no more; only a submission adds to it, and only by its own number.
pub fn a_step_leaves_what_is_told()
    ensures kept { (step : Step) (state : State) (seat statement : ℕ) → MayStep state step →
        IsSound state → statement ≤ state.numbers.statement →
        IfSome (awaited_at (after_step step state) seat statement) (λ awaited.
        awaited_at state seat statement ≡ Some awaited) }
    ensures added { (step : Step) (state : State) (seat statement : ℕ) → MayStep state step →
        IsSound state → state.numbers.statement < statement →
        IsSome (awaited_at (after_step step state) seat statement) →
        (statement ≡ state.numbers.statement + 1) × (text : Statement)
        × (step ≡ Done (Submit seat text)) }
{}

/// What a seat waits for is what its statement was told over the tables of its submission, whatever
/// steps came since, as long as it waits for it; and no other seat waits for it.
pub fn a_statement_is_told_at_its_submission()
    ensures told { (seat : ℕ) (statement : Statement) (state : State) (steps : List Step) →
        IsSound state → seat < length state.seats →
        MayStepAll (after_submitting seat statement state) steps →
        IfSome (awaited_at (after_steps steps (after_submitting seat statement state)) seat
        (state.numbers.statement + 1))
        (λ awaited. awaited ≡ awaited_by (outcome_of (tables_of state) statement).told) }
    ensures others { (seat other : ℕ) (statement : Statement) (state : State) (steps : List Step) →
        IsSound state → seat < length state.seats → other ≢ seat →
        MayStepAll (after_submitting seat statement state) steps →
        awaited_at (after_steps steps (after_submitting seat statement state)) other
        (state.numbers.statement + 1)
        ≡ None }
{
    every_step_keeps_a_core_sound();
}

/// What a seat may take next is the reply to the first statement that it waits for, and each
/// statement that it took has a smaller number than each that it waits for.
pub fn replies_come_in_the_order_of_statements()
    ensures order { (state : State) (seat : ℕ) → IsSound state →
        AllPairs (λ statement later. statement < later)
        (map (λ taken. taken.statement) (seat_at state seat).taken
        ++ map (λ pending. pending.statement) (seat_at state seat).pending) }
    ensures next { (state : State) (seat : ℕ) → IsSound state → IsSome (next_ready state seat) →
        (first : Pending) × (slice_get (seat_at state seat).pending 0 ≡ Some first)
        × ((seat_at (after_taking seat state) seat).taken
        ≡ (seat_at state seat).taken ++ taken_by first ∷ [])
        × ((seat_at (after_taking seat state) seat).pending ≡ drop 1 (seat_at state seat).pending) }
{}

/// The reply to a statement that a seat takes, whatever steps came between, is that of its effect
/// over the tables of its submission, or `memory` where its query found none: nothing that other
/// statements did meanwhile shows in it.
pub fn the_reply_to_a_statement_is_that_of_its_effect()
    ensures { (seat : ℕ) (statement : Statement) (state : State) (steps : List Step)
        (pending : Pending) (ready : Ready) → IsSound state → seat < length state.seats →
        MayStepAll (after_submitting seat statement state) steps →
        slice_get
        (seat_at (after_steps steps (after_submitting seat statement state)) seat).pending 0
        ≡ Some pending → pending.statement ≡ state.numbers.statement + 1 →
        next_ready (after_steps steps (after_submitting seat statement state)) seat ≡ Some ready →
        Gives (after_steps steps (after_submitting seat statement state)) pending.statement
        (effect_of (tables_of state) statement).reply ready }
{
    answers_ignore_the_order_of_rows();
    later_changes_are_not_seen();
    accepted_histories_are_settled();
    outcomes_fit_the_tables();
    every_step_keeps_a_core_sound();
}
