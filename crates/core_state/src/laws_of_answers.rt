//! What holds of the replies that seats take, and of answers as tables grow.
ghost use Rattle.std.specs.Prelude.{◌≡◌, ◌⊎◌, ℕ, ◌≤◌, List, Contains, Some, None, IsSomeAnd, IsTrue, slice_get};
ghost use Rattle.star_plan.specs.Test.{Query};
ghost use Rattle.query_meaning.specs.Alone.{alone};
ghost use Rattle.pipeline_manager.specs.Conditions.{is_open};
ghost use Rattle.pipeline_manager.specs.Lives.{life_of};
ghost use Rattle.pipeline_manager.specs.declared.life.Life.TheVariants.{Answered};
ghost use Rattle.aggregations.specs.Grouped.{Grouped};
ghost use Rattle.core_state.specs.Answers.{AnswersAlone, IsRight};
ghost use Rattle.core_state.specs.Sound.{HasTaken, IsSound};
ghost use Rattle.core_state.specs.State.{Accepted, Asked, Pending, State};
ghost use Rattle.core_state.specs.Steps.{MayStepAll, Step, after_steps};
ghost use Rattle.core_state.specs.Submitting.{Ready, next_ready, seat_at};
ghost use Rattle.core_state.specs.Tables.{tables_of};

use crate::laws_of_runs::every_step_keeps_a_core_sound;
use query_meaning::{accepted_histories_are_settled, later_changes_are_not_seen};
use star_plan::answers_ignore_the_order_of_rows;
use star_store::outcomes_fit_the_tables;

/// What a seat may take is right: the reply that it was told, `memory` to a query that found none,
/// and to an answered query groups that answer it as it is alone at its snapshot; such groups are
/// kept for every answered query until its reply is taken. A seat has to wait for a query that may
/// still be answered, and for nothing else.
pub fn a_reply_that_may_be_taken_is_right()
    ensures right { (state : State) (seat : ℕ) (pending : Pending) (ready : Ready) → IsSound state →
        slice_get (seat_at state seat).pending 0 ≡ Some pending →
        next_ready state seat ≡ Some ready →
        IsRight state pending.statement pending.awaited ready }
    ensures kept { (state : State) (accepted : Accepted) → IsSound state →
        Contains state.accepted accepted → life_of state.lives accepted.number ≡ Some Answered →
        ((accepted.groups ≡ None) × HasTaken state.seats accepted)
        ⊎ ((groups : Grouped) × (accepted.groups ≡ Some groups)
        × AnswersAlone (tables_of state) accepted.query accepted.snapshot groups) }
    ensures waits { (state : State) (seat : ℕ) (pending : Pending) → IsSound state →
        slice_get (seat_at state seat).pending 0 ≡ Some pending → next_ready state seat ≡ None →
        (query : Query) × (snapshot : ℕ) × (pending.awaited ≡ Asked query snapshot)
        × IsSomeAnd (life_of state.lives pending.statement) (λ now. IsTrue (is_open now)) }
{
    answers_ignore_the_order_of_rows();
}

/// No later step changes the answer of a query alone at a snapshot that came before it.
pub fn later_steps_change_no_answer()
    ensures { (steps : List Step) (state : State) (query : Query) (snapshot : ℕ) →
        MayStepAll state steps → IsSound state → snapshot ≤ (tables_of state).commits →
        alone (tables_of (after_steps steps state)) query snapshot
        ≡ alone (tables_of state) query snapshot }
{
    accepted_histories_are_settled();
    later_changes_are_not_seen();
    outcomes_fit_the_tables();
    every_step_keeps_a_core_sound();
}
