//! What no step of a core takes away.
ghost use Rattle.std.specs.Prelude.{◌≡◌, ◌⊎◌, ℕ, List, Contains, Some};
ghost use Rattle.star_plan.specs.Test.{Query};
ghost use Rattle.pipeline_manager.specs.Lives.{life_of};
ghost use Rattle.pipeline_manager.specs.declared.life.Life.TheVariants as life;
ghost use Rattle.core_state.specs.Settings.{AreWithin};
ghost use Rattle.core_state.specs.Sound.{HasAccepted, IsSound, empty_core};
ghost use Rattle.core_state.specs.State.{State};
ghost use Rattle.core_state.specs.Steps.{Done, MayStep, MayStepAll, Step, after_step, after_steps};
ghost use Rattle.core_state.specs.Submitting.{seat_at};
ghost use Rattle.core_state.specs.Whole.{LosesNone};
ghost use Rattle.core_state.specs.declared.event.Event.TheVariants.{Abandon};
ghost use Rattle.core_state.specs.declared.settings.RunSettings.{RunSettings};

use crate::laws_of_runs::{every_core_is_sound, every_step_keeps_a_core_sound};

/// No step loses a statement: each one that was submitted is still waited for, or its reply was
/// taken, or its query was abandoned; and so it is in every sound core.
pub fn no_step_loses_a_statement()
    ensures step { (step : Step) (state : State) → MayStep state step → IsSound state →
        LosesNone state → LosesNone (after_step step state) }
    ensures sound { (state : State) → IsSound state → LosesNone state }
    ensures first { (settings : RunSettings) → LosesNone (empty_core settings) }
{
    every_step_keeps_a_core_sound();
}

/// Whatever steps came one after the other, from no tables on, no statement is lost.
pub fn no_core_has_lost_a_statement()
    ensures { (settings : RunSettings) (steps : List Step) → AreWithin settings →
        MayStepAll (empty_core settings) steps →
        LosesNone (after_steps steps (empty_core settings)) }
{
    every_core_is_sound();
    no_step_loses_a_statement();
}

/// No step but its own event abandons a query.
pub fn only_abandon_abandons()
    ensures { (step : Step) (state : State) (number : ℕ) →
        life_of (after_step step state).lives number ≡ Some life.Abandoned →
        (life_of state.lives number ≡ Some life.Abandoned) ⊎ (step ≡ Done (Abandon number)) }
{}

/// A query's number, its query and its snapshot never change, and it is never dropped.
pub fn no_step_changes_what_is_asked()
    ensures { (step : Step) (state : State) (number : ℕ) (query : Query) (snapshot : ℕ) →
        MayStep state step → IsSound state → HasAccepted state.accepted number query snapshot →
        HasAccepted (after_step step state).accepted number query snapshot }
{}

/// No step takes a statement back: what a seat submitted it has submitted after it.
pub fn no_step_takes_a_statement_back()
    ensures { (step : Step) (state : State) (seat statement : ℕ) → MayStep state step →
        IsSound state →
        Contains (seat_at state seat).submitted statement →
        Contains (seat_at (after_step step state) seat).submitted statement }
{}
