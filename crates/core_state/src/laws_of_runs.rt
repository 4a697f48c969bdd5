//! What holds of every core, whatever steps led to it.
ghost use Rattle.std.specs.Prelude.{List};
ghost use Rattle.core_state.specs.Settings.{AreWithin};
ghost use Rattle.core_state.specs.Sound.{IsSound, empty_core};
ghost use Rattle.core_state.specs.State.{State};
ghost use Rattle.core_state.specs.Steps.{MayStep, MayStepAll, Step, after_step, after_steps};
ghost use Rattle.core_state.specs.declared.settings.RunSettings.{RunSettings};

use crate::laws::an_empty_core_is_sound;
use crate::laws_of_batches::{
    a_carried_batch_keeps_a_core_sound, a_distributed_batch_keeps_a_core_sound,
    a_given_batch_keeps_a_core_sound, a_taken_batch_keeps_a_core_sound,
};
use crate::laws_of_filters::{a_build_keeps_a_core_sound, a_clearing_keeps_a_core_sound};
use crate::laws_of_order::a_new_order_keeps_a_core_sound;
use crate::laws_of_queries::{
    a_query_without_memory_keeps_a_core_sound, a_taken_reply_keeps_a_core_sound,
    an_abandoned_query_keeps_a_core_sound,
};
use crate::laws_of_slots::{
    a_finish_keeps_a_core_sound, a_release_keeps_a_core_sound, a_reservation_keeps_a_core_sound,
    a_start_keeps_a_core_sound,
};
use crate::laws_of_statements::a_statement_keeps_a_core_sound;
use crate::laws_of_the_scan::a_cut_keeps_a_core_sound;

/// Each step keeps a core sound: each event that may come, whether there is memory for it or not,
/// and each reply that is taken.
pub fn every_step_keeps_a_core_sound()
    ensures { (step : Step) (state : State) → MayStep state step → IsSound state →
        IsSound (after_step step state) }
{
    a_statement_keeps_a_core_sound();
    a_reservation_keeps_a_core_sound();
    a_build_keeps_a_core_sound();
    a_query_without_memory_keeps_a_core_sound();
    a_start_keeps_a_core_sound();
    a_cut_keeps_a_core_sound();
    a_taken_batch_keeps_a_core_sound();
    a_carried_batch_keeps_a_core_sound();
    a_given_batch_keeps_a_core_sound();
    a_distributed_batch_keeps_a_core_sound();
    a_finish_keeps_a_core_sound();
    a_clearing_keeps_a_core_sound();
    a_release_keeps_a_core_sound();
    a_new_order_keeps_a_core_sound();
    an_abandoned_query_keeps_a_core_sound();
    a_taken_reply_keeps_a_core_sound();
}

/// Whatever steps came one after the other, from no tables on, the core is sound;
/// and so from any sound core.
pub fn every_core_is_sound()
    ensures on { (steps : List Step) (state : State) → MayStepAll state steps → IsSound state →
        IsSound (after_steps steps state) }
    ensures from_none { (settings : RunSettings) (steps : List Step) → AreWithin settings →
        MayStepAll (empty_core settings) steps → IsSound (after_steps steps (empty_core settings)) }
{
    an_empty_core_is_sound();
    every_step_keeps_a_core_sound();
}
