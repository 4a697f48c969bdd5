//! What a core keeps of each change beside its tables.
ghost use Rattle.std.specs.Prelude.{◌≡◌, List, All, IfSome, map};
ghost use Rattle.script_reader.specs.declared.statement.Statement.{Statement};
ghost use Rattle.query_meaning.specs.Accepted.{AcceptsAll};
ghost use Rattle.query_meaning.specs.History.{Change, store_of};
ghost use Rattle.query_meaning.specs.Store.{Store, empty_store};
ghost use Rattle.star_store.specs.Kinds.{kind_of_change};
ghost use Rattle.star_store.specs.Outcome.{outcome_of};
ghost use Rattle.core_state.specs.Logged.{EndsAscending, changes_told};
ghost use Rattle.core_state.specs.Settings.{AreWithin};
ghost use Rattle.core_state.specs.Sound.{empty_core};
ghost use Rattle.core_state.specs.Steps.{MayStepAll, Step, after_steps};
ghost use Rattle.core_state.specs.Tables.{changes_of, tables_of};
ghost use Rattle.core_state.specs.declared.settings.RunSettings.{RunSettings};

use crate::laws_of_runs::every_core_is_sound;
use query_meaning::accepted_histories_are_settled;

/// The changes of a history follow from its tables and the kinds of its changes, where each delete
/// names its positions ascending.
pub fn changes_follow_from_the_tables()
    ensures { (history : List Change) → AcceptsAll empty_store history → All EndsAscending history →
        changes_told (store_of history) 0 1 (map kind_of_change history) ≡ history }
{
    accepted_histories_are_settled();
}

/// The deletes of statements name their positions ascending.
pub fn deletes_name_ascending_positions()
    ensures { (store : Store) (statement : Statement) →
        IfSome (outcome_of store statement).change EndsAscending }
{}

/// The history of every core follows from its tables and the kinds of its changes,
/// whatever steps led to it.
pub fn every_history_follows_from_its_tables()
    ensures { (settings : RunSettings) (steps : List Step) → AreWithin settings →
        MayStepAll (empty_core settings) steps →
        changes_told (tables_of (after_steps steps (empty_core settings))) 0 1
        (map kind_of_change (changes_of (after_steps steps (empty_core settings)).entries))
        ≡ changes_of (after_steps steps (empty_core settings)).entries }
{
    every_core_is_sound();
    changes_follow_from_the_tables();
}
