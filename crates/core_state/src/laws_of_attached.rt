//! What a distributor has at each slot follows the core.
ghost use Rattle.std.specs.Prelude.{◌≡◌, ℕ, [], replicate, slice_get, slice_set, Some, None, IsSome};
ghost use Rattle.aggregations.specs.Grouped.{grouped_of};
ghost use Rattle.pipeline_manager.specs.Conditions.{CanAbandon, CanBuild, CanRun};
ghost use Rattle.pipeline_manager.specs.Lives.{life_of, slot_at, slot_of};
ghost use Rattle.pipeline_manager.specs.declared.life.Life.TheVariants.{Answered, Ending};
ghost use Rattle.pipeline_manager.specs.declared.life.SlotState.TheVariants.{Held};
ghost use Rattle.core_state.specs.Admitting.{after_build_wants, after_finish, after_start};
ghost use Rattle.core_state.specs.Events.{IsEnabled, MayFinish, after_event};
ghost use Rattle.core_state.specs.Found.{accepted_at};
ghost use Rattle.core_state.specs.Handed.{LeavesAttached, attached_to, detached_for};
ghost use Rattle.core_state.specs.Sound.{IsSound, empty_core};
ghost use Rattle.core_state.specs.State.{Accepted, State};
ghost use Rattle.core_state.specs.Submitting.{after_abandoning, after_taking, groups_in, next_ready};
ghost use Rattle.core_state.specs.declared.event.Event.{Event};
ghost use Rattle.core_state.specs.declared.settings.RunSettings.{RunSettings};

/// What a distributor of the core has at a slot, where a query begins to get rows or ceases to:
/// Start attaches the groups of no rows at the slot of a query that begins its lap, where nothing
/// was; Finish and Abandon detach what the query of the slot had; what is detached as a query is
/// answered is what the core keeps as its answer.
pub fn a_distributor_follows_the_core()
    ensures start { (state : State) (query slot : ℕ) (accepted : Accepted) → IsSound state →
        CanRun query state.lives → slot_of state.lives query ≡ Some slot →
        accepted_at state.accepted query ≡ Some accepted →
        (attached_to (after_start query state)
        ≡ slice_set (attached_to state) slot (Some (grouped_of accepted.query [])))
        × (slice_get (attached_to state) slot ≡ Some None) }
    ensures finish { (state : State) (slot : ℕ) → IsSound state → MayFinish slot state →
        attached_to (after_finish slot state) ≡ slice_set (attached_to state) slot None }
    ensures answer { (state : State) (slot query built : ℕ) (accepted : Accepted) → IsSound state →
        slot_at state.lives slot ≡ Held query built → life_of state.lives query ≡ Some Ending →
        accepted_at state.accepted query ≡ Some accepted →
        (slice_get (attached_to state) slot ≡ Some accepted.groups)
        × IsSome accepted.groups
        × (groups_in (after_finish slot state) query ≡ accepted.groups)
        × (life_of (after_finish slot state).lives query ≡ Some Answered) }
    ensures abandon { (state : State) (query : ℕ) → IsSound state → CanAbandon query state.lives →
        attached_to (after_abandoning query state)
        ≡ detached_for state.lives query (attached_to state) }
{}

/// Every other event that folds no rows leaves what a distributor of the core has, also where
/// memory is wanted for a filter, and so does a reply that is taken.
pub fn other_events_leave_a_distributor()
    ensures event { (state : State) (event : Event) → IsSound state → IsEnabled state event →
        LeavesAttached event →
        attached_to (after_event event state) ≡ attached_to state }
    ensures wants { (state : State) (query dimension : ℕ) → CanBuild query dimension state.lives →
        attached_to (after_build_wants query state) ≡ attached_to state }
    ensures taken { (state : State) (seat : ℕ) → IsSound state → IsSome (next_ready state seat) →
        attached_to (after_taking seat state) ≡ attached_to state }
{}

/// A new distributor has what that of an empty core has: nothing at any slot.
pub fn a_new_distributor_is_that_of_an_empty_core()
    ensures { (settings : RunSettings) →
        attached_to (empty_core settings) ≡ replicate settings.slots None }
{}
