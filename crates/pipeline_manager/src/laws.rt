//! What holds of all lives and slots, whatever call made them.
ghost use Rattle.std.specs.Prelude.{◌≡◌, ◌≢◌, ℕ, ◌<◌, List, length, option_map, Some, IsSome};
ghost use Rattle.pipeline_manager.specs.declared.life.Life.{Life};
ghost use Rattle.pipeline_manager.specs.declared.life.SlotState.{SlotState};
ghost use Rattle.pipeline_manager.specs.declared.life.SlotState.TheVariants.{Held};
ghost use Rattle.pipeline_manager.specs.declared.life.QueryLife.{QueryLife};
ghost use Rattle.pipeline_manager.specs.Lives.{Lives, query_in, life_in, life_of, slot_at, slot_of, built_of};
ghost use Rattle.pipeline_manager.specs.Conditions.{IsNew, CanReserve, CanBuild, CanRun, CanCutRange, CanEnd, CanClear, CanFree, CanSpoil, CanAbandon};
ghost use Rattle.pipeline_manager.specs.Changes.{with_life, with_slot, covered, cut_life, after_submit, after_reserve, after_built, after_run, after_cut, after_end, after_cleared, after_free, after_spoil, after_abandon};
ghost use Rattle.pipeline_manager.specs.Sound.{AreSoundLives};

use bit_words::numbers_go_in_and_out;

/// Each call that takes or reads a slot keeps what holds of all lives and slots.
pub fn calls_on_slots_keep_lives_sound()
    ensures reserve { (slot : ℕ) (lives : Lives) → slot < length lives.slots →
        CanReserve slot lives →
        AreSoundLives lives → AreSoundLives (after_reserve slot lives) }
    ensures built { (query dimension : ℕ) (lives : Lives) → CanBuild query dimension lives →
        AreSoundLives lives → AreSoundLives (after_built query dimension lives) }
    ensures ends { (slot : ℕ) (lives : Lives) → slot < length lives.slots → CanEnd slot lives →
        AreSoundLives lives → AreSoundLives (after_end slot lives) }
    ensures cleared { (slot dimension : ℕ) (lives : Lives) → slot < length lives.slots →
        CanClear slot dimension lives → AreSoundLives lives →
        AreSoundLives (after_cleared slot dimension lives) }
    ensures free { (slot : ℕ) (lives : Lives) → slot < length lives.slots → CanFree slot lives →
        AreSoundLives lives → AreSoundLives (after_free slot lives) }
{
    numbers_go_in_and_out();
}

/// Each call that changes lives alone keeps what holds of all lives and slots.
pub fn calls_on_queries_keep_lives_sound()
    ensures submit { (query extent : ℕ) (lives : Lives) → IsNew query lives →
        AreSoundLives lives → AreSoundLives (after_submit query extent lives) }
    ensures run { (query start : ℕ) (lives : Lives) → CanRun query lives →
        AreSoundLives lives → AreSoundLives (after_run query start lives) }
    ensures cut { (first last : ℕ) (lives : Lives) → CanCutRange first last lives →
        AreSoundLives lives → AreSoundLives (after_cut first last lives) }
    ensures spoil { (query : ℕ) (lives : Lives) → CanSpoil query lives →
        AreSoundLives lives → AreSoundLives (after_spoil query lives) }
    ensures abandon { (query : ℕ) (lives : Lives) → CanAbandon query lives →
        AreSoundLives lives → AreSoundLives (after_abandon query lives) }
{}

/// A life that is written is that of its query, and every other query keeps its own.
pub fn lives_change_alone()
    ensures written { (query : ℕ) (life : Life) (queries : List QueryLife) →
        life_in (with_life query life queries) query
        ≡ option_map (λ old. life) (life_in queries query) }
    ensures others { (query other : ℕ) (life : Life) (queries : List QueryLife) → other ≢ query →
        life_in (with_life query life queries) other ≡ life_in queries other }
    ensures cut { (first last query : ℕ) (lives : Lives) →
        life_of (after_cut first last lives) query ≡ option_map
        (λ entry. cut_life (covered first last entry.extent) entry.life)
        (query_in lives.queries query) }
{}

/// A state that is written is that of its slot, and every other slot keeps its own.
pub fn slots_change_alone()
    ensures written { (slot : ℕ) (state : SlotState) (lives : Lives) → slot < length lives.slots →
        slot_at (with_slot slot state lives) slot ≡ state }
    ensures others { (slot other : ℕ) (state : SlotState) (lives : Lives) → other ≢ slot →
        slot_at (with_slot slot state lives) other ≡ slot_at lives other }
{}

/// A slot that a query holds is the first that it holds, and what is built there is built for it. A
/// query that is Building, Running or Ending holds one.
pub fn holders_are_found()
    ensures slot { (lives : Lives) (slot query built : ℕ) → AreSoundLives lives →
        slot < length lives.slots →
        slot_at lives slot ≡ Held query built → slot_of lives query ≡ Some slot }
    ensures built { (lives : Lives) (slot query built : ℕ) → AreSoundLives lives →
        slot < length lives.slots →
        slot_at lives slot ≡ Held query built → built_of lives query ≡ built }
    ensures begun { (lives : Lives) (query : ℕ) → AreSoundLives lives → CanSpoil query lives →
        IsSome (slot_of lives query) }
{}
