//! The states of slots.
ghost use Rattle.std.specs.Prelude.{◌≡◌, ℕ, ◌+◌, ◌^◌, ◌<◌, ◌≤◌, false, length, position, slice_index_or, slice_set, take, IfSome};
ghost use Rattle.bit_words.specs.Sets.{with_number, without};
ghost use Rattle.pipeline_manager.specs.declared.life.SlotState.TheVariants.{Free};
ghost use Rattle.pipeline_manager.specs.Lives.{is_free, is_held_by};
ghost use Rattle.pipeline_manager.specs.Changes.{with_dimension, without_dimension};
ghost use Rattle.pipeline_manager.specs.Inside.{UsesFirst};

use crate::life::SlotState;
use star_values::ListOf;

/// The slots at the front, of which there are so many.
pub(crate) fn in_front(slots: &[SlotState], count: usize) -> &[SlotState]
    requires { count ≤ length slots.now }
    ensures { result.now ≡ take count slots.now }
{
    &slots[..count]
}

/// How many slots at the front have all that are in use, and no fewer would.
/// The first `used` have all.
pub(crate) fn count_used(slots: &[SlotState], used: usize) -> usize
    requires { UsesFirst used slots.now }
    ensures all { UsesFirst result slots.now }
    ensures last { (slot : ℕ) → result ≡ slot + 1 →
        is_free (slice_index_or slots.now slot Free) ≡ false }
{
    let mut count = used;
    while count > 0 {
        if !is_free(&slots[count - 1]) {
            return count;
        }
        count -= 1;
    }
    0
}

/// The first slot that is Free.
pub(crate) fn first_free(slots: &[SlotState]) -> Option<usize>
    ensures first { result ≡ position is_free slots.now }
    ensures within { IfSome result (λ slot. slot < length slots.now) }
{
    slots.iter().position(is_free)
}

fn is_free(state: &SlotState) -> bool
    ensures { result ≡ is_free state.now }
{
    matches!(state, SlotState::Free)
}

/// The first slot that the query holds. The first `used` slots have all that are in use.
pub(crate) fn first_held(slots: &[SlotState], used: usize, query: u64) -> Option<usize>
    requires { UsesFirst used slots.now }
    ensures first { result ≡ position (is_held_by query) slots.now }
    ensures within { IfSome result (λ slot. slot < length slots.now) }
{
    place_held(in_front(slots, used), query)
}

/// The place of the first of these slots that the query holds.
fn place_held(slots: &[SlotState], query: u64) -> Option<usize>
    ensures first { result ≡ position (is_held_by query) slots.now }
    ensures within { IfSome result (λ slot. slot < length slots.now) }
{
    slots.iter().position(|state| is_held_by(state, query))
}

fn is_held_by(state: &SlotState, query: u64) -> bool
    ensures { result ≡ is_held_by query state.now }
{
    match state {
        SlotState::Held { query: holder, .. } => *holder == query,
        _ => false,
    }
}

pub(crate) fn set_slot(slots: &mut ListOf<SlotState>, slot: usize, state: SlotState)
    requires { slot < length slots.old }
    ensures { slots.new ≡ slice_set slots.old slot state }
{
    slots.as_mut_slice()[slot] = state;
}

/// The state with one dimension more that is built, if a query holds the slot.
pub(crate) fn with_dimension(state: SlotState, dimension: u8) -> SlotState
    requires { dimension < 8 }
    ensures { result ≡ with_dimension dimension state }
{
    match state {
        SlotState::Held { query, built } => SlotState::Held {
            query,
            built: with_bit(built, dimension),
        },
        other => other,
    }
}

/// The state with one dimension less to be cleared.
pub(crate) fn without_dimension(state: SlotState, dimension: u8) -> SlotState
    requires { dimension < 8 }
    ensures { result ≡ without_dimension dimension state }
{
    match state {
        SlotState::Clearing(left) => SlotState::Clearing(without_bit(left, dimension)),
        other => other,
    }
}

fn with_bit(bits: u8, number: u8) -> u8
    requires { number < 8 }
    ensures { result ≡ with_number bits number }
{
    bits | (1 << number)
}

fn without_bit(bits: u8, number: u8) -> u8
    requires { number < 8 }
    ensures { result ≡ without bits (2 ^ number) }
{
    // The bit is set first, so that it is known to be there when it is turned over.
    let bit = 1 << number;
    (bits | bit) ^ bit
}
