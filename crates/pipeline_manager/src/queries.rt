//! The queries in the order of their submission, found by their numbers, which rise.
ghost use Rattle.std.specs.Prelude.{◌≡◌, ℕ, ◌<◌, ◌≤◌, length, map, take, find, option_map, slice_index_or, MatchOption, All, false, true, nat_lt, ◌==◌, slice_get, Some, IfSome};
ghost use Rattle.std.specs.List.{list_any};
ghost use Rattle.std.specs.List.Sorted.{IsPartitionPoint};
ghost use Rattle.pipeline_manager.specs.Lives.{is_waiting, query_in, life_in, extent_in};
ghost use Rattle.pipeline_manager.specs.Conditions.{is_open};
ghost use Rattle.pipeline_manager.specs.Changes.{with_life, is_ending, with_answer, started, covered, cut_life, cut_query};
ghost use Rattle.std.specs.Option.{option_map_or};
ghost use Rattle.pipeline_manager.specs.Sound.{AreRising, slots_held};
ghost use Rattle.pipeline_manager.specs.Inside.{NoneWaits, changed_if, is_running, holder_runs};
ghost use Rattle.pipeline_manager.specs.LetGo.{AreClosed, cut_held};

use crate::life::{Life, QueryLife, SlotState};
use star_values::ListOf;

/// The query with this number.
fn find_query(queries: &[QueryLife], query: u64) -> Option<&QueryLife>
    requires { AreRising queries.now }
    ensures { option_map (λ entry. entry.now) result ≡ query_in queries.now query }
{
    let place = place_of(queries, query)?;
    Some(&queries[place])
}

/// The extent of a query, or 0 where none has the number.
pub(crate) fn extent_of(queries: &[QueryLife], query: u64) -> u32
    requires { AreRising queries.now }
    ensures { result ≡ extent_in queries.now query }
{
    match find_query(queries, query) {
        None => 0,
        Some(entry) => entry.extent,
    }
}

/// The life of a query, or `None` where none has the number.
pub(crate) fn life_of(queries: &[QueryLife], query: u64) -> Option<Life>
    requires { AreRising queries.now }
    ensures { result ≡ life_in queries.now query }
{
    Some(find_query(queries, query)?.life)
}

/// Whether a query is Ending.
fn is_ending(queries: &[QueryLife], query: u64) -> bool
    requires { AreRising queries.now }
    ensures { result ≡ option_map_or is_ending (life_in queries.now query) false }
{
    match find_query(queries, query) {
        None => false,
        Some(entry) => matches!(entry.life, Life::Ending),
    }
}

/// Notes that a query is Answered, if it was Ending.
pub(crate) fn answer(queries: &mut ListOf<QueryLife>, query: u64)
    requires { AreRising queries.old }
    ensures { queries.new ≡ with_answer query queries.old }
{
    if is_ending(queries.as_slice(), query) {
        set_life(queries, query, Life::Answered);
    }
}

/// Gives a query another life. Where none has the number, all stay as they are.
pub(crate) fn set_life(queries: &mut ListOf<QueryLife>, query: u64, life: Life)
    requires { AreRising queries.old }
    ensures { queries.new ≡ with_life query life queries.old }
{
    if let Some(place) = place_of(queries.as_slice(), query) {
        queries.as_mut_slice()[place].life = life;
    }
}

/// The place of the query with this number.
fn place_of(queries: &[QueryLife], query: u64) -> Option<usize>
    requires { AreRising queries.now }
    ensures { MatchOption result (All (λ entry. entry.query ≡ query → ⊥) queries.now)
        (λ place.
        (place < length queries.now)
        × ((d : QueryLife) → (slice_index_or queries.now place d).query ≡ query)) }
{
    match place_by_first(queries, query) {
        Some(place) => Some(place),
        None => place_by_search(queries, query),
    }
}

/// The place of the query with this number, where each query in front of it has the number behind
/// the one before, as those of a burst have; else it may answer `None`.
fn place_by_first(queries: &[QueryLife], query: u64) -> Option<usize>
    ensures { IfSome result (λ place. (place < length queries.now)
        × ((d : QueryLife) → (slice_index_or queries.now place d).query ≡ query)) }
{
    let first = queries.first()?.query;
    if query < first {
        return None;
    }
    let place = (query - first) as usize;
    if place < queries.len() && queries[place].query == query {
        Some(place)
    } else {
        None
    }
}

/// The place of the query with this number, which is searched for.
fn place_by_search(queries: &[QueryLife], query: u64) -> Option<usize>
    requires { AreRising queries.now }
    ensures { MatchOption result (All (λ entry. entry.query ≡ query → ⊥) queries.now)
        (λ place.
        (place < length queries.now)
        × ((d : QueryLife) → (slice_index_or queries.now place d).query ≡ query)) }
{
    let place = first_from(queries, query);
    if place < queries.len() && queries[place].query == query {
        Some(place)
    } else {
        None
    }
}

/// The place of the first query with this number or a greater one.
fn first_from(queries: &[QueryLife], query: u64) -> usize
    requires { AreRising queries.now }
    ensures bound { result ≤ length queries.now }
    ensures halves { IsPartitionPoint (λ entry. entry.query < query)
        (λ entry. query ≤ entry.query) queries.now result }
{
    queries.partition_point(|entry| entry.query < query)
}

/// The place of the first query that waits, or how many queries there are. None in front of `from`
/// waits.
pub(crate) fn first_waiting(queries: &[QueryLife], from: usize) -> usize
    requires in_range { from ≤ length queries.now }
    requires passed { NoneWaits from queries.now }
    ensures in_range { result ≤ length queries.now }
    ensures passed { NoneWaits result queries.now }
    ensures waits { slice_get queries.now result
        ≡ find (λ entry. is_waiting entry.life) queries.now }
{
    for place in from..queries.len() {
        if is_waiting(&queries[place].life) {
            return place;
        }
    }
    queries.len()
}

fn is_waiting(life: &Life) -> bool
    ensures { result ≡ is_waiting life.now }
{
    matches!(life, Life::Waiting)
}

/// The number of the first query that waits, or `None` where none does. None
/// in front of `from` waits.
pub(crate) fn oldest_waiting(queries: &[QueryLife], from: usize) -> Option<u64>
    requires in_range { from ≤ length queries.now }
    requires passed { NoneWaits from queries.now }
    ensures { result
        ≡ option_map (λ entry. entry.query) (find (λ entry. is_waiting entry.life) queries.now) }
{
    let place = first_waiting(queries, from);
    Some(queries.get(place)?.query)
}

/// How many lives at the front are over. The first `from` are.
pub(crate) fn first_open(queries: &[QueryLife], from: usize) -> usize
    requires { AreClosed from queries.now }
    ensures { AreClosed result queries.now }
{
    for place in from..queries.len() {
        if is_open(&queries[place].life) {
            return place;
        }
    }
    queries.len()
}

fn is_open(life: &Life) -> bool
    ensures { result ≡ is_open life.now }
{
    !matches!(life, Life::Answered | Life::Spoiled | Life::Abandoned)
}

/// The queries at the front, of which there are so many.
pub(crate) fn in_front(queries: &[QueryLife], count: usize) -> &[QueryLife]
    requires { count ≤ length queries.now }
    ensures { result.now ≡ take count queries.now }
{
    &queries[..count]
}

/// The life of a query of this extent that is to be given rows from `start` on.
pub(crate) fn started(start: u32, extent: u32) -> Life
    ensures { result ≡ started start extent }
{
    if extent == 0 {
        return Life::Ending;
    }
    Life::Running {
        start,
        left: extent,
    }
}

/// How many of the positions from `first` to `last`, both included, are below an extent.
fn covered(first: u32, last: u32, extent: u32) -> u32
    ensures { result ≡ covered first last extent }
{
    let end = if last < extent { last + 1 } else { extent };
    end.saturating_sub(first)
}

/// The life of a query for which so many positions more were scanned.
fn cut_life(positions: u32, life: Life) -> Life
    ensures { result ≡ cut_life positions life }
{
    match life {
        Life::Running { start, left } => started(start, left.saturating_sub(positions)),
        other => other,
    }
}

/// Notes that the positions from `first` to `last` were scanned, of each query that
/// holds a slot. None holds two.
pub(crate) fn cut_holders(
    queries: &mut ListOf<QueryLife>,
    slots: &[SlotState],
    first: u32,
    last: u32,
)
    requires rising { AreRising queries.old }
    requires one { (query : ℕ) → slots_held query slots.now ≤ 1 }
    ensures { queries.new ≡ map (cut_held first last slots.now) queries.old }
{
    for state in slots {
        if let SlotState::Held { query, .. } = state {
            cut_query(queries, *query, first, last);
        }
    }
}

/// The same for one query. Where none has the number, all stay as they are.
fn cut_query(queries: &mut ListOf<QueryLife>, query: u64, first: u32, last: u32)
    requires { AreRising queries.old }
    ensures { queries.new ≡ map (changed_if query (cut_query first last)) queries.old }
{
    if let Some(place) = place_of(queries.as_slice(), query) {
        let entry = &mut queries.as_mut_slice()[place];
        entry.life = cut_life(covered(first, last, entry.extent), entry.life);
    }
}

/// Whether the holder of some slot is Running.
pub(crate) fn some_holder_runs(queries: &[QueryLife], slots: &[SlotState]) -> bool
    requires { AreRising queries.now }
    ensures { result ≡ list_any (holder_runs queries.now) slots.now }
{
    for state in slots {
        if holder_runs(queries, state) {
            return true;
        }
    }
    false
}

fn holder_runs(queries: &[QueryLife], state: &SlotState) -> bool
    requires { AreRising queries.now }
    ensures { result ≡ holder_runs queries.now state.now }
{
    match state {
        SlotState::Held { query, .. } => is_running(queries, *query),
        _ => false,
    }
}

/// Whether a query is Running.
fn is_running(queries: &[QueryLife], query: u64) -> bool
    requires { AreRising queries.now }
    ensures { result ≡ option_map_or is_running (life_in queries.now query) false }
{
    match find_query(queries, query) {
        None => false,
        Some(entry) => matches!(entry.life, Life::Running { .. }),
    }
}
