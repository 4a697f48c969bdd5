//! The versions that a delete ends.
ghost use Rattle.std.specs.Prelude.{◌≡◌, true, All, fold, length, map, option_map};
ghost use Rattle.fact_versions.specs.Ends.{with_end};
ghost use Rattle.star_plan.specs.Fits.{some_test_fits};
ghost use Rattle.star_values.specs.Value.{kinds_in};
ghost use Rattle.star_plan.specs.Test.{test_of};
ghost use Rattle.star_plan.specs.Truth.{passes};
ghost use Rattle.query_meaning.specs.Keyed.{plain_version};
ghost use Rattle.star_store.specs.Deletes.{is_ended_by, positions_of};

use fact_versions::{FactVersions, Version};
use star_plan::{Predicate, holds};
use star_values::Row;

/// Ends every version that no commit ended and on whose row the condition, if there is one,
/// holds. It answers how many.
pub(crate) fn end_versions(
    facts: &mut FactVersions,
    condition: Option<&Predicate>,
    commit: u64,
) -> u64
    requires fits { All (λ version.
        some_test_fits (kinds_in version.row) (option_map (λ p. test_of p.now) condition) ≡ true)
        facts.old.items }
    ensures versions { facts.new.items
        ≡ fold (λ versions position. with_end versions position commit) facts.old.items
        (positions_of (option_map (λ p. test_of p.now) condition.entry)
        (map plain_version facts.old.items)) }
    ensures count { result ≡ length (positions_of (option_map (λ p. test_of p.now) condition.entry)
        (map plain_version facts.old.items)) }
{
    let mut ended = 0;
    'positions: for position in 0..facts.len() {
        if is_ended_by(condition, facts.version(position)) {
            facts.end_at(position, commit);
            ended += 1;
        }
    }
    ended
}

/// Whether a delete ends a version.
fn is_ended_by(condition: Option<&Predicate>, version: &Version) -> bool
    requires { some_test_fits (kinds_in version.now.row) (option_map (λ p. test_of p.now) condition)
        ≡ true }
    ensures { result
        ≡ is_ended_by (option_map (λ p. test_of p.now) condition.entry)
        (plain_version version.now) }
{
    version.end == 0 && passes(condition, &version.row)
}

/// Whether a condition, if there is one, holds on a row.
fn passes(condition: Option<&Predicate>, row: &Row) -> bool
    requires { some_test_fits (kinds_in row.now) (option_map (λ p. test_of p.now) condition)
        ≡ true }
    ensures { result ≡ passes (option_map (λ p. test_of p.now) condition.entry) row.now }
{
    match condition {
        Some(predicate) => holds(predicate, row),
        None => true,
    }
}
