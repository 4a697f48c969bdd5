//! Deletes: the versions that one ends.
ghost use Rattle.std.specs.Prelude.{◌≡◌, ◌-◌, ◌^◌, List, true, All, IfSome, IsErrOf, IsTrue, option_map};
ghost use Rattle.star_values.specs.Roomy.{Roomy};
ghost use Rattle.star_plan.specs.Columns.{kinds_of};
ghost use Rattle.star_plan.specs.Fits.{fits_table, some_test_fits};
ghost use Rattle.star_plan.specs.Test.{test_of};
ghost use Rattle.dimension_rows.specs.declared.dimension_row.DimensionRow.{DimensionRow};
ghost use Rattle.query_meaning.specs.Keyed.{HasKeyNumbers, plain};
ghost use Rattle.star_store.specs.Deletes.{delete_change};
ghost use Rattle.star_store.specs.Done.{Commits};
ghost use Rattle.query_meaning.specs.KeptTables.{tables_of};

use crate::done::Done;
use crate::ends::end_versions;
use fact_versions::FactVersions;
use star_plan::{Predicate, Schema, rows_fit_by_their_kinds};
use star_values::{Refusal, StatementFault};

/// Ends every version that no commit ended and on which the condition, if there is one,
/// holds, as the next commit.
pub(crate) fn delete(
    schema: &Schema,
    facts: &mut FactVersions,
    commits: &mut u64,
    condition: Option<&Predicate>,
) -> Result<Done, StatementFault>
    requires fit { IfSome schema.now.fact (λ table.
        All (λ version. IsTrue (fits_table table version.row)) facts.old.items) }
    requires condition { IfSome schema.now.fact (λ table.
        some_test_fits (kinds_of table.columns) (option_map (λ p. test_of p.now) condition)
        ≡ true) }
    ensures commits { (dims : List (Roomy DimensionRow)) → Commits
        (delete_change (plain (tables_of schema.now dims facts.old commits.old))
        (option_map (λ p. test_of p.now) condition.entry))
        (tables_of schema.now dims facts.old commits.old)
        (tables_of schema.now dims facts.new commits.new) result }
    ensures keyed { (dimensions : List (List DimensionRow)) →
        All (HasKeyNumbers schema.now dimensions) facts.old.items →
        All (HasKeyNumbers schema.now dimensions) facts.new.items }
    ensures memory { IsErrOf result StatementFault.Memory → commits.old ≡ 2 ^ 64 - 1 }
{
    rows_fit_by_their_kinds();
    if schema.fact.is_none() {
        return Err(StatementFault::Refused(Refusal::OutOfOrder));
    }
    let Some(commit) = commits.checked_add(1) else {
        return Err(StatementFault::Memory);
    };
    let rows = end_versions(facts, condition, commit);
    *commits = commit;
    Ok(Done { commit, rows })
}
