//! Whether the tables of a select are joined, and by key joins alone.
ghost use Rattle.std.specs.Prelude.{◌≡◌, map, IfOk};
ghost use Rattle.std.specs.List.{list_any};
ghost use Rattle.star_parser.specs.Condition.{condition_of};
ghost use Rattle.star_binder.specs.Conjuncts.{is_mixed, joins};
ghost use Rattle.star_binder.specs.Refused.{is_not_joined, lacks_a_join};

use crate::bound::has_table;
use crate::conjuncts::{is_mixed, joins};
use crate::scope::Scope;
use star_parser::Tree;
use star_plan::Table;
use star_values::NoMemory;
use std::alloc::Global;

/// Whether the fact table is missing in FROM, or a dimension is not joined.
pub(crate) fn lacks_a_join(scope: &Scope, conjuncts: &[Tree]) -> bool
    ensures { result ≡ lacks_a_join scope.now
        (map condition_of conjuncts.now) }
{
    !has_table(scope.tables, Table::Fact) || has_table_that_is_not_joined(scope, conjuncts)
}

fn has_table_that_is_not_joined(scope: &Scope, conjuncts: &[Tree]) -> bool
    ensures { result ≡ list_any (is_not_joined scope.now
        (map condition_of conjuncts.now))
        scope.now.tables }
{
    'tables: for table in scope.tables {
        if is_not_joined(scope, conjuncts, *table) {
            return true;
        }
    }
    false
}

fn is_not_joined(scope: &Scope, conjuncts: &[Tree], table: Table) -> bool
    ensures { result ≡ is_not_joined scope.now
        (map condition_of conjuncts.now) table }
{
    match table {
        Table::Fact => false,
        Table::Dimension(dimension) => !is_joined(scope, conjuncts, dimension),
    }
}

fn is_joined(scope: &Scope, conjuncts: &[Tree], dimension: u8) -> bool
    ensures { result ≡ list_any (joins scope.now dimension)
        (map condition_of conjuncts.now) }
{
    'conjuncts: for conjunct in conjuncts {
        if joins(scope, dimension, conjunct) {
            return true;
        }
    }
    false
}

/// Whether a conjunct names columns of two tables, and is no key join.
pub(crate) fn has_mixed_conjunct(
    alloc: Global,
    scope: &Scope,
    conjuncts: &[Tree],
) -> Result<bool, NoMemory>
    ensures { IfOk result (λ mixed. mixed
        ≡ list_any (is_mixed scope.now)
        (map condition_of conjuncts.now)) }
{
    'conjuncts: for conjunct in conjuncts {
        if is_mixed(alloc, scope, conjunct)? {
            return Ok(true);
        }
    }
    Ok(false)
}
