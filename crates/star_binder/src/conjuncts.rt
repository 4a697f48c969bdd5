//! The conjuncts of a WHERE: key joins, and conditions on one table each.
ghost use Rattle.std.specs.Prelude.{◌≡◌, ◌==◌, false, not, map, slice_get, IfOk};
ghost use Rattle.std.specs.List.{list_any};
ghost use Rattle.std.specs.Option.{option_map_or};
ghost use Rattle.star_parser.specs.Condition.{condition_of};
ghost use Rattle.star_plan.specs.Columns as columns;
ghost use Rattle.star_plan.specs.declared.table.Table.TheVariants as table;
ghost use Rattle.star_binder.specs.Conjuncts.{first_table, has_another, is_mixed, is_on, joined_by_key, joined_dimension, joins, key_join, references, tables_in};
ghost use Rattle.star_binder.specs.Places.{table_of};

use crate::named::{add_columns, compares_columns};
use crate::scope::Scope;
use star_parser::{Column, Tree};
use star_plan::{Place, Schema, Table, columns_of};
use star_values::NoMemory;
use std::alloc::Global;

/// The dimension that a conjunct joins by its key, where it is a key join.
pub(crate) fn key_join(scope: &Scope, tree: &Tree) -> Option<u8>
    ensures { result ≡ key_join scope.now (condition_of tree.now) }
{
    match tree {
        Tree::Same { left, right } => {
            joined_dimension(scope.schema, scope.place_of(left), scope.place_of(right))
        }
        Tree::Either(_)
        | Tree::Both(_)
        | Tree::Negate(_)
        | Tree::Test { .. }
        | Tree::Between { .. }
        | Tree::OneOf { .. } => None,
    }
}

/// The dimension that two places join, in either order.
fn joined_dimension(schema: &Schema, left: Place, right: Place) -> Option<u8>
    ensures { result ≡ joined_dimension schema.now left right }
{
    match (left, right) {
        (Place::Fact(reference), Place::Dimension(dimension, column)) => {
            joined_by_key(schema, reference, dimension, column)
        }
        (Place::Dimension(dimension, column), Place::Fact(reference)) => {
            joined_by_key(schema, reference, dimension, column)
        }
        (Place::Fact(_), Place::Fact(_)) => None,
        (Place::Dimension(_, _), Place::Dimension(_, _)) => None,
    }
}

/// The dimension of which this is the key's column, where the fact column references it.
fn joined_by_key(schema: &Schema, reference: u8, dimension: u8, column: u8) -> Option<u8>
    ensures { result ≡ joined_by_key schema.now reference dimension column }
{
    if column == 0 && references(schema, reference, dimension) {
        Some(dimension)
    } else {
        None
    }
}

/// Whether a column of the fact table references a dimension.
fn references(schema: &Schema, column: u8, dimension: u8) -> bool
    ensures { result ≡ references schema.now column dimension }
{
    match columns_of(schema, Table::Fact).get(column as usize) {
        Some(defined) => is_target(defined.target, dimension),
        None => false,
    }
}

fn is_target(target: Option<u8>, dimension: u8) -> bool
    ensures { result ≡ option_map_or (λ found. found == dimension) target false }
{
    match target {
        Some(found) => found == dimension,
        None => false,
    }
}

/// Whether a conjunct joins this dimension.
pub(crate) fn joins(scope: &Scope, dimension: u8, tree: &Tree) -> bool
    ensures { result ≡ joins scope.now dimension
        (condition_of tree.now) }
{
    is_target(key_join(scope, tree), dimension)
}

/// Whether a conjunct is no key join, and compares two columns or names columns of two tables.
pub(crate) fn is_mixed(alloc: Global, scope: &Scope, tree: &Tree) -> Result<bool, NoMemory>
    ensures { IfOk result (λ mixed. mixed
        ≡ is_mixed scope.now (condition_of tree.now)) }
{
    if key_join(scope, tree).is_some() {
        return Ok(false);
    }
    if compares_columns(tree) {
        return Ok(true);
    }
    let tables = tables_in(alloc, scope, tree)?;
    Ok(has_another(tables.as_slice()))
}

/// Whether a conjunct is a condition on this table.
pub(crate) fn is_on(
    alloc: Global,
    scope: &Scope,
    table: Table,
    tree: &Tree,
) -> Result<bool, NoMemory>
    ensures { IfOk result (λ on. on ≡ is_on scope.now table (condition_of tree.now)) }
{
    if key_join(scope, tree).is_some() {
        return Ok(false);
    }
    Ok(is_same(table, first_table(alloc, scope, tree)?))
}

/// The table of the first column that a condition names. One that names none, which no line has,
/// counts to the fact table.
fn first_table(alloc: Global, scope: &Scope, tree: &Tree) -> Result<Table, NoMemory>
    ensures { IfOk result (λ table. table ≡ first_table scope.now (condition_of tree.now)) }
{
    let tables = tables_in(alloc, scope, tree)?;
    Ok(first_of(tables.as_slice()))
}

/// The tables of the columns that a condition names.
fn tables_in(alloc: Global, scope: &Scope, tree: &Tree) -> Result<Vec<Table>, NoMemory>
    ensures { IfOk result (λ tables. tables.items
        ≡ tables_in scope.now (condition_of tree.now)) }
{
    let mut columns = Vec::new(alloc);
    add_columns(&mut columns, tree)?;
    tables_of(alloc, scope, columns.as_slice())
}

fn tables_of(alloc: Global, scope: &Scope, columns: &[&Column]) -> Result<Vec<Table>, NoMemory>
    ensures { IfOk result (λ tables. tables.items
        ≡ map (table_of scope.now) (map (λ c. c.now) columns.now)) }
{
    let mut tables = Vec::with_capacity(alloc, columns.len())?;
    'columns: for column in columns {
        tables.push(scope.table_of(column))?;
    }
    Ok(tables)
}

/// Whether a table other than the first stands in a list.
fn has_another(tables: &[Table]) -> bool
    ensures { result ≡ has_another tables.now }
{
    match tables {
        [] => false,
        [first, others @ ..] => has_other_than(others, *first),
    }
}

fn has_other_than(tables: &[Table], table: Table) -> bool
    ensures { result ≡ list_any (λ other. not (columns.same_table table other)) tables.now }
{
    tables.iter().any(|other| !is_same(table, *other))
}

fn first_of(tables: &[Table]) -> Table
    ensures { result ≡ option_map_or (λ table. table) (slice_get tables.now 0) table.Fact }
{
    match tables {
        [] => Table::Fact,
        [first, ..] => *first,
    }
}

pub(crate) fn is_same(table: Table, other: Table) -> bool
    ensures { result ≡ columns.same_table table other }
{
    table == other
}
