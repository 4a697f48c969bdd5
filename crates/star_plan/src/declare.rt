//! Declarations of tables: the checks that refuse one, in their order, and the table that it adds.
ghost use Rattle.std.specs.Prelude.{◌≡◌, ◌<◌, ◌≤◌, count_by, length};
ghost use Rattle.std.specs.List.{list_any};
ghost use Rattle.star_plan.specs.Declaration.{declared_dimension, declared_fact, has_key_of, is_referenced_twice, references, references_another_kind, references_nothing, references_twice, takes_a_name_twice};
ghost use Rattle.star_plan.specs.Fault.{Declares, DeclaresFact, Refuses};
ghost use Rattle.star_plan.specs.Limits.{IsWithinLimits};
ghost use Rattle.star_plan.specs.Schemas.{IsDeclared, ReferencesNothing};

use crate::MAX_DIMENSIONS;
use crate::column_def::ColumnDef;
use crate::find::{columns_of, find_table};
use crate::names::has_repeated_name;
use crate::schema::Schema;
use crate::table::Table;
use crate::table_def::TableDef;
use star_values::{Kind, MAX_COLUMNS, Refusal, StatementFault};

/// Adds a dimension behind those that were declared. Its first column is its key.
///
/// It is refused after the fact table was declared, for a name that is taken or stands twice, and
/// as a ninth dimension or with more than 16 columns: for the first of these reasons. Memory is
/// wanted only for what nothing refuses.
pub fn declare_dimension(schema: &mut Schema, table: TableDef) -> Result<(), StatementFault>
    requires declared { IsDeclared schema.old }
    requires columns { 0 < length table.columns }
    requires plain { ReferencesNothing table }
    ensures declares { Declares (declared_dimension schema.old table) schema.old schema.new result }
    ensures declared { IsDeclared schema.new }
{
    let mut table = table;
    if let Some(reason) = refusal_of_dimension(schema, &mut table) {
        return Err(StatementFault::Refused(reason));
    }
    schema.dimensions.push(table)?;
    Ok(())
}

/// Adds the fact table.
///
/// It is refused after the fact table was declared, for a name that is taken or stands twice or two
/// references to one dimension, for a reference to what is no dimension, with more than 16 columns,
/// and for a reference to a key of another kind: for the first of these
/// reasons. It takes no memory.
pub fn declare_fact(schema: &mut Schema, table: TableDef) -> Result<(), Refusal>
    requires declared { IsDeclared schema.old }
    requires columns { 0 < length table.columns }
    ensures declares { DeclaresFact (declared_fact schema.old table) schema.old schema.new result }
    ensures declared { IsDeclared schema.new }
{
    let mut table = table;
    if let Some(reason) = refusal_of_fact(schema, &mut table) {
        return Err(reason);
    }
    schema.fact = Some(table);
    Ok(())
}

/// The first reason that refuses a dimension. A table that is refused may lose
/// the order of its columns.
fn refusal_of_dimension(schema: &Schema, table: &mut TableDef) -> Option<Refusal>
    requires { IsWithinLimits schema.now }
    ensures { Refuses (declared_dimension schema.now table.old) table.new result }
{
    if schema.fact.is_some() {
        return Some(Refusal::OutOfOrder);
    }
    if takes_a_name_twice(schema, table) {
        return Some(Refusal::DuplicateName);
    }
    if schema.dimensions.len() >= MAX_DIMENSIONS || table.columns.len() > MAX_COLUMNS {
        return Some(Refusal::Limit);
    }
    None
}

/// The first reason that refuses a fact table. A table that is refused may lose
/// the order of its columns.
fn refusal_of_fact(schema: &Schema, table: &mut TableDef) -> Option<Refusal>
    requires { IsWithinLimits schema.now }
    ensures { Refuses (declared_fact schema.now table.old) table.new result }
{
    if schema.fact.is_some() {
        return Some(Refusal::OutOfOrder);
    }
    // Both are found before the names, whose test may sort the columns.
    let twice = references_twice(schema, table.columns.as_slice());
    let unknown = has_unknown_reference(schema, table.columns.as_slice());
    if takes_a_name_twice(schema, table) || twice {
        return Some(Refusal::DuplicateName);
    }
    if unknown {
        return Some(Refusal::UnknownName);
    }
    if table.columns.len() > MAX_COLUMNS {
        return Some(Refusal::Limit);
    }
    if has_reference_of_another_kind(schema, table.columns.as_slice()) {
        return Some(Refusal::TypeMismatch);
    }
    None
}

/// Whether the table's name is taken, or two of its columns have one name.
fn takes_a_name_twice(schema: &Schema, table: &mut TableDef) -> bool
    requires { IsWithinLimits schema.now }
    ensures twice { result ≡ takes_a_name_twice schema.now table.old }
    ensures count { length table.new.columns ≡ length table.old.columns }
    ensures few { length table.old.columns ≤ MAX_COLUMNS → table.new ≡ table.old }
{
    let taken = find_table(schema, &table.name).is_some();
    taken || has_repeated_name(table.columns.as_mut_slice())
}

/// Whether two columns reference one declared dimension.
fn references_twice(schema: &Schema, columns: &[ColumnDef]) -> bool
    requires { IsWithinLimits schema.now }
    ensures { result ≡ references_twice schema.now columns.now }
{
    let count = schema.dimensions.len() as u8;
    'dimensions: for dimension in 0..count {
        if is_referenced_twice(columns, dimension) {
            return true;
        }
    }
    false
}

fn is_referenced_twice(columns: &[ColumnDef], dimension: u8) -> bool
    ensures { result ≡ is_referenced_twice columns.now dimension }
{
    count_of_references(columns, dimension) > 1
}

fn count_of_references(columns: &[ColumnDef], dimension: u8) -> usize
    ensures { result ≡ count_by (references dimension) columns.now }
{
    columns
        .iter()
        .filter(|column| references(dimension, column))
        .count()
}

fn references(dimension: u8, column: &ColumnDef) -> bool
    ensures { result ≡ references dimension column.now }
{
    match column.target {
        Some(target) => target == dimension,
        None => false,
    }
}

fn has_unknown_reference(schema: &Schema, columns: &[ColumnDef]) -> bool
    ensures { result ≡ list_any (references_nothing schema.now) columns.now }
{
    columns
        .iter()
        .any(|column| references_nothing(schema, column))
}

fn references_nothing(schema: &Schema, column: &ColumnDef) -> bool
    ensures { result ≡ references_nothing schema.now column.now }
{
    match column.target {
        Some(target) => schema.dimensions.len() <= target as usize,
        None => false,
    }
}

fn has_reference_of_another_kind(schema: &Schema, columns: &[ColumnDef]) -> bool
    ensures { result ≡ list_any (references_another_kind schema.now) columns.now }
{
    columns
        .iter()
        .any(|column| references_another_kind(schema, column))
}

fn references_another_kind(schema: &Schema, column: &ColumnDef) -> bool
    ensures { result ≡ references_another_kind schema.now column.now }
{
    match column.target {
        Some(target) => !has_key_of(schema, column.kind, target),
        None => false,
    }
}

/// Whether the key of a dimension is of this kind.
fn has_key_of(schema: &Schema, kind: Kind, dimension: u8) -> bool
    ensures { result ≡ has_key_of schema.now kind dimension }
{
    match columns_of(schema, Table::Dimension(dimension)) {
        [key, ..] => kind == key.kind,
        [] => false,
    }
}
