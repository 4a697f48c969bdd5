//! Tables and columns by their names.
ghost use Rattle.std.specs.Prelude.{◌≡◌, ◌≤◌, false, length, option_copied, position};
ghost use Rattle.std.specs.Option.{option_map_or};
ghost use Rattle.star_plan.specs.Columns.{columns_of, definition_of};
ghost use Rattle.star_plan.specs.Limits.{IsWithinLimits};
ghost use Rattle.star_plan.specs.Named.{column_named, dimension_named, has_name, table_named};

use crate::column_def::ColumnDef;
use crate::schema::Schema;
use crate::table::Table;
use crate::table_def::TableDef;
use star_values::{MAX_COLUMNS, SmallText};

/// The table of this name.
pub fn find_table(schema: &Schema, name: &SmallText) -> Option<Table>
    requires { IsWithinLimits schema.now }
    ensures { result ≡ table_named schema.now name.now }
{
    if let Some(number) = find_dimension(schema, name) {
        return Some(Table::Dimension(number));
    }
    if is_table_named(schema, Table::Fact, name) {
        Some(Table::Fact)
    } else {
        None
    }
}

/// The number of the dimension of this name.
pub fn find_dimension(schema: &Schema, name: &SmallText) -> Option<u8>
    requires { IsWithinLimits schema.now }
    ensures { result ≡ dimension_named schema.now name.now }
{
    let number = position_of(schema.dimensions.as_slice(), name)?;
    Some(number as u8)
}

fn position_of(tables: &[TableDef], name: &SmallText) -> Option<usize>
    ensures { result ≡ position (has_name name.now) tables.now }
{
    tables.iter().position(|table| table.name == *name)
}

/// Whether this is the name of a table.
pub fn is_table_named(schema: &Schema, table: Table, name: &SmallText) -> bool
    ensures { result ≡ option_map_or (has_name name.now) (definition_of schema.now table) false }
{
    match definition_of(schema, table) {
        Some(definition) => definition.name == *name,
        None => false,
    }
}

/// The declaration of a table.
fn definition_of(schema: &Schema, table: Table) -> Option<&TableDef>
    ensures { option_copied result ≡ definition_of schema.now table }
{
    match table {
        Table::Fact => schema.fact.as_ref(),
        Table::Dimension(number) => schema.dimensions.as_slice().get(number as usize),
    }
}

/// The columns of a table, and none where it is none of the schema.
pub fn columns_of(schema: &Schema, table: Table) -> &[ColumnDef]
    ensures { result.now ≡ columns_of schema.now table }
{
    match definition_of(schema, table) {
        Some(definition) => definition.columns.as_slice(),
        None => &[],
    }
}

/// The number of the column of this name.
pub fn find_column(columns: &[ColumnDef], name: &SmallText) -> Option<u8>
    requires { length columns.now ≤ MAX_COLUMNS }
    ensures { result ≡ column_named columns.now name.now }
{
    let number = column_position(columns, name)?;
    Some(number as u8)
}

fn column_position(columns: &[ColumnDef], name: &SmallText) -> Option<usize>
    ensures { result ≡ column_named columns.now name.now }
{
    columns.iter().position(|column| column.name == *name)
}
