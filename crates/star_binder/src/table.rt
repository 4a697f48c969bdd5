//! The table that a declaration declares: its names become numbers.
ghost use Rattle.std.specs.Prelude.{◌≡◌, true, map, IfOk};
ghost use Rattle.star_parser.specs.Statement.{statement_of};
ghost use Rattle.star_plan.specs.Limits.{IsWithinLimits};
ghost use Rattle.star_binder.specs.Table.{declared_table, defined_column, is_declaration, target_of};

use star_parser::{Ast, AstColumn};
use star_plan::{ColumnDef, ColumnList, Schema, TableDef, find_dimension};
use star_values::{NoMemory, SmallText};
use std::alloc::Global;

/// The number that stands for a name which is that of no dimension: no schema has so many.
const NO_DIMENSION: u8 = 255;

/// The table that a declaration declares. Whether it is accepted is told by the schema.
///
/// A column that references what is no dimension of the schema has the target 255, which is none.
pub fn bind_table(alloc: Global, ast: &Ast, schema: &Schema) -> Result<TableDef, NoMemory>
    requires limits { IsWithinLimits schema.now }
    requires declaration { is_declaration (statement_of ast.now) ≡ true }
    ensures { IfOk result (λ table. table ≡ declared_table schema.now (statement_of ast.now)) }
{
    match ast {
        Ast::Dimension { name, columns } | Ast::Fact { name, columns } => {
            table_of(alloc, schema, name, columns.as_slice())
        }
        Ast::Load { .. } | Ast::Delete { .. } | Ast::Select { .. } | Ast::Wait => unreachable!(),
    }
}

fn table_of(
    alloc: Global,
    schema: &Schema,
    name: &SmallText,
    columns: &[AstColumn],
) -> Result<TableDef, NoMemory>
    requires { IsWithinLimits schema.now }
    ensures name { IfOk result (λ table. table.name ≡ name.now) }
    ensures columns { IfOk result (λ table. table.columns
        ≡ map (defined_column schema.now) columns.now) }
{
    Ok(TableDef {
        name: name.copy()?,
        columns: defined_columns(alloc, schema, columns)?,
    })
}

fn defined_columns(
    alloc: Global,
    schema: &Schema,
    columns: &[AstColumn],
) -> Result<ColumnList, NoMemory>
    requires { IsWithinLimits schema.now }
    ensures { IfOk result (λ defined. defined ≡ map (defined_column schema.now) columns.now) }
{
    let mut defined = Vec::with_capacity(alloc, columns.len())?;
    'columns: for column in columns {
        defined.push(defined_column(schema, column)?)?;
    }
    Ok(ColumnList::from(defined))
}

fn defined_column(schema: &Schema, column: &AstColumn) -> Result<ColumnDef, NoMemory>
    requires { IsWithinLimits schema.now }
    ensures { IfOk result (λ defined. defined ≡ defined_column schema.now column.now) }
{
    Ok(ColumnDef {
        name: column.name.copy()?,
        kind: column.kind,
        target: target_of(schema, column),
    })
}

/// The number of the dimension that a column references, if it references anything.
fn target_of(schema: &Schema, column: &AstColumn) -> Option<u8>
    requires { IsWithinLimits schema.now }
    ensures { result ≡ target_of schema.now column.now }
{
    match &column.references {
        Some(name) => Some(find_dimension(schema, name).unwrap_or(NO_DIMENSION)),
        None => None,
    }
}
