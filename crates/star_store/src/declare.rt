//! Declarations: a table more, and for a dimension the list of its rows.
ghost use Rattle.std.specs.Prelude.{◌≡◌, ◌<◌, List, [], ◌∷◌, ◌++◌, length, IfErr, OnOk, OnErr};
ghost use Rattle.star_plan.specs.Declaration.{declared_dimension};
ghost use Rattle.star_plan.specs.Schemas.{IsDeclared, ReferencesNothing};
ghost use Rattle.query_meaning.specs.KeptTables.{rows_of_all};
ghost use Rattle.star_store.specs.Fault.{TellsReasonFirst};
ghost use Rattle.star_store.specs.Parts.{AddsDimension};

use dimension_rows::{DimensionRows, Dims};
use star_plan::{Schema, TableDef, declare_dimension};
use star_values::{ListOf, StatementFault};
use std::alloc::Global;
use std::hash::RandomState;
use std::mem;

/// Adds a dimension, with no rows yet.
pub(crate) fn add_dimension(
    alloc: Global,
    hash_keys: RandomState,
    schema: &mut Schema,
    dims: &mut Dims,
    table: TableDef,
) -> Result<(), StatementFault>
    requires declared { IsDeclared schema.old }
    requires columns { 0 < length table.columns }
    requires plain { ReferencesNothing table }
    ensures added { OnOk result (AddsDimension table schema.old schema.new
        (rows_of_all dims.old) (rows_of_all dims.new)) }
    ensures tells { IfErr result (TellsReasonFirst (declared_dimension schema.old table)) }
    ensures err { OnErr result ((schema.new ≡ schema.old) × (dims.new ≡ dims.old)) }
{
    declare_dimension(schema, table)?;
    let pushed = dims.push(DimensionRows::new(alloc, hash_keys));
    if pushed.is_err() {
        drop_last(alloc, &mut schema.dimensions);
    }
    Ok(pushed?)
}

/// Takes the last member of a list away.
fn drop_last<T: Drop>(alloc: Global, list: &mut ListOf<T>)
    ensures { (front : List T) (last : T) → list.old ≡ front ++ last ∷ [] → list.new ≡ front }
{
    let mut members = mem::replace(list, ListOf::new(alloc)).into_vec();
    let _last = members.pop();
    *list = ListOf::from(members);
}
