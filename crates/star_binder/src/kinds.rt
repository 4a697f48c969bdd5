//! Whether literals and sums have the kinds of their columns.
ghost use Rattle.std.specs.Prelude.{◌≡◌, ◌||◌, false, map, slice_get, IfOk};
ghost use Rattle.std.specs.List.{list_any};
ghost use Rattle.std.specs.Option.{option_map_or};
ghost use Rattle.star_values.specs.declared.value.Kind.TheVariants as kinds;
ghost use Rattle.star_parser.specs.Condition.{condition_of};
ghost use Rattle.star_plan.specs.Fits as fits;
ghost use Rattle.star_plan.specs.Columns.{kind_at, kinds_of};
ghost use Rattle.star_binder.specs.Literals.{literal_of};
ghost use Rattle.star_binder.specs.Named.{beside};
ghost use Rattle.star_binder.specs.Parts.{parts_of};
ghost use Rattle.star_binder.specs.Refused.{has_another_kind, is_of_another_kind, sums_a_text};

use crate::named::{Literal, add_conjunct_literals};
use crate::scope::{Scope, number_at, table_at};
use crate::select::Select;
use star_parser::{AstItem, Column, Tree};
use star_plan::{ColumnDef, Place, Schema, Table, columns_of};
use star_values::{Kind, NoMemory, Value};
use std::alloc::Global;

/// Whether a literal has not the kind of the column beside it, or a sum is of no integers.
pub(crate) fn has_type_mismatch(
    alloc: Global,
    scope: &Scope,
    select: &Select,
) -> Result<bool, NoMemory>
    ensures { IfOk result (λ mismatch. mismatch
        ≡ (has_another_kind scope.now
        (parts_of select.now).conjuncts
        || list_any (sums_a_text scope.now) (parts_of select.now).items)) }
{
    let another = has_another_kind(alloc, scope, select.conjuncts)?;
    Ok(another || has_sum_of_a_text(scope, select.items))
}

pub(crate) fn has_another_kind(
    alloc: Global,
    scope: &Scope,
    conjuncts: &[Tree],
) -> Result<bool, NoMemory>
    ensures { IfOk result (λ another. another
        ≡ has_another_kind scope.now
        (map condition_of conjuncts.now)) }
{
    let mut literals = Vec::new(alloc);
    add_conjunct_literals(&mut literals, conjuncts)?;
    Ok(has_literal_of_another_kind(scope, literals.as_slice()))
}

fn has_literal_of_another_kind(scope: &Scope, literals: &[Literal]) -> bool
    ensures { result ≡ list_any (is_of_another_kind scope.now)
        (map literal_of literals.now) }
{
    'literals: for literal in literals {
        if is_of_another_kind(scope, literal.column, literal.value) {
            return true;
        }
    }
    false
}

fn is_of_another_kind(scope: &Scope, column: &Column, value: &Value) -> bool
    ensures { result ≡ is_of_another_kind scope.now
        (beside column.now value.now) }
{
    let place = scope.place_of(column);
    !fits_column(
        columns_of(scope.schema, table_at(place)),
        number_at(place),
        value,
    )
}

fn fits_column(columns: &[ColumnDef], number: u8, value: &Value) -> bool
    ensures { result ≡ fits.fits_column (kinds_of columns.now) number value.now }
{
    match kind_of_column(columns, number) {
        Some(kind) => kind == value.kind(),
        None => false,
    }
}

fn kind_of_column(columns: &[ColumnDef], number: u8) -> Option<Kind>
    ensures { result ≡ slice_get (kinds_of columns.now) number }
{
    match columns.get(number as usize) {
        Some(column) => Some(column.kind),
        None => None,
    }
}

fn has_sum_of_a_text(scope: &Scope, items: &[AstItem]) -> bool
    ensures { result ≡ list_any (sums_a_text scope.now) items.now }
{
    'items: for item in items {
        if sums_a_text(scope, item) {
            return true;
        }
    }
    false
}

fn sums_a_text(scope: &Scope, item: &AstItem) -> bool
    ensures { result ≡ sums_a_text scope.now item.now }
{
    match item {
        AstItem::Sum(column) => !has_integers(scope.schema, scope.place_of(column)),
        AstItem::Plain(_)
        | AstItem::CountAll
        | AstItem::Count(_)
        | AstItem::Min(_)
        | AstItem::Max(_) => false,
    }
}

/// Whether a place is that of a column of integers.
fn has_integers(schema: &Schema, place: Place) -> bool
    ensures { result ≡ option_map_or (fits.same_kind kinds.Int) (kind_at schema.now place) false }
{
    match kind_at(schema, place) {
        Some(kind) => Kind::Int == kind,
        None => false,
    }
}

fn kind_at(schema: &Schema, place: Place) -> Option<Kind>
    ensures { result ≡ kind_at schema.now place }
{
    match place {
        Place::Fact(column) => kind_of_column(columns_of(schema, Table::Fact), column),
        Place::Dimension(dimension, column) => {
            kind_of_column(columns_of(schema, Table::Dimension(dimension)), column)
        }
    }
}
