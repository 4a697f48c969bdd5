//! A select as the checks see it: its parts, the columns that it names, and how large it may be.
ghost use Rattle.std.specs.Prelude.{◌≡◌, ◌++◌, ◌||◌, filter_map, length, map, nat_lt, IfOk, OnOk};
ghost use Rattle.star_binder.specs.Named.{column_of_item};
ghost use Rattle.star_binder.specs.Parts.{parts_of};
ghost use Rattle.star_binder.specs.Select.{columns_named};

use crate::named::{add_column, add_conjunct_columns};
use crate::{MAX_GROUPS, MAX_ITEMS};
use star_parser::{AstItem, Column, Tree};
use star_values::{NoMemory, SmallText};
use std::alloc::Global;

/// A select, with the conjuncts of its WHERE.
#[derive(Drop)]
pub(crate) struct Select<'a> {
    pub items: &'a [AstItem],
    pub names: &'a [SmallText],
    pub conjuncts: &'a [Tree],
    pub groups: &'a [Column],
}

/// Whether a select has too many items or groups.
pub(crate) fn is_too_large(select: &Select) -> bool
    ensures { result ≡ (nat_lt MAX_ITEMS (length select.now.items.now)
        || nat_lt MAX_GROUPS (length select.now.groups.now)) }
{
    select.items.len() > MAX_ITEMS || select.groups.len() > MAX_GROUPS
}

/// The columns that a select names, in the order of the line.
pub(crate) fn columns_named<'a>(
    alloc: Global,
    select: &Select<'a>,
) -> Result<Vec<&'a Column>, NoMemory>
    ensures { IfOk result (λ columns. map (λ c. c.now) columns.items
        ≡ columns_named (parts_of select.now)) }
{
    let mut columns = Vec::new(alloc);
    add_item_columns(&mut columns, select.items)?;
    add_conjunct_columns(&mut columns, select.conjuncts)?;
    add_group_columns(&mut columns, select.groups)?;
    Ok(columns)
}

fn add_item_columns<'a>(columns: &mut Vec<&'a Column>, items: &'a [AstItem]) -> Result<(), NoMemory>
    ensures { OnOk result (map (λ c. c.now) columns.new.items
        ≡ map (λ c. c.now) columns.old.items ++ filter_map column_of_item items.now) }
{
    'items: for item in items {
        match item {
            AstItem::CountAll => {}
            AstItem::Plain(column)
            | AstItem::Count(column)
            | AstItem::Sum(column)
            | AstItem::Min(column)
            | AstItem::Max(column) => add_column(columns, column)?,
        }
    }
    Ok(())
}

fn add_group_columns<'a>(
    columns: &mut Vec<&'a Column>,
    groups: &'a [Column],
) -> Result<(), NoMemory>
    ensures { OnOk result (map (λ c. c.now) columns.new.items
        ≡ map (λ c. c.now) columns.old.items ++ groups.now) }
{
    'groups: for column in groups {
        add_column(columns, column)?;
    }
    Ok(())
}
