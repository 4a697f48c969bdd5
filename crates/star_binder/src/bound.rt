//! The parts of a query: its conditions as predicates, its choices, groups and items.
ghost use Rattle.std.specs.Prelude.{◌≡◌, map, length, option_map, IfOk};
ghost use Rattle.std.specs.List.{list_any, range_with_len};
ghost use Rattle.star_plan.specs.Columns.{same_table};
ghost use Rattle.star_parser.specs.Condition.{condition_of, conditions};
ghost use Rattle.star_plan.specs.Members.{members_of};
ghost use Rattle.star_plan.specs.Test.{selection_of, test_of, tests};
ghost use Rattle.star_binder.specs.Bound as bound;
ghost use Rattle.star_binder.specs.Places.{place_of};

use crate::conjuncts::is_on;
use crate::scope::Scope;
use star_parser::{AstItem, Column, Relation, Tree};
use star_plan::{
    Choice, ChoiceList, How, Item, ItemList, Place, PlaceList, Predicate, PredicateList, Table,
};
use star_values::{LiteralList, NoMemory};
use std::alloc::Global;

/// A condition on one table as a predicate on its rows.
#[cycle(predicates)]
fn bound_test(alloc: Global, scope: &Scope, tree: &Tree) -> Result<Predicate, NoMemory>
    ensures { IfOk result (λ predicate. test_of predicate
        ≡ bound.bound_test scope.now (condition_of tree.now)) }
{
    match tree {
        Tree::Either(list) => {
            let members = bound_tests(alloc, scope, list.members.as_slice())?;
            Ok(Predicate::Either(members))
        }
        Tree::Both(list) => {
            let members = bound_tests(alloc, scope, list.members.as_slice())?;
            Ok(Predicate::Both(members))
        }
        Tree::Negate(plain) => {
            let member = bound_test(alloc, scope, plain)?;
            Ok(Predicate::Negate(Box::new(alloc, member)?))
        }
        Tree::Test { column, how, value } => Ok(Predicate::Compare {
            column: scope.number_of(column),
            how: how_of(*how),
            value: value.copy()?,
        }),
        // No condition on one table compares two columns.
        Tree::Same { .. } => Ok(Predicate::Both(PredicateList::from(Vec::new(alloc)))),
        Tree::Between { column, low, high } => Ok(Predicate::Between {
            column: scope.number_of(column),
            low: low.copy()?,
            high: high.copy()?,
        }),
        Tree::OneOf { column, values } => Ok(Predicate::OneOf {
            column: scope.number_of(column),
            values: LiteralList::copy_of(alloc, values.as_slice())?,
        }),
    }
}

#[cycle(predicates)]
fn bound_tests(alloc: Global, scope: &Scope, trees: &[Tree]) -> Result<PredicateList, NoMemory>
    ensures { IfOk result (λ list. tests (map test_of (members_of list))
        ≡ bound.bound_tests scope.now
        (conditions (map condition_of trees.now))) }
{
    let mut members = Vec::with_capacity(alloc, trees.len())?;
    'trees: for tree in trees {
        members.push(bound_test(alloc, scope, tree)?)?;
    }
    Ok(PredicateList::from(members))
}

fn how_of(how: Relation) -> How
    ensures { result ≡ bound.how_of how }
{
    match how {
        Relation::Eq => How::Eq,
        Relation::Ne => How::Ne,
        Relation::Lt => How::Lt,
        Relation::Le => How::Le,
        Relation::Gt => How::Gt,
        Relation::Ge => How::Ge,
    }
}

/// The conditions on a table among the conjuncts, as one predicate.
pub(crate) fn test_on(
    alloc: Global,
    scope: &Scope,
    conjuncts: &[Tree],
    table: Table,
) -> Result<Option<Predicate>, NoMemory>
    ensures { IfOk result (λ predicate. option_map test_of predicate
        ≡ bound.test_on scope.now
        (map condition_of conjuncts.now) table) }
{
    let mut members = Vec::new(alloc);
    'conjuncts: for conjunct in conjuncts {
        if is_on(alloc, scope, table, conjunct)? {
            members.push(bound_test(alloc, scope, conjunct)?)?;
        }
    }
    Ok(all_of(members))
}

/// Several predicates on one table are one `Both`.
fn all_of(mut members: Vec<Predicate>) -> Option<Predicate>
    ensures { option_map test_of result ≡ bound.all_of (map test_of members.items) }
{
    if members.len() < 2 {
        members.pop()
    } else {
        Some(Predicate::Both(PredicateList::from(members)))
    }
}

/// A choice for each dimension, in the order of their numbers.
pub(crate) fn choices(
    alloc: Global,
    scope: &Scope,
    conjuncts: &[Tree],
) -> Result<ChoiceList, NoMemory>
    ensures { IfOk result (λ choices. map selection_of choices
        ≡ map (bound.selection_on scope.now
        (map condition_of conjuncts.now))
        (range_with_len 0 (length scope.now.schema.dimensions))) }
{
    let count = scope.schema.dimensions.as_slice().len() as u8;
    let mut choices = Vec::with_capacity(alloc, count as usize)?;
    'dimensions: for dimension in 0..count {
        choices.push(choice_on(alloc, scope, conjuncts, dimension)?)?;
    }
    Ok(ChoiceList::from(choices))
}

/// Which rows of a dimension a query takes.
fn choice_on(
    alloc: Global,
    scope: &Scope,
    conjuncts: &[Tree],
    dimension: u8,
) -> Result<Choice, NoMemory>
    ensures { IfOk result (λ choice. selection_of choice
        ≡ bound.selection_on scope.now
        (map condition_of conjuncts.now) dimension) }
{
    let table = Table::Dimension(dimension);
    if !has_table(scope.tables, table) {
        return Ok(Choice::Unnamed);
    }
    match test_on(alloc, scope, conjuncts, table)? {
        None => Ok(Choice::AllRows),
        Some(predicate) => Ok(Choice::Chosen(predicate)),
    }
}

/// Whether a table is among these.
pub(crate) fn has_table(tables: &[Table], table: Table) -> bool
    ensures { result ≡ list_any (same_table table) tables.now }
{
    tables.iter().any(|other| table == *other)
}

pub(crate) fn groups(
    alloc: Global,
    scope: &Scope,
    columns: &[Column],
) -> Result<Vec<Place>, NoMemory>
    ensures { IfOk result (λ groups. groups.items
        ≡ map (place_of scope.now) columns.now) }
{
    let mut groups = Vec::with_capacity(alloc, columns.len())?;
    'columns: for column in columns {
        groups.push(scope.place_of(column))?;
    }
    Ok(groups)
}

pub(crate) fn items(alloc: Global, scope: &Scope, written: &[AstItem]) -> Result<ItemList, NoMemory>
    ensures { IfOk result (λ items. items
        ≡ map (bound.bound_item scope.now) written.now) }
{
    let mut items = Vec::with_capacity(alloc, written.len())?;
    'items: for item in written {
        items.push(bound_item(scope, item))?;
    }
    Ok(ItemList::from(items))
}

/// An item with its column replaced by its place.
fn bound_item(scope: &Scope, item: &AstItem) -> Item
    ensures { result ≡ bound.bound_item scope.now item.now }
{
    match item {
        AstItem::Plain(column) => Item::Plain(scope.place_of(column)),
        AstItem::CountAll => Item::CountAll,
        AstItem::Count(column) => Item::Count(scope.place_of(column)),
        AstItem::Sum(column) => Item::Sum(scope.place_of(column)),
        AstItem::Min(column) => Item::Min(scope.place_of(column)),
        AstItem::Max(column) => Item::Max(scope.place_of(column)),
    }
}
