//! What a condition names: its columns, and its literals with the columns beside them.
ghost use Rattle.std.specs.Prelude.{◌≡◌, ◌++◌, ◌∷◌, [], flat_map, map, option_map, OnOk};
ghost use Rattle.star_binder.specs.Literals.{literal_of};
ghost use Rattle.star_parser.specs.Condition.{condition_of, conditions, conjuncts};
ghost use Rattle.star_binder.specs.Named.{beside, columns_in, columns_in_all, compares_columns, literals_in, literals_in_all, some_compares_columns, where_conjuncts};

use star_parser::{Column, Tree};
use star_values::{NoMemory, Value};
use std::slice;

/// Appends the columns of a condition, in the order of the line.
#[cycle(columns)]
pub(crate) fn add_columns<'a>(columns: &mut Vec<&'a Column>, tree: &'a Tree) -> Result<(), NoMemory>
    ensures { OnOk result (map (λ c. c.now) columns.new.items
        ≡ map (λ c. c.now) columns.old.items ++ columns_in (condition_of tree.now)) }
{
    match tree {
        Tree::Either(list) => add_columns_of_all(columns, list.members.as_slice()),
        Tree::Both(list) => add_columns_of_all(columns, list.members.as_slice()),
        Tree::Negate(plain) => add_columns(columns, plain),
        Tree::Test { column, .. } => add_column(columns, column),
        Tree::Same { left, right } => {
            add_column(columns, left)?;
            add_column(columns, right)
        }
        Tree::Between { column, .. } => add_column(columns, column),
        Tree::OneOf { column, .. } => add_column(columns, column),
    }
}

#[cycle(columns)]
fn add_columns_of_all<'a>(columns: &mut Vec<&'a Column>, trees: &'a [Tree]) -> Result<(), NoMemory>
    ensures { OnOk result (map (λ c. c.now) columns.new.items
        ≡ map (λ c. c.now) columns.old.items
        ++ columns_in_all (conditions (map condition_of trees.now))) }
{
    'trees: for tree in trees {
        add_columns(columns, tree)?;
    }
    Ok(())
}

pub(crate) fn add_column<'a>(
    columns: &mut Vec<&'a Column>,
    column: &'a Column,
) -> Result<(), NoMemory>
    ensures { OnOk result (map (λ c. c.now) columns.new.items
        ≡ map (λ c. c.now) columns.old.items ++ column.now ∷ []) }
{
    columns.push(column)?;
    Ok(())
}

/// Appends the columns of conjuncts.
#[tactic(auto, using(crate::proofs::ConjunctLemmas::columns_of_each))]
pub(crate) fn add_conjunct_columns<'a>(
    columns: &mut Vec<&'a Column>,
    conjuncts: &'a [Tree],
) -> Result<(), NoMemory>
    ensures { OnOk result (map (λ c. c.now) columns.new.items
        ≡ map (λ c. c.now) columns.old.items
        ++ flat_map columns_in (map condition_of conjuncts.now)) }
{
    add_columns_of_all(columns, conjuncts)
}

/// A literal with the column beside it.
#[derive(Clone, Copy, Debug)]
pub(crate) struct Literal<'a> {
    pub column: &'a Column,
    pub value: &'a Value,
}

/// Appends the literals of a condition, in the order of the line.
#[cycle(literals)]
pub(crate) fn add_literals<'a>(
    literals: &mut Vec<Literal<'a>>,
    tree: &'a Tree,
) -> Result<(), NoMemory>
    ensures { OnOk result (map literal_of literals.new.items
        ≡ map literal_of literals.old.items ++ literals_in (condition_of tree.now)) }
{
    match tree {
        Tree::Either(list) => add_literals_of_all(literals, list.members.as_slice()),
        Tree::Both(list) => add_literals_of_all(literals, list.members.as_slice()),
        Tree::Negate(plain) => add_literals(literals, plain),
        Tree::Test { column, value, .. } => add_literal(literals, column, value),
        Tree::Same { .. } => Ok(()),
        Tree::Between { column, low, high } => {
            add_literal(literals, column, low)?;
            add_literal(literals, column, high)
        }
        Tree::OneOf { column, values } => add_values(literals, column, values.as_slice()),
    }
}

#[cycle(literals)]
fn add_literals_of_all<'a>(
    literals: &mut Vec<Literal<'a>>,
    trees: &'a [Tree],
) -> Result<(), NoMemory>
    ensures { OnOk result (map literal_of literals.new.items
        ≡ map literal_of literals.old.items
        ++ literals_in_all (conditions (map condition_of trees.now))) }
{
    'trees: for tree in trees {
        add_literals(literals, tree)?;
    }
    Ok(())
}

fn add_values<'a>(
    literals: &mut Vec<Literal<'a>>,
    column: &'a Column,
    values: &'a [Value],
) -> Result<(), NoMemory>
    ensures { OnOk result (map literal_of literals.new.items
        ≡ map literal_of literals.old.items ++ map (beside column.now) values.now) }
{
    'values: for value in values {
        add_literal(literals, column, value)?;
    }
    Ok(())
}

fn add_literal<'a>(
    literals: &mut Vec<Literal<'a>>,
    column: &'a Column,
    value: &'a Value,
) -> Result<(), NoMemory>
    ensures { OnOk result (map literal_of literals.new.items
        ≡ map literal_of literals.old.items ++ beside column.now value.now ∷ []) }
{
    literals.push(Literal { column, value })?;
    Ok(())
}

/// Appends the literals of conjuncts.
#[tactic(auto, using(crate::proofs::ConjunctLemmas::literals_of_each))]
pub(crate) fn add_conjunct_literals<'a>(
    literals: &mut Vec<Literal<'a>>,
    conjuncts: &'a [Tree],
) -> Result<(), NoMemory>
    ensures { OnOk result (map literal_of literals.new.items
        ≡ map literal_of literals.old.items
        ++ flat_map literals_in (map condition_of conjuncts.now)) }
{
    add_literals_of_all(literals, conjuncts)
}

/// Whether a condition compares two columns anywhere in it.
#[cycle(comparing)]
pub(crate) fn compares_columns(tree: &Tree) -> bool
    ensures { result ≡ compares_columns (condition_of tree.now) }
{
    match tree {
        Tree::Either(list) => some_compares_columns(list.members.as_slice()),
        Tree::Both(list) => some_compares_columns(list.members.as_slice()),
        Tree::Negate(plain) => compares_columns(plain),
        Tree::Same { .. } => true,
        Tree::Test { .. } | Tree::Between { .. } | Tree::OneOf { .. } => false,
    }
}

#[cycle(comparing)]
fn some_compares_columns(trees: &[Tree]) -> bool
    ensures { result ≡ some_compares_columns (conditions (map condition_of trees.now)) }
{
    'trees: for tree in trees {
        if compares_columns(tree) {
            return true;
        }
    }
    false
}

/// The conjuncts of a WHERE: the members of its outermost `and`, or the whole.
pub(crate) fn conjuncts_of(condition: &Option<Tree>) -> &[Tree]
    ensures { map condition_of result.now
        ≡ where_conjuncts (option_map condition_of condition.now) }
{
    match condition {
        Some(tree) => conjuncts_in(tree),
        None => &[],
    }
}

fn conjuncts_in(tree: &Tree) -> &[Tree]
    ensures { map condition_of result.now ≡ conjuncts (condition_of tree.now) }
{
    match tree {
        Tree::Both(list) => list.members.as_slice(),
        _ => slice::from_ref(tree),
    }
}
