//! The symbols of a condition, written behind others.
ghost use Rattle.std.specs.Prelude.{◌≡◌, ◌++◌, ◌∷◌, map, OnOk};
ghost use Rattle.star_parser.specs.Condition.{condition_of, conditions};
ghost use Rattle.star_parser.specs.Printed.{test_symbols, same_symbols, between_symbols, one_of_symbols, one_symbols, all_symbols, both_symbols, either_symbols, any_symbols, separator_symbols, relation_sign, in_brackets};

use crate::print_symbols::{Print, add_joined, add_keyword, add_sign};
use crate::tree::{Column, Relation, Tree};
use star_lexer::{Keyword, Sign, Symbol};
use star_values::{NoMemory, Value};

/// A whole condition, which needs no parentheses.
pub fn add_any(out: &mut Vec<Symbol>, tree: &Tree) -> Result<(), NoMemory>
    ensures { OnOk result (out.new.items ≡ out.old.items ++ any_symbols (condition_of tree.now)) }
{
    match tree {
        Tree::Either(list) => add_either(out, list.members.as_slice()),
        Tree::Both(list) => add_both(out, list.members.as_slice()),
        _ => add_one(out, tree),
    }
}

/// A condition where a single one is wanted: an `and` and an `or` stand between parentheses.
#[cycle(printing)]
fn add_one(out: &mut Vec<Symbol>, tree: &Tree) -> Result<(), NoMemory>
    ensures { OnOk result (out.new.items ≡ out.old.items ++ one_symbols (condition_of tree.now)) }
{
    match tree {
        Tree::Either(list) => {
            add_sign(out, Sign::Open)?;
            add_either(out, list.members.as_slice())?;
            add_sign(out, Sign::Close)
        }
        Tree::Both(list) => {
            add_sign(out, Sign::Open)?;
            add_both(out, list.members.as_slice())?;
            add_sign(out, Sign::Close)
        }
        Tree::Negate(plain) => {
            add_keyword(out, Keyword::Not)?;
            add_one(out, plain)
        }
        Tree::Test { column, how, value } => add_test(out, column, *how, value),
        Tree::Same { left, right } => add_same(out, left, right),
        Tree::Between { column, low, high } => add_between(out, column, low, high),
        Tree::OneOf { column, values } => add_one_of(out, column, values.as_slice()),
    }
}

/// A member of an `or`: an `and` needs no parentheses.
#[cycle(printing)]
fn add_all(out: &mut Vec<Symbol>, tree: &Tree) -> Result<(), NoMemory>
    ensures { OnOk result (out.new.items ≡ out.old.items ++ all_symbols (condition_of tree.now)) }
{
    match tree {
        Tree::Both(list) => add_both(out, list.members.as_slice()),
        _ => add_one(out, tree),
    }
}

#[cycle(printing)]
fn add_both(out: &mut Vec<Symbol>, members: &[Tree]) -> Result<(), NoMemory>
    ensures { OnOk result (out.new.items
        ≡ out.old.items ++ both_symbols (conditions (map condition_of members.now))) }
{
    let mut behind_another = false;
    'members: for member in members {
        add_between_members(out, behind_another, Keyword::And)?;
        add_one(out, member)?;
        behind_another = true;
    }
    Ok(())
}

#[cycle(printing)]
fn add_either(out: &mut Vec<Symbol>, members: &[Tree]) -> Result<(), NoMemory>
    ensures { OnOk result (out.new.items
        ≡ out.old.items ++ either_symbols (conditions (map condition_of members.now))) }
{
    let mut behind_another = false;
    'members: for member in members {
        add_between_members(out, behind_another, Keyword::Or)?;
        add_all(out, member)?;
        behind_another = true;
    }
    Ok(())
}

/// The keyword between two members, which the first one has not in front of it.
fn add_between_members(
    out: &mut Vec<Symbol>,
    behind_another: bool,
    keyword: Keyword,
) -> Result<(), NoMemory>
    ensures { OnOk result
        (out.new.items ≡ out.old.items ++ separator_symbols behind_another keyword) }
{
    if behind_another {
        add_keyword(out, keyword)
    } else {
        Ok(())
    }
}

fn add_test(
    out: &mut Vec<Symbol>,
    column: &Column,
    how: Relation,
    value: &Value,
) -> Result<(), NoMemory>
    ensures { OnOk result (out.new.items ≡ out.old.items ++ test_symbols column.now how value.now) }
{
    column.print(out)?;
    add_sign(out, sign_of(how))?;
    value.print(out)
}

fn sign_of(how: Relation) -> Sign
    ensures { result ≡ relation_sign how }
{
    match how {
        Relation::Eq => Sign::Equal,
        Relation::Ne => Sign::NotEqual,
        Relation::Lt => Sign::Less,
        Relation::Le => Sign::LessOrEqual,
        Relation::Gt => Sign::Greater,
        Relation::Ge => Sign::GreaterOrEqual,
    }
}

fn add_same(out: &mut Vec<Symbol>, left: &Column, right: &Column) -> Result<(), NoMemory>
    ensures { OnOk result (out.new.items ≡ out.old.items ++ same_symbols left.now right.now) }
{
    left.print(out)?;
    add_sign(out, Sign::Equal)?;
    right.print(out)
}

fn add_between(
    out: &mut Vec<Symbol>,
    column: &Column,
    low: &Value,
    high: &Value,
) -> Result<(), NoMemory>
    ensures { OnOk result
        (out.new.items ≡ out.old.items ++ between_symbols column.now low.now high.now) }
{
    column.print(out)?;
    add_keyword(out, Keyword::Between)?;
    low.print(out)?;
    add_keyword(out, Keyword::And)?;
    high.print(out)
}

fn add_one_of(out: &mut Vec<Symbol>, column: &Column, values: &[Value]) -> Result<(), NoMemory>
    ensures { OnOk result (out.new.items ≡ out.old.items ++ one_of_symbols column.now values.now) }
{
    column.print(out)?;
    add_keyword(out, Keyword::In)?;
    add_sign(out, Sign::Open)?;
    add_joined(out, values)?;
    add_sign(out, Sign::Close)
}
