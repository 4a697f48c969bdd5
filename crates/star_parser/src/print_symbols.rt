//! The symbols of the parts of a statement, written behind others.
ghost use Rattle.std.specs.Prelude.{◌≡◌, ◌++◌, ◌∷◌, [], OnOk, List, flat_map};
ghost use Rattle.star_lexer.specs.declared.symbol.Symbol.{Symbol};
ghost use Rattle.star_lexer.specs.declared.symbol.Symbol.TheVariants as symbol;
ghost use Rattle.star_lexer.specs.declared.keyword.Keyword.TheVariants as key;
ghost use Rattle.star_lexer.specs.declared.sign.Sign.TheVariants as mark;
ghost use Rattle.star_parser.specs.Grammar.{comma};
ghost use Rattle.star_parser.specs.Printed.{joined, name_symbols, literal_symbols, column_symbols, item_symbols, kind_symbol, target_symbols, declared_symbols, in_brackets};

use crate::ast::{AstColumn, AstItem};
use crate::tree::Column;
use star_lexer::{Keyword, Sign, Symbol};
use star_values::{Kind, NoMemory, SmallText, Value};

/// A part of a statement that is printed as symbols.
pub trait Print {
    ghost symbols: { Self → List Symbol };

    /// Writes its symbols behind those that are there.
    fn print(&self, out: &mut Vec<Symbol>) -> Result<(), NoMemory>
        ensures { OnOk result (out.new.items ≡ out.old.items ++ symbols self.now) };
}

pub fn add_keyword(out: &mut Vec<Symbol>, keyword: Keyword) -> Result<(), NoMemory>
    ensures { OnOk result (out.new.items ≡ out.old.items ++ symbol.Keyword keyword ∷ []) }
{
    out.push(Symbol::Keyword(keyword))?;
    Ok(())
}

pub fn add_sign(out: &mut Vec<Symbol>, sign: Sign) -> Result<(), NoMemory>
    ensures { OnOk result (out.new.items ≡ out.old.items ++ symbol.Sign sign ∷ []) }
{
    out.push(Symbol::Sign(sign))?;
    Ok(())
}

impl Print for SmallText {
    ghost symbols = { name_symbols };

    fn print(&self, out: &mut Vec<Symbol>) -> Result<(), NoMemory> {
        out.push(Symbol::Name(self.copy()?))?;
        Ok(())
    }
}

impl Print for Value {
    ghost symbols = { literal_symbols };

    fn print(&self, out: &mut Vec<Symbol>) -> Result<(), NoMemory> {
        out.push(Symbol::Literal(self.copy()?))?;
        Ok(())
    }
}

impl Print for Column {
    ghost symbols = { column_symbols };

    fn print(&self, out: &mut Vec<Symbol>) -> Result<(), NoMemory> {
        match &self.table {
            Some(table) => {
                table.print(out)?;
                add_sign(out, Sign::Dot)?;
                self.name.print(out)
            }
            None => self.name.print(out),
        }
    }
}

impl Print for AstItem {
    ghost symbols = { item_symbols };

    fn print(&self, out: &mut Vec<Symbol>) -> Result<(), NoMemory> {
        match self {
            AstItem::Plain(column) => column.print(out),
            AstItem::CountAll => add_count_all(out),
            AstItem::Count(column) => add_call(out, Keyword::Count, column),
            AstItem::Sum(column) => add_call(out, Keyword::Sum, column),
            AstItem::Min(column) => add_call(out, Keyword::Min, column),
            AstItem::Max(column) => add_call(out, Keyword::Max, column),
        }
    }
}

fn add_count_all(out: &mut Vec<Symbol>) -> Result<(), NoMemory>
    ensures { OnOk result (out.new.items
        ≡ out.old.items ++ symbol.Keyword key.Count ∷ in_brackets (symbol.Sign mark.Star ∷ [])) }
{
    add_keyword(out, Keyword::Count)?;
    add_sign(out, Sign::Open)?;
    add_sign(out, Sign::Star)?;
    add_sign(out, Sign::Close)
}

/// Writes a function of a column.
fn add_call(out: &mut Vec<Symbol>, function: Keyword, column: &Column) -> Result<(), NoMemory>
    ensures { OnOk result (out.new.items
        ≡ out.old.items ++ symbol.Keyword function ∷ in_brackets (column_symbols column.now)) }
{
    add_keyword(out, function)?;
    add_sign(out, Sign::Open)?;
    column.print(out)?;
    add_sign(out, Sign::Close)
}

impl Print for AstColumn {
    ghost symbols = { declared_symbols };

    fn print(&self, out: &mut Vec<Symbol>) -> Result<(), NoMemory> {
        self.name.print(out)?;
        add_kind(out, self.kind)?;
        add_target(out, &self.references)
    }
}

fn add_kind(out: &mut Vec<Symbol>, kind: Kind) -> Result<(), NoMemory>
    ensures { OnOk result (out.new.items ≡ out.old.items ++ kind_symbol kind ∷ []) }
{
    match kind {
        Kind::Int => add_keyword(out, Keyword::Int),
        Kind::Text => add_keyword(out, Keyword::Text),
    }
}

fn add_target(out: &mut Vec<Symbol>, target: &Option<SmallText>) -> Result<(), NoMemory>
    ensures { OnOk result (out.new.items ≡ out.old.items ++ target_symbols target.now) }
{
    match target {
        Some(dimension) => {
            add_keyword(out, Keyword::References)?;
            dimension.print(out)
        }
        None => Ok(()),
    }
}

/// Writes the values with a comma between each two.
pub fn add_joined<T: Print>(out: &mut Vec<Symbol>, values: &[T]) -> Result<(), NoMemory>
    ensures { OnOk result (out.new.items ≡ out.old.items ++ joined comma T.symbols values.now) }
{
    match values {
        [] => Ok(()),
        [first, rest @ ..] => {
            first.print(out)?;
            add_more(out, rest)
        }
    }
}

/// Writes the values with a comma in front of each.
pub fn add_more<T: Print>(out: &mut Vec<Symbol>, values: &[T]) -> Result<(), NoMemory>
    ensures { OnOk result
        (out.new.items ≡ out.old.items ++ flat_map (λ next. comma ∷ T.symbols next) values.now) }
{
    'values: for value in values {
        add_sign(out, Sign::Comma)?;
        value.print(out)?;
    }
    Ok(())
}
