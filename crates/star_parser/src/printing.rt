//! A statement as the line that it is printed as.
ghost use Rattle.std.specs.Prelude.{◌≡◌, ◌++◌, ◌∷◌, List, IsUtf8, IfOk, OnOk, option_map};
ghost use Rattle.star_lexer.specs.declared.keyword.Keyword.TheVariants as key;
ghost use Rattle.star_lexer.specs.declared.symbol.Symbol.TheVariants as symbol;
ghost use Rattle.star_parser.specs.Condition.{condition_of};
ghost use Rattle.star_parser.specs.Statement.{statement_of};
ghost use Rattle.star_parser.specs.Statement as plain;
ghost use Rattle.star_parser.specs.Parsed.{Means, parsed_of};
ghost use Rattle.star_parser.specs.Printed.{statement_symbols, dimension_column_symbols, header_symbols, where_symbols, group_symbols, printed, CanBeWritten};

use crate::ast::{Ast, AstColumn, AstItem};
use crate::print_conditions::add_any;
use crate::print_symbols::{Print, add_joined, add_keyword, add_more, add_sign};
use crate::tree::{Column, Tree};
use star_lexer::{
    Keyword, Sign, Symbol, limits_are_tested, write_symbols, written_symbols_read_back,
};
use star_values::{ByteText, NoMemory, SmallText};
use std::alloc::Global;

/// The line of a statement: words in lower case, one space between each two symbols, `<>`, no `;`,
/// and parentheses where an `or` stands inside an `and` and where either stands under `not`.
///
/// What is printed of a well-formed statement is read again as that statement.
pub fn print(alloc: Global, ast: &Ast) -> Result<ByteText, NoMemory>
    ensures printed { IfOk result (λ text. text ≡ printed (statement_of ast.now)) }
    ensures text { CanBeWritten (statement_of ast.now) → IfOk result IsUtf8 }
    ensures reads_back { CanBeWritten (statement_of ast.now)
        → IfOk result (λ text. parsed_of text ≡ Means (statement_of ast.now)) }
{
    limits_are_tested();
    written_symbols_read_back();
    let mut symbols = Vec::new(alloc);
    add_statement(&mut symbols, ast)?;
    write_symbols(alloc, symbols.as_slice())
}

fn add_statement(out: &mut Vec<Symbol>, ast: &Ast) -> Result<(), NoMemory>
    ensures { OnOk result
        (out.new.items ≡ out.old.items ++ statement_symbols (statement_of ast.now)) }
{
    match ast {
        Ast::Dimension { name, columns } => add_dimension(out, name, columns.as_slice()),
        Ast::Fact { name, columns } => add_fact(out, name, columns.as_slice()),
        Ast::Load { name, header } => add_load(out, name, *header),
        Ast::Delete { name, condition } => add_delete(out, name, condition),
        Ast::Select {
            items,
            tables,
            condition,
            groups,
        } => add_select(
            out,
            items.as_slice(),
            tables.as_slice(),
            condition,
            groups.as_slice(),
        ),
        Ast::Wait => add_keyword(out, Keyword::Wait),
    }
}

fn add_dimension(
    out: &mut Vec<Symbol>,
    name: &SmallText,
    columns: &[AstColumn],
) -> Result<(), NoMemory>
    ensures { OnOk result (out.new.items
        ≡ out.old.items ++ statement_symbols (plain.Dimension name.now columns.now)) }
{
    add_keyword(out, Keyword::Dimension)?;
    name.print(out)?;
    add_sign(out, Sign::Open)?;
    add_dimension_columns(out, columns)?;
    add_sign(out, Sign::Close)
}

fn add_dimension_columns(out: &mut Vec<Symbol>, columns: &[AstColumn]) -> Result<(), NoMemory>
    ensures { OnOk result (out.new.items ≡ out.old.items ++ dimension_column_symbols columns.now) }
{
    match columns {
        [] => Ok(()),
        [first, others @ ..] => {
            first.print(out)?;
            add_keyword(out, Keyword::Key)?;
            add_more(out, others)
        }
    }
}

fn add_fact(out: &mut Vec<Symbol>, name: &SmallText, columns: &[AstColumn]) -> Result<(), NoMemory>
    ensures { OnOk result
        (out.new.items ≡ out.old.items ++ statement_symbols (plain.Fact name.now columns.now)) }
{
    add_keyword(out, Keyword::Fact)?;
    name.print(out)?;
    add_sign(out, Sign::Open)?;
    add_joined(out, columns)?;
    add_sign(out, Sign::Close)
}

fn add_load(out: &mut Vec<Symbol>, name: &SmallText, header: bool) -> Result<(), NoMemory>
    ensures { OnOk result
        (out.new.items ≡ out.old.items ++ statement_symbols (plain.Load name.now header)) }
{
    add_keyword(out, Keyword::Load)?;
    name.print(out)?;
    if header {
        add_keyword(out, Keyword::Header)
    } else {
        Ok(())
    }
}

fn add_delete(
    out: &mut Vec<Symbol>,
    name: &SmallText,
    condition: &Option<Tree>,
) -> Result<(), NoMemory>
    ensures { OnOk result (out.new.items
        ≡ out.old.items
        ++ statement_symbols (plain.Delete name.now (option_map condition_of condition.now))) }
{
    add_keyword(out, Keyword::Delete)?;
    add_keyword(out, Keyword::From)?;
    name.print(out)?;
    add_where(out, condition)
}

fn add_select(
    out: &mut Vec<Symbol>,
    items: &[AstItem],
    tables: &[SmallText],
    condition: &Option<Tree>,
    groups: &[Column],
) -> Result<(), NoMemory>
    ensures { OnOk result (out.new.items ≡ out.old.items
        ++ statement_symbols (plain.Select items.now tables.now
        (option_map condition_of condition.now) groups.now)) }
{
    add_keyword(out, Keyword::Select)?;
    add_joined(out, items)?;
    add_keyword(out, Keyword::From)?;
    add_joined(out, tables)?;
    add_where(out, condition)?;
    add_groups(out, groups)
}

fn add_where(out: &mut Vec<Symbol>, condition: &Option<Tree>) -> Result<(), NoMemory>
    ensures { OnOk result
        (out.new.items ≡ out.old.items ++ where_symbols (option_map condition_of condition.now)) }
{
    match condition {
        Some(tree) => {
            add_keyword(out, Keyword::Where)?;
            add_any(out, tree)
        }
        None => Ok(()),
    }
}

fn add_groups(out: &mut Vec<Symbol>, groups: &[Column]) -> Result<(), NoMemory>
    ensures { OnOk result (out.new.items ≡ out.old.items ++ group_symbols groups.now) }
{
    if groups.is_empty() {
        return Ok(());
    }
    add_keyword(out, Keyword::Group)?;
    add_keyword(out, Keyword::By)?;
    add_joined(out, groups)
}
