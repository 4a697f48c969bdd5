//! What a statement means by its text alone, before any table is looked at.
ghost use Rattle.std.specs.Prelude.{◌≡◌, length, IfOk};
ghost use Rattle.star_parser.specs.Parsed.{parsed_of};
ghost use Rattle.star_parser.specs.Printed.{IsShaped};
ghost use Rattle.star_parser.specs.Statement.{statement_of};
ghost use Rattle.star_store.specs.Text.{map_ok};
ghost use Rattle.star_store.specs.Text.{lacks_block, meaning_of, parsed_meaning};

use script_reader::{Block, Statement};
use star_parser::{
    Ast, ParseFault, lines_are_what_the_grammar_says, parse, statements_have_their_shapes,
};
use star_values::{NoMemory, Refusal};
use std::alloc::Global;
use std::str;

/// What a statement means, or the reason for which its text is refused.
pub(crate) type Meaning = Result<Ast, Refusal>;

/// Reads the text of a statement. What it means has the shape that the grammar asks for.
pub(crate) fn read_text(alloc: Global, statement: &Statement) -> Result<Meaning, NoMemory>
    ensures meaning { IfOk result (λ meaning. map_ok statement_of meaning
        ≡ meaning_of statement.now) }
    ensures shaped { IfOk result (λ meaning. IfOk meaning (λ ast. IsShaped (statement_of ast))) }
{
    match str::from_utf8(statement.line.as_bytes()) {
        Ok(line) => read_line(alloc, line, &statement.block),
        Err(_) => Ok(Err(Refusal::NotUtf8)),
    }
}

/// Reads a line that is UTF-8, with what stands behind it.
fn read_line(alloc: Global, line: &str, block: &Block) -> Result<Meaning, NoMemory>
    ensures meaning { IfOk result (λ meaning. map_ok statement_of meaning
        ≡ parsed_meaning (length line.now) block.now (parsed_of line.now)) }
    ensures shaped { IfOk result (λ meaning. IfOk meaning (λ ast. IsShaped (statement_of ast))) }
{
    lines_are_what_the_grammar_says();
    statements_have_their_shapes();
    match parse(alloc, line) {
        // A line that was parsed is within its limits, so its length fits.
        Ok(ast) if lacks_block(&ast, block) => Ok(Err(Refusal::Syntax(line.len() as u32))),
        Ok(ast) => Ok(Ok(ast)),
        Err(ParseFault::Limit) => Ok(Err(Refusal::Limit)),
        Err(ParseFault::Syntax(place)) => Ok(Err(Refusal::Syntax(place))),
        Err(ParseFault::Memory) => Err(NoMemory),
    }
}

/// Whether a load has no closed block. The block of any other statement is not looked at.
fn lacks_block(ast: &Ast, block: &Block) -> bool
    ensures { result ≡ lacks_block (statement_of ast.now) block.now }
{
    matches!(ast, Ast::Load { .. }) && !matches!(block, Block::Closed(_))
}
