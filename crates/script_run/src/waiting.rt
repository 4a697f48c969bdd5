//! Whether a statement is a `wait`.
ghost use Rattle.std.specs.Prelude.{◌≡◌, length, IfOk};
ghost use Rattle.script_reader.specs.declared.statement.Block.{Block};
ghost use Rattle.star_parser.specs.Parsed.{parsed_of};
ghost use Rattle.star_store.specs.Text.{parsed_meaning};
ghost use Rattle.script_run.specs.Waiting.{is_wait, means_wait};

use script_reader::Statement;
use star_parser::{Ast, ParseFault, parse};
use star_values::NoMemory;
use std::alloc::Global;
use std::str;

/// Whether a statement is a `wait`.
pub(crate) fn is_wait(alloc: Global, statement: &Statement) -> Result<bool, NoMemory>
    ensures { IfOk result (λ waits. waits ≡ is_wait statement.now) }
{
    match str::from_utf8(statement.line.as_bytes()) {
        Ok(line) => is_wait_line(alloc, line),
        Err(_) => Ok(false),
    }
}

/// Whether a line is a `wait`, whatever stands behind it.
fn is_wait_line(alloc: Global, line: &str) -> Result<bool, NoMemory>
    ensures { (block : Block) →
        IfOk result (λ waits.
        waits ≡ means_wait (parsed_meaning (length line.now) block (parsed_of line.now))) }
{
    match parse(alloc, line) {
        Ok(ast) => {
            let waits = matches!(ast, Ast::Wait);
            drop(ast);
            Ok(waits)
        }
        Err(ParseFault::Limit | ParseFault::Syntax(_)) => Ok(false),
        Err(ParseFault::Memory) => Err(NoMemory),
    }
}
