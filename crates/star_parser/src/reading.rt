//! A line as a statement, or the reason why it is none.
ghost use Rattle.std.specs.Prelude.{◌≡◌, ℕ, ◌<◌, ◌≤◌, ◌^◌, Ok, Err, IfOk, OnOk, IsErrOf, length};
ghost use Rattle.std.specs.Option.{option_map_or};
ghost use Rattle.star_lexer.specs.Limits.{IsOverLimit};
ghost use Rattle.star_parser.specs.Statement.{Statement, statement_of};
ghost use Rattle.star_parser.specs.Parsed.{IsParsed, parsed_by, parsed_of};
ghost use Rattle.star_parser.specs.Reading.{sentence_at};
ghost use Rattle.star_parser.specs.Sentence.{IsSentenceOf, IsStopOf, IsSentence, IsStop, Answers, place_of};

use crate::ast::Ast;
use crate::fault::ParseFault;
use crate::parser::{Parser, Stop};
use star_lexer::{LineFault, Symbols, limits_are_tested, read_symbols};
use std::alloc::Global;

/// Reads a line as one statement, to its end. The limits of a line are tested first.
pub fn parse(alloc: Global, line: &str) -> Result<Ast, ParseFault>
    ensures read { IfOk result (λ ast. IsSentence line.now (statement_of ast)) }
    ensures only { (meaning : Statement) → IsSentence line.now meaning → ¬ (IsOverLimit line.now) →
        Answers meaning result }
    ensures syntax { (place : ℕ) → IsErrOf result (ParseFault.Syntax place) →
        IsStop line.now place }
    ensures within { OnOk result (¬ (IsOverLimit line.now)) }
    ensures limit { IsErrOf result ParseFault.Limit → IsOverLimit line.now }
    ensures exact { IsParsed result (parsed_of line.now) }
{
    limits_are_tested();
    match read_symbols(alloc, line) {
        Ok(symbols) => read_sentence(alloc, &symbols, line.len() as u32),
        Err(LineFault::Limit) => Err(ParseFault::Limit),
        Err(LineFault::Memory) => Err(ParseFault::Memory),
    }
}

fn read_sentence(alloc: Global, symbols: &Symbols, end: u32) -> Result<Ast, ParseFault>
    ensures read { IfOk result (λ ast. IsSentenceOf symbols.now (statement_of ast)) }
    ensures only { (meaning : Statement) → IsSentenceOf symbols.now meaning →
        Answers meaning result }
    ensures syntax { (place : ℕ) → IsErrOf result (ParseFault.Syntax place) →
        IsStopOf symbols.now end place }
    ensures limit { ¬ (IsErrOf result ParseFault.Limit) }
    ensures exact { IsParsed result (parsed_by symbols.now end (sentence_at symbols.now.symbols)) }
{
    let mut parser = Parser {
        alloc,
        rest: symbols.as_slice(),
    };
    match parser.sentence() {
        Ok(ast) => unless_bad(ast, symbols.bad()),
        Err(Stop::Memory) => Err(ParseFault::Memory),
        Err(Stop::Unfit) => Err(ParseFault::Syntax(place_of(symbols, parser.rest.len(), end))),
    }
}

/// What was read, unless a token behind it is bad.
fn unless_bad<T: Drop>(read: T, bad: Option<u32>) -> Result<T, ParseFault>
    ensures { result ≡ option_map_or (λ place. Err (ParseFault.Syntax place)) bad (Ok read) }
{
    match bad {
        Some(place) => Err(ParseFault::Syntax(place)),
        None => Ok(read),
    }
}

/// The place of the symbol behind which so many symbols are left, with it, or else of what stands
/// behind all of them.
fn place_of(symbols: &Symbols, left: usize, end: u32) -> u32
    requires { left ≤ length symbols.now.symbols }
    ensures { result ≡ place_of symbols.now left end }
{
    if left == 0 {
        symbols.bad().unwrap_or(end)
    } else {
        let places = symbols.places();
        places[places.len() - left]
    }
}
