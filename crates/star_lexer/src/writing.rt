//! From symbols to a line.
ghost use Rattle.std.specs.Prelude.{◌≡◌, ◌++◌, List, All, IsUtf8, IfOk, OnOk};
ghost use Rattle.star_lexer.specs.Line.{lexed};
ghost use Rattle.star_lexer.specs.Symbol.{symbols_of};
ghost use Rattle.star_lexer.specs.Written.{symbol_text, spaced_text, line_of, IsWritable};
ghost use Rattle.star_lexer.specs.declared.symbol.Symbol.{Symbol};

use crate::symbol::Symbol;
use star_values::{ByteText, NoMemory, integer_text_reads_back, value_text};
use std::alloc::Global;

/// The line that symbols are written as: in order, with one space between, keywords in lower case,
/// `<>` rather than `!=`, and texts between quotes.
pub fn write_symbols(alloc: Global, symbols: &[Symbol]) -> Result<ByteText, NoMemory>
    ensures { IfOk result (λ text. text ≡ line_of symbols.now) }
{
    let mut line = ByteText::new(alloc);
    match symbols {
        [] => Ok(line),
        [first, rest @ ..] => {
            write_symbol(first, &mut line)?;
            write_spaced(rest, &mut line)?;
            Ok(line)
        }
    }
}

/// Appends symbols, each behind a space.
fn write_spaced(symbols: &[Symbol], line: &mut ByteText) -> Result<(), NoMemory>
    ensures { OnOk result (line.new ≡ line.old ++ spaced_text symbols.now) }
{
    'symbols: for symbol in symbols {
        line.extend_from_slice(b" ")?;
        write_symbol(symbol, line)?;
    }
    Ok(())
}

fn write_symbol(symbol: &Symbol, line: &mut ByteText) -> Result<(), NoMemory>
    ensures { OnOk result (line.new ≡ line.old ++ symbol_text symbol.now) }
{
    match symbol {
        Symbol::Keyword(keyword) => line.extend_from_slice(keyword.text()),
        Symbol::Name(name) => line.extend_from_slice(name.as_bytes()),
        Symbol::Literal(value) => value_text(value, line),
        Symbol::Sign(sign) => line.extend_from_slice(sign.text()),
    }
}

/// The line of symbols that can be written is text, and is read to its end as these symbols.
pub fn written_symbols_read_back()
    ensures symbols { (symbols : List Symbol) → All IsWritable symbols
        → symbols_of (line_of symbols) ≡ symbols }
    ensures whole { (symbols : List Symbol) → All IsWritable symbols
        → (lexed (line_of symbols)).bad ≡ None }
    ensures text { (symbols : List Symbol) → All IsWritable symbols → IsUtf8 (line_of symbols) }
{
    integer_text_reads_back();
}
