//! From a line to its symbols. The limits on many symbols together are in `limits`.
ghost use Rattle.std.specs.Prelude.{◌≡◌, ◌↔◌, ◌+◌, ◌<◌, ◌≤◌, false, All, Any, IfOk, OnOk, IsErrOf, length, map};
ghost use Rattle.std.specs.Char.{to_ascii_lowercase};
ghost use Rattle.star_lexer.specs.Limits.{IsTooLong, IsOverLimit};
ghost use Rattle.star_lexer.specs.Read.{IsReadIn, IsWord, IsPlain, content_from};
ghost use Rattle.star_lexer.specs.Symbol.{token_bytes, word_symbol, content, symbol_of, symbolic};
ghost use Rattle.star_lexer.specs.Written.{IsName, IsWritable};
ghost use Rattle.star_values.specs.declared.small_text.TheConstants.{MAX_TEXT_BYTES};
ghost use Rattle.star_values.specs.declared.value.Value.TheVariants as value;
ghost use Rattle.star_lexer.specs.declared.symbol.Symbol.TheVariants as symbol;

use crate::fault::LineFault;
use crate::keyword::keyword_of;
use crate::lexeme::lex;
use crate::limits::are_over_together;
use crate::sign::sign_of;
use crate::symbol::Symbol;
use crate::symbols::Symbols;
use crate::token::{Lexeme, Token};
use star_values::{SmallText, TextFault, Value};
use std::alloc::{AllocError, Global};

/// How many bytes a line may have.
pub const MAX_LINE_BYTES: usize = 65_536;

/// How many bytes a name may have.
pub const MAX_NAME_BYTES: usize = 63;

/// The symbols of a line, up to its end or to the first place where no token can be read. The
/// limits are tested on these symbols alone, before anything is said of what stands behind them.
pub fn read_symbols(alloc: Global, line: &str) -> Result<Symbols, LineFault>
    ensures read { IfOk result (λ symbols. symbols ≡ symbolic line.now) }
    ensures writable { IfOk result (λ symbols. All IsWritable symbols.symbols) }
    ensures within { OnOk result (¬ (IsOverLimit line.now)) }
    ensures limit { IsErrOf result LineFault.Limit → IsOverLimit line.now }
    ensures bytes { MAX_LINE_BYTES < length line.now → IsErrOf result LineFault.Limit }
{
    if MAX_LINE_BYTES < line.len() {
        return Err(LineFault::Limit);
    }
    let tokens = lex(alloc, line)?;
    let symbols = symbols_of(alloc, line, tokens.as_slice())?;
    if are_over_together(symbols.as_slice()) {
        return Err(LineFault::Limit);
    }
    let places = places_of(alloc, tokens.as_slice())?;
    Ok(Symbols::new(symbols, places, tokens.bad()))
}

fn places_of(alloc: Global, tokens: &[Token]) -> Result<Vec<u32>, AllocError>
    ensures { IfOk result (λ places. places.items ≡ map (λ token. token.first) tokens.now) }
{
    tokens.iter().map(|token| token.first).collect(alloc)
}

/// What the tokens of a line stand for.
fn symbols_of(alloc: Global, line: &str, tokens: &[Token]) -> Result<Vec<Symbol>, LineFault>
    requires { All (IsReadIn line.now) tokens.now }
    ensures symbols { IfOk result (λ symbols. symbols.items ≡ map (symbol_of line.now) tokens.now) }
    ensures writable { IfOk result (λ symbols. All IsWritable symbols.items) }
    ensures short { IfOk result (λ symbols. All (λ s. ¬ (IsTooLong s)) symbols.items) }
    ensures long { IsErrOf result LineFault.Limit
        → Any IsTooLong (map (symbol_of line.now) tokens.now) }
{
    let mut symbols = Vec::new(alloc);
    'tokens: for token in tokens {
        symbols.push(symbol_of(alloc, line, *token)?)?;
    }
    Ok(symbols)
}

/// What a token of a line stands for.
fn symbol_of(alloc: Global, line: &str, token: Token) -> Result<Symbol, LineFault>
    requires { IsReadIn line.now token }
    ensures symbol { IfOk result (λ s. s ≡ symbol_of line.now token) }
    ensures writable { IfOk result IsWritable }
    ensures short { IfOk result (λ s. ¬ (IsTooLong s)) }
    ensures long { IsErrOf result LineFault.Limit → IsTooLong (symbol_of line.now token) }
{
    let bytes = token_bytes(line.as_bytes(), token);
    match token.what {
        Lexeme::Word => word_symbol(alloc, bytes),
        Lexeme::Integer(n) => Ok(Symbol::Literal(Value::Int(n))),
        Lexeme::Text => text_symbol(alloc, bytes.split_at(1).1),
        Lexeme::Sign(number) => Ok(Symbol::Sign(sign_of(number))),
    }
}

fn token_bytes(line: &[u8], token: Token) -> &[u8]
    requires ordered { token.first ≤ token.last }
    requires within { token.last < length line.now }
    ensures bytes { result.now ≡ token_bytes line.now token }
    ensures some { 0 < length result.now }
{
    let first = token.first as usize;
    let rest = line.split_at(first).1;
    rest.split_at(token.last as usize + 1 - first).0
}

/// A keyword, or the name that a word is in lower case.
fn word_symbol(alloc: Global, word: &[u8]) -> Result<Symbol, LineFault>
    requires { IsWord word.now }
    ensures symbol { IfOk result (λ s. s ≡ word_symbol word.now) }
    ensures writable { IfOk result IsWritable }
    ensures short { IfOk result (λ s. ¬ (IsTooLong s)) }
    ensures long { IsErrOf result LineFault.Limit → IsTooLong (word_symbol word.now) }
{
    let name = lower(alloc, word)?;
    match keyword_of(name.as_slice()) {
        Some(keyword) => Ok(Symbol::Keyword(keyword)),
        None => Ok(Symbol::Name(small_name(alloc, name.as_slice())?)),
    }
}

fn lower(alloc: Global, word: &[u8]) -> Result<Vec<u8>, AllocError>
    ensures { IfOk result (λ name. name.items ≡ map to_ascii_lowercase word.now) }
{
    word.iter()
        .map(|byte| byte.to_ascii_lowercase())
        .collect(alloc)
}

fn small_name(alloc: Global, name: &[u8]) -> Result<SmallText, LineFault>
    requires { IsPlain name.now }
    ensures text { IfOk result (λ text. text ≡ name.now) }
    ensures short { OnOk result (length name.now ≤ MAX_NAME_BYTES) }
    ensures long { IsErrOf result LineFault.Limit ↔ MAX_NAME_BYTES < length name.now }
{
    if MAX_NAME_BYTES < name.len() {
        return Err(LineFault::Limit);
    }
    small_text(alloc, name)
}

fn small_text(alloc: Global, text: &[u8]) -> Result<SmallText, LineFault>
    requires { IsPlain text.now }
    ensures text { IfOk result (λ small. small ≡ text.now) }
    ensures short { OnOk result (length text.now ≤ MAX_TEXT_BYTES) }
    ensures long { IsErrOf result LineFault.Limit ↔ MAX_TEXT_BYTES < length text.now }
{
    match SmallText::from_bytes(alloc, text) {
        Ok(small) => Ok(small),
        Err(TextFault::BadText) => Err(LineFault::Limit),
        Err(TextFault::Memory) => Err(LineFault::Memory),
    }
}

/// The literal that stands between quotes, from behind the first of them.
fn text_symbol(alloc: Global, quoted: &[u8]) -> Result<Symbol, LineFault>
    requires { IsPlain (content quoted.now) }
    ensures symbol { IfOk result (λ s. s ≡ symbol.Literal (value.Str (content quoted.now))) }
    ensures writable { IfOk result IsWritable }
    ensures short { IfOk result (λ s. ¬ (IsTooLong s)) }
    ensures long { IsErrOf result LineFault.Limit → MAX_TEXT_BYTES < length (content quoted.now) }
{
    let text = content(alloc, quoted)?;
    Ok(Symbol::Literal(Value::Str(small_text(alloc, text.as_slice())?)))
}

fn content(alloc: Global, quoted: &[u8]) -> Result<Vec<u8>, AllocError>
    ensures { IfOk result (λ text. text.items ≡ content quoted.now) }
{
    scan_content(alloc, quoted)
}

/// The same, byte by byte: a quote ends the text where no other one follows it.
fn scan_content(alloc: Global, quoted: &[u8]) -> Result<Vec<u8>, AllocError>
    ensures { IfOk result (λ text. text.items ≡ content_from false quoted.now) }
{
    let mut text = Vec::new(alloc);
    let mut after_quote = false;
    'bytes: for byte in quoted {
        let quote = *byte == b'\'';
        if after_quote && !quote {
            return Ok(text);
        }
        if after_quote || !quote {
            text.push(*byte)?;
        }
        after_quote = !after_quote && quote;
    }
    Ok(text)
}
