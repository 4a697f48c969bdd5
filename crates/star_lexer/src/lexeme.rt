//! The tokens of a line, one after the other. What reads the token at the front of bytes gives what
//! it is, and how many bytes it has.
ghost use Rattle.std.specs.Prelude.{◌≡◌, ◌+◌, ◌<◌, ◌≤◌, ◌^◌, true, take, length, position, bytes_eq, false, IfOk, IfSome};
ghost use Rattle.std.specs.List.{list_any, prefix_len};
ghost use Rattle.std.specs.Char.{is_ascii_digit};
ghost use Rattle.star_lexer.specs.Line.{is_blank, lexed, lexed_in};
ghost use Rattle.star_lexer.specs.Next.{IsNextToken};
ghost use Rattle.star_lexer.specs.Scan.{scan_len};
ghost use Rattle.star_lexer.specs.Spaced.{AreSpaced, IsSpacedNext};
ghost use Rattle.star_lexer.specs.Token.{begins_word, is_word_byte, word_at, minus_len, number_len, integer_at, text_len, text_at, signs, sign_of, sign_at, token_at};

use crate::token::{Lexeme, Token, Tokens};
use star_values::{NoMemory, read_int};
use std::alloc::Global;

/// The signs, in the order of their numbers.
const SIGNS: [&[u8]; 13] = [
    b"(", b")", b",", b".", b";", b"*", b"=", b"<>", b"!=", b"<", b"<=", b">", b">=",
];

/// What comes next in a line.
pub(crate) enum NextToken {
    /// Spaces and tabs to the end.
    End,
    /// A place where no token can be read.
    Bad(u32),
    Token(Token),
}

/// Reads the tokens of a line, with or without spaces and tabs between them, up to its
/// end or to the first place where none can be read. Each is as long as it can be.
/// Places are counted in bytes.
pub fn lex(alloc: Global, line: &str) -> Result<Tokens, NoMemory>
    requires { length line.now < 2 ^ 32 }
    ensures tokens { IfOk result (λ tokens. tokens ≡ lexed line.now) }
    ensures spaced { IfOk result (λ tokens. AreSpaced 0 line.now tokens.tokens tokens.bad) }
{
    lex_bytes(alloc, line.as_bytes())
}

fn lex_bytes(alloc: Global, line: &[u8]) -> Result<Tokens, NoMemory>
    requires { length line.now < 2 ^ 32 }
    ensures tokens { IfOk result (λ tokens. tokens ≡ lexed line.now) }
    ensures spaced { IfOk result (λ tokens. AreSpaced 0 line.now tokens.tokens tokens.bad) }
{
    let mut tokens = Vec::new(alloc);
    let mut rest = line;
    let mut place = 0;
    'tokens: loop {
        match next_token(rest, place) {
            NextToken::End => return Ok(Tokens::new(tokens, None)),
            NextToken::Bad(bad) => return Ok(Tokens::new(tokens, Some(bad))),
            NextToken::Token(token) => {
                tokens.push(token)?;
                rest = rest.split_at((token.last + 1 - place) as usize).1;
                place = token.last + 1;
            }
        }
    }
}

/// What comes next, where the bytes begin at this place of a line.
fn next_token(bytes: &[u8], place: u32) -> NextToken
    requires { place + length bytes.now < 2 ^ 32 }
    ensures next { IsNextToken place bytes.now result }
    ensures spaced { IsSpacedNext place bytes.now result }
{
    let blanks = blanks_len(bytes);
    let rest = bytes.split_at(blanks).1;
    let first = place + blanks as u32;
    if rest.is_empty() {
        return NextToken::End;
    }
    match token_at(rest) {
        Some((what, len)) => NextToken::Token(Token {
            what,
            first,
            last: first + len as u32 - 1,
        }),
        None => NextToken::Bad(first),
    }
}

fn blanks_len(bytes: &[u8]) -> usize
    ensures len { result ≡ prefix_len is_blank bytes.now }
    ensures within { result ≤ length bytes.now }
{
    bytes
        .iter()
        .take_while(|byte| **byte == b' ' || **byte == b'\t')
        .count()
}

/// The token at the front, and how many bytes it has.
fn token_at(bytes: &[u8]) -> Option<(Lexeme, usize)>
    ensures found { result ≡ token_at bytes.now }
    ensures within { IfSome result (λ found. (0 < found.1) × (found.1 ≤ length bytes.now)) }
{
    word_at(bytes)
        .or(integer_at(bytes))
        .or(text_at(bytes).or(sign_at(bytes)))
}

fn word_at(bytes: &[u8]) -> Option<(Lexeme, usize)>
    ensures found { result ≡ word_at bytes.now }
    ensures within { IfSome result (λ found. (0 < found.1) × (found.1 ≤ length bytes.now)) }
{
    if starts_word(bytes) {
        Some((Lexeme::Word, word_len(bytes)))
    } else {
        None
    }
}

/// The bytes have a first one, and a word begins with it.
fn starts_word(bytes: &[u8]) -> bool
    ensures { result ≡ list_any begins_word (take 1 bytes.now) }
{
    match bytes {
        [first, ..] => first.is_ascii_alphabetic() || *first == b'_',
        [] => false,
    }
}

/// The bytes have a first one, and it is one of a word.
fn goes_on_as_word(bytes: &[u8]) -> bool
    ensures { result ≡ list_any is_word_byte (take 1 bytes.now) }
{
    match bytes {
        [first, ..] => is_word_byte(*first),
        [] => false,
    }
}

fn is_word_byte(byte: u8) -> bool
    ensures { result ≡ is_word_byte byte }
{
    byte.is_ascii_alphanumeric() || byte == b'_'
}

fn word_len(bytes: &[u8]) -> usize
    ensures len { result ≡ prefix_len is_word_byte bytes.now }
    ensures within { result ≤ length bytes.now }
{
    bytes.iter().take_while(|byte| is_word_byte(**byte)).count()
}

fn integer_at(bytes: &[u8]) -> Option<(Lexeme, usize)>
    ensures found { result ≡ integer_at bytes.now }
    ensures within { IfSome result (λ found. (0 < found.1) × (found.1 ≤ length bytes.now)) }
{
    let len = number_len(bytes);
    let (number, rest) = bytes.split_at(len);
    if goes_on_as_word(rest) {
        return None;
    }
    let value = read_int(number)?;
    Some((Lexeme::Integer(value), len))
}

fn number_len(bytes: &[u8]) -> usize
    ensures len { result ≡ number_len bytes.now }
    ensures within { result ≤ length bytes.now }
{
    let minus = minus_len(bytes);
    minus + digits_len(bytes.split_at(minus).1)
}

fn minus_len(bytes: &[u8]) -> usize
    ensures len { result ≡ minus_len bytes.now }
    ensures within { result ≤ length bytes.now }
{
    if bytes.starts_with(b"-") { 1 } else { 0 }
}

fn digits_len(bytes: &[u8]) -> usize
    ensures len { result ≡ prefix_len is_ascii_digit bytes.now }
    ensures within { result ≤ length bytes.now }
{
    bytes
        .iter()
        .take_while(|byte| byte.is_ascii_digit())
        .count()
}

fn text_at(bytes: &[u8]) -> Option<(Lexeme, usize)>
    ensures found { result ≡ text_at bytes.now }
    ensures within { IfSome result (λ found. (0 < found.1) × (found.1 ≤ length bytes.now)) }
{
    let rest = bytes.strip_prefix(b"'")?;
    let len = text_len(rest)?;
    Some((Lexeme::Text, 1 + len))
}

/// How many bytes there are up to the quote that ends a text, with it.
fn text_len(bytes: &[u8]) -> Option<usize>
    ensures len { result ≡ text_len bytes.now }
    ensures within { IfSome result (λ len. len ≤ length bytes.now) }
{
    scan_text(bytes)
}

/// The same, byte by byte: a quote ends the text where no other one follows it.
fn scan_text(bytes: &[u8]) -> Option<usize>
    ensures len { result ≡ scan_len false bytes.now }
    ensures within { IfSome result (λ len. len ≤ length bytes.now) }
{
    let mut quoted = false;
    let mut passed = 0;
    'bytes: for byte in bytes {
        if quoted && *byte != b'\'' {
            return Some(passed);
        }
        if !quoted && *byte < b' ' {
            return None;
        }
        quoted = !quoted && *byte == b'\'';
        passed += 1;
    }
    if quoted { Some(passed) } else { None }
}

fn sign_at(bytes: &[u8]) -> Option<(Lexeme, usize)>
    ensures found { result ≡ sign_at bytes.now }
    ensures within { IfSome result (λ found. (0 < found.1) × (found.1 ≤ length bytes.now)) }
{
    match sign_of(front(bytes, 2)) {
        Some(sign) => Some(sign),
        None => sign_of(front(bytes, 1)),
    }
}

/// So many bytes, or as many as there are.
fn front(bytes: &[u8], len: usize) -> &[u8]
    ensures front { result.now ≡ take len bytes.now }
    ensures within { length result.now ≤ length bytes.now }
{
    bytes.split_at(len.min(bytes.len())).0
}

fn sign_of(bytes: &[u8]) -> Option<(Lexeme, usize)>
    ensures found { result ≡ sign_of bytes.now }
    ensures within { IfSome result (λ found. (0 < found.1) × (found.1 ≤ length bytes.now)) }
{
    let number = sign_number(bytes)?;
    Some((Lexeme::Sign(number as u8), bytes.len()))
}

fn sign_number(bytes: &[u8]) -> Option<usize>
    ensures number { result ≡ position (λ sign. bytes_eq sign bytes.now) signs }
    ensures small { IfSome result (λ number. number < 13) }
{
    place_of(bytes, &SIGNS)
}

/// The place of the bytes in a table.
fn place_of(bytes: &[u8], table: &[&[u8]]) -> Option<usize>
    ensures place { result ≡ position (λ entry. bytes_eq entry.now bytes.now) table.now }
    ensures within { IfSome result (λ place. place < length table.now) }
{
    table.iter().position(|entry| *entry == bytes)
}
