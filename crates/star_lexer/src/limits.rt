//! The limits on the symbols of a line together: how deep parentheses stand, how many `not` there
//! are, and how long a list of literals is. A name or text that is too long is found in `reading`.
ghost use Rattle.std.specs.Prelude.{◌≡◌, ◌↔◌, ℕ, ◌+◌, ◌<◌, ◌≤◌, List, IsTrue, count_by, take_while, length};
ghost use Rattle.std.specs.List.{prefix_len};
ghost use Rattle.star_lexer.specs.Limits.{is_in, is_open, is_close, is_not, is_literal, is_comma, is_listed, IsTooDeep, HasTooManyNots, HasTooLongAList, AreOverTogether, IsOverLimit, begins_too_long_a_list, is_over_limit};
ghost use Rattle.star_lexer.specs.declared.limits.TheConstants.{MAX_DEPTH, MAX_NOTS, MAX_LIST};
ghost use Rattle.star_lexer.specs.declared.reading.TheConstants.{MAX_LINE_BYTES, MAX_NAME_BYTES};

use crate::keyword::Keyword;
use crate::sign::Sign;
use crate::symbol::Symbol;

/// How many `(` may stand beyond the `)` in front of any place.
pub const MAX_DEPTH: usize = 64;

/// How many `not` a line may have.
pub const MAX_NOTS: usize = 64;

/// How many literals a list may have.
pub const MAX_LIST: usize = 256;

/// The limits of a line can be tested.
pub fn limits_are_tested()
    ensures { (line : List ℕ) → IsTrue (is_over_limit line) ↔ IsOverLimit line }
{}

/// Whether symbols break a limit on parentheses, on `not` or on lists.
pub(crate) fn are_over_together(symbols: &[Symbol]) -> bool
    ensures { IsTrue result ↔ AreOverTogether symbols.now }
{
    is_too_deep(symbols) || (has_too_many_nots(symbols) || has_too_long_a_list(symbols))
}

fn is_too_deep(symbols: &[Symbol]) -> bool
    ensures { IsTrue result ↔ IsTooDeep symbols.now }
{
    let mut opened = 0;
    let mut closed = 0;
    'symbols: for symbol in symbols {
        if closed + MAX_DEPTH < opened {
            return true;
        }
        if is_open(symbol) {
            opened += 1;
        }
        if is_close(symbol) {
            closed += 1;
        }
    }
    closed + MAX_DEPTH < opened
}

fn has_too_many_nots(symbols: &[Symbol]) -> bool
    ensures { IsTrue result ↔ HasTooManyNots symbols.now }
{
    MAX_NOTS < symbols.iter().filter(|symbol| is_not(symbol)).count()
}

fn has_too_long_a_list(symbols: &[Symbol]) -> bool
    ensures { IsTrue result ↔ HasTooLongAList symbols.now }
{
    'places: for place in 0..symbols.len() {
        if begins_too_long_a_list(symbols.split_at(place).1) {
            return true;
        }
    }
    false
}

/// Whether an `in`, a `(` and then a list over the limit stand at the front.
fn begins_too_long_a_list(symbols: &[Symbol]) -> bool
    ensures { result ≡ begins_too_long_a_list symbols.now }
{
    match symbols {
        [first, second, rest @ ..] => {
            is_in(first) && (is_open(second) && MAX_LIST < list_len(rest))
        }
        _ => false,
    }
}

/// How many literals the run of literals and commas at the front has.
fn list_len(symbols: &[Symbol]) -> usize
    ensures { result ≡ count_by is_literal (take_while is_listed symbols.now) }
{
    let run = run_len(symbols);
    count_literals(symbols.split_at(run).0)
}

/// How many literals and commas stand at the front.
fn run_len(symbols: &[Symbol]) -> usize
    ensures len { result ≡ prefix_len is_listed symbols.now }
    ensures within { result ≤ length symbols.now }
{
    symbols
        .iter()
        .take_while(|symbol| is_listed(symbol))
        .count()
}

fn count_literals(symbols: &[Symbol]) -> usize
    ensures { result ≡ count_by is_literal symbols.now }
{
    symbols.iter().filter(|symbol| is_literal(symbol)).count()
}

fn is_in(symbol: &Symbol) -> bool
    ensures { result ≡ is_in symbol.now }
{
    match symbol {
        Symbol::Keyword(Keyword::In) => true,
        _ => false,
    }
}

fn is_open(symbol: &Symbol) -> bool
    ensures { result ≡ is_open symbol.now }
{
    match symbol {
        Symbol::Sign(Sign::Open) => true,
        _ => false,
    }
}

fn is_close(symbol: &Symbol) -> bool
    ensures { result ≡ is_close symbol.now }
{
    match symbol {
        Symbol::Sign(Sign::Close) => true,
        _ => false,
    }
}

fn is_not(symbol: &Symbol) -> bool
    ensures { result ≡ is_not symbol.now }
{
    match symbol {
        Symbol::Keyword(Keyword::Not) => true,
        _ => false,
    }
}

fn is_literal(symbol: &Symbol) -> bool
    ensures { result ≡ is_literal symbol.now }
{
    match symbol {
        Symbol::Literal(_) => true,
        _ => false,
    }
}

fn is_listed(symbol: &Symbol) -> bool
    ensures { result ≡ is_listed symbol.now }
{
    match symbol {
        Symbol::Literal(_) | Symbol::Sign(Sign::Comma) => true,
        _ => false,
    }
}

/// The most bytes of a line and of a name, how deep parentheses and `not` go, and how long a
/// list in parentheses may be.
pub fn lines_have_their_limits()
    ensures line { MAX_LINE_BYTES ≡ 65536 }
    ensures name { MAX_NAME_BYTES ≡ 63 }
    ensures depth { MAX_DEPTH ≡ 64 }
    ensures nots { MAX_NOTS ≡ 64 }
    ensures list { MAX_LIST ≡ 256 }
{}
