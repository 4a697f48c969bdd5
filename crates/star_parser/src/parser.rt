//! Symbols from the front.
ghost use Rattle.std.specs.Prelude.{◌≡◌, IfOk};
ghost use Rattle.star_lexer.specs.declared.sign.Sign.TheVariants as mark;
ghost use Rattle.star_lexer.specs.declared.symbol.Symbol.TheVariants as symbol;
ghost use Rattle.star_parser.specs.Reader.{Gave, begins, behind, is_word, is_sign, is_literal, expect, name_at, literal_at, end_at};

use star_lexer::{Keyword, Sign, Symbol};
use star_values::{NoMemory, SmallText, Value};
use std::alloc::{AllocError, AllocFailed, Global};

/// Why reading stopped.
#[derive(Drop)]
pub enum Stop {
    Memory,
    /// The next symbol does not fit, or there is none.
    Unfit,
}

impl From<AllocError> for Stop {
    ghost use Rattle.std.specs.Prelude.{◌≡◌};
    ghost use Rattle.star_parser.specs.declared.parser.Stop.TheVariants.{Memory};

    ghost from_gives = { λ _ stop. stop ≡ Memory };

    fn from(_e: AllocError) -> Stop {
        Stop::Memory
    }
}

impl<T: Drop> From<AllocFailed<T>> for Stop {
    ghost use Rattle.std.specs.Prelude.{◌≡◌};
    ghost use Rattle.star_parser.specs.declared.parser.Stop.TheVariants.{Memory};

    ghost from_gives = { λ _ stop. stop ≡ Memory };

    fn from(_e: AllocFailed<T>) -> Stop {
        Stop::Memory
    }
}

impl From<NoMemory> for Stop {
    ghost use Rattle.std.specs.Prelude.{◌≡◌};
    ghost use Rattle.star_parser.specs.declared.parser.Stop.TheVariants.{Memory};

    ghost from_gives = { λ _ stop. stop ≡ Memory };

    fn from(_e: NoMemory) -> Stop {
        Stop::Memory
    }
}

#[derive(Drop)]
pub struct Parser<'a> {
    pub alloc: Global,
    pub rest: &'a [Symbol],
}

impl<'a> Parser<'a> {
    pub fn skip_keyword(&mut self, keyword: Keyword) -> bool
        ensures skipped { result ≡ begins (is_word keyword) self.old.rest.now }
        ensures rest { self.new.rest.now ≡ behind (is_word keyword) self.old.rest.now }
    {
        match self.rest {
            [first, rest @ ..] if is_word(first, keyword) => {
                self.rest = rest;
                true
            }
            _ => false,
        }
    }

    pub fn skip_sign(&mut self, sign: Sign) -> bool
        ensures skipped { result ≡ begins (is_sign sign) self.old.rest.now }
        ensures rest { self.new.rest.now ≡ behind (is_sign sign) self.old.rest.now }
    {
        match self.rest {
            [first, rest @ ..] if is_sign(first, sign) => {
                self.rest = rest;
                true
            }
            _ => false,
        }
    }

    pub fn at_literal(&self) -> bool
        ensures { result ≡ begins is_literal self.now.rest.now }
    {
        match self.rest {
            [first, ..] => is_literal(first),
            [] => false,
        }
    }

    pub fn keyword(&mut self, keyword: Keyword) -> Result<(), Stop>
        ensures { Gave (λ u. u) result self.new.rest.now
            (expect (is_word keyword) self.old.rest.now) }
    {
        if self.skip_keyword(keyword) {
            Ok(())
        } else {
            Err(Stop::Unfit)
        }
    }

    pub fn sign(&mut self, sign: Sign) -> Result<(), Stop>
        ensures { Gave (λ u. u) result self.new.rest.now
            (expect (is_sign sign) self.old.rest.now) }
    {
        if self.skip_sign(sign) {
            Ok(())
        } else {
            Err(Stop::Unfit)
        }
    }

    pub fn name(&mut self) -> Result<SmallText, Stop>
        ensures { Gave (λ text. text) result self.new.rest.now (name_at self.old.rest.now) }
    {
        match self.rest {
            [Symbol::Name(name), rest @ ..] => {
                let name = name.copy()?;
                self.rest = rest;
                Ok(name)
            }
            _ => Err(Stop::Unfit),
        }
    }

    pub fn literal(&mut self) -> Result<Value, Stop>
        ensures { Gave (λ value. value) result self.new.rest.now (literal_at self.old.rest.now) }
    {
        match self.rest {
            [Symbol::Literal(value), rest @ ..] => {
                let value = value.copy()?;
                self.rest = rest;
                Ok(value)
            }
            _ => Err(Stop::Unfit),
        }
    }

    /// Hands on what stood between parentheses, where the second one follows.
    pub fn close<T: Drop>(&mut self, inner: T) -> Result<T, Stop>
        ensures read { Gave (λ _. tt) result self.new.rest.now
            (expect (is_sign mark.Close) self.old.rest.now) }
        ensures same { IfOk result (λ value. value ≡ inner) }
    {
        self.sign(Sign::Close)?;
        Ok(inner)
    }

    /// Hands on what was read, where nothing follows.
    pub fn end<T: Drop>(&mut self, whole: T) -> Result<T, Stop>
        ensures read { Gave (λ _. tt) result self.new.rest.now (end_at self.old.rest.now) }
        ensures same { IfOk result (λ value. value ≡ whole) }
    {
        if self.rest.is_empty() {
            Ok(whole)
        } else {
            Err(Stop::Unfit)
        }
    }
}

/// Whether a symbol is this keyword.
fn is_word(symbol: &Symbol, keyword: Keyword) -> bool
    ensures { result ≡ is_word keyword symbol.now }
{
    match symbol {
        Symbol::Keyword(word) => *word == keyword,
        Symbol::Name(_) | Symbol::Literal(_) | Symbol::Sign(_) => false,
    }
}

/// Whether a symbol is this sign.
fn is_sign(symbol: &Symbol, sign: Sign) -> bool
    ensures { result ≡ is_sign sign symbol.now }
{
    match symbol {
        Symbol::Sign(mark) => *mark == sign,
        Symbol::Keyword(_) | Symbol::Name(_) | Symbol::Literal(_) => false,
    }
}

fn is_literal(symbol: &Symbol) -> bool
    ensures { result ≡ is_literal symbol.now }
{
    matches!(symbol, Symbol::Literal(_))
}
