//! The symbols of a line with their places.
ghost use Rattle.std.specs.Prelude.{◌≡◌, length};

use crate::symbol::Symbol;
use std::marker::Model;

/// The symbols of a line in order, up to its end or to the place where no token can be read.
#[derive(Debug, Drop)]
pub struct Symbols {
    symbols: Vec<Symbol>,
    places: Vec<u32>,
    bad: Option<u32>,
}

impl Model for Symbols {
    ghost use Rattle.std.specs.Prelude.{◌≡◌, length};
    ghost use Rattle.star_lexer.specs.Symbol.{Symbolic};

    ghost Value = { Symbolic };

    ghost view = { λ s.
        record { symbols = s.symbols.items; places = s.places.items; bad = s.bad } };

    ghost invariant = { λ s. length s.places.items ≡ length s.symbols.items };
}

impl Symbols {
    /// These symbols with their places, and perhaps a place where no further one can be read.
    pub(crate) fn new(symbols: Vec<Symbol>, places: Vec<u32>, bad: Option<u32>) -> Symbols
        requires { length places.items ≡ length symbols.items }
        ensures { result ≡ record { symbols = symbols.items; places = places.items; bad = bad } }
    {
        Symbols {
            symbols,
            places,
            bad,
        }
    }

    pub fn as_slice(&self) -> &[Symbol]
        ensures symbols { result.now ≡ self.now.symbols }
        ensures placed { length self.now.places ≡ length self.now.symbols }
    {
        self.symbols.as_slice()
    }

    /// The place of the first byte of each symbol in its line, from 0.
    pub fn places(&self) -> &[u32]
        ensures places { result.now ≡ self.now.places }
        ensures placed { length self.now.places ≡ length self.now.symbols }
    {
        self.places.as_slice()
    }

    /// The place of the first byte that begins no token, or begins one that cannot be read.
    pub fn bad(&self) -> Option<u32>
        ensures { result ≡ self.now.bad }
    {
        self.bad
    }
}
