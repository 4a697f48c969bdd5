//! Tokens and their places in a line.
ghost use Rattle.std.specs.Prelude.{◌≡◌};

use std::marker::Model;

/// What a token is. Its bytes stand in the line.
#[derive(Clone, Copy, Debug, PartialEq, Eq)]
pub enum Lexeme {
    /// A letter or underscore, and then letters, digits and underscores.
    Word,
    /// An integer of 64 bits.
    Integer(i64),
    /// A text between single quotes, in which a quote stands doubled.
    Text,
    /// A sign, by its number in `( ) , . ; * = <> != < <= > >=`, from 0.
    Sign(u8),
}

/// A token of a line: what it is, and the places of its first and its last byte, from 0.
#[derive(Clone, Copy, Debug, PartialEq, Eq)]
pub struct Token {
    pub what: Lexeme,
    pub first: u32,
    pub last: u32,
}

/// The tokens of a line in order, up to its end or to the place where none can be read.
#[derive(Debug, Drop)]
pub struct Tokens {
    tokens: Vec<Token>,
    bad: Option<u32>,
}

impl Model for Tokens {
    ghost use Rattle.star_lexer.specs.Line.{Lexed};

    ghost Value = { Lexed };

    ghost view = { λ t. record { tokens = t.tokens.items; bad = t.bad } };
}

impl Tokens {
    /// These tokens, and perhaps a place where no further one can be read.
    pub(crate) fn new(tokens: Vec<Token>, bad: Option<u32>) -> Tokens
        ensures { result ≡ record { tokens = tokens.items; bad = bad } }
    {
        Tokens { tokens, bad }
    }

    pub fn as_slice(&self) -> &[Token]
        ensures { result.now ≡ self.now.tokens }
    {
        self.tokens.as_slice()
    }

    /// The place of the first byte that begins no token, or begins one that cannot be read.
    pub fn bad(&self) -> Option<u32>
        ensures { result ≡ self.now.bad }
    {
        self.bad
    }
}
