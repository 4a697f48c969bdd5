//! The tokens of a line with their places, the symbols of the language's grammar that it holds, its
//! limits, and the line that a list of symbols is written as. Which lists of symbols are statements
//! is no question of this crate.
#![tactic(auto)]

mod fault;
mod keyword;
mod lexeme;
mod limits;
mod reading;
mod sign;
mod symbol;
mod symbols;
mod token;
mod writing;

pub use fault::LineFault;
pub use keyword::Keyword;
pub use lexeme::lex;
pub use limits::{MAX_DEPTH, MAX_LIST, MAX_NOTS, limits_are_tested, lines_have_their_limits};
pub use reading::{MAX_LINE_BYTES, MAX_NAME_BYTES, read_symbols};
pub use sign::Sign;
pub use symbol::Symbol;
pub use symbols::Symbols;
pub use token::{Lexeme, Token, Tokens};
pub use writing::{write_symbols, written_symbols_read_back};
