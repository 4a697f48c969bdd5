//! The symbols that the grammar is written in.

use crate::keyword::Keyword;
use crate::sign::Sign;
use star_values::{SmallText, Value};

/// A symbol of the grammar: what a token of a line stands for.
#[derive(Debug, PartialEq, Eq, Drop)]
pub enum Symbol {
    Keyword(Keyword),
    /// A word that is no keyword, in lower case.
    Name(SmallText),
    /// An integer, or the content of a text, in which a doubled quote counts once.
    Literal(Value),
    Sign(Sign),
}
