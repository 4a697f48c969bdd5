//! Why a statement is refused.
ghost use Rattle.std.specs.Prelude.{◌≡◌, Some};
ghost use Rattle.star_values.specs.Refusal.{number_of, words_of};

use std::fmt;

/// The reason for which a statement is refused. A reply gives its number and its words, which
/// `Display` prints.
#[derive(Clone, Copy, Debug, PartialEq, Eq, Hash)]
pub enum Refusal {
    /// No statement of the language begins so; the place is that of a byte in the line, from 0.
    Syntax(u32),
    UnknownName,
    AmbiguousName,
    DuplicateName,
    TypeMismatch,
    MissingJoin,
    MixedConjunct,
    NotGrouped,
    BadRecord,
    DuplicateKey,
    DanglingReference,
    Limit,
    OutOfOrder,
    NotUtf8,
}

impl Refusal {
    pub fn number(&self) -> u8
        ensures { result ≡ number_of self.now }
    {
        match self {
            Refusal::Syntax(_) => 1,
            Refusal::UnknownName => 2,
            Refusal::AmbiguousName => 3,
            Refusal::DuplicateName => 4,
            Refusal::TypeMismatch => 5,
            Refusal::MissingJoin => 6,
            Refusal::MixedConjunct => 7,
            Refusal::NotGrouped => 8,
            Refusal::BadRecord => 9,
            Refusal::DuplicateKey => 10,
            Refusal::DanglingReference => 11,
            Refusal::Limit => 12,
            Refusal::OutOfOrder => 13,
            Refusal::NotUtf8 => 14,
        }
    }
}

impl fmt::Display for Refusal {
    ghost output = { λ refusal. Some (words_of refusal) };

    fn fmt<W: fmt::Write>(&self, f: &mut fmt::Formatter<W>) -> fmt::Result {
        match self {
            Refusal::Syntax(place) => write!(f, "syntax at {place}"),
            Refusal::UnknownName => f.write_str("unknown name"),
            Refusal::AmbiguousName => f.write_str("ambiguous name"),
            Refusal::DuplicateName => f.write_str("duplicate name"),
            Refusal::TypeMismatch => f.write_str("type mismatch"),
            Refusal::MissingJoin => f.write_str("missing join"),
            Refusal::MixedConjunct => f.write_str("mixed conjunct"),
            Refusal::NotGrouped => f.write_str("not grouped"),
            Refusal::BadRecord => f.write_str("bad record"),
            Refusal::DuplicateKey => f.write_str("duplicate key"),
            Refusal::DanglingReference => f.write_str("dangling reference"),
            Refusal::Limit => f.write_str("limit"),
            Refusal::OutOfOrder => f.write_str("out of order"),
            Refusal::NotUtf8 => f.write_str("not UTF-8"),
        }
    }
}
