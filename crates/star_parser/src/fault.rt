//! Why a line is no statement.

use std::error::Error;
use std::fmt;

/// Why a line is no statement.
#[derive(Clone, Copy, Debug, PartialEq, Eq)]
pub enum ParseFault {
    /// The line is over one of the limits of a line.
    Limit,
    /// The place in the line, in bytes from 0, where it stops being the front of a statement. It is
    /// the line's length where only something is missing.
    Syntax(u32),
    /// No memory was left. The line may be a statement or not.
    Memory,
}

impl fmt::Display for ParseFault {
    ghost use Rattle.std.specs.Prelude.{Some};
    ghost use Rattle.star_parser.specs.Fault.{words_of_fault};

    ghost output = { λ fault. Some (words_of_fault fault) };

    fn fmt<W: fmt::Write>(&self, f: &mut fmt::Formatter<W>) -> fmt::Result {
        match self {
            ParseFault::Limit => f.write_str("over a limit"),
            ParseFault::Syntax(place) => write!(f, "syntax at {place}"),
            ParseFault::Memory => f.write_str("out of memory"),
        }
    }
}

impl Error for ParseFault {}
