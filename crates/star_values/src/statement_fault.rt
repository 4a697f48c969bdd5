//! Why a statement is not carried out.
ghost use Rattle.std.specs.Prelude.{◌≡◌};
ghost use Rattle.star_values.specs.declared.statement_fault.StatementFault.TheVariants.{Refused, Memory};

use crate::no_memory::NoMemory;
use crate::refusal::Refusal;
use std::alloc::AllocError;
use std::error::Error;
use std::fmt;

/// Why a statement makes or changes no table, or is no query over the tables.
#[derive(Clone, Copy, Debug, PartialEq, Eq)]
pub enum StatementFault {
    /// The first reason for which it is refused.
    Refused(Refusal),
    /// No memory was left, or no number for one commit more. The statement may be
    /// one that is refused or not.
    Memory,
}

impl fmt::Display for StatementFault {
    ghost use Rattle.std.specs.Prelude.{Some};
    ghost use Rattle.star_values.specs.StatementFault.{words_of_fault};

    ghost output = { λ fault. Some (words_of_fault fault) };

    fn fmt<W: fmt::Write>(&self, f: &mut fmt::Formatter<W>) -> fmt::Result {
        match self {
            StatementFault::Refused(reason) => write!(f, "{reason}"),
            StatementFault::Memory => f.write_str("out of memory"),
        }
    }
}

impl Error for StatementFault {}

impl From<Refusal> for StatementFault {
    ghost from_gives = { λ reason fault. fault ≡ Refused reason };

    fn from(reason: Refusal) -> StatementFault {
        StatementFault::Refused(reason)
    }
}

impl From<NoMemory> for StatementFault {
    ghost from_gives = { λ _ fault. fault ≡ Memory };

    fn from(_none: NoMemory) -> StatementFault {
        StatementFault::Memory
    }
}

impl From<AllocError> for StatementFault {
    ghost from_gives = { λ _ fault. fault ≡ Memory };

    fn from(_e: AllocError) -> StatementFault {
        StatementFault::Memory
    }
}
