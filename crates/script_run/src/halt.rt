//! Why a run stops before its last reply.
ghost use Rattle.std.specs.Prelude.{◌≡◌};
ghost use Rattle.script_run.specs.declared.halt.Halt.TheVariants.{WriteFault, NoMemory as OutOfMemory};

use star_io::Failed;
use star_values::NoMemory;

/// Why a run stops before its last reply.
#[derive(Clone, Copy, Debug, PartialEq, Eq)]
pub enum Halt {
    /// A write failed.
    WriteFault,

    /// No memory was left for a reply or for the next statement.
    NoMemory,
}

impl From<Failed> for Halt {
    ghost from_gives = { λ _ halt. halt ≡ WriteFault };

    fn from(_failed: Failed) -> Halt {
        Halt::WriteFault
    }
}

impl From<NoMemory> for Halt {
    ghost from_gives = { λ _ halt. halt ≡ OutOfMemory };

    fn from(_none: NoMemory) -> Halt {
        Halt::NoMemory
    }
}
