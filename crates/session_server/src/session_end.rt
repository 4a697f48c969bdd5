//! How a session ended.
ghost use Rattle.std.specs.Prelude.{◌≡◌};
ghost use Rattle.session_server.specs.Session.{end_of_halt};

use script_run::Halt;

/// How a session ended.
#[derive(Clone, Copy, Debug, PartialEq, Eq)]
pub enum SessionEnd {
    /// The input has ended, and all replies were written.
    Done,
    /// A read failed. All replies were written to the statements that were whole before it.
    ReadFault,
    /// A write failed. Nothing was read or written after it.
    WriteFault,
    /// The byte past the limit came. All replies were written to the statements that
    /// were whole within the limit.
    Limit,
    /// No memory was left for the session.
    Memory,
}

/// How a session ends whose replies halted.
pub(crate) fn end_of_halt(halt: Halt) -> SessionEnd
    ensures { result ≡ end_of_halt halt }
{
    match halt {
        Halt::WriteFault => SessionEnd::WriteFault,
        Halt::NoMemory => SessionEnd::Memory,
    }
}
