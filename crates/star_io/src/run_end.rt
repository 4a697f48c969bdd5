//! How a run of a script ended.

/// The end of the run of one script.
#[derive(Clone, Copy, Debug, PartialEq, Eq)]
pub enum RunEnd {
    /// The input was read to its end, every reply was written, and no statement was refused.
    Clean,
    /// The input was read to its end and every reply was written; a statement was refused.
    SomeRefused,
    /// A read of the input failed.
    ReadFault,
    /// A write of a reply failed.
    WriteFault,
    /// The run itself found no memory.
    NoMemory,
    /// The input has more bytes than a script may have.
    ScriptLimit,
}
