//! A statement as it stands in a script: its line, and the block behind a `load`.
use star_values::ByteText;

/// A statement of a script.
#[derive(Debug, Drop)]
pub struct Statement {
    /// Its line, without the line feed and without one carriage return at the end.
    pub line: ByteText,
    pub block: Block,
}

/// The lines behind a line whose first word is `load`, as they stand, with their line ends.
#[derive(Debug, Drop)]
pub enum Block {
    /// The line's first word is not `load`.
    Absent,
    /// A line that is a single dot ended the block.
    Closed(ByteText),
    /// The input ended before such a line.
    Unclosed(ByteText),
}
