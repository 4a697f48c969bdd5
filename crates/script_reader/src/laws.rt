//! What the definitions of lines and blocks mean, said once more in other words.
ghost use Rattle.std.specs.Prelude.{◌≡◌};
ghost use Rattle.script_reader.specs.Steps.{StatementsComeInOrder};
ghost use Rattle.script_reader.specs.Whole.{StatementsAreGiven};
ghost use Rattle.script_reader.specs.Laws.{LinesJoinedAreTheScript, LineEndsAtItsLineFeed, BlockEndsAtTheFirstDotLine, LongLinesAreClipped};
ghost use Rattle.script_reader.specs.declared.clipping.TheConstants.{LINE_LIMIT};
ghost use Rattle.script_reader.specs.declared.pending_bytes.TheConstants.{SHORTENED_BYTES};
ghost use Rattle.script_reader.specs.declared.reader.TheConstants.{SCRIPT_LIMIT};

/// No byte of a script is lost between its lines.
pub fn lines_joined_are_the_script()
    ensures { LinesJoinedAreTheScript }
{}

/// A line ends behind its line feed, and nowhere before it.
pub fn line_ends_at_its_line_feed()
    ensures { LineEndsAtItsLineFeed }
{}

/// A block has the lines in front of the first dot line as they stand, and the
/// script goes on behind it.
pub fn block_ends_at_the_first_dot_line()
    ensures { BlockEndsAtTheFirstDotLine }
{}

/// Over any calls of a reader, the statements taken are the first of those of all bytes
/// that were fed, up to the limit, and what waits is behind them: it does not matter how a
/// script was cut into pieces.
pub fn statements_come_in_order()
    ensures { StatementsComeInOrder }
{}

/// The statements are those with the whole texts of their lines, but that long lines are clipped.
pub fn statements_are_given()
    ensures { StatementsAreGiven }
{}

/// What a statement has of its line is the line's text, and of a text that is too long to be read a
/// short one that is refused in the same way.
pub fn long_lines_are_clipped()
    ensures { LongLinesAreClipped }
{}

/// The most bytes of a script.
pub fn scripts_have_their_limit()
    ensures { SCRIPT_LIMIT ≡ 67108864 }
{}

/// The most bytes of a line that are given as they stand, and how many of a line that is coming are
/// never kept.
pub fn lines_have_their_limits()
    ensures limit { LINE_LIMIT ≡ 65536 }
    ensures kept { SHORTENED_BYTES ≡ 131074 }
{}
