//! Where bytes come from. Sources in memory are in `piece_source`, real ones in `std_streams`.
ghost use Rattle.std.specs.Prelude.{◌≡◌, ◌<◌, ◌≤◌, Option, None, length, IfOk};
ghost use Rattle.star_io.specs.Link.{ReadingSide, WritingSide};
ghost use Rattle.star_io.specs.Source.{GivesBytes};

use crate::failed::Failed;

/// What gives bytes, in order, until its input ends or a call fails.
pub trait Source {
    // The bytes still to come, where the source tells them, how many reads have failed,
    // whether the last one did, and whether some read answered `Ok(0)`. The count may stand
    // still at a counter's last value.
    ghost reading: { Self → ReadingSide };

    // What the source tells as a sink, where it is the reading side of a link.
    ghost writing_side: { Self → Option WritingSide } = { λ _. None };

    /// Puts the next bytes in front of `into`, and answers how many; what stands behind them in
    /// `into` is left open. `Ok(0)` is the end of the input.
    fn read(&mut self, into: &mut [u8]) -> Result<usize, Failed>
        requires { 0 < length into.old }
        ensures bound { IfOk result (λ n. n ≤ length into.new) }
        ensures gives { GivesBytes (reading self.old) (reading self.new) into.new result }
        ensures apart { writing_side self.new ≡ writing_side self.old };
}
