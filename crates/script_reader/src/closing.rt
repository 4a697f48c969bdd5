//! Where the block of a `load` ends. Which lines have a block is in `lines`.
ghost use Rattle.std.specs.Prelude.{◌≡◌, ℕ, List, [], IfNone, IfSome};
ghost use Rattle.script_reader.specs.Cut.{statements_from_load, statements_from_closing, ClosesWithin};
ghost use Rattle.script_reader.specs.Coming.{StaysClosed};
ghost use Rattle.script_reader.specs.Reach.{Closes};

use crate::lines::{first_line_len, is_dot_line};

/// The end of a block.
#[derive(Clone, Copy)]
pub enum Closing {
    /// A dot line: the bytes of the block in front of it, and the bytes up to the end of the line.
    Dot { len: usize, end: usize },
    /// The end of the input: all bytes are the block.
    Input,
}

/// The end of the block that begins the script.
pub fn first_closing(script: &[u8], ended: bool) -> Option<Closing>
    ensures none { IfNone result
        ((text : List ℕ) → statements_from_load ended text script.now ≡ []) }
    ensures some { IfSome result (λ closing. (text : List ℕ) →
        statements_from_load ended text script.now
        ≡ statements_from_closing ended text script.now closing) }
    ensures within { IfSome result (ClosesWithin script.now) }
    ensures lines { IfSome result (Closes ended script.now) }
    ensures stays { IfSome result (StaysClosed ended script.now) }
{
    let mut len = 0;
    'lines: loop {
        let rest = &script[len..];
        let Some(line_len) = first_line_len(rest, ended) else {
            return if ended { Some(Closing::Input) } else { None };
        };
        let end = len + line_len;
        if is_dot_line(&rest[..line_len]) {
            return Some(Closing::Dot { len, end });
        }
        len = end;
    }
}
