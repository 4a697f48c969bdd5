//! The line that begins a statement. Where a block ends is in `closing`.
ghost use Rattle.std.specs.Prelude.{◌≡◌, ◌<◌, ◌≤◌, [], length, drop, IfNone, IfSome};
ghost use Rattle.script_reader.specs.Script.{statements_of};
ghost use Rattle.script_reader.specs.Cut.{statements_from};
ghost use Rattle.script_reader.specs.Coming.{StaysOpening};
ghost use Rattle.script_reader.specs.Reach.{Opens};

use crate::lines::{first_line_len, is_no_statement, line_text};

/// A line that begins a statement.
#[derive(Clone, Copy)]
pub struct Opening<'a> {
    pub text: &'a [u8],
    /// The bytes of the script up to the end of the line.
    pub end: usize,
}

/// The first line that begins a statement: blank lines and comments are passed over.
pub fn first_opening(script: &[u8], ended: bool) -> Option<Opening<'_>>
    ensures none { IfNone result (statements_of ended script.now ≡ []) }
    ensures some { IfSome result (λ o.
        statements_of ended script.now ≡ statements_from ended o.text.now (drop o.end script.now)) }
    ensures within { IfSome result (λ o. (0 < o.end) × (o.end ≤ length script.now)) }
    ensures lines { IfSome result (λ o. Opens ended script.now o.text.now o.end) }
    ensures stays { IfSome result (λ o. StaysOpening ended script.now o.text.now o.end) }
{
    let mut end = 0;
    'lines: loop {
        let rest = &script[end..];
        let Some(len) = first_line_len(rest, ended) else {
            return None;
        };
        let text = line_text(&rest[..len]);
        end += len;
        if !is_no_statement(text) {
            return Some(Opening { text, end });
        }
    }
}
