//! What a statement has of the text of its line. What is kept of a line that is still coming is in
//! `long_line`.
ghost use Rattle.std.specs.Prelude.{◌≡◌, IfOk, map};
ghost use Rattle.std.specs.Str.{is_utf8};
ghost use Rattle.script_reader.specs.Script.{clipped, clipped_to};

use crate::first_statement::copy_bytes;
use crate::lines::within;
use star_values::{ByteText, NoMemory};
use std::alloc::{AllocError, Global};
use std::str;

/// The most bytes of a line that a statement has as they stand: a longer line is refused.
pub const LINE_LIMIT: usize = 65_536;

/// What a statement has of the text of its line: all of it, or for one of more than `LINE_LIMIT`
/// bytes a text of which the same is answered.
pub(crate) fn clipped(alloc: Global, text: &[u8]) -> Result<ByteText, NoMemory>
    ensures { IfOk result (λ t. t ≡ clipped text.now) }
{
    clipped_to(alloc, LINE_LIMIT, text)
}

#[tactic(auto, unfolding(crate::specs::Script::clipped_to))]
fn clipped_to(alloc: Global, limit: usize, text: &[u8]) -> Result<ByteText, NoMemory>
    ensures { IfOk result (λ t. t ≡ clipped_to limit text.now) }
{
    if text.len() <= limit {
        return copy_bytes(alloc, text);
    }
    if !is_utf8(text) {
        return copy_bytes(alloc, &[0xff]);
    }
    let letters = repeated(alloc, b'x', within(text, limit + 1))?;
    Ok(ByteText::from(letters))
}

fn is_utf8(text: &[u8]) -> bool
    ensures { result ≡ is_utf8 text.now }
{
    match str::from_utf8(text) {
        Ok(_) => true,
        Err(_) => false,
    }
}

/// The byte, as often as there are bytes.
pub(crate) fn repeated(alloc: Global, byte: u8, bytes: &[u8]) -> Result<Vec<u8>, AllocError>
    ensures { IfOk result (λ v. v.items ≡ map (λ _. byte) bytes.now) }
{
    bytes.iter().map(|_| byte).collect(alloc)
}
