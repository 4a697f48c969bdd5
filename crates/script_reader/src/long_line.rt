//! What is kept of a line that is coming and is already too long to be read. What a statement has of
//! such a line is in `clipping`.
ghost use Rattle.std.specs.Prelude.{◌≡◌, ◌<◌, ◌≤◌, ◌^◌, IfOk, length};
ghost use Rattle.std.specs.Str.Lossy.{utf8_valid_len};
ghost use Rattle.script_reader.specs.Short.{kept_word, kept_rest, short_line, short_text, unread};

use crate::clipping::{LINE_LIMIT, repeated};
use crate::lines::{has_block, is_no_statement, within, without_blanks};
use star_values::NoMemory;
use std::alloc::Global;
use std::str;

/// So many first bytes behind the blanks tell whether a line is a comment or a `load`.
const WORD_BYTES: usize = 5;

/// No character has more bytes.
const CHAR_BYTES: usize = 4;

/// A short line that means the same in the place of a long one, whatever bytes still come: spaces,
/// a first word that is `load` where the line's is, and the bytes from which on it is not UTF-8.
/// Its last byte stays, since a carriage return there may be part of the line's end.
pub(crate) fn shortened(alloc: Global, line: &[u8]) -> Result<Vec<u8>, NoMemory>
    requires { 0 < length line.now }
    ensures { IfOk result (λ kept. kept.items ≡ short_line LINE_LIMIT line.now) }
{
    let place = line.len() - 1;
    let mut kept = short_text(alloc, LINE_LIMIT, line.split_at(place).0)?;
    kept.extend_from_slice(line.split_at(place).1)?;
    Ok(kept)
}

#[tactic(auto, unfolding(crate::specs::Short::short_text))]
fn short_text(alloc: Global, limit: usize, text: &[u8]) -> Result<Vec<u8>, NoMemory>
    requires { limit < 2 ^ 32 }
    ensures { IfOk result (λ kept. kept.items ≡ short_text limit text.now) }
{
    let mut kept = repeated(alloc, b' ', within(text, limit + 1))?;
    kept.extend_from_slice(kept_word(text))?;
    kept.extend_from_slice(kept_rest(text))?;
    Ok(kept)
}

fn kept_word(front: &[u8]) -> &[u8]
    ensures { result.now ≡ kept_word front.now }
{
    let rest = without_blanks(front);
    if rest.len() < WORD_BYTES {
        return rest;
    }
    if is_no_statement(front) {
        return b"--";
    }
    if has_block(front) { b"load " } else { b";" }
}

fn kept_rest(front: &[u8]) -> &[u8]
    ensures { result.now ≡ kept_rest front.now }
{
    if without_blanks(front).len() < WORD_BYTES {
        return &[];
    }
    unread(front)
}

/// The first bytes from the place on where the text stops to be UTF-8.
fn unread(text: &[u8]) -> &[u8]
    ensures { result.now ≡ unread text.now }
{
    within(text.split_at(valid_len(text)).1, CHAR_BYTES)
}

fn valid_len(text: &[u8]) -> usize
    ensures len { result ≡ utf8_valid_len text.now }
    ensures within { result ≤ length text.now }
{
    match str::from_utf8(text) {
        Ok(_) => text.len(),
        Err(fault) => fault.valid_up_to(),
    }
}
