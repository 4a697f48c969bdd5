//! The cell at the front of bytes.
ghost use Rattle.std.specs.Prelude.{◌≡◌, ◌≤◌, false, length, Some, None, option_map, IfOk, if◌then◌else◌};
ghost use Rattle.std.specs.Option.{option_or};
ghost use Rattle.std.specs.List.{prefix_len};
ghost use Rattle.star_values.specs.SmallText.{is_small_text};
ghost use Rattle.reply_text.specs.Reading.{behind, cell_at, content_at, end_at, ended_cell_at, integer_at, integer_cell_in, is_integer_byte, null_at, plain_integer_in, text_at};

use crate::numbers::behind;
use itoa::Buffer;
use star_values::{
    Cell, NoMemory, SmallText, TextFault, Value, read_int, small_text_rule_is_tested,
};
use std::alloc::{AllocError, Global};

/// A cell, whether it is the last of its row, and the bytes behind the comma or line feed that ends
/// it.
#[tactic(auto, unfolding(crate::specs::Reading::ended_cell_at))]
pub(crate) fn ended_cell_at(
    alloc: Global,
    bytes: &[u8],
) -> Result<Option<(Cell, bool, &[u8])>, NoMemory>
    ensures { IfOk result (λ found.
        option_map (λ f. (f.0, f.1, f.2.now)) found ≡ ended_cell_at bytes.now) }
{
    let Ok(found) = cell_at(alloc, bytes) else {
        return Err(NoMemory);
    };
    let Some((cell, rest)) = found else {
        return Ok(None);
    };
    let Some((last, rest)) = end_at(rest) else {
        return Ok(None);
    };
    Ok(Some((cell, last, rest)))
}

#[tactic(auto, unfolding(crate::specs::Reading::end_at))]
fn end_at(bytes: &[u8]) -> Option<(bool, &[u8])>
    ensures { option_map (λ f. (f.0, f.1.now)) result ≡ end_at bytes.now }
{
    match behind(bytes, b"\n") {
        Some(rest) => Some((true, rest)),
        None => Some((false, behind(bytes, b",")?)),
    }
}

#[tactic(auto, unfolding(crate::specs::Reading::cell_at))]
fn cell_at(alloc: Global, bytes: &[u8]) -> Result<Option<(Cell, &[u8])>, NoMemory>
    ensures { IfOk result (λ found. option_map (λ f. (f.0, f.1.now)) found ≡ cell_at bytes.now) }
{
    let Ok(found) = text_at(alloc, bytes) else {
        return Err(NoMemory);
    };
    match found {
        Some(found) => Ok(Some(found)),
        None => Ok(bare_cell_at(bytes)),
    }
}

fn bare_cell_at(bytes: &[u8]) -> Option<(Cell, &[u8])>
    ensures { option_map (λ f. (f.0, f.1.now)) result
        ≡ option_or (null_at bytes.now) (integer_at bytes.now) }
{
    match null_at(bytes) {
        Some(found) => Some(found),
        None => integer_at(bytes),
    }
}

#[tactic(auto, unfolding(crate::specs::Reading::null_at))]
fn null_at(bytes: &[u8]) -> Option<(Cell, &[u8])>
    ensures { option_map (λ f. (f.0, f.1.now)) result ≡ null_at bytes.now }
{
    Some((Cell::Null, behind(bytes, b"null")?))
}

#[tactic(auto, unfolding(crate::specs::Reading::integer_at))]
fn integer_at(bytes: &[u8]) -> Option<(Cell, &[u8])>
    ensures { option_map (λ f. (f.0, f.1.now)) result ≡ integer_at bytes.now }
{
    let (digits, rest) = bytes.split_at(integer_len(bytes));
    Some((integer_cell_in(digits)?, rest))
}

fn integer_cell_in(bytes: &[u8]) -> Option<Cell>
    ensures { result ≡ integer_cell_in bytes.now }
{
    Some(Cell::Full(Value::Int(plain_integer_in(bytes)?)))
}

fn integer_len(bytes: &[u8]) -> usize
    ensures len { result ≡ prefix_len is_integer_byte bytes.now }
    ensures within { result ≤ length bytes.now }
{
    bytes
        .iter()
        .take_while(|byte| byte.is_ascii_digit() || **byte == b'-')
        .count()
}

/// The integer whose decimal text the bytes are. It is written anew, so that there is one spelling.
#[tactic(auto, unfolding(crate::specs::Reading::plain_integer_in))]
fn plain_integer_in(bytes: &[u8]) -> Option<i64>
    ensures { result ≡ plain_integer_in bytes.now }
{
    let number = read_int(bytes)?;
    if Buffer::new().format(number).as_bytes() == bytes {
        Some(number)
    } else {
        None
    }
}

#[tactic(auto, unfolding(crate::specs::Reading::text_at))]
fn text_at(alloc: Global, bytes: &[u8]) -> Result<Option<(Cell, &[u8])>, NoMemory>
    ensures { IfOk result (λ found. option_map (λ f. (f.0, f.1.now)) found ≡ text_at bytes.now) }
{
    let Some(quoted) = behind(bytes, b"'") else {
        return Ok(None);
    };
    let Some((content, rest)) = content_at(alloc, quoted)? else {
        return Ok(None);
    };
    let Some(text) = small_text_in(alloc, content.as_slice())? else {
        return Ok(None);
    };
    Ok(Some((Cell::Full(Value::Str(text)), rest)))
}

/// The content of a text from behind its first quote, and the bytes behind the quote that ends it:
/// a doubled quote is one of the content.
fn content_at(alloc: Global, bytes: &[u8]) -> Result<Option<(Vec<u8>, &[u8])>, AllocError>
    ensures { IfOk result (λ found.
        option_map (λ f. (f.0.items, f.1.now)) found ≡ content_at false bytes.now) }
{
    let mut content = Vec::new(alloc);
    let mut quoted = false;
    let mut passed = 0;
    'bytes: for byte in bytes {
        let quote = *byte == b'\'';
        if quoted && !quote {
            return Ok(Some((content, bytes.split_at(passed).1)));
        }
        if quoted || !quote {
            content.push(*byte)?;
        }
        quoted = !quoted && quote;
        passed += 1;
    }
    Ok(None)
}

/// The bytes as a text, where a table may hold them.
fn small_text_in(alloc: Global, bytes: &[u8]) -> Result<Option<SmallText>, NoMemory>
    ensures { IfOk result (λ text.
        text ≡ (if is_small_text bytes.now then Some bytes.now else None)) }
{
    small_text_rule_is_tested();
    match SmallText::from_bytes(alloc, bytes) {
        Ok(text) => Ok(Some(text)),
        Err(TextFault::BadText) => Ok(None),
        Err(TextFault::Memory) => Err(NoMemory),
    }
}
