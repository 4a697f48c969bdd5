//! The number at the front of bytes.
ghost use Rattle.std.specs.Prelude.{◌≡◌, ◌≤◌, length, option_map, SomeIff};
ghost use Rattle.std.specs.Str.Parse.{digits_value};
ghost use Rattle.std.specs.Char.{is_ascii_digit};
ghost use Rattle.std.specs.List.{prefix_len};
ghost use Rattle.reply_text.specs.Reading.{IsNumber, behind, number_in, number_at, number_then, numbers_at};

use itoa::Buffer;
use std::str;

/// The bytes behind a word at the front.
#[tactic(auto, unfolding(crate::specs::Reading::behind))]
pub(crate) fn behind<'a>(bytes: &'a [u8], word: &[u8]) -> Option<&'a [u8]>
    ensures { option_map (λ rest. rest.now) result ≡ behind word.now bytes.now }
{
    bytes.strip_prefix(word)
}

/// The number that all digits at the front are, where the word stands behind them.
pub(crate) fn number_then<'a>(bytes: &'a [u8], word: &[u8]) -> Option<(u64, &'a [u8])>
    ensures { option_map (λ f. (f.0, f.1.now)) result ≡ number_then word.now bytes.now }
{
    let (number, rest) = number_at(bytes)?;
    Some((number, behind(rest, word)?))
}

/// Two numbers, the first behind one word and the second behind another, where a line feed stands
/// behind them.
#[tactic(auto, unfolding(crate::specs::Reading::numbers_at))]
pub(crate) fn numbers_at<'a>(
    bytes: &'a [u8],
    word: &[u8],
    second: &[u8],
) -> Option<(u64, u64, &'a [u8])>
    ensures { option_map (λ f. (f.0, f.1, f.2.now)) result
        ≡ numbers_at word.now second.now bytes.now }
{
    let first = behind(bytes, word)?;
    let (first, rest) = number_then(first, second)?;
    let (second, rest) = number_then(rest, b"\n")?;
    Some((first, second, rest))
}

#[tactic(auto, unfolding(crate::specs::Reading::number_at))]
fn number_at(bytes: &[u8]) -> Option<(u64, &[u8])>
    ensures { option_map (λ f. (f.0, f.1.now)) result ≡ number_at bytes.now }
{
    let (digits, rest) = bytes.split_at(digits_len(bytes));
    Some((number_in(digits)?, rest))
}

fn digits_len(bytes: &[u8]) -> usize
    ensures len { result ≡ prefix_len is_ascii_digit bytes.now }
    ensures within { result ≤ length bytes.now }
{
    bytes
        .iter()
        .take_while(|byte| byte.is_ascii_digit())
        .count()
}

/// The number whose decimal text the bytes are. It is written anew, so that there is one spelling.
fn number_in(bytes: &[u8]) -> Option<u64>
    ensures { result ≡ number_in bytes.now }
{
    let Some(number) = parse_digits(bytes) else {
        return None;
    };
    if Buffer::new().format(number).as_bytes() == bytes {
        Some(number)
    } else {
        None
    }
}

/// The number below 2^64 that one or more digits write.
fn parse_digits(bytes: &[u8]) -> Option<u64>
    ensures { SomeIff result (IsNumber bytes.now) (digits_value 10 bytes.now) }
{
    // std's `parse` would take a plus in front.
    if bytes.starts_with(b"+") {
        return None;
    }
    let Ok(text) = str::from_utf8(bytes) else {
        return None;
    };
    text.parse::<u64>().ok()
}
