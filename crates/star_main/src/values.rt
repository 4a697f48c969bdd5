//! What the text behind an option means. Which option it stands behind is in `table`.
ghost use Rattle.std.specs.Prelude.{◌≡◌, option_map};
ghost use Rattle.std.specs.Char.{is_ascii_digit};
ghost use Rattle.std.specs.List.{list_all};
ghost use Rattle.star_main.specs.Values.{is_number, mode_in, mode_or, number_in, number_of, number_or};

use crate::limits::{MAX_DIGITS, OptionNumbers};
use crate::settings::Mode;

/// The mode that the text names, and `run` where there is no text.
pub(crate) fn mode_or(text: Option<&str>) -> Option<Mode>
    ensures { result ≡ mode_or (option_map (λ t. t.now) text.entry) }
{
    match text {
        Some(text) => mode_in(text),
        None => Some(Mode::Run),
    }
}

fn mode_in(text: &str) -> Option<Mode>
    ensures { result ≡ mode_in text.now }
{
    if text == "run" {
        Some(Mode::Run)
    } else if text == "alone" {
        Some(Mode::Alone)
    } else if text == "make" {
        Some(Mode::Make)
    } else if text == "serve" {
        Some(Mode::Serve)
    } else {
        None
    }
}

/// The number of an option that the text writes, and its default where there is no text.
pub(crate) fn number_or(numbers: OptionNumbers, text: Option<&str>) -> Option<u32>
    ensures { result ≡ number_or numbers (option_map (λ t. t.now) text.entry) }
{
    match text {
        Some(text) => number_in(numbers, text),
        None => Some(numbers.default),
    }
}

/// The number that the text writes, where the option takes it.
fn number_in(numbers: OptionNumbers, text: &str) -> Option<u32>
    ensures { result ≡ number_in numbers text.now }
{
    let Some(number) = number_of(text) else {
        return None;
    };
    if numbers.least <= number && number <= numbers.greatest {
        Some(number)
    } else {
        None
    }
}

/// The number that one to seven decimal digits write.
fn number_of(text: &str) -> Option<u32>
    ensures { result ≡ number_of text.now }
{
    // std's `parse` would take a plus in front.
    if is_number(text.as_bytes()) {
        text.parse::<u32>().ok()
    } else {
        None
    }
}

fn is_number(bytes: &[u8]) -> bool
    ensures { result ≡ is_number bytes.now }
{
    !bytes.is_empty() && bytes.len() <= MAX_DIGITS && all_digits(bytes)
}

fn all_digits(bytes: &[u8]) -> bool
    ensures { result ≡ list_all is_ascii_digit bytes.now }
{
    bytes.iter().all(|byte| byte.is_ascii_digit())
}
