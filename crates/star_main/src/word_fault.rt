//! The first thing that is wrong with the words of the command line.
ghost use Rattle.std.specs.Prelude.{◌≡◌, Some, IsNone, map, option_map, string_bytes};
ghost use Rattle.star_main.specs.Table.{settings_of};
ghost use Rattle.star_main.specs.Words.{name_and_value, option_of};
ghost use Rattle.star_main.specs.WordFault.{after_name, after_option, after_plain, after_value, after_word, fault_of_words, has_name, is_named_in, takes, values_of};

use crate::limits::{ACCEPT, BATCH, OptionNumbers, PORT, ROWS, SEED, SLOTS, WORKERS};
use crate::values::{mode_or, number_or};

/// The values that an option takes.
#[derive(Clone, Copy, Debug)]
pub(crate) enum OptionValues {
    /// `run`, `alone`, `make` or `serve`.
    Modes,
    /// The numbers of a range.
    Numbers(OptionNumbers),
}

/// An option among the words.
#[derive(Clone, Copy, Debug)]
pub(crate) struct PlacedOption {
    /// The place of its word among the words.
    pub place: usize,
    /// The values that it takes.
    pub values: OptionValues,
}

/// What is wrong with a word, and its place among the words, counted from 0.
#[derive(Clone, Copy, Debug)]
pub(crate) enum WordFault {
    /// The word at this place belongs to no option.
    Stray(usize),
    /// The word at this place is an option that is unknown.
    Unknown(usize),
    /// The word at this place is an option that an earlier word names.
    Repeated(usize),
    /// The words end at this option, which still needs a value.
    NoValue(PlacedOption),
    /// This option does not take its value.
    WrongValue(PlacedOption),
}

/// The first thing that is wrong with the words, read from left to right.
fn fault_in(words: &[String]) -> Option<WordFault>
    ensures { result ≡ fault_of_words (map string_bytes words.now) }
{
    let mut waiting = None;
    for (place, word) in words.iter().enumerate() {
        match after_word(&words[..place], waiting, word.as_str()) {
            Ok(next) => waiting = next,
            Err(fault) => return Some(fault),
        }
    }
    waiting.map(WordFault::NoValue)
}

/// What is wrong with words that name no settings.
pub(crate) fn fault_among(words: &[String]) -> WordFault
    requires { IsNone (settings_of (map string_bytes words.now)) }
    ensures { fault_of_words (map string_bytes words.now) ≡ Some result }
{
    fault_in(words).unwrap()
}

/// The option that waits for its value after a word, or what is wrong with the word. The words
/// before it have no fault, and the option that waits is the last of them.
fn after_word(
    before: &[String],
    waiting: Option<PlacedOption>,
    word: &str,
) -> Result<Option<PlacedOption>, WordFault>
    ensures { result ≡ after_word (map string_bytes before.now) waiting word.now }
{
    match waiting {
        Some(option) => after_value(option, word),
        None => after_plain(before, word),
    }
}

/// The same of a word that has to be an option.
fn after_plain(before: &[String], word: &str) -> Result<Option<PlacedOption>, WordFault>
    ensures { result ≡ after_plain (map string_bytes before.now) (option_of word.now) }
{
    match option_of(word) {
        Some((name, value)) => after_option(before, name, value),
        None => Err(WordFault::Stray(before.len())),
    }
}

/// The same of the option of a name.
fn after_option(
    before: &[String],
    name: &str,
    value: Option<&str>,
) -> Result<Option<PlacedOption>, WordFault>
    ensures { result ≡ after_option (map string_bytes before.now) name.now
        (option_map (λ text. text.now) value.entry) (values_of name.now) }
{
    let place = before.len();
    let Some(values) = values_of(name) else {
        return Err(WordFault::Unknown(place));
    };
    if is_named_in(before, name) {
        return Err(WordFault::Repeated(place));
    }
    after_name(PlacedOption { place, values }, value)
}

/// The same of an option that is known and new.
fn after_name(option: PlacedOption, value: Option<&str>) -> Result<Option<PlacedOption>, WordFault>
    ensures { result ≡ after_name option (option_map (λ text. text.now) value.entry) }
{
    match value {
        Some(text) => after_value(option, text),
        None => Ok(Some(option)),
    }
}

/// The same of a value of the option.
fn after_value(option: PlacedOption, text: &str) -> Result<Option<PlacedOption>, WordFault>
    ensures { result ≡ after_value option text.now }
{
    if takes(option.values, text) {
        Ok(None)
    } else {
        Err(WordFault::WrongValue(option))
    }
}

/// The text is one of the values.
fn takes(values: OptionValues, text: &str) -> bool
    ensures { result ≡ takes values text.now }
{
    match values {
        OptionValues::Modes => mode_or(Some(text)).is_some(),
        OptionValues::Numbers(numbers) => number_or(numbers, Some(text)).is_some(),
    }
}

/// The values of the option with a name, if there is one.
fn values_of(name: &str) -> Option<OptionValues>
    ensures { result ≡ values_of name.now }
{
    if name == "mode" {
        Some(OptionValues::Modes)
    } else if name == "workers" {
        Some(OptionValues::Numbers(WORKERS))
    } else if name == "slots" {
        Some(OptionValues::Numbers(SLOTS))
    } else if name == "batch" {
        Some(OptionValues::Numbers(BATCH))
    } else if name == "seed" {
        Some(OptionValues::Numbers(SEED))
    } else if name == "rows" {
        Some(OptionValues::Numbers(ROWS))
    } else if name == "port" {
        Some(OptionValues::Numbers(PORT))
    } else if name == "accept" {
        Some(OptionValues::Numbers(ACCEPT))
    } else {
        None
    }
}

/// One of the words is `--name` or `--name=value`.
fn is_named_in(words: &[String], name: &str) -> bool
    ensures { result ≡ is_named_in (map string_bytes words.now) name.now }
{
    words.iter().any(|word| has_name(name, word.as_str()))
}

/// The word is `--name` or `--name=value`.
fn has_name(name: &str, word: &str) -> bool
    ensures { result ≡ has_name name.now (option_of word.now) }
{
    match option_of(word) {
        Some((other, _)) => other == name,
        None => false,
    }
}

/// The name and the value of a word `--name=value`, or the name of a word `--name`.
fn option_of(word: &str) -> Option<(&str, Option<&str>)>
    ensures { option_map (λ option. (option.0.now, option_map (λ text. text.now) option.1)) result
        ≡ option_of word.now }
{
    word.strip_prefix("--").map(name_and_value)
}

/// The name before the first `=`, and the value after it, if there is one.
pub(crate) fn name_and_value(text: &str) -> (&str, Option<&str>)
    ensures { (result.0.now, option_map (λ text. text.now) result.1) ≡ name_and_value text.now }
{
    match text.split_once('=') {
        Some((name, value)) => (name, Some(value)),
        None => (text, None),
    }
}
