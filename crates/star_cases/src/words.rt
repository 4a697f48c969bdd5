//! How a line says something: a word, and numbers behind it.

/// A word, and its numbers.
#[derive(Clone, Copy)]
pub(crate) enum Words<'a> {
    Alone(&'a str),
    WithOne(&'a str, u64),
    WithTwo(&'a str, u64, u64),
}

/// What a line says, where it is a word and at most two numbers, parted by spaces.
pub(crate) fn words_of(line: &str) -> Option<Words<'_>> {
    let mut words = line.split_ascii_whitespace();
    let word = words.next()?;
    match (words.next(), words.next(), words.next()) {
        (None, _, _) => Some(Words::Alone(word)),
        (Some(first), None, _) => Some(Words::WithOne(word, number_of(first)?)),
        (Some(first), Some(second), None) => {
            Some(Words::WithTwo(word, number_of(first)?, number_of(second)?))
        }
        _ => None,
    }
}

/// The number that a word is, if it is one.
pub(crate) fn number_of(word: &str) -> Option<u64> {
    word.parse().ok()
}

/// The same number in 32 bits, if it fits.
pub(crate) fn short_of(number: u64) -> Option<u32> {
    u32::try_from(number).ok()
}

/// The same number in 8 bits, if it fits.
pub(crate) fn byte_of(number: u64) -> Option<u8> {
    u8::try_from(number).ok()
}
