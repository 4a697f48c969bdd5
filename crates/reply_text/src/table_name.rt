//! The name of a declared table at the front of bytes.
ghost use Rattle.std.specs.Prelude.{◌≡◌, ◌≤◌, length, take, option_map, bytes_eq};
ghost use Rattle.std.specs.List.{list_all, list_any, prefix_len};
ghost use Rattle.star_lexer.specs.Written.{begins_name, is_name_byte};
ghost use Rattle.reply_text.specs.Reading.{is_keyword, is_table_name, name_at, table_name_in};

use star_lexer::MAX_NAME_BYTES;

/// The words of the language that are no names.
const KEYWORDS: [&[u8]; 26] = [
    b"and",
    b"between",
    b"by",
    b"count",
    b"delete",
    b"dimension",
    b"fact",
    b"from",
    b"group",
    b"header",
    b"in",
    b"int",
    b"is",
    b"key",
    b"load",
    b"max",
    b"min",
    b"not",
    b"null",
    b"or",
    b"references",
    b"select",
    b"sum",
    b"text",
    b"wait",
    b"where",
];

/// The name that all bytes of a name at the front are.
#[tactic(auto, unfolding(crate::specs::Reading::name_at))]
pub(crate) fn name_at(bytes: &[u8]) -> Option<(&[u8], &[u8])>
    ensures { option_map (λ f. (f.0.now, f.1.now)) result ≡ name_at bytes.now }
{
    let (name, rest) = bytes.split_at(name_len(bytes));
    Some((table_name_in(name)?, rest))
}

fn table_name_in(name: &[u8]) -> Option<&[u8]>
    ensures { option_map (λ name. name.now) result ≡ table_name_in name.now }
{
    if is_table_name(name) {
        Some(name)
    } else {
        None
    }
}

fn name_len(bytes: &[u8]) -> usize
    ensures len { result ≡ prefix_len is_name_byte bytes.now }
    ensures within { result ≤ length bytes.now }
{
    bytes.iter().take_while(|byte| is_name_byte(**byte)).count()
}

#[tactic(auto, unfolding(crate::specs::Reading::is_table_name))]
fn is_table_name(name: &[u8]) -> bool
    ensures { result ≡ is_table_name name.now }
{
    begins_name(name) && (goes_on(name) && (name.len() <= MAX_NAME_BYTES && !is_keyword(name)))
}

fn begins_name(name: &[u8]) -> bool
    ensures { result ≡ list_any begins_name (take 1 name.now) }
{
    match name {
        [first, ..] => first.is_ascii_lowercase() || *first == b'_',
        [] => false,
    }
}

fn goes_on(name: &[u8]) -> bool
    ensures { result ≡ list_all is_name_byte name.now }
{
    name.iter().all(|byte| is_name_byte(*byte))
}

fn is_name_byte(byte: u8) -> bool
    ensures { result ≡ is_name_byte byte }
{
    (byte.is_ascii_lowercase() || byte == b'_') || byte.is_ascii_digit()
}

fn is_keyword(word: &[u8]) -> bool
    ensures { result ≡ is_keyword word.now }
{
    stands_in(word, &KEYWORDS)
}

/// Whether a word is one of a table.
fn stands_in(word: &[u8], table: &[&[u8]]) -> bool
    ensures { result ≡ list_any (λ entry. bytes_eq entry.now word.now) table.now }
{
    table.iter().any(|entry| *entry == word)
}
