//! The refusal at the front of bytes: its number, its words and the line feed.
ghost use Rattle.std.specs.Prelude.{◌≡◌, ℕ, List, nat_eq, map, find, option_map};
ghost use Rattle.std.specs.Option.{option_or};
ghost use Rattle.std.specs.List.{starts_with};
ghost use Rattle.star_values.specs.declared.refusal.Refusal as declared;
ghost use Rattle.reply_text.specs.Reading.{entry_in, reason_at, reason_in, syntax_at};

use crate::numbers::{behind, number_then};
use star_values::Refusal;

/// Each refusal without a place, with its line.
const REASONS: [(&[u8], Refusal); 13] = [
    (b"2 unknown name\n", Refusal::UnknownName),
    (b"3 ambiguous name\n", Refusal::AmbiguousName),
    (b"4 duplicate name\n", Refusal::DuplicateName),
    (b"5 type mismatch\n", Refusal::TypeMismatch),
    (b"6 missing join\n", Refusal::MissingJoin),
    (b"7 mixed conjunct\n", Refusal::MixedConjunct),
    (b"8 not grouped\n", Refusal::NotGrouped),
    (b"9 bad record\n", Refusal::BadRecord),
    (b"10 duplicate key\n", Refusal::DuplicateKey),
    (b"11 dangling reference\n", Refusal::DanglingReference),
    (b"12 limit\n", Refusal::Limit),
    (b"13 out of order\n", Refusal::OutOfOrder),
    (b"14 not UTF-8\n", Refusal::NotUtf8),
];

/// The refusal at the front.
pub(crate) fn refusal_at(bytes: &[u8]) -> Option<(Refusal, &[u8])>
    ensures { option_map (λ f. (f.0, f.1.now)) result
        ≡ option_or (syntax_at bytes.now) (reason_at bytes.now) }
{
    match syntax_at(bytes) {
        Some(found) => Some(found),
        None => reason_at(bytes),
    }
}

#[tactic(auto, unfolding(crate::specs::Reading::syntax_at))]
fn syntax_at(bytes: &[u8]) -> Option<(Refusal, &[u8])>
    ensures { option_map (λ f. (f.0, f.1.now)) result ≡ syntax_at bytes.now }
{
    let digits = behind(bytes, b"1 syntax at ")?;
    let (place, rest) = number_then(digits, b"\n")?;
    if place < 1 << 32 {
        Some((Refusal::Syntax(place as u32), rest))
    } else {
        None
    }
}

fn reason_at(bytes: &[u8]) -> Option<(Refusal, &[u8])>
    ensures { option_map (λ f. (f.0, f.1.now)) result ≡ reason_at bytes.now }
{
    reason_in(bytes, &REASONS)
}

/// The refusal of a table whose line stands at the front.
fn reason_in<'a>(bytes: &'a [u8], table: &[(&[u8], Refusal)]) -> Option<(Refusal, &'a [u8])>
    ensures { option_map (λ f. (f.0, f.1.now)) result
        ≡ reason_in (map (λ entry. (entry.0.now, entry.1)) table.now) bytes.now }
{
    let (line, refusal) = entry_in(bytes, table)?;
    Some((refusal, behind(bytes, line)?))
}

fn entry_in<'t>(bytes: &[u8], table: &[(&'t [u8], Refusal)]) -> Option<(&'t [u8], Refusal)>
    ensures { option_map (λ e. (e.0.now, e.1)) result
        ≡ entry_in (map (λ entry. (entry.0.now, entry.1)) table.now) bytes.now }
{
    first_entry(bytes, table)
}

fn first_entry<'t>(bytes: &[u8], table: &[(&'t [u8], Refusal)]) -> Option<(&'t [u8], Refusal)>
    ensures { option_map (λ e. (e.0.now, e.1)) result
        ≡ option_map {U = List ℕ × declared.Refusal} (λ e. (e.0.now, e.1))
        (find (λ entry. starts_with nat_eq bytes.now entry.0.now) table.now) }
{
    table
        .iter()
        .find(|entry| bytes.starts_with(entry.0))
        .map(|entry| (entry.0, entry.1))
}
