//! Integers as they stand in scripts and records.
ghost use Rattle.std.specs.Prelude.{◌≡◌, ℤ, Some, SomeIff, FitsSigned};
ghost use Rattle.std.specs.Int.{w64};
ghost use Rattle.std.specs.Fmt.{signed_decimal};
ghost use Rattle.star_values.specs.Integer.{IsWrittenInteger, integer_of, integer_in};

use std::str;

/// The integer that the bytes write: an optional `-` and one or more decimal digits, in the signed
/// range of 64 bits, and nothing else. Leading zeros are allowed, and `-0` is 0.
pub fn read_int(bytes: &[u8]) -> Option<i64>
    ensures exact { SomeIff result (IsWrittenInteger bytes.now) (integer_of bytes.now) }
    ensures value { result ≡ integer_in bytes.now }
{
    // std's `parse` would take a plus in front.
    if bytes.starts_with(b"+") {
        return None;
    }
    let Ok(text) = str::from_utf8(bytes) else {
        return None;
    };
    text.parse::<i64>().ok()
}

/// The decimal text of an integer of 64 bits is read as that integer.
pub fn integer_text_reads_back()
    ensures { (n : ℤ) → FitsSigned w64 n → integer_in (signed_decimal n) ≡ Some n }
{}
