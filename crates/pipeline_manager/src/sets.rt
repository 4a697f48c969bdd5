//! Sets of dimensions.
ghost use Rattle.std.specs.Prelude.{◌≡◌, ◌↔◌, ℕ, IfSome, IsTrue};
ghost use Rattle.bit_words.specs.Sets.{Has};

/// Whether a dimension is in a set.
pub fn has(set: u8, dimension: u8) -> bool
    ensures { IsTrue result ↔ Has set dimension }
{
    dimension < 8 && (set >> dimension) & 1 == 1
}

/// Whether each dimension of a set is in another.
pub(crate) fn is_within(set: u8, other: u8) -> bool
    ensures { IsTrue result ↔ ((dimension : ℕ) → Has set dimension → Has other dimension) }
{
    set & !other == 0
}

/// The least dimension of a set, or `None` where it is empty.
pub(crate) fn least_of(set: u8) -> Option<u8>
    ensures some { IfSome result (λ dimension. Has set dimension) }
    ensures none { result ≡ None → (dimension : ℕ) → ¬ (Has set dimension) }
{
    if set == 0 {
        None
    } else {
        Some(set.trailing_zeros() as u8)
    }
}

/// The least dimension of a set that is not in another, or `None` where there is none.
pub(crate) fn least_outside(set: u8, other: u8) -> Option<u8>
    ensures some { IfSome result (λ dimension. Has set dimension × ¬ (Has other dimension)) }
    ensures none { result ≡ None → (dimension : ℕ) → Has set dimension → Has other dimension }
{
    least_of(set & !other)
}
