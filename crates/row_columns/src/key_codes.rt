//! The codes of the keys by which queries group.

/// An odd number whose bits look like chance. Each bit of a number, as of a code, has a part in the
/// highest bits of its product with this one.
pub const SPREAD: u64 = 0x9E37_79B9_7F4A_7C15;

/// The codes of the two values of a key, with that of no place for one that it lacks.
#[derive(Clone, Copy, Debug)]
pub struct KeyCodes {
    pub first: u128,
    pub second: u128,
}

impl KeyCodes {
    /// A number in whose highest bits each bit of either code has a part.
    #[inline]
    pub fn spread(self) -> u64 {
        let first = (self.first % (1 << 64)) as u64 ^ (self.first >> 64) as u64;
        let second = (self.second % (1 << 64)) as u64 ^ (self.second >> 64) as u64;
        first
            .wrapping_mul(SPREAD)
            .wrapping_add(second)
            .wrapping_mul(SPREAD)
    }
}
