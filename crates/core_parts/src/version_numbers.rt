//! The numbers of the versions in a hand.
ghost use Rattle.std.specs.Prelude.{◌≡◌, ◌<◌, ◌≤◌, ◌++◌, ◌∷◌, ◌==◌, [], length, map};
ghost use Rattle.std.specs.List.{list_any};

use filter_order::{MAX_FILTERS, Versions};
use std::marker::Model;

/// Numbers, of which there are at most as many as filters. They lie in the value itself, so that no
/// memory is taken.
#[derive(Debug, Drop)]
pub(crate) struct VersionNumbers {
    list: [u64; MAX_FILTERS],

    /// How many at the front count.
    count: usize,
}

impl Model for VersionNumbers {
    ghost use Rattle.std.specs.Prelude.{◌≡◌, ℕ, ◌≤◌, List, length, take};

    ghost Value = { List ℕ };

    ghost view = { λ numbers. take numbers.count numbers.list };

    ghost invariant = { λ numbers. (numbers.count ≤ 8) × (length numbers.list ≡ 8) };
}

impl VersionNumbers {
    /// No numbers.
    pub(crate) fn new() -> VersionNumbers
        ensures { result ≡ [] }
    {
        VersionNumbers {
            list: [0; MAX_FILTERS],
            count: 0,
        }
    }

    /// The numbers of some versions.
    pub(crate) fn of_versions(versions: &Versions) -> VersionNumbers
        ensures { result ≡ map (λ version. version.number) versions.now }
    {
        let mut numbers = VersionNumbers::new();
        'places: for place in 0..versions.len() {
            numbers.push(versions.get(place).number());
        }
        numbers
    }

    /// How many there are.
    pub(crate) fn len(&self) -> usize
        ensures value { result ≡ length self.now }
        ensures few { result ≤ 8 }
    {
        self.count
    }

    /// Puts a number behind the others.
    fn push(&mut self, number: u64)
        requires { length self.old < 8 }
        ensures { self.new ≡ self.old ++ number ∷ [] }
    {
        self.list[self.count] = number;
        self.count += 1;
    }

    /// Whether a number is among them.
    pub(crate) fn has(&self, number: u64) -> bool
        ensures { result ≡ list_any (λ other. other == number) self.now }
    {
        has(&self.list[..self.count], number)
    }
}

/// Whether a number is among these.
fn has(numbers: &[u64], number: u64) -> bool
    ensures { result ≡ list_any (λ other. other == number) numbers.now }
{
    numbers.iter().any(|other| *other == number)
}
