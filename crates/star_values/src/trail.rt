//! A list that grows and has no bytes. A list whose front becomes one is in `fading`.
ghost use Rattle.std.specs.Prelude.{◌≡◌, [], ◌∷◌, ◌++◌};

use std::marker::Model;
use std::snapshot::Snapshot;
use std::{fmt, mem};

/// All that was put in, in order, as contracts see it. It has no bytes, and no code can read it.
///
/// No call takes memory or fails.
#[cycle(trail)]
#[derive(Drop)]
pub struct Trail<T> {
    past: Snapshot<Past<T>>,
}

/// What was put in. No value of it outlives a call.
#[cycle(trail)]
#[derive(Drop)]
enum Past<T> {
    Nothing,
    After(Trail<T>, T),
}

impl<T> Model for Trail<T> {
    ghost use Rattle.std.specs.Prelude.{List, length};

    ghost Value = { List T };

    ghost use Rattle.star_values.specs.Past.{entries_of};

    ghost view = { λ trail. entries_of trail.past.value };

    ghost size = { length };

    ghost use Rattle.std.proofs.Common.{arith, length-append};

    ghost size_decreases = { λ trail holds. Prim.grind (arith, length-append) };
}

impl<T: Drop> Trail<T> {
    pub fn new() -> Trail<T>
        ensures { result ≡ [] }
    {
        Trail {
            past: Snapshot::of(&Past::Nothing),
        }
    }

    /// Puts an entry behind the others, and drops it.
    pub fn push(&mut self, entry: T)
        ensures { self.new ≡ self.old ++ entry ∷ [] }
    {
        let before = mem::replace(self, Trail::new());
        self.past = Snapshot::of(&Past::After(before, entry));
    }
}

impl<T> fmt::Debug for Trail<T> {
    fn fmt<W: fmt::Write>(&self, f: &mut fmt::Formatter<W>) -> fmt::Result {
        f.write_str("Trail")
    }
}
