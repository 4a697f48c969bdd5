//! What a state says of itself, so that the lock can promise something of it.
ghost use Rattle.std.specs.Prelude.{ℕ, List};

/// A state that is lent to one seat after another.
///
/// Each seat has a row of its own in it, which no other seat changes. All seats add to one list of
/// commits, from which nothing is taken away. One fixed value never changes. Row, entry and value
/// are read by contracts alone.
pub trait Board {
    // What a row, an entry of the list, and the fixed value are.
    ghost Row: { Type 0 };

    ghost Entry: { Type 0 };

    ghost Fixed: { Type 0 };

    // The row of the seat with this number.
    ghost row: { Self → ℕ → Row };

    // The row of a seat that did nothing.
    ghost empty: { Row };

    ghost commits: { Self → List Entry };

    ghost fixed: { Self → Fixed };
}
