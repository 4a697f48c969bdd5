//! What holds of all sets, whatever call made them.
ghost use Rattle.std.specs.Prelude.{◌≡◌, ◌≢◌, ℕ, ◌^◌, ◌<◌, ◌↔◌, ◌⊎◌, ◌∷◌};
ghost use Rattle.bit_words.specs.Sets.{Has, with_number, without, IsLeast, members_below};

/// Two sets with the same members are the same set.
pub fn sets_are_their_members()
    ensures { (a b : ℕ) → ((j : ℕ) → Has a j ↔ Has b j) → a ≡ b }
{}

/// A number that is put in or taken out is the one that changes.
pub fn numbers_go_in_and_out()
    ensures put_in { (set i j : ℕ) → Has (with_number set i) j ↔ ((Has set j) ⊎ (j ≡ i)) }
    ensures taken_out { (set i j : ℕ) → Has (without set (2 ^ i)) j ↔ (Has set j × (j ≢ i)) }
{}

/// Taking the least number out until none is left gives each member once, ascending.
pub fn least_numbers_are_the_members()
    ensures { (n set i : ℕ) → IsLeast set i → i < n →
        members_below n set ≡ i ∷ members_below n (without set (2 ^ i)) }
{}
