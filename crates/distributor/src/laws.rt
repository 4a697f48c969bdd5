//! What holds of all batches.
ghost use Rattle.std.specs.Prelude.{◌≡◌, ◌↔◌, ℕ, ◌++◌, [], ◌∷◌, ◌==◌, List, length, slice_get, slice_index, Some, Contains, if◌then◌else◌};
ghost use Rattle.std.specs.Int.{bit_at};
ghost use Rattle.bit_words.specs.Sets.{Has};
ghost use Rattle.star_values.specs.Roomy.{Roomy};
ghost use Rattle.fact_versions.specs.declared.version.Version.{Version};
ghost use Rattle.dimension_rows.specs.declared.dimension_row.DimensionRow.{DimensionRow};
ghost use Rattle.aggregations.specs.Grouped.{Grouped};
ghost use Rattle.aggregations.specs.Homes.{CodesAreOfOneKey};
ghost use Rattle.aggregations.specs.Partial.{PartsAdd, PartsCommute};
ghost use Rattle.distributor.specs.Folded.{versions_for, with_versions};

use aggregations::{codes_are_of_one_key, parts_may_come_in_any_order};

/// A row goes into the groups of exactly those slots whose bit it has, and
/// behind the rows before it.
pub fn rows_go_where_their_bits_say()
    ensures members { (slot : ℕ) (bits : List ℕ) (versions : List Version) (version : Version) →
        length bits ≡ length versions →
        Contains (versions_for slot bits versions) version
        ↔ ((row : ℕ) × (slice_get versions row ≡ Some version) × Has (slice_index bits row) slot) }
    ensures order { (slot word : ℕ) (bits : List ℕ) (versions : List Version) (version : Version) →
        length bits ≡ length versions →
        versions_for slot (bits ++ word ∷ []) (versions ++ version ∷ [])
        ≡ versions_for slot bits versions ++ (if bit_at word slot == 1 then version ∷ [] else []) }
{}

/// Rows that are folded in two parts are folded as a whole.
pub fn batches_may_be_folded_in_parts()
    ensures versions { (dims : List (Roomy DimensionRow)) (first second : List Version)
        (groups : Grouped) →
        with_versions dims (first ++ second) groups
        ≡ with_versions dims second (with_versions dims first groups) }
    ensures bits { (slot : ℕ) (bits more : List ℕ) (versions others : List Version) →
        length bits ≡ length versions →
        versions_for slot (bits ++ more) (versions ++ others)
        ≡ versions_for slot bits versions ++ versions_for slot more others }
{}

/// Rows of one kind may wait, and be taken at once: they are of one group, and what they come to
/// may be added at any time, alone or with others.
pub(crate) fn kinds_may_wait()
    ensures codes { CodesAreOfOneKey }
    ensures commute { PartsCommute }
    ensures add { PartsAdd }
{
    codes_are_of_one_key();
    parts_may_come_in_any_order();
}
