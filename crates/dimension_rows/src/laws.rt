//! What holds of keys and their places, whatever call appended the rows.
ghost use Rattle.std.specs.Prelude.{◌≡◌, ◌≢◌, ◌↔◌, ℕ, List, [], ◌∷◌, ◌++◌, length, slice_get, Some, None};
ghost use Rattle.star_values.specs.declared.value.Value.{Value};
ghost use Rattle.dimension_rows.specs.declared.dimension_row.DimensionRow.{DimensionRow};
ghost use Rattle.dimension_rows.specs.Keys.{AreKeyed, key_of, key_at, index_of};
ghost use Rattle.dimension_rows.specs.declared.dimension_row.TheConstants.{MAX_DIMENSION_ROWS};

/// The place of a key is the one place whose row has the key, and there is none exactly where no
/// row has it.
pub fn keys_have_one_place()
    ensures found { (rows : List DimensionRow) (key : Value) (place : ℕ) → AreKeyed rows →
        (index_of rows key ≡ Some place) ↔ (key_at rows place ≡ Some key) }
    ensures missing { (rows : List DimensionRow) (key : Value) →
        (index_of rows key ≡ None) ↔ ((place : ℕ) → key_at rows place ≢ Some key) }
    ensures read { (rows : List DimensionRow) (place : ℕ) (entry : DimensionRow) →
        slice_get rows place ≡ Some entry → key_at rows place ≡ key_of entry.row }
{}

/// A row that is appended with a new key comes last, and no other key has another place for it.
pub fn a_new_row_moves_no_other()
    ensures kept { (rows : List DimensionRow) (entry : DimensionRow) (key : Value) (place : ℕ) →
        index_of rows key ≡ Some place → index_of (rows ++ entry ∷ []) key ≡ Some place }
    ensures last { (rows : List DimensionRow) (entry : DimensionRow) (key : Value) →
        key_of entry.row ≡ Some key → index_of rows key ≡ None →
        index_of (rows ++ entry ∷ []) key ≡ Some (length rows) }
    ensures others { (rows : List DimensionRow) (entry : DimensionRow) (key : Value) →
        key_of entry.row ≢ Some key → index_of rows key ≡ None →
        index_of (rows ++ entry ∷ []) key ≡ None }
    ensures keyed { (rows : List DimensionRow) (entry : DimensionRow) (key : Value) →
        AreKeyed rows → key_of entry.row ≡ Some key → index_of rows key ≡ None →
        AreKeyed (rows ++ entry ∷ []) }
{}

/// The most rows of a dimension.
pub fn dimensions_have_their_limit()
    ensures { MAX_DIMENSION_ROWS ≡ 262144 }
{}
