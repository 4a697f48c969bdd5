//! What holds of the records and rows of all blocks, whatever call read them.
ghost use Rattle.std.specs.Prelude.{◌≡◌, ◌↔◌, ℕ, List, length, All, Some};
ghost use Rattle.csv.specs.Reading.{AreRecords, default_config};
ghost use Rattle.csv.specs.declared.parser.State.TheVariants as state;
ghost use Rattle.star_values.specs.declared.value.Kind.{Kind};
ghost use Rattle.star_values.specs.declared.value.Value.{Value};
ghost use Rattle.csv_load.specs.Records.{records_of};
ghost use Rattle.star_values.specs.Value.{kinds_in};
ghost use Rattle.csv_load.specs.Rows.{typed_row, typed_rows};

/// A list of records is that of bytes by csv's own rule exactly where it is `records_of` of them.
pub fn csv_fixes_the_records()
    ensures { (bytes : List ℕ) (found : List (List (List ℕ))) →
        AreRecords default_config state.StartRecord bytes found ↔ (found ≡ records_of bytes) }
{}

/// The values of each row have the kinds that were asked for.
pub fn rows_have_the_kinds()
    ensures row { (kinds : List Kind) (fields : List (List ℕ)) (row : List Value) →
        typed_row kinds fields ≡ Some row → kinds_in row ≡ kinds }
    ensures rows { (kinds : List Kind) (records : List (List (List ℕ))) (rows : List (List Value)) →
        typed_rows kinds records ≡ Some rows → All (λ row. kinds_in row ≡ kinds) rows }
{}

/// There is a row for each record.
pub fn each_record_is_a_row()
    ensures { (kinds : List Kind) (records : List (List (List ℕ))) (rows : List (List Value)) →
        typed_rows kinds records ≡ Some rows → length rows ≡ length records }
{}
