//! What holds of histories and of queries alone.
ghost use Rattle.std.specs.Prelude.{◌≡◌, ℕ, ◌≤◌, List, map, All, Contains, Some, count_by};
ghost use Rattle.std.specs.List.{range_with_len};
ghost use Rattle.star_values.specs.declared.value.Value.{Value};
ghost use Rattle.star_plan.specs.declared.schema.Schema.{Schema};
ghost use Rattle.star_values.specs.Roomy.{Roomy};
ghost use Rattle.star_plan.specs.Groups.{key_of};
ghost use Rattle.star_plan.specs.Joined.{value_at};
ghost use Rattle.star_plan.specs.Over.{IsOver, places_in};
ghost use Rattle.star_plan.specs.Test.{Query};
ghost use Rattle.fact_versions.specs.declared.version.TheConstants.{KEYS_IN_A_VERSION};
ghost use Rattle.fact_versions.specs.declared.version.Version.{Version};
ghost use Rattle.dimension_rows.specs.declared.dimension_row.DimensionRow.{DimensionRow};
ghost use Rattle.query_meaning.specs.Accepted.{Accepts, AcceptsAll};
ghost use Rattle.query_meaning.specs.Alone.{alone, foreign_key, is_matched, kept, visible, visible_rows};
ghost use Rattle.query_meaning.specs.History.{Change, after_change, commits_of, grown_at, store_of};
ghost use Rattle.query_meaning.specs.KeptTables.{rows_of_all};
ghost use Rattle.query_meaning.specs.Keyed.{HasKeyNumbers, IsKeyed, KeyedStore, joined_by_keys, kept_by_keys, number_by_key, plain};
ghost use Rattle.query_meaning.specs.Read.{NamesItsPlaces, item_value_by_key, item_value_of, value_by_key};
ghost use Rattle.query_meaning.specs.Settled.{IsSettled};
ghost use Rattle.query_meaning.specs.Store.{PlainVersion, Store, empty_store, rows_in};

use dimension_rows::a_new_row_moves_no_other;
use star_plan::{
    accepted_tables_keep_a_schema_declared, empty_schemas_are_declared, rows_fit_by_their_kinds,
};

/// The commits of a history are numbered from 1, and are as many as its loads and deletes.
pub fn commits_are_counted()
    ensures { (history : List Change) → (store_of history).commits ≡ commits_of history }
{}

/// The tables of each history whose changes were taken one after the other are settled.
pub fn accepted_histories_are_settled()
    ensures all { (history : List Change) →
        AcceptsAll empty_store history → IsSettled (store_of history) }
    ensures next { (store : Store) (change : Change) →
        IsSettled store → Accepts store change → IsSettled (after_change store change) }
{
    accepted_tables_keep_a_schema_declared();
    empty_schemas_are_declared();
    rows_fit_by_their_kinds();
    a_new_row_moves_no_other();
}

/// Exactly one row of a dimension that the snapshot sees has the foreign key
/// of a version that it sees.
pub fn one_row_joins_a_visible_version()
    ensures { (store : Store) (snapshot dimension : ℕ) (version : PlainVersion) (key : Value) →
        IsSettled store → Contains (visible store snapshot) version →
        foreign_key store.schema dimension version.row ≡ Some key →
        count_by (is_matched snapshot key) (rows_in store.dimensions dimension) ≡ 1 }
{}

/// A change that the tables take after a snapshot changes nothing there: the same rows of the fact
/// table are seen, a query keeps the same joined rows, and its answer alone is the same.
pub fn later_changes_are_not_seen()
    ensures rows { (store : Store) (change : Change) (snapshot : ℕ) →
        Accepts store change → snapshot ≤ store.commits →
        visible_rows (after_change store change) snapshot ≡ visible_rows store snapshot }
    ensures kept { (store : Store) (change : Change) (query : Query) (snapshot : ℕ) →
        IsSettled store → Accepts store change → snapshot ≤ store.commits →
        kept (after_change store change) query snapshot ≡ kept store query snapshot }
    ensures answer { (store : Store) (change : Change) (query : Query) (snapshot : ℕ) →
        IsSettled store → Accepts store change → snapshot ≤ store.commits →
        alone (after_change store change) query snapshot ≡ alone store query snapshot }
{}

/// Key numbers stay those of their keys where more rows are loaded into a dimension.
pub fn later_rows_move_no_key_number()
    ensures { (schema : Schema) (dimensions : List (List DimensionRow)) (number : ℕ)
        (more : List DimensionRow) (version : Version) → HasKeyNumbers schema dimensions version →
        HasKeyNumbers schema (grown_at number more dimensions) version }
{
    a_new_row_moves_no_other();
}

/// A query keeps the same joined rows by key numbers as by keys.
pub fn key_numbers_stand_for_keys()
    ensures { (store : KeyedStore) (query : Query) (snapshot : ℕ) →
        IsOver store.schema query → IsKeyed store →
        kept_by_keys store query snapshot ≡ kept (plain store) query snapshot }
{}

/// The key numbers of a version are those that its foreign keys give, one for each dimension that
/// there may be, and 0 for one that no column references.
pub fn key_numbers_are_found_by_keys()
    ensures { (schema : Schema) (dimensions : List (List DimensionRow)) (version : Version) →
        HasKeyNumbers schema dimensions version →
        version.keys
        ≡ map (number_by_key schema dimensions version.row) (range_with_len 0 KEYS_IN_A_VERSION) }
{}

/// A version joined by its key numbers has the values that are read by them: at each place of a
/// query's groups and items, where the query names their dimensions.
pub fn values_by_key_are_those_of_joined_rows()
    ensures places { (query : Query) (dims : List (Roomy DimensionRow)) (version : Version) →
        NamesItsPlaces query →
        All (λ place.
        value_by_key dims version place
        ≡ value_at place (joined_by_keys (rows_of_all dims) query version))
        (places_in query) }
    ensures key { (query : Query) (dims : List (Roomy DimensionRow)) (version : Version) →
        NamesItsPlaces query →
        map (value_by_key dims version) query.groups
        ≡ key_of query.groups (joined_by_keys (rows_of_all dims) query version) }
    ensures items { (query : Query) (dims : List (Roomy DimensionRow)) (version : Version) →
        NamesItsPlaces query →
        All (λ item.
        item_value_by_key dims version item
        ≡ item_value_of (joined_by_keys (rows_of_all dims) query version) item)
        query.items }
{}
