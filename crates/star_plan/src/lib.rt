//! What a query means once its names are bound to places, and the answer that it has over rows;
//! between which integers a condition lets a row pass; and which declarations a schema takes.
//! How tables are scanned, filtered and folded to that answer is elsewhere.
#![tactic(auto)]

mod answer;
mod bounds;
mod cell;
mod choice;
mod column_def;
mod condition;
mod crossing;
mod declare;
mod examples;
mod find;
mod fitting;
mod folding;
mod item;
mod laws_of_schemas;
mod meaning;
mod names;
mod place;
mod predicate;
mod range_test;
mod repeat;
mod schema;
mod star_query;
mod table;
mod table_def;
mod truth;

pub use answer::{Answer, AnswerRows};
pub use bounds::Bounds;
pub use cell::CellList;
pub use choice::{Choice, ChoiceList};
pub use column_def::{ColumnDef, ColumnList};
pub use condition::{Condition, condition_of, flattened};
pub use crossing::queries_cross_threads;
pub use declare::{declare_dimension, declare_fact};
pub use examples::{
    least_and_greatest_are_found, no_sales_have_no_sum, only_the_whole_sum_overflows,
    sales_are_kept_by_both_conditions, sales_are_summed_by_city,
};
pub use find::{columns_of, find_column, find_dimension, find_table, is_table_named};
pub use fitting::{fits, rows_fit_by_their_kinds, tests_fit_by_their_parts};
pub use folding::{cells_take_one_row_more, groups_take_one_row_more};
pub use item::{Item, ItemList};
pub use laws_of_schemas::{
    accepted_tables_keep_a_schema_declared, empty_schemas_are_declared, repeats_are_pairs,
    schemas_have_their_limits,
};
pub use meaning::{
    answers_ignore_the_order_of_rows, answers_overflow_by_whole_sums,
    groups_are_the_keys_of_the_rows, kept_rows_meet_each_condition,
    least_and_greatest_bound_the_values, plain_cells_are_the_values_of_the_rows,
    the_least_of_values_ignores_their_order,
};
pub use place::{Place, PlaceList};
pub use predicate::{How, Predicate, PredicateList, predicates_are_tests_by_their_parts};
pub use range_test::{RangeTest, RangeTests};
pub use repeat::sorts_to_repeat;
pub use schema::Schema;
pub use star_query::StarQuery;
pub use star_values::{Cell, MAX_COLUMNS};
pub use table::Table;
pub use table_def::{TableDef, TableList};
pub use truth::{equal_values_are_the_same, holds, tests_hold_by_their_parts};

/// The most dimensions of a schema.
pub const MAX_DIMENSIONS: usize = 8;
