//! The values of a star schema, their texts, and the reasons for which a statement is
//! refused; lists that contracts see as lists, and what the first rows of a table hold in a
//! column, side by side. Every crate that speaks of values stands on this one, and this one
//! on std and `itoa` alone.
#![tactic(auto)]

mod byte_text;
mod cell;
mod code_columns;
mod codes;
mod column_lists;
mod crossing;
mod fading;
mod integer;
mod integer_columns;
mod laws_of_codes;
mod list_crossing;
mod list_of;
mod list_with_room;
mod literal_list;
mod no_memory;
mod refusal;
mod row;
mod small_text;
mod statement_fault;
mod trail;
mod value;

pub use byte_text::ByteText;
pub use cell::{Cell, cell_text, value_text};
pub use code_columns::CodeColumns;
pub use codes::{NO_CODE, NO_PLACE, code_of, code_of_integer};
pub use column_lists::MAX_COLUMNS;
pub use crossing::values_cross_threads;
pub use fading::Fading;
pub use integer::{integer_text_reads_back, read_int};
pub use integer_columns::IntegerColumns;
pub use laws_of_codes::codes_tell_values_apart;
pub use list_crossing::{lists_may_be_sent, lists_may_be_shared};
pub use list_of::ListOf;
pub use list_with_room::ListWithRoom;
pub use literal_list::LiteralList;
pub use no_memory::NoMemory;
pub use refusal::Refusal;
pub use row::{Row, rows_are_in_order};
pub use small_text::{
    MAX_TEXT_BYTES, SmallText, TextFault, small_text_rule_is_tested, texts_have_their_limit,
};
pub use statement_fault::StatementFault;
pub use trail::Trail;
pub use value::{Kind, Value, values_are_in_order};
