//! Which rows does a block hold? The records of comma-separated fields are read by `csv`; what is
//! here makes rows of them. For which table they are is for the crates above to see.
#![tactic(auto)]

mod block;
mod laws;
mod marks;
mod read_once;
mod reader;
mod row;

pub use block::{BlockFault, LoadRows, count_records, read_block};
pub use laws::{csv_fixes_the_records, each_record_is_a_row, rows_have_the_kinds};
pub use read_once::{BlockForm, ReadBlock};
