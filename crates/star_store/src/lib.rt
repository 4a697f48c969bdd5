//! What statements do to the tables of a star schema, and what they are answered: the tables as
//! they are kept, one change at a time, and above them what each statement says. Statements are
//! read in `script_reader`, and queries are evaluated elsewhere.
#![tactic(auto)]

mod applied;
mod applying;
mod crossing;
mod declare;
mod delete;
mod done;
mod ends;
mod laws_of_long_lines;
mod laws_of_queries;
mod laws_of_scripts;
mod laws_of_statements;
mod laws_of_tables;
mod load;
mod read_ahead;
mod rows;
mod store;
mod tables;
mod text;
mod versions;

pub use applied::{Applied, ApplyFault, ChangeKind};
pub use applying::{apply, apply_alone};
pub use crossing::{
    store_may_be_sent, store_may_be_shared, tables_may_be_sent, tables_may_be_shared,
};
pub use csv_load::BlockForm;
pub use done::Done;
pub use laws_of_long_lines::long_lines_are_answered_as_whole_ones;
pub use laws_of_queries::selects_are_answered_by_the_rows_where_their_where_holds;
pub use laws_of_scripts::{
    histories_of_scripts_are_accepted, replies_are_well_formed,
    replies_tell_where_memory_was_wanted, tables_of_scripts_are_settled, texts_tell_their_replies,
    the_text_tells_where_memory_was_wanted,
};
pub use laws_of_statements::{
    outcomes_fit_the_tables, replies_agree_with_the_tables, replies_follow_from_the_tables,
    selects_are_refused_by_the_schema, texts_are_refused_for_the_first_reason,
};
pub use laws_of_tables::changes_of_statements_are_taken;
pub use read_ahead::{ReadStatement, block_form};
pub use store::Store;
pub use tables::Tables;
