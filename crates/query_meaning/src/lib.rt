//! What do the tables hold after a history, and what is one query's answer over them, by itself?
//! The definitions, in `specs/`, and their laws; and the answer in code, which goes over the
//! versions once, for that query alone.
#![tactic(auto)]

mod answer;
mod asked;
mod chosen;
mod finish;
mod groups;
mod history_examples;
mod laws;
mod laws_of_history;
mod read;
mod scan;
mod taking;
mod tally;
mod wide_sum;

pub use answer::answer_alone;
pub use history_examples::a_query_sees_the_commits_up_to_its_snapshot;
pub use laws_of_history::{
    accepted_histories_are_settled, commits_are_counted, key_numbers_are_found_by_keys,
    key_numbers_stand_for_keys, later_changes_are_not_seen, later_rows_move_no_key_number,
    one_row_joins_a_visible_version, values_by_key_are_those_of_joined_rows,
};
