//! What does a query compute of its rows? It folds them into groups, in any order, exactly.
#![tactic(auto)]

mod absorbing;
mod block_rows;
mod code_entry;
mod crossing;
mod ending;
mod finding;
mod flat_cell;
mod groups;
mod keys;
mod laws;
mod making;
mod ordered;
mod partial;
mod taking;
mod taking_rows;
mod texts;

pub use block_rows::BlockRows;
pub use crossing::groups_may_be_sent;
pub use groups::Groups;
pub use laws::{
    codes_are_of_one_key, groups_without_rows_are_those_of_none, one_row_more_is_folded,
    parts_may_come_in_any_order, rows_may_be_folded_apart, values_by_key_fold_the_same,
};
