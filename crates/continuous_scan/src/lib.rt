//! Which positions of the fact table come next. What is done to the rows of a
//! batch is in the crates above.
#![tactic(auto)]

mod blank;
mod by_value;
mod conditions;
mod crossing;
mod keeping;
mod laws;
mod limits;
mod runner;
mod scan;
mod seeing;
mod shared;
mod slots;
mod stamping;

pub use blank::{Blank, Blanked};
pub use crossing::{blanks_may_be_sent, cuts_may_be_sent, scans_may_be_sent};
pub use laws::{
    a_cut_ends_at_its_nearest_bound, a_cut_takes_no_more_than_is_left,
    a_lap_has_each_position_once, bits_are_those_of_slots, each_position_is_cut_once,
    one_query_is_cut_up_to_the_end_of_the_rows, rows_go_by_what_is_asked,
    three_queries_are_cut_where_each_started,
};
pub use scan::{CutOutcome, Scan};
