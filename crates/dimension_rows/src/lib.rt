//! The rows of a dimension: what was loaded, by which commit, and which row has a key.
#![tactic(auto)]

mod crossing;
mod dimension_row;
mod dimension_rows;
mod key_hash;
mod laws;
mod look_up;
mod parts;

pub use crossing::{dimension_rows_may_be_sent, dimension_rows_may_be_shared};
pub use dimension_row::{DimensionRow, MAX_DIMENSION_ROWS};
pub use dimension_rows::{DimensionRows, Dims};
pub use laws::{a_new_row_moves_no_other, dimensions_have_their_limit, keys_have_one_place};
