//! What a statement means over the tables of a schema: its names are bound to places.
//! What a line is as a statement, and which tables there are, is elsewhere.
#![tactic(auto)]

mod bound;
mod conjuncts;
mod grouped;
mod joined;
mod kinds;
mod known;
mod laws;
mod named;
mod refused;
mod scope;
mod select;
mod statement;
mod table;

pub use laws::{
    bound_queries_keep_to_their_schema, bound_queries_keep_what_the_where_keeps,
    selects_have_their_limits,
};
pub use statement::{bind, bind_delete};
pub use table::bind_table;

/// The most items of a select.
pub const MAX_ITEMS: usize = 64;

/// The most columns of a GROUP BY.
pub const MAX_GROUPS: usize = 16;
