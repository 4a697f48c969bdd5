//! The statements of a script. What a statement means is no question of this crate.
#![tactic(auto)]

mod clipping;
mod closing;
mod first_statement;
mod laws;
mod lines;
mod long_line;
mod open_load;
mod opening;
mod pending_bytes;
mod reader;
mod statement;

pub use clipping::LINE_LIMIT;
pub use first_statement::{TakenStatement, take_statement};
pub use laws::{
    block_ends_at_the_first_dot_line, line_ends_at_its_line_feed, lines_have_their_limits,
    lines_joined_are_the_script, long_lines_are_clipped, scripts_have_their_limit,
    statements_are_given, statements_come_in_order,
};
pub use lines::{first_line_len, line_text};
pub use pending_bytes::SHORTENED_BYTES;
pub use reader::{FeedFault, NextStatement, SCRIPT_LIMIT, ScriptReader};
pub use statement::{Block, Statement};
