//! Into which queries' groups does each row of a batch go? What groups are is in the crate below.
#![tactic(auto)]

mod apart;
mod blocks;
mod coding;
mod counting;
mod crossing;
mod distributor;
mod giving;
mod joining;
mod kind_table;
mod laws;
mod lending;
mod row_block;
mod row_groups;
mod row_ids;
mod row_kind;
mod sharing;
mod slots;
mod taking;
mod ways;

pub use crossing::distributors_may_be_sent;
pub use distributor::{Distributor, Spoils};
pub use laws::{batches_may_be_folded_in_parts, rows_go_where_their_bits_say};
