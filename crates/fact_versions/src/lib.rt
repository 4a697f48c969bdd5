//! The versions of a fact table's rows: what was loaded, by which commit, and which commit deleted
//! it. Which of them a query sees is in `visible`.
#![tactic(auto)]

mod crossing;
mod fact_versions;
mod key_columns;
mod laws;
mod stretch;
mod version;
mod version_blocks;
mod visible;

pub use crossing::{fact_versions_may_be_sent, fact_versions_may_be_shared};
pub use fact_versions::FactVersions;
pub use laws::{
    a_later_end_hides_nothing, a_later_load_is_not_seen, ends_change_one_version,
    fact_tables_have_their_limit,
};
pub use stretch::Stretch;
pub use version::{KEYS_IN_A_VERSION, MAX_VERSIONS, Version};
pub use version_blocks::VERSIONS_IN_A_BLOCK;
pub use visible::is_visible;
