//! What is known of versions by blocks, so that one that all see is told without reading its
//! versions.
ghost use Rattle.std.specs.Prelude.{◌≡◌, ◌↔◌, ◌≤◌, ◌<◌, ◌+◌, ◌-◌, ◌*◌, ◌/◌, ℕ, List, [], ◌∷◌, ◌++◌, All, IfSome, IsTrue, OnOk, length, slice_get, slice_range};
ghost use Rattle.fact_versions.specs.Blocks.{AreBlocks, HaveBlocks, AreSeen, with_end_by, with_version};
ghost use Rattle.fact_versions.specs.Ends.{with_end};
ghost use Rattle.fact_versions.specs.declared.version.Version as version_of;

use crate::version::Version;
use star_values::{ListWithRoom, NoMemory};
use std::alloc::Global;

/// How many versions are told of together, by the commits that loaded and deleted them.
pub const VERSIONS_IN_A_BLOCK: usize = 256;

/// What is known of the versions of a block together.
#[derive(Clone, Copy, Debug)]
pub(crate) struct VersionBlock {
    /// The greatest number of a commit that loaded one of them.
    pub(crate) begin: u64,

    /// Whether a commit deleted one of them.
    pub(crate) ended: bool,
}

/// For each `VERSIONS_IN_A_BLOCK` versions a block, the last of which may have fewer.
#[derive(Debug, Drop)]
pub(crate) struct VersionBlocks {
    pub(crate) blocks: ListWithRoom<VersionBlock>,
}

impl VersionBlocks {
    /// No blocks and no room, which takes no memory yet.
    pub(crate) fn new(alloc: Global) -> VersionBlocks
        ensures items { result.blocks.items ≡ [] }
        ensures room { result.blocks.room ≡ 0 }
    {
        VersionBlocks {
            blocks: ListWithRoom::new(alloc),
        }
    }

    /// Makes room for the blocks of this many more versions.
    pub(crate) fn reserve(&mut self, more: usize) -> Result<(), NoMemory>
        ensures items { self.new.blocks.items ≡ self.old.blocks.items }
        ensures enough { OnOk result (more < self.new.blocks.room * VERSIONS_IN_A_BLOCK) }
        ensures grows { self.old.blocks.room ≤ self.new.blocks.room }
    {
        self.blocks.reserve(more / VERSIONS_IN_A_BLOCK + 1)
    }

    /// Notes a version that comes behind so many others, into room that was reserved.
    pub(crate) fn append(&mut self, before: usize, version: &Version)
        requires counted { HaveBlocks before (length self.old.blocks.items) }
        requires room { before
            < (length self.old.blocks.items + self.old.blocks.room) * VERSIONS_IN_A_BLOCK }
        ensures whole { (versions : List version_of.Version) → length versions ≡ before →
            AreBlocks versions self.old.blocks.items
            → AreBlocks (versions ++ version.now ∷ []) self.new.blocks.items }
        ensures room { length self.new.blocks.items + self.new.blocks.room
            ≡ length self.old.blocks.items + self.old.blocks.room }
    {
        if before % VERSIONS_IN_A_BLOCK == 0 {
            self.blocks.push_reserved(VersionBlock {
                begin: version.begin,
                ended: version.end != 0,
            });
        } else {
            note(
                &mut self.blocks.as_mut_slice()[before / VERSIONS_IN_A_BLOCK],
                version,
            );
        }
    }

    /// Notes that a commit deletes the version at a position, from 0.
    pub(crate) fn end_at(&mut self, position: usize, commit: u64)
        requires { position < length self.old.blocks.items * VERSIONS_IN_A_BLOCK }
        ensures whole { (versions : List version_of.Version) → position < length versions →
            IfSome (slice_get versions position) (λ version. version.end ≡ 0)
            → AreBlocks versions self.old.blocks.items
            → AreBlocks (with_end versions position commit) self.new.blocks.items }
        ensures count { length self.new.blocks.items ≡ length self.old.blocks.items }
        ensures room { self.new.blocks.room ≡ self.old.blocks.room }
    {
        note_end(
            &mut self.blocks.as_mut_slice()[position / VERSIONS_IN_A_BLOCK],
            commit,
        );
    }

    /// Whether the blocks in which the versions from one position to before another stand are known
    /// to be seen from a commit on. It is so where there are none.
    pub(crate) fn are_all_seen(&self, first: usize, end: usize, commit: u64) -> bool
        requires order { first ≤ end }
        requires within { end ≤ length self.now.blocks.items * VERSIONS_IN_A_BLOCK }
        ensures none { first ≡ end → IsTrue result }
        ensures some { first < end → IsTrue result ↔ AreSeen commit
            (slice_range self.now.blocks.items (first / VERSIONS_IN_A_BLOCK)
            ((end - 1) / VERSIONS_IN_A_BLOCK + 1)) }
    {
        if first == end {
            return true;
        }
        are_seen(
            &self.blocks.as_slice()[first / VERSIONS_IN_A_BLOCK..(end - 1) / VERSIONS_IN_A_BLOCK
                + 1],
            commit,
        )
    }
}

/// Whether no version of these blocks came by a later commit, or was deleted.
fn are_seen(blocks: &[VersionBlock], commit: u64) -> bool
    ensures { IsTrue result ↔ AreSeen commit blocks.now }
{
    blocks
        .iter()
        .all(|block| block.begin <= commit && !block.ended)
}

/// Notes a version in its block.
fn note(block: &mut VersionBlock, version: &Version)
    ensures { block.new ≡ with_version block.old version.now }
{
    block.begin = block.begin.max(version.begin);
    block.ended = block.ended | (version.end != 0);
}

/// Notes in a block that a commit deletes one of its versions.
fn note_end(block: &mut VersionBlock, commit: u64)
    ensures { block.new ≡ with_end_by block.old commit }
{
    block.ended = block.ended | (commit != 0);
}
