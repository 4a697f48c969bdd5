//! Versions that stand one after another, with what is kept beside them.
ghost use Rattle.std.specs.Prelude.{◌≡◌, ◌≤◌, ◌<◌, ◌-◌, All, IsTrue, length, map, take, drop, IfSome, slice_index_or};
ghost use Rattle.fact_versions.specs.Integers.{HaveIntegers};

use crate::fact_versions::FactVersions;
use crate::version::{KEYS_IN_A_VERSION, Version};
use std::marker::Model;

/// Some versions of a fact table that stand one after another in it, with what is kept beside them.
#[derive(Debug, Drop)]
pub struct Stretch<'a> {
    facts: &'a FactVersions,

    /// The position of the first of the versions.
    first: usize,

    /// The position behind the last one.
    end: usize,
}

impl<'a> Model for Stretch<'a> {
    ghost use Rattle.std.specs.Prelude.{◌≤◌, ◌-◌, List, drop, length, take};
    ghost use Rattle.fact_versions.specs.declared.version.Version as version;

    ghost Value = { List version.Version };

    ghost view = { λ stretch.
        take (stretch.end - stretch.first) (drop stretch.first stretch.facts.now.items) };

    ghost invariant = { λ stretch. (stretch.first ≤ stretch.end)
        × (stretch.end ≤ length stretch.facts.now.items) };
}

impl<'a> Stretch<'a> {
    /// The versions of a fact table at the positions from one to before another.
    pub(crate) fn of(facts: &'a FactVersions, first: usize, end: usize) -> Stretch<'a>
        requires order { first ≤ end }
        requires within { end ≤ length facts.now.items }
        ensures { result ≡ take (end - first) (drop first facts.now.items) }
    {
        Stretch { facts, first, end }
    }

    /// The versions, in the order of their positions.
    pub fn as_slice(&self) -> &'a [Version]
        ensures { result.now ≡ self.now }
    {
        &self.facts.versions()[self.first..self.end]
    }

    pub fn len(&self) -> usize
        ensures { result ≡ length self.now }
    {
        self.end - self.first
    }

    /// The versions from a number to before another.
    pub fn part(&self, first: usize, end: usize) -> Stretch<'a>
        requires order { first ≤ end }
        requires within { end ≤ length self.now }
        ensures { result ≡ take (end - first) (drop first self.now) }
    {
        // By being read it is known to be below 2 ^ 64.
        let _end = self.end;
        Stretch::of(self.facts, self.first + first, self.first + end)
    }

    /// The integers of the versions in a column, from 0, if one is kept beside each of them: there
    /// is none where a row of the table has a text there, or found no memory for its integer.
    ///
    /// Copies nothing, and costs the same for any number of versions.
    pub fn integers(&self, column: u8) -> Option<&'a [i64]>
        ensures { IfSome result (λ integers. HaveIntegers self.now column integers.now) }
    {
        self.facts.integers(column, self.first, self.end)
    }

    /// The key numbers of the versions for a dimension, one for each.
    ///
    /// Copies nothing, and costs the same for any number of versions.
    pub fn keys(&self, dimension: usize) -> &'a [u32]
        requires { dimension < KEYS_IN_A_VERSION }
        ensures keys { result.now
            ≡ map (λ version. slice_index_or version.keys dimension 0) self.now }
        ensures whole { All (λ version. length version.keys ≡ KEYS_IN_A_VERSION) self.now }
    {
        self.facts.keys(dimension, self.first, self.end)
    }

    /// Whether each version is known to have come by a commit, this one or one before it, and none
    /// to have been deleted. It is asked of the blocks that they stand in, and no version is read.
    ///
    /// An answer false says nothing, and the versions have to be asked: a block may have others,
    /// which came later or were deleted.
    pub fn are_all_seen(&self, commit: u64) -> bool
        ensures { IsTrue result →
            All (λ version. (version.begin ≤ commit) × (version.end ≡ 0)) self.now }
    {
        self.facts.are_all_seen(self.first, self.end, commit)
    }
}
