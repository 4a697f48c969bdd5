//! What stands for a batch in flight that a worker has. One that is with the core is in `home`.
ghost use Rattle.std.specs.Prelude.{◌≡◌, map};
ghost use Rattle.continuous_scan.specs.Blanks.{asked_by};
ghost use Rattle.core_parts.specs.Seen.{seen_of, written};

use crate::hand::Hand;
use crate::version_numbers::VersionNumbers;
use batch_flow::{Batch, SlotBits};
use continuous_scan::{Blank, Scan};
use fact_versions::FactVersions;
use filter_order::Versions;
use std::fmt;
use std::marker::Model;
use std::snapshot::Snapshot;

/// What the core keeps of a batch that is lent, and of the hand that it is in: what is
/// read of them meanwhile. Contracts go on seeing the batch, and the versions in the hand,
/// which have no bytes here.
#[derive(Drop)]
pub(crate) struct Lent {
    worker: u32,
    number: u64,
    roster: SlotBits,
    version_numbers: VersionNumbers,
    batch: Seen,
    versions: Snapshot<Versions>,
}

/// What is seen of a batch that is lent. It has no bytes.
#[derive(Drop)]
pub(crate) enum Seen {
    /// The batch, as it was lent.
    Written(Snapshot<Batch>),

    /// What is to be written of the fact table, for the queries that ran as it was cut.
    Unwritten {
        blank: Snapshot<Blank>,
        scan: Snapshot<Scan>,
        facts: Snapshot<FactVersions>,
    },
}

impl Model for Lent {
    ghost use Rattle.std.specs.Prelude.{◌≡◌, map};
    ghost use Rattle.core_parts.specs.Lent as seen;
    ghost use Rattle.core_parts.specs.Seen.{seen_of};

    ghost Value = { seen.Lent };

    ghost view = { λ lent. record {
      batch = seen_of lent.batch;
      hand = record { worker = lent.worker; versions = lent.versions.value };
    } };

    ghost invariant = { λ lent.
        (lent.number ≡ (seen_of lent.batch).number)
        × (lent.roster ≡ (seen_of lent.batch).roster)
        × (lent.version_numbers ≡ map (λ version. version.number) lent.versions.value) };
}

impl Lent {
    /// What is to stand for a batch in a hand.
    pub(crate) fn of(batch: &Batch, hand: &Hand) -> Lent
        ensures { result ≡ record { batch = batch.now; hand = hand.now } }
    {
        let versions = hand.versions();
        Lent {
            worker: hand.worker(),
            number: batch.number(),
            roster: batch.roster(),
            version_numbers: VersionNumbers::of_versions(versions),
            batch: Seen::Written(Snapshot::of(batch)),
            versions: Snapshot::of(versions),
        }
    }

    /// What is to stand for a batch in a hand that is not written yet: it was cut of this scan, and
    /// is to be written of these versions.
    pub(crate) fn unwritten(
        blank: &Blank,
        scan: Snapshot<Scan>,
        facts: &FactVersions,
        hand: &Hand,
    ) -> Lent
        requires { asked_by scan.value.running ≡ blank.now.asked }
        ensures { result ≡ record {
          batch = written blank.now scan.value.running facts.now.items;
          hand = hand.now;
        } }
    {
        let versions = hand.versions();
        Lent {
            worker: hand.worker(),
            number: blank.number(),
            roster: blank.roster(),
            version_numbers: VersionNumbers::of_versions(versions),
            batch: Seen::Unwritten {
                blank: Snapshot::of(blank),
                scan,
                facts: Snapshot::of(facts),
            },
            versions: Snapshot::of(versions),
        }
    }

    pub(crate) fn worker(&self) -> u32
        ensures { result ≡ self.now.hand.worker }
    {
        self.worker
    }

    pub(crate) fn number(&self) -> u64
        ensures { result ≡ self.now.batch.number }
    {
        self.number
    }

    pub(crate) fn roster(&self) -> SlotBits
        ensures { result ≡ self.now.batch.roster }
    {
        self.roster
    }

    /// The numbers of the versions in the hand.
    pub(crate) fn version_numbers(&self) -> &VersionNumbers
        ensures { result.now ≡ map (λ version. version.number) self.now.hand.versions }
    {
        &self.version_numbers
    }
}

impl fmt::Debug for Lent {
    fn fmt<W: fmt::Write>(&self, f: &mut fmt::Formatter<W>) -> fmt::Result {
        f.write_str("Lent")
    }
}
