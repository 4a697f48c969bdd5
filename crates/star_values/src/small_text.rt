//! A text that a table may hold. A text of any bytes is in `byte_text`.
ghost use Rattle.std.specs.Prelude.{◌≡◌, ◌↔◌, ℕ, List, length, nat_eq, IsTrue, IfOk, OnOk, OnErr, IsErrOf, Some, refl};
ghost use Rattle.std.specs.Ordering.{nat_cmp};
ghost use Rattle.std.specs.Hash as fed;
ghost use Rattle.std.specs.Cmp.{partial_equiv_from_equiv};
ghost use Rattle.std.specs.Cmp.Lexicographic.{pointwise, slice_cmp, nat_list_eq_equiv, nat_list_cmp_total, texts_ties, texts_po};
ghost use Rattle.std.specs.Cmp.Rules.{hashing};
ghost use Rattle.std.proofs.Common.{rules};
ghost use Rattle.star_values.specs.SmallText.{IsSmallText, is_small_text};
ghost use Rattle.star_values.specs.declared.small_text.TextFault.TheVariants.{Memory};
ghost use Rattle.star_values.specs.declared.small_text.TheConstants.{MAX_TEXT_BYTES};

use crate::no_memory::NoMemory;
use std::alloc::{AllocError, Global};
use std::cmp::Ordering;
use std::error::Error;
use std::hash::{Hash, Hasher};
use std::marker::Model;
use std::{fmt, str};

/// The most bytes that a text in a table has.
pub const MAX_TEXT_BYTES: usize = 255;

/// A text that a table may hold: at most 255 bytes of UTF-8, none of them below 0x20.
///
/// Texts are compared by their bytes, without regard to any language. Names of tables and columns
/// are texts of this kind too.
#[derive(Debug, Drop)]
pub struct SmallText {
    bytes: Vec<u8>,
}

impl Model for SmallText {
    ghost use Rattle.std.specs.Prelude.{ℕ, List};
    ghost use Rattle.star_values.specs.SmallText.{IsSmallText};

    ghost Value = { List ℕ };

    ghost view = { λ t. t.bytes.items };

    ghost invariant = { λ t. IsSmallText t.bytes.items };
}

/// Why bytes became no text.
#[derive(Clone, Copy, Debug, PartialEq, Eq)]
pub enum TextFault {
    /// The bytes break the rule of a text that a table may hold.
    BadText,
    /// The bytes keep the rule, and no memory was left for them.
    Memory,
}

impl fmt::Display for TextFault {
    ghost use Rattle.std.specs.Prelude.{Some};
    ghost use Rattle.star_values.specs.TextFault.{words_of_fault};

    ghost output = { λ fault. Some (words_of_fault fault) };

    fn fmt<W: fmt::Write>(&self, f: &mut fmt::Formatter<W>) -> fmt::Result {
        match self {
            TextFault::BadText => f.write_str("no text of a table"),
            TextFault::Memory => f.write_str("out of memory"),
        }
    }
}

impl Error for TextFault {}

impl From<AllocError> for TextFault {
    ghost from_gives = { λ _ fault. fault ≡ Memory };

    fn from(_e: AllocError) -> TextFault {
        TextFault::Memory
    }
}

impl SmallText {
    /// Copies the bytes, where they keep the rule of a text.
    pub fn from_bytes(alloc: Global, bytes: &[u8]) -> Result<SmallText, TextFault>
        ensures ok { IfOk result (λ text. text ≡ bytes.now) }
        ensures rule { OnOk result (IsSmallText bytes.now) }
        ensures bad { IsErrOf result TextFault.BadText ↔ ¬ (IsSmallText bytes.now) }
        ensures memory { IsErrOf result TextFault.Memory → IsSmallText bytes.now }
    {
        if !keeps_rule(bytes) {
            return Err(TextFault::BadText);
        }
        Ok(SmallText {
            bytes: Vec::from_slice(alloc, bytes)?,
        })
    }

    pub fn as_bytes(&self) -> &[u8]
        ensures bytes { result.now ≡ self.now }
        ensures rule { IsSmallText self.now }
    {
        self.bytes.as_slice()
    }

    pub fn len(&self) -> usize
        ensures len { result ≡ length self.now }
        ensures rule { IsSmallText self.now }
    {
        self.bytes.len()
    }

    pub fn copy(&self) -> Result<SmallText, NoMemory>
        ensures { IfOk result (λ text. text ≡ self.now) }
    {
        Ok(SmallText {
            bytes: Vec::from_slice(*self.bytes.allocator(), self.bytes.as_slice())?,
        })
    }

    /// Writes another text over this one. It takes memory only where the room is too small.
    pub fn assign(&mut self, other: &SmallText) -> Result<(), NoMemory>
        ensures ok { OnOk result (self.new ≡ other.now) }
        ensures err { OnErr result (self.new ≡ self.old) }
    {
        overwrite(&mut self.bytes, other.bytes.as_slice())?;
        Ok(())
    }
}

/// Writes bytes over those that stand here, and takes memory only where the room is too small.
fn overwrite(target: &mut Vec<u8>, bytes: &[u8]) -> Result<(), AllocError>
    ensures ok { OnOk result (target.new.items ≡ bytes.now) }
    ensures err { OnErr result (target.new.items ≡ target.old.items) }
{
    // Room is made before the old bytes go, so that want of memory leaves them as they were.
    target.reserve(bytes.len().saturating_sub(target.len()))?;
    target.clear();
    target.extend_from_slice(bytes)
}

/// Whether bytes may stand in a table as a text.
fn keeps_rule(bytes: &[u8]) -> bool
    ensures { IsTrue result ↔ IsSmallText bytes.now }
{
    bytes.len() <= MAX_TEXT_BYTES
        && bytes.iter().all(|byte| *byte >= b' ')
        && str::from_utf8(bytes).is_ok()
}

/// The rule of a text can be tested.
pub fn small_text_rule_is_tested()
    ensures { (bytes : List ℕ) → IsTrue (is_small_text bytes) ↔ IsSmallText bytes }
{}

impl PartialEq for SmallText {
    ghost eq = { pointwise nat_eq };

    ghost laws = { partial_equiv_from_equiv nat_list_eq_equiv };

    fn eq(&self, other: &SmallText) -> bool {
        self.bytes.as_slice() == other.bytes.as_slice()
    }
}

impl Eq for SmallText {
    ghost laws = { nat_list_eq_equiv };
}

impl PartialOrd for SmallText {
    ghost partial_cmp = { λ x y. Some (slice_cmp nat_cmp x y) };

    ghost laws = { texts_po };

    fn partial_cmp(&self, other: &SmallText) -> Option<Ordering> {
        Some(self.cmp(other))
    }
}

impl Ord for SmallText {
    ghost cmp = { slice_cmp nat_cmp };

    ghost total = { nat_list_cmp_total };

    ghost matches_partial_cmp = { λ x y. refl };

    ghost matches_eq = { texts_ties };

    fn cmp(&self, other: &SmallText) -> Ordering {
        self.bytes.as_slice().cmp(other.bytes.as_slice())
    }
}

impl Hash for SmallText {
    ghost hash_input = { fed.slice fed.u8 };

    ghost respects_eq = { Prim.search (hashing, rules) };

    fn hash<H: Hasher>(&self, state: &mut H) {
        self.bytes.as_slice().hash(state);
    }
}

/// The most bytes of a text.
pub fn texts_have_their_limit()
    ensures { MAX_TEXT_BYTES ≡ 255 }
{}
