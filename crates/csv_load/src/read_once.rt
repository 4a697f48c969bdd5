//! A block as it was read once: by which form, how many records it has, and the rows that they are.
ghost use Rattle.std.specs.Prelude.{◌≡◌, ◌↔◌, IsTrue, IfOk, length};
ghost use Rattle.csv_load.specs.Records.{records_in};
ghost use Rattle.csv_load.specs.Rows.{typed_rows};

use crate::block::{BlockFault, LoadRows, count_records, read_block};
use crate::laws::each_record_is_a_row;
use star_values::{Kind, ListOf, NoMemory};
use std::alloc::Global;

/// By what the rows of a block are read.
#[derive(Debug, Drop)]
pub struct BlockForm {
    /// Whether the first record is a header, and no row.
    pub header: bool,

    /// What the values of each row are, in their order.
    pub kinds: ListOf<Kind>,
}

impl BlockForm {
    /// Whether this is the form with such a header and values of such kinds.
    pub fn is_of(&self, header: bool, kinds: &[Kind]) -> bool
        ensures { IsTrue result ↔ ((self.now.header ≡ header) × (self.now.kinds ≡ kinds.now)) }
    {
        self.header == header && are_same(self.kinds.as_slice(), kinds)
    }
}

/// Whether two lists of kinds are the same.
fn are_same(kinds: &[Kind], others: &[Kind]) -> bool
    ensures { IsTrue result ↔ (kinds.now ≡ others.now) }
{
    kinds == others
}

/// A block that was read by a form.
#[derive(Debug, Drop)]
pub struct ReadBlock<'a> {
    pub form: BlockForm,
    pub block: &'a [u8],

    /// How many records it has.
    count: u64,

    /// Its rows, where each of its records is one.
    rows: Option<LoadRows>,
    pub ghost counted: { count ≡ length (records_in form.header block.now) },
    pub ghost typed: { rows ≡ typed_rows form.kinds (records_in form.header block.now) },
}

impl<'a> ReadBlock<'a> {
    /// Reads a block, once if each of its records is a row.
    pub fn read(alloc: Global, form: BlockForm, block: &'a [u8]) -> Result<ReadBlock<'a>, NoMemory>
        ensures form { IfOk result (λ read. read.form ≡ form) }
        ensures block { IfOk result (λ read. read.block.now ≡ block.now) }
    {
        each_record_is_a_row();
        match read_block(alloc, block, form.header, form.kinds.as_slice()) {
            Ok(rows) => Ok(ReadBlock {
                form,
                block,
                count: rows.len() as u64,
                rows: Some(rows),
            }),
            Err(BlockFault::BadRecord) => {
                let count = count_records(alloc, block, form.header)?;
                Ok(ReadBlock {
                    form,
                    block,
                    count,
                    rows: None,
                })
            }
            Err(BlockFault::Memory) => Err(NoMemory),
        }
    }

    /// How many records the block has.
    pub fn count(&self) -> u64
        ensures { result ≡ length (records_in self.now.form.header self.now.block.now) }
    {
        self.count
    }

    /// The rows of the block, where each of its records is one.
    pub fn into_rows(self) -> Option<LoadRows>
        ensures { result
            ≡ typed_rows self.entry.form.kinds
            (records_in self.entry.form.header self.entry.block.now) }
    {
        self.rows
    }
}
