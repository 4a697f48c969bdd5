//! The records of a block counted, and the rows that they are.
ghost use Rattle.std.specs.Prelude.{◌≡◌, length, All, Some, None, IfOk, IsErrOf};
ghost use Rattle.star_values.specs.Value.{kinds_in};
ghost use Rattle.csv_load.specs.Records.{records_in};
ghost use Rattle.csv_load.specs.Rows.{typed_rows};
ghost use Rattle.csv_load.specs.declared.block.BlockFault.TheVariants.{Memory};

use crate::laws::rows_have_the_kinds;
use crate::reader::BlockReader;
use crate::row::typed_row;
use csv::ByteRecord;
use star_values::{Kind, ListOf, NoMemory, Row};
use std::alloc::{AllocError, AllocFailed, Global};
use std::error::Error;
use std::fmt;

/// The rows of a block, in the order of its records.
pub type LoadRows = ListOf<Row>;

/// Why a block gave no rows.
#[derive(Clone, Copy, Debug, PartialEq, Eq)]
pub enum BlockFault {
    /// A record has not as many fields as there are kinds, or a field writes no value of its kind.
    BadRecord,
    /// No memory was left for the rows. It says nothing of the records.
    Memory,
}

/// How many records the block holds, the header not counted where it has one.
pub fn count_records(alloc: Global, block: &[u8], header: bool) -> Result<u64, NoMemory>
    ensures { IfOk result (λ count. count ≡ length (records_in header block.now)) }
{
    let mut reader = BlockReader::new(alloc, block, header)?;
    let mut record = ByteRecord::new(alloc);
    let mut count = 0;
    'records: while reader.read(&mut record)? {
        count += 1;
    }
    Ok(count)
}

/// The rows of the block, where each of its records is one: as many fields as there are kinds, and
/// each field writes a value of its kind.
pub fn read_block(
    alloc: Global,
    block: &[u8],
    header: bool,
    kinds: &[Kind],
) -> Result<LoadRows, BlockFault>
    ensures rows { IfOk result (λ rows.
        typed_rows kinds.now (records_in header block.now) ≡ Some rows) }
    ensures kinds { IfOk result (λ rows. All (λ row. kinds_in row ≡ kinds.now) rows) }
    ensures bad { IsErrOf result BlockFault.BadRecord →
        typed_rows kinds.now (records_in header block.now) ≡ None }
{
    rows_have_the_kinds();
    let mut reader = BlockReader::new(alloc, block, header)?;
    let mut record = ByteRecord::new(alloc);
    let mut rows = ListOf::new(alloc);
    'records: while reader.read(&mut record)? {
        rows.push(typed_row(alloc, &record, kinds)?)?;
    }
    Ok(rows)
}

impl fmt::Display for BlockFault {
    ghost use Rattle.std.specs.Prelude.{Some};
    ghost use Rattle.csv_load.specs.BlockFault.{words_of_fault};

    ghost output = { λ fault. Some (words_of_fault fault) };

    fn fmt<W: fmt::Write>(&self, f: &mut fmt::Formatter<W>) -> fmt::Result {
        match self {
            BlockFault::BadRecord => f.write_str("bad record"),
            BlockFault::Memory => f.write_str("out of memory"),
        }
    }
}

impl Error for BlockFault {}

impl From<NoMemory> for BlockFault {
    ghost from_gives = { λ _ fault. fault ≡ Memory };

    fn from(_e: NoMemory) -> BlockFault {
        BlockFault::Memory
    }
}

impl From<AllocError> for BlockFault {
    ghost from_gives = { λ _ fault. fault ≡ Memory };

    fn from(_e: AllocError) -> BlockFault {
        BlockFault::Memory
    }
}

impl<T: Drop> From<AllocFailed<T>> for BlockFault {
    ghost from_gives = { λ _ fault. fault ≡ Memory };

    fn from(_e: AllocFailed<T>) -> BlockFault {
        BlockFault::Memory
    }
}
