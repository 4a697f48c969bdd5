//! The records of a block, one after another. What rows they are is in `row`.
ghost use Rattle.std.specs.Prelude.{◌≡◌, ◌<◌, ◌^◌, [], ◌∷◌, true, false, drop, length, IfOk, OnOk};
ghost use Rattle.csv.specs.Records.{fields_of};
ghost use Rattle.csv_load.specs.Records.{records_in, records_of, without_marks};
ghost use Rattle.csv_load.specs.Reading.{IsBetweenRecords, records_left};

use crate::marks::without_marks;
use csv::{ByteRecord, Reader, ReaderBuilder};
use star_values::NoMemory;
use std::alloc::Global;
use std::marker::Model;

/// Reads the records of a block one after another, each into a record of the caller.
///
/// It is seen as the list of the records that it has left. After an `Err` none is left.
#[derive(Drop)]
pub(crate) struct BlockReader<'a> {
    reader: Reader<&'a [u8]>,

    /// Whether the last read found no record, or failed.
    has_ended: bool,
}

impl<'a> Model for BlockReader<'a> {
    ghost use Rattle.std.specs.Prelude.{◌≡◌, ℕ, List, [], false, if◌then◌else◌};
    ghost use Rattle.csv_load.specs.Reading.{IsBetweenRecords, records_left};

    ghost Value = { List (List (List ℕ)) };

    ghost view = { λ block. if block.has_ended then [] else records_left block.reader };

    ghost invariant = { λ block. block.has_ended ≡ false → IsBetweenRecords block.reader };
}

impl<'a> BlockReader<'a> {
    /// A reader of all records of the block. A header is read at once.
    pub(crate) fn new(
        alloc: Global,
        block: &'a [u8],
        header: bool,
    ) -> Result<BlockReader<'a>, NoMemory>
        ensures records { IfOk result (λ reader. reader ≡ records_in header block.now) }
        ensures few { IfOk result (λ reader. length reader < 2 ^ 64) }
    {
        let mut reader = BlockReader {
            reader: csv_reader(alloc, block),
            has_ended: false,
        };
        if header {
            reader.read(&mut ByteRecord::new(alloc))?;
        }
        Ok(reader)
    }

    /// Reads the next record over the last one. It answers whether there was one.
    pub(crate) fn read(&mut self, into: &mut ByteRecord) -> Result<bool, NoMemory>
        ensures found { IfOk result (λ found.
            found ≡ true → self.old ≡ fields_of into.new ∷ self.new) }
        ensures ended { IfOk result (λ found. found ≡ false → self.old ≡ []) }
        ensures left { OnOk result (self.new ≡ drop 1 self.old) }
    {
        if self.has_ended {
            return Ok(false);
        }
        self.has_ended = true;
        let found = read_next(&mut self.reader, into)?;
        self.has_ended = !found;
        Ok(found)
    }
}

fn csv_reader(alloc: Global, block: &[u8]) -> Reader<&[u8]>
    ensures between { IsBetweenRecords result }
    ensures records { records_left result ≡ records_of (without_marks block.now) }
{
    ReaderBuilder::new()
        .has_headers(false)
        .flexible(true)
        .from_reader(alloc, without_marks(block))
}

/// Reads the next record. Every error of csv counts as want of memory: where records may differ in
/// length it has no other of its own, and a slice never fails.
fn read_next(reader: &mut Reader<&[u8]>, into: &mut ByteRecord) -> Result<bool, NoMemory>
    requires { IsBetweenRecords reader.old }
    ensures between { IfOk result (λ found. found ≡ true → IsBetweenRecords reader.new) }
    ensures found { IfOk result (λ found.
        found ≡ true → records_left reader.old ≡ fields_of into.new ∷ records_left reader.new) }
    ensures ended { IfOk result (λ found. found ≡ false → records_left reader.old ≡ []) }
{
    let Ok(found) = reader.read_byte_record(into) else {
        return Err(NoMemory);
    };
    Ok(found)
}
