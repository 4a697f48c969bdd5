//! A cell of an answer, and how it and its value are written.
ghost use Rattle.std.specs.Prelude.{◌≡◌, ◌++◌, IfOk, OnOk, OnErr};
ghost use Rattle.star_values.specs.Cell.{cell_text};
ghost use Rattle.star_values.specs.Value.{value_text, quoted};

use crate::byte_text::ByteText;
use crate::no_memory::NoMemory;
use crate::value::Value;
use itoa::Buffer;
use std::alloc::{AllocError, Global};

/// A cell of an answer.
#[derive(Debug, PartialEq, Eq, Drop)]
pub enum Cell {
    /// There was no row to take a value from.
    Null,
    Full(Value),
}

/// Appends a cell as it stands in an answer: `null`, or the text of its value.
pub fn cell_text(cell: &Cell, out: &mut ByteText) -> Result<(), NoMemory>
    ensures ok { OnOk result (out.new ≡ out.old ++ cell_text cell.now) }
    ensures err { OnErr result (out.new ≡ out.old) }
{
    match cell {
        Cell::Null => out.extend_from_slice(b"null"),
        Cell::Full(value) => value_text(value, out),
    }
}

/// Appends a value as it stands in a cell: an integer in decimal, without leading zeros and never
/// `-0`, and a text in single quotes, with each quote in it doubled, as in SQL.
pub fn value_text(value: &Value, out: &mut ByteText) -> Result<(), NoMemory>
    ensures ok { OnOk result (out.new ≡ out.old ++ value_text value.now) }
    ensures err { OnErr result (out.new ≡ out.old) }
{
    match value {
        Value::Int(n) => out.extend_from_slice(Buffer::new().format(*n).as_bytes()),
        Value::Str(text) => {
            let quoted = quote(out.allocator(), text.as_bytes())?;
            out.extend_from_slice(quoted.as_slice())
        }
    }
}

/// The text in single quotes.
fn quote(alloc: Global, text: &[u8]) -> Result<Vec<u8>, AllocError>
    ensures { IfOk result (λ cell. cell.items ≡ quoted text.now) }
{
    let mut cell = Vec::with_capacity(alloc, text.len() + 2)?;
    cell.push(b'\'')?;
    for byte in text {
        if *byte == b'\'' {
            cell.push(b'\'')?;
        }
        cell.push(*byte)?;
    }
    cell.push(b'\'')?;
    Ok(cell)
}
