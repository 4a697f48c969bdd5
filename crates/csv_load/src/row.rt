//! The row of one record.
ghost use Rattle.std.specs.Prelude.{◌≡◌, Some, None, IfOk, IsErrOf, IsSome};
ghost use Rattle.csv.specs.Records.{fields_of};
ghost use Rattle.csv_load.specs.Rows.{field_value, typed_row};

use crate::block::BlockFault;
use csv::ByteRecord;
use star_values::{Kind, Row, SmallText, TextFault, Value, read_int, small_text_rule_is_tested};
use std::alloc::Global;

/// The row of a record, where it has as many fields as there are kinds and each field
/// writes a value of its kind.
pub(crate) fn typed_row(
    alloc: Global,
    fields: &ByteRecord,
    kinds: &[Kind],
) -> Result<Row, BlockFault>
    ensures ok { IfOk result (λ row. typed_row kinds.now (fields_of fields.now) ≡ Some row) }
    ensures bad { IsErrOf result BlockFault.BadRecord →
        typed_row kinds.now (fields_of fields.now) ≡ None }
{
    // A record of another length is refused before any of its fields is read.
    if fields.len() != kinds.len() {
        return Err(BlockFault::BadRecord);
    }
    let mut values = Vec::with_capacity(alloc, kinds.len())?;
    for (index, kind) in kinds.iter().enumerate() {
        let Some(field) = fields.get(index) else {
            return Err(BlockFault::BadRecord);
        };
        values.push(field_value(alloc, *kind, field)?)?;
    }
    Ok(Row::from(values))
}

/// The value of this kind that a field writes.
fn field_value(alloc: Global, kind: Kind, field: &[u8]) -> Result<Value, BlockFault>
    ensures ok { IfOk result (λ value. field_value kind field.now ≡ Some value) }
    ensures bad { IsErrOf result BlockFault.BadRecord → field_value kind field.now ≡ None }
    ensures memory { IsErrOf result BlockFault.Memory → IsSome (field_value kind field.now) }
{
    match kind {
        Kind::Int => match read_int(field) {
            Some(number) => Ok(Value::Int(number)),
            None => Err(BlockFault::BadRecord),
        },
        Kind::Text => {
            small_text_rule_is_tested();
            match SmallText::from_bytes(alloc, field) {
                Ok(text) => Ok(Value::Str(text)),
                Err(TextFault::BadText) => Err(BlockFault::BadRecord),
                Err(TextFault::Memory) => Err(BlockFault::Memory),
            }
        }
    }
}
