//! The values that the fields of a record spell.

ghost use Rattle.std.specs.Prelude.{◌≡◌, ◌+◌, ◌<◌, ◌≤◌, ◌∷◌, length, drop};
ghost use Rattle.csv.specs.Records.{fields_of};
ghost use Rattle.csv_wrap.specs.Rows.{named_count, values_of};
ghost use Rattle.med_prelude.specs.Reading.{Gives};

use csv::ByteRecord;
use med_prelude::ReadFault;
use std::alloc::Global;
use tuple_core::{Column, Row, field_value};

/// The field at a position that is there.
fn field_at(fields: &ByteRecord, position: usize) -> &[u8]
    requires { position < length (fields_of fields.now) }
    ensures { drop position (fields_of fields.now) ≡ result.now ∷ drop (position + 1) (fields_of fields.now) }
{
    match fields.get(position) {
        Some(field) => field,
        None => unreachable!(),
    }
}

/// How many leading fields are the columns' names.
pub fn named_count(columns: &[Column], fields: &ByteRecord) -> usize
    ensures count { result ≡ named_count columns.now (fields_of fields.now) }
    ensures within { result ≤ length columns.now }
{
    for (position, column) in columns.iter().enumerate() {
        if position >= fields.len() {
            return position;
        }
        if column.name.as_bytes() != field_at(fields, position) {
            return position;
        }
    }
    columns.len()
}

/// The row of a record that has a field for each column; where it is broken, the first column whose field
/// has no value.
pub fn row_of(alloc: Global, columns: &[Column], fields: &ByteRecord) -> Result<Row, ReadFault<u32>>
    requires fields { length (fields_of fields.now) ≡ length columns.now }
    requires short { length columns.now ≤ 64 }
    ensures { Gives result (values_of columns.now (fields_of fields.now)) }
{
    let mut values = Vec::with_capacity(alloc, columns.len())?;
    for (position, column) in columns.iter().enumerate() {
        match field_value(alloc, column, field_at(fields, position))? {
            Some(value) => values.push(value)?,
            None => return Err(ReadFault::Broken(position as u32)),
        }
    }
    Ok(Row::new(values))
}
