ghost use Rattle.std.specs.Prelude.{◌≡◌, ◌≢◌, ◌≤◌, Err, IfOk, OnOk};
ghost use Rattle.rb_rows.specs.Rows.{IsFirstLong};
ghost use Rattle.rb_codec.specs.Columns.{IsLong};
ghost use Rattle.rb_base.specs.declared.faults.CodecFault.TheVariants.{NoMemory as CodecOutOfMemory};
ghost use Rattle.rb_base.specs.declared.faults.Field.TheVariants.{Key};
ghost use Rattle.rb_read_defs.specs.Reading.{that};
ghost use Rattle.rb_read_defs.specs.Rows.{value_in, values_in, is_key, number_in};
ghost use Rattle.rb_codec.specs.Fields.{Gives};

use rb_base::{CodecFault, Column, Field, Items, Row, Value, Values};
use rb_codec::column::read_value;
use rb_codec::{Fields, check};
use std::alloc::Global;

/// Reads the next values, one for each column. If a key is given, the first value must be this key;
/// otherwise it returns `BadField` with `Key`.
pub(crate) fn read_values(
    alloc: Global,
    fields: &mut Fields,
    columns: &[Column],
    key: Option<u64>,
) -> Result<Values, CodecFault>
    ensures gives { result ≢ Err CodecOutOfMemory →
        Gives (λ values. values) result fields.new.at
        (values_in columns.now key fields.old.bytes.now fields.old.at) }
    ensures bytes { fields.new.bytes ≡ fields.old.bytes }
    ensures later { OnOk result (fields.old.at ≤ fields.new.at) }
    ensures long { IfOk result (λ values. IsFirstLong columns.now values) }
{
    let mut values = Items::new(alloc);
    let mut wanted = key;
    for column in columns {
        values.push(read_keyed(alloc, fields, *column, wanted)?)?;
        wanted = None;
    }
    Ok(values)
}

/// Reads the next value, of this column. If a key is given, the value must be this key.
fn read_keyed(
    alloc: Global,
    fields: &mut Fields,
    column: Column,
    key: Option<u64>,
) -> Result<Value, CodecFault>
    ensures gives { result ≢ Err CodecOutOfMemory →
        Gives (λ value. value) result fields.new.at
        (that Key (is_key key) (value_in column) fields.old.bytes.now fields.old.at) }
    ensures bytes { fields.new.bytes ≡ fields.old.bytes }
    ensures later { OnOk result (fields.old.at ≤ fields.new.at) }
    ensures long { IfOk result (λ value. IsLong column value) }
{
    let at = fields.at();
    let value = read_value(alloc, fields, column)?;
    check(is_key(key, &value), at, Field::Key)?;
    Ok(value)
}

/// Returns whether a value is this key, and true if no key is given.
fn is_key(key: Option<u64>, value: &Value) -> bool
    ensures { result ≡ is_key key value.now }
{
    match (key, value) {
        (None, _) => true,
        (Some(key), Value::Num(number)) => key == *number,
        (Some(_), Value::Text(_)) => false,
    }
}

/// Returns the number that a row has in this column, or 0 if it has none there.
pub(crate) fn number_in(row: &Row, column: usize) -> u64
    ensures { result ≡ number_in row.now column }
{
    match row.values.as_slice().get(column) {
        Some(Value::Num(number)) => *number,
        _ => 0,
    }
}
