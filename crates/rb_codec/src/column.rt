//! Everything in the log's bytes that depends on a column's type: its type code, its metadata in a
//! table map, and the bytes of its values in a row image.
//!
//! A new column type adds its case to these functions:
//!
//! - [`type_code`], [`is_type`] and [`column_from`], with a constant for the type code;
//! - [`metadata_width`] and [`write_metadata`], if the type has metadata;
//! - [`value_size`], [`write_value`] and [`read_value`].
//!
//! The definitions that their contracts cite need the case too: `type_of`, `metadata_of`,
//! `value_bytes` and `FitsColumn` in `rb_log_defs`; `is_type`, `metadata_size`, `columns_from` and
//! `value_in` in `rb_read_defs`; `width_of` and `column_from` in this crate. No other code that
//! reads or writes the log depends on the type, with two exceptions: the key of a table is a
//! LONGLONG, and the apply-status table has types of its own.

ghost use Rattle.std.specs.Prelude.{◌≡◌, ◌≢◌, ◌≤◌, ◌++◌, nat_le, if◌then◌else◌, length, Err, IfOk, OnOk, OnErr};
ghost use Rattle.rb_base.specs.declared.faults.CodecFault.TheVariants.{NoMemory as CodecOutOfMemory};
ghost use Rattle.rb_base.specs.declared.schema.Column.TheVariants.{Text as TextColumn};
ghost use Rattle.rb_base.specs.declared.row.Value.TheVariants.{Text};
ghost use Rattle.rb_log_defs.specs.Table.{type_of, metadata_of};
ghost use Rattle.rb_log_defs.specs.Rows.{text_bytes, value_bytes};
ghost use Rattle.rb_log_defs.specs.Fits.{FitsColumn};
ghost use Rattle.rb_read_defs.specs.Events.{is_type};
ghost use Rattle.rb_read_defs.specs.Rows.{value_in};
ghost use Rattle.rb_codec.specs.Columns.{IsLong, column_from, width_of};
ghost use Rattle.rb_codec.specs.Fields.{Gives};

use crate::fields::{Fields, check};
use crate::read::bytes_of;
use byteorder::{ByteOrder, LittleEndian};
use rb_base::{Bytes, CodecFault, Column, Field, NoMemory, Value};
use std::alloc::Global;

/// The type code of a column of 4-byte numbers.
pub(crate) const LONG: u8 = 3;

/// The type code of a column of 8-byte numbers.
pub(crate) const LONGLONG: u8 = 8;

/// The type code of a text column.
pub(crate) const VARCHAR: u8 = 15;

/// Returns the type code of a column: LONGLONG, LONG or VARCHAR.
pub fn type_code(column: Column) -> u8
    ensures { result ≡ type_of column }
{
    match column {
        Column::Num => LONGLONG,
        Column::Long => LONG,
        Column::Text(_) => VARCHAR,
    }
}

/// Returns whether this is the type code of a column that is accepted: LONG, LONGLONG or VARCHAR.
pub fn is_type(kind: u8) -> bool
    ensures { result ≡ is_type kind }
{
    matches!(kind, LONG | LONGLONG | VARCHAR)
}

/// Returns the column with this type code. Its metadata is at the start of `metadata`.
pub fn column_from(kind: u8, metadata: &[u8]) -> Column
    requires { width_of kind ≤ length metadata.now }
    ensures { result ≡ column_from kind metadata.now }
{
    match kind {
        VARCHAR => Column::Text(LittleEndian::read_u16(metadata)),
        LONG => Column::Long,
        _ => Column::Num,
    }
}

/// Returns the length in bytes of the metadata of a column with this type code.
pub fn metadata_width(kind: u8) -> usize
    ensures width { result ≡ width_of kind }
    ensures most { result ≤ 2 }
{
    if kind == VARCHAR { 2 } else { 0 }
}

/// Returns the length in bytes of a column's metadata.
#[tactic(auto, using(crate::proofs::ColumnLaws::metadata_width_is))]
pub fn metadata_size(column: Column) -> u64
    ensures size { result ≡ length (metadata_of column) }
    ensures most { result ≤ 2 }
{
    metadata_width(type_code(column)) as u64
}

/// Appends a column's metadata: the maximum length of a VARCHAR in 2 bytes, and nothing for a
/// number. If memory allocation fails, `out` is unchanged.
pub fn write_metadata(out: &mut Vec<u8>, column: Column) -> Result<(), NoMemory>
    ensures ok { OnOk result (out.new.items ≡ out.old.items ++ metadata_of column) }
    ensures err { OnErr result (out.new.items ≡ out.old.items) }
{
    if let Column::Text(most) = column {
        let mut bytes = [0u8; 2];
        LittleEndian::write_u16(&mut bytes, most);
        out.extend_from_slice(&bytes)?;
    }
    Ok(())
}

/// Returns the length in bytes of a value of a column.
#[tactic(auto, unfolding(rb_log_defs::specs::Rows::text_bytes))]
pub fn value_size(column: Column, value: &Value) -> u64
    requires { FitsColumn column value.now }
    ensures size { result ≡ length (value_bytes column value.now) }
    ensures most { result ≤ 65537 }
{
    match (column, value) {
        (Column::Num, Value::Num(_)) => 8,
        (Column::Long, Value::Num(_)) => 4,
        (Column::Text(most), Value::Text(text)) => {
            length_width(most) as u64 + text.as_slice().len() as u64
        }
        _ => 0,
    }
}

/// Appends a value of a column. If memory allocation fails, `out` is unchanged.
pub fn write_value(out: &mut Vec<u8>, column: Column, value: &Value) -> Result<(), NoMemory>
    requires { FitsColumn column value.now }
    ensures ok { OnOk result (out.new.items ≡ out.old.items ++ value_bytes column value.now) }
    ensures err { OnErr result (out.new.items ≡ out.old.items) }
{
    match (column, value) {
        (Column::Num, Value::Num(number)) => {
            let mut bytes = [0u8; 8];
            LittleEndian::write_u64(&mut bytes, *number);
            out.extend_from_slice(&bytes)?;
        }
        (Column::Long, Value::Num(number)) => {
            let mut bytes = [0u8; 4];
            LittleEndian::write_u32(&mut bytes, *number as u32);
            out.extend_from_slice(&bytes)?;
        }
        (Column::Text(most), Value::Text(text)) => write_text(out, most, text.as_slice())?,
        _ => {}
    }
    Ok(())
}

/// Appends a text of a column whose maximum length is `most`. The text comes after its length. If
/// memory allocation fails, `out` is unchanged.
#[tactic(auto, unfolding(rb_log_defs::specs::Rows::text_bytes))]
fn write_text(out: &mut Vec<u8>, most: u16, text: &[u8]) -> Result<(), NoMemory>
    requires { length text.now ≤ most }
    ensures ok { OnOk result (out.new.items ≡ out.old.items ++ text_bytes most text.now) }
    ensures err { OnErr result (out.new.items ≡ out.old.items) }
{
    let width = length_width(most);
    let mut bytes = [0u8; 2];
    LittleEndian::write_u16(&mut bytes, text.len() as u16);
    out.reserve(width + text.len())?;
    out.extend_from_slice(&bytes[..width])?;
    out.extend_from_slice(text)?;
    Ok(())
}

/// Reads the next value, of this column.
///
/// Returns `Short` if a field does not end within the bytes, `BadField` with `Length` if a text is
/// longer than its column's maximum, and `NoMemory` if the text cannot be allocated.
#[tactic(auto, unfolding(rb_read_defs::specs::Reading::number))]
pub fn read_value(alloc: Global, fields: &mut Fields, column: Column) -> Result<Value, CodecFault>
    ensures gives { result ≢ Err CodecOutOfMemory →
        Gives (λ value. value) result fields.new.at
        (value_in column fields.old.bytes.now fields.old.at) }
    ensures bytes { fields.new.bytes ≡ fields.old.bytes }
    ensures later { OnOk result (fields.old.at ≤ fields.new.at) }
    ensures long { IfOk result (λ value. IsLong column value) }
{
    match column {
        Column::Num => Ok(Value::Num(fields.number(8)?)),
        Column::Long => Ok(Value::Num(fields.number(4)?)),
        Column::Text(most) => Ok(Value::Text(read_text(alloc, fields, most)?)),
    }
}

/// Reads the next text, of a column whose maximum length is `most`. The text comes after its
/// length.
#[tactic(auto, unfolding(rb_read_defs::specs::Reading::number, rb_read_defs::specs::Reading::some_bytes))]
fn read_text(alloc: Global, fields: &mut Fields, most: u16) -> Result<Bytes, CodecFault>
    ensures gives { result ≢ Err CodecOutOfMemory →
        Gives (λ text. Text text) result fields.new.at
        (value_in (TextColumn most) fields.old.bytes.now fields.old.at) }
    ensures bytes { fields.new.bytes ≡ fields.old.bytes }
    ensures later { OnOk result (fields.old.at ≤ fields.new.at) }
{
    let at = fields.at();
    let size = fields.number(length_width(most))?;
    check(size <= u64::from(most), at, Field::Length)?;
    let text = fields.some_bytes(size as usize)?;
    Ok(bytes_of(alloc, text)?)
}

/// Returns the length in bytes of the length before a text: 1 if the column's maximum is at most
/// 255, and otherwise 2.
fn length_width(most: u16) -> usize
    ensures { result ≡ (if nat_le most 255 then 1 else 2) }
{
    if most <= 255 { 1 } else { 2 }
}
