ghost use Rattle.std.specs.Prelude.{◌≡◌, ◌≢◌, ◌≤◌, ◌<◌, length, Err, IfOk, OnOk};
ghost use Rattle.rb_rows.specs.Rows.{IsFirstLong};
ghost use Rattle.rb_base.specs.declared.faults.CodecFault.TheVariants.{NoMemory as CodecOutOfMemory};
ghost use Rattle.rb_read_defs.specs.Rows.{image, images};
ghost use Rattle.rb_codec.specs.Fields.{Gives};

use crate::read::value::{number_in, read_values};
use rb_base::{CodecFault, Column, Field, Kind, Row};
use rb_codec::{Fields, all_clear, check};
use std::alloc::Global;

/// Reads the next row image: a null bitmap, in which no value is NULL, and the values.
#[tactic(auto, unfolding(rb_read_defs::specs::Rows::image, rb_read_defs::specs::Reading::some_bytes))]
pub(crate) fn read_image(
    alloc: Global,
    fields: &mut Fields,
    columns: &[Column],
    key: Option<u64>,
) -> Result<Row, CodecFault>
    requires some { 1 ≤ length columns.now }
    ensures gives { result ≢ Err CodecOutOfMemory →
        Gives (λ row. row) result fields.new.at
        (image columns.now key fields.old.bytes.now fields.old.at) }
    ensures bytes { fields.new.bytes ≡ fields.old.bytes }
    ensures later { OnOk result (fields.old.at < fields.new.at) }
    ensures long { IfOk result (λ row. IsFirstLong columns.now row.values) }
{
    let at = fields.at();
    let nulls = fields.some_bytes(columns.len().div_ceil(8))?;
    check(all_clear(columns.len(), nulls), at, Field::Null)?;
    let values = read_values(alloc, fields, columns, key)?;
    Ok(Row { values })
}

/// Reads the row images of the next change: its before image and its after image. Both images of an
/// update must have the same key.
pub(crate) fn read_images(
    alloc: Global,
    fields: &mut Fields,
    kind: Kind,
    columns: &[Column],
) -> Result<(Option<Row>, Option<Row>), CodecFault>
    requires some { 1 ≤ length columns.now }
    ensures gives { result ≢ Err CodecOutOfMemory →
        Gives (λ both. both) result fields.new.at
        (images kind columns.now fields.old.bytes.now fields.old.at) }
    ensures bytes { fields.new.bytes ≡ fields.old.bytes }
    ensures later { OnOk result (fields.old.at < fields.new.at) }
{
    match kind {
        Kind::Insert => {
            let after = read_image(alloc, fields, columns, None)?;
            Ok((None, Some(after)))
        }
        Kind::Update => {
            let before = read_image(alloc, fields, columns, None)?;
            let after = read_image(alloc, fields, columns, Some(number_in(&before, 0)))?;
            Ok((Some(before), Some(after)))
        }
        Kind::Remove => {
            let before = read_image(alloc, fields, columns, None)?;
            Ok((Some(before), None))
        }
    }
}
