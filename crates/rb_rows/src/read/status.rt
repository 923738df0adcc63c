ghost use Rattle.std.specs.Prelude.{◌≡◌, ◌≢◌, ◌≤◌, ◌<◌, length, get_or, Err, OnOk};
ghost use Rattle.rb_base.specs.declared.faults.CodecFault.TheVariants.{NoMemory as CodecOutOfMemory};
ghost use Rattle.rb_base.specs.declared.schema.Column.TheVariants.{Num, Long};
ghost use Rattle.rb_read_defs.specs.Reading.{answer_of};
ghost use Rattle.rb_read_defs.specs.Rows.{statuses, many};
ghost use Rattle.rb_codec.specs.Fields.{Gives};
ghost use Rattle.rb_rows.specs.Rows.{status};

use crate::read::head::read_head;
use crate::read::image::read_image;
use crate::read::value::number_in;
use rb_base::{CodecFault, Epoch, Items, Kind, Mapped};
use rb_codec::Fields;
use rb_read_defs::{StatusRow, StatusRows};
use std::alloc::Global;

/// Reads the payload of a write to the apply-status table, and returns its rows. Only the first two
/// columns, the server and the epoch, are kept. An event without rows gives no rows.
///
/// `Short` has the place of the first field that does not end within the payload, and `BadField`
/// that of the first field that is complete and wrong, as for `read_rows`. Places are in bytes from
/// the start of the payload. Returns `NoMemory` if the rows cannot be allocated.
pub fn read_status(alloc: Global, payload: &[u8], table: &Mapped) -> Result<StatusRows, CodecFault>
    requires server { get_or table.now.columns 0 Num ≡ Long }
    ensures { result ≢ Err CodecOutOfMemory →
        result ≡ answer_of (statuses table.now payload.now 0) }
{
    let mut fields = Fields::new(payload);
    read_head(&mut fields, Kind::Insert, table)?;
    read_status_rows(alloc, &mut fields, payload.len(), table)
}

/// Reads the remaining rows up to `end`, which is the end of the payload.
fn read_status_rows(
    alloc: Global,
    fields: &mut Fields,
    end: usize,
    table: &Mapped,
) -> Result<StatusRows, CodecFault>
    requires server { get_or table.now.columns 0 Num ≡ Long }
    requires end { end ≡ length fields.old.bytes.now }
    ensures gives { result ≢ Err CodecOutOfMemory →
        Gives (λ rows. rows) result fields.new.at
        (many (status table.now) fields.old.bytes.now fields.old.at) }
{
    let mut rows = Items::new(alloc);
    while fields.at() < end {
        rows.push(read_status_row(alloc, fields, table)?)?;
    }
    Ok(rows)
}

/// Reads the next row.
#[tactic(auto, unfolding(crate::specs::Rows::status))]
fn read_status_row(
    alloc: Global,
    fields: &mut Fields,
    table: &Mapped,
) -> Result<StatusRow, CodecFault>
    requires server { get_or table.now.columns 0 Num ≡ Long }
    ensures gives { result ≢ Err CodecOutOfMemory →
        Gives (λ row. row) result fields.new.at
        (status table.now fields.old.bytes.now fields.old.at) }
    ensures bytes { fields.new.bytes ≡ fields.old.bytes }
    ensures later { OnOk result (fields.old.at < fields.new.at) }
{
    let row = read_image(alloc, fields, table.columns.as_slice(), None)?;
    Ok(StatusRow {
        server: number_in(&row, 0) as u32,
        epoch: Epoch(number_in(&row, 1)),
    })
}
