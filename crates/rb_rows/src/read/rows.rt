ghost use Rattle.std.specs.Prelude.{◌≡◌, ◌≢◌, ◌≤◌, ◌<◌, length, Err, OnOk};
ghost use Rattle.rb_base.specs.declared.faults.CodecFault.TheVariants.{NoMemory as CodecOutOfMemory};
ghost use Rattle.rb_read_defs.specs.Reading.{answer_of};
ghost use Rattle.rb_read_defs.specs.Rows.{changes, many, key_of};
ghost use Rattle.rb_codec.specs.Fields.{Gives};
ghost use Rattle.rb_rows.specs.Rows.{change_in};

use crate::read::head::read_head;
use crate::read::image::read_images;
use crate::read::value::number_in;
use rb_base::{Change, Changes, CodecFault, Items, Kind, Mapped, Row};
use rb_codec::Fields;
use std::alloc::Global;

/// Reads the payload of a rows event of this kind for `table`, and returns its changes by this
/// server.
///
/// The transaction's number is the one in the extra data, or 0 if the extra data has another form.
/// An event without rows gives no changes. The flags and the unused bits of the bitmaps may have
/// any value.
///
/// `Short` has the place of the first field that does not end within the payload. `BadField` has
/// the place of the first field that is complete and wrong:
///
/// - `TableId`: the id of another table;
/// - `Extra`: the length of the extra data, which counts itself, is below 2;
/// - `Width`: the number of columns is not the table's, or its first byte begins no number;
/// - `Present`: a column is absent;
/// - `Null`: a value is NULL;
/// - `Length`: a text is longer than its column's maximum;
/// - `Key`: the after image of an update has another key than the before image.
///
/// Places are in bytes from the start of the payload. Returns `NoMemory` if the changes cannot be
/// allocated.
pub fn read_rows(
    alloc: Global,
    payload: &[u8],
    kind: Kind,
    server: u32,
    table: &Mapped,
) -> Result<Changes, CodecFault>
    requires some { 1 ≤ length table.now.columns }
    ensures { result ≢ Err CodecOutOfMemory →
        result ≡ answer_of (changes kind server table.now payload.now 0) }
{
    let mut fields = Fields::new(payload);
    let transid = read_head(&mut fields, kind, table)?;
    read_changes(
        alloc,
        &mut fields,
        payload.len(),
        kind,
        server,
        table,
        transid,
    )
}

/// Reads the remaining changes up to `end`, which is the end of the payload.
fn read_changes(
    alloc: Global,
    fields: &mut Fields,
    end: usize,
    kind: Kind,
    server: u32,
    table: &Mapped,
    transid: u64,
) -> Result<Changes, CodecFault>
    requires some { 1 ≤ length table.now.columns }
    requires end { end ≡ length fields.old.bytes.now }
    ensures gives { result ≢ Err CodecOutOfMemory →
        Gives (λ changes. changes) result fields.new.at
        (many (change_in kind server table.now transid) fields.old.bytes.now fields.old.at) }
{
    let mut changes = Items::new(alloc);
    while fields.at() < end {
        changes.push(read_change(alloc, fields, kind, server, table, transid)?)?;
    }
    Ok(changes)
}

/// Reads the next change.
#[tactic(auto, unfolding(crate::specs::Rows::change_in))]
fn read_change(
    alloc: Global,
    fields: &mut Fields,
    kind: Kind,
    server: u32,
    table: &Mapped,
    transid: u64,
) -> Result<Change, CodecFault>
    requires some { 1 ≤ length table.now.columns }
    ensures gives { result ≢ Err CodecOutOfMemory →
        Gives (λ change. change) result fields.new.at
        (change_in kind server table.now transid fields.old.bytes.now fields.old.at) }
    ensures bytes { fields.new.bytes ≡ fields.old.bytes }
    ensures later { OnOk result (fields.old.at < fields.new.at) }
{
    let (before, after) = read_images(alloc, fields, kind, table.columns.as_slice())?;
    let key = key_of(&before, &after);
    Ok(Change {
        table: table.id,
        key,
        kind,
        before,
        after,
        author: server,
        transid,
    })
}

/// Returns the key in these row images of a change.
fn key_of(before: &Option<Row>, after: &Option<Row>) -> u64
    ensures { result ≡ key_of (before.now, after.now) }
{
    match (before, after) {
        (Some(row), _) | (None, Some(row)) => number_in(row, 0),
        (None, None) => 0,
    }
}
