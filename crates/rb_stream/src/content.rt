ghost use Rattle.std.specs.Prelude.{◌≡◌, ◌≢◌, ◌==◌, ◌&&◌, not, List, Err, IfOk};
ghost use Rattle.rb_base.specs.declared.faults.CodecFault.TheVariants.{NoMemory as CodecOutOfMemory};
ghost use Rattle.rb_read_defs.specs.Reading.{answer_of};
ghost use Rattle.rb_read_defs.specs.Events.{rotate, format, xid, table_map};
ghost use Rattle.rb_read_defs.specs.Stream.{Known, open_epoch, kind_of, query_in, rows_in, content_in};
ghost use Rattle.rb_read_defs.specs.declared.answers.Content.TheVariants.{Formats, Ends as EndsEpoch, Rotates, Maps};
ghost use Rattle.rb_stream.specs.Epoch.{IsOpen};
ghost use Rattle.rb_stream.specs.Content.{MapsColumns, said};

use crate::epoch::OpenEpoch;
use rb_base::{CodecFault, Field, Kind};
use rb_codec::{
    FORMAT_DESCRIPTION_EVENT, Fields, QUERY_EVENT, ROTATE_EVENT, TABLE_MAP_EVENT,
    UPDATE_ROWS_EVENT, WRITE_ROWS_EVENT, XID_EVENT, check, is_known, is_status, read_format,
    read_query, read_rotate, read_table_map, read_xid,
};
use rb_read_defs::{Content, Header, QueryText};
use rb_rows::{read_rows, read_status};
use std::alloc::Global;

/// Returns the content of an event at this position, given the open epoch.
#[tactic(auto, unfolding(rb_read_defs::specs::Stream::content_in))]
pub(crate) fn read_content(
    alloc: Global,
    current: &Option<OpenEpoch>,
    at: u64,
    header: Header,
    payload: &[u8],
) -> Result<Content, CodecFault>
    ensures read { (earlier : List Known) → IsOpen current.now (open_epoch earlier) →
        result ≢ Err CodecOutOfMemory →
        result ≡ answer_of (content_in at earlier header payload.now 0) }
    ensures columns { IfOk result MapsColumns }
{
    if header.kind == QUERY_EVENT {
        return read_mark(current, at, payload);
    }
    if header.kind == ROTATE_EVENT {
        return read_rotation(alloc, payload);
    }
    if header.kind == FORMAT_DESCRIPTION_EVENT {
        return read_formats(payload);
    }
    if header.kind == XID_EVENT {
        return read_end(payload);
    }
    if header.kind == TABLE_MAP_EVENT {
        return read_map(alloc, payload);
    }
    if is_known(header.kind) {
        return read_rows_event(alloc, current, header, payload);
    }
    Ok(Content::Skipped)
}

/// Reads BEGIN outside an epoch, or COMMIT within one.
fn read_mark(current: &Option<OpenEpoch>, at: u64, payload: &[u8]) -> Result<Content, CodecFault>
    ensures read { (earlier : List Known) → IsOpen current.now (open_epoch earlier) →
        result ≡ answer_of (query_in at earlier payload.now 0) }
    ensures columns { IfOk result MapsColumns }
{
    match read_query(payload)? {
        QueryText::Begin => {
            check(at != 4 && current.is_none(), 0, Field::Order)?;
            Ok(Content::Begins)
        }
        QueryText::Commit => {
            check(at != 4 && current.is_some(), 0, Field::Order)?;
            Ok(Content::Ends)
        }
    }
}

/// Reads a rotate event.
fn read_rotation(alloc: Global, payload: &[u8]) -> Result<Content, CodecFault>
    ensures read { result ≢ Err CodecOutOfMemory →
        result ≡ answer_of (said rotate Rotates payload.now 0) }
    ensures columns { IfOk result MapsColumns }
{
    Ok(Content::Rotates(read_rotate(alloc, payload)?))
}

/// Reads a format description and checks that the format can be read.
fn read_formats(payload: &[u8]) -> Result<Content, CodecFault>
    ensures read { result ≡ answer_of (said format (λ unit. Formats) payload.now 0) }
    ensures columns { IfOk result MapsColumns }
{
    read_format(payload)?;
    Ok(Content::Formats)
}

/// Reads the XID that ends an epoch.
fn read_end(payload: &[u8]) -> Result<Content, CodecFault>
    ensures read { result ≡ answer_of (said xid (λ number. EndsEpoch) payload.now 0) }
    ensures columns { IfOk result MapsColumns }
{
    read_xid(payload)?;
    Ok(Content::Ends)
}

/// Reads a table map.
fn read_map(alloc: Global, payload: &[u8]) -> Result<Content, CodecFault>
    ensures read { result ≢ Err CodecOutOfMemory →
        result ≡ answer_of (said table_map Maps payload.now 0) }
    ensures columns { IfOk result MapsColumns }
{
    Ok(Content::Maps(read_table_map(alloc, payload)?))
}

/// Reads the rows of a table that the open epoch has mapped.
fn read_rows_event(
    alloc: Global,
    current: &Option<OpenEpoch>,
    header: Header,
    payload: &[u8],
) -> Result<Content, CodecFault>
    ensures read { (earlier : List Known) → IsOpen current.now (open_epoch earlier) →
        result ≢ Err CodecOutOfMemory → result ≡ answer_of (rows_in earlier header payload.now 0) }
    ensures columns { IfOk result MapsColumns }
{
    let id = Fields::new(payload).number(6)?;
    let Some(epoch) = current else {
        return Err(CodecFault::BadField(0, Field::TableId));
    };
    let Some(table) = epoch.table(id) else {
        return Err(CodecFault::BadField(0, Field::TableId));
    };
    if !is_status(table.schema.as_slice(), table.name.as_slice()) {
        let kind = kind_of(header.kind);
        let changes = read_rows(alloc, payload, kind, header.server, table)?;
        return Ok(Content::Changes(changes));
    }
    check(header.kind == WRITE_ROWS_EVENT, 0, Field::Status)?;
    Ok(Content::Statuses(read_status(alloc, payload, table)?))
}

/// Returns the kind of the changes in a rows event of this type.
fn kind_of(kind: u8) -> Kind
    ensures { result ≡ kind_of kind }
{
    match kind {
        WRITE_ROWS_EVENT => Kind::Insert,
        UPDATE_ROWS_EVENT => Kind::Update,
        _ => Kind::Remove,
    }
}
