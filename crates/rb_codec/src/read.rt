ghost use Rattle.std.specs.Prelude.{◌≡◌, ◌≢◌, ◌+◌, ◌==◌, ◌||◌, Err, IfOk};
ghost use Rattle.rb_base.specs.declared.faults.CodecFault.TheVariants.{NoMemory as CodecOutOfMemory};
ghost use Rattle.rb_read_defs.specs.Reading.{answer_of};
ghost use Rattle.rb_read_defs.specs.Events.{is_ignorable, event_type, header, format, query, xid, rotate};
ghost use Rattle.rb_codec.specs.Fields.{Gives};

use crate::event_types::{HEADER_SIZE, are_post_headers, is_known};
use crate::fields::{Fields, check};
use rb_base::{Bytes, CodecFault, Field, Items, NoMemory};
use rb_read_defs::{Header, QueryText, RotateTo};
use std::alloc::Global;

/// The greatest length of an event in bytes: it must fit a signed 32-bit number.
const MOST_EVENT_BYTES: u64 = i32::MAX as u64;

/// Reads the header, the first 19 bytes, of an event that starts at `start`, in bytes from the
/// start of the file. The timestamp may have any value.
///
/// `Short` has the place of the first field that is missing, in bytes from the start of the event.
/// `BadField` has the place of the first field that is complete and wrong:
///
/// - `EventType`: the type is unknown, and the flags are complete and lack LOG_EVENT_IGNORABLE_F;
/// - `EventSize`: the length is outside 19 to 2147483647;
/// - `EndPosition`: the position is neither 0 nor the one after the event.
#[tactic(auto, unfolding(rb_read_defs::specs::Events::header))]
pub fn read_header(bytes: &[u8], start: u64) -> Result<Header, CodecFault>
    ensures { result ≡ answer_of (header start bytes.now 0) }
{
    let mut fields = Fields::new(bytes);
    fields.number(4)?;
    let kind = read_event_type(&mut fields)?;
    let server = fields.number(4)? as u32;
    let at = fields.at();
    let size = fields.number(4)?;
    check(
        HEADER_SIZE as u64 <= size && size <= MOST_EVENT_BYTES,
        at,
        Field::EventSize,
    )?;
    let at = fields.at();
    let end = fields.number(4)?;
    check(is_end(end, start, size), at, Field::EndPosition)?;
    let flags = fields.number(2)? as u16;
    Ok(Header {
        kind,
        server,
        size: size as u32,
        end: end as u32,
        flags,
    })
}

/// Reads the event's type. Its flags come 13 bytes after it. If they are missing, the caller finds
/// that when it reads them.
#[tactic(auto, unfolding(rb_read_defs::specs::Events::event_type))]
fn read_event_type(fields: &mut Fields) -> Result<u8, CodecFault>
    ensures gives { Gives (λ kind. kind) result fields.new.at
        (event_type fields.old.bytes.now fields.old.at) }
    ensures bytes { fields.new.bytes ≡ fields.old.bytes }
{
    let at = fields.at();
    let flags = fields.number_ahead(13, 2);
    let kind = fields.number(1)? as u8;
    if let Ok(flags) = flags {
        check(is_known(kind) || is_ignorable(flags), at, Field::EventType)?;
    }
    Ok(kind)
}

/// Returns whether LOG_EVENT_IGNORABLE_F is set: a reader that does not know the event's type skips
/// the event.
fn is_ignorable(flags: u64) -> bool
    ensures { result ≡ is_ignorable flags }
{
    flags / 128 % 2 == 1
}

/// Returns whether an event's header may give this end: 0, or the position after the event.
fn is_end(end: u64, start: u64, size: u64) -> bool
    ensures { result ≡ ((end == 0) || (end == start + size)) }
{
    end == 0 || u128::from(end) == u128::from(start) + u128::from(size)
}

/// Reads the payload of a FORMAT_DESCRIPTION event, which begins a file, and checks that the log's
/// format can be read. The server version and the create time may have any value.
///
/// `Short` has the place of the first field that does not end within the payload. `BadField` has
/// the place of the first field that is complete and wrong:
///
/// - `Version`: the version is not 4;
/// - `HeaderLength`: the length of a header is not 19;
/// - `PostHeader`: there are fewer than 32 post-header lengths, or the length for a known type is
///   wrong.
///
/// Places are in bytes from the start of the payload.
#[tactic(auto, unfolding(rb_read_defs::specs::Events::format))]
pub fn read_format(payload: &[u8]) -> Result<(), CodecFault>
    ensures { result ≡ answer_of (format payload.now 0) }
{
    let mut fields = Fields::new(payload);
    let version = fields.number(2)?;
    check(version == 4, 0, Field::Version)?;
    fields.some_bytes(50)?;
    fields.number(4)?;
    let at = fields.at();
    let header_size = fields.number(1)?;
    check(header_size == HEADER_SIZE as u64, at, Field::HeaderLength)?;
    let at = fields.at();
    check(are_post_headers(fields.rest()), at, Field::PostHeader)
}

/// Reads the payload of a QUERY event. All fields before the text may have any value. The schema's
/// name and the status variables may have any length.
///
/// `Short` has the place of the first field that does not end within the payload. `BadField` with
/// `QueryText` has the place of a text that is neither BEGIN nor COMMIT. Places are in bytes from
/// the start of the payload.
#[tactic(auto, unfolding(rb_read_defs::specs::Events::query))]
pub fn read_query(payload: &[u8]) -> Result<QueryText, CodecFault>
    ensures { result ≡ answer_of (query payload.now 0) }
{
    let mut fields = Fields::new(payload);
    fields.number(4)?;
    fields.number(4)?;
    let schema_size = fields.number(1)? as usize;
    fields.number(2)?;
    let status_size = fields.number(2)? as usize;
    fields.some_bytes(status_size)?;
    fields.some_bytes(schema_size)?;
    fields.number(1)?;
    let at = fields.at();
    let text = fields.rest();
    if text == b"BEGIN".as_slice() {
        return Ok(QueryText::Begin);
    }
    check(text == b"COMMIT".as_slice(), at, Field::QueryText)?;
    Ok(QueryText::Commit)
}

/// Reads the payload of an XID event and returns the number of the transaction that it ends.
///
/// Returns `Short(0)` if the payload has fewer than 8 bytes, and `BadField(8, EventSize)` if it has
/// more.
#[tactic(auto, unfolding(rb_read_defs::specs::Events::xid))]
pub fn read_xid(payload: &[u8]) -> Result<u64, CodecFault>
    ensures { result ≡ answer_of (xid payload.now 0) }
{
    let mut fields = Fields::new(payload);
    let xid = fields.number(8)?;
    fields.end()?;
    Ok(xid)
}

/// Reads the payload of a ROTATE event: the position in the next file, in bytes from the start of
/// that file, and the file's name, which is the rest of the payload.
///
/// Returns `Short(0)` if the payload has fewer than 8 bytes, and `NoMemory` if the name cannot be
/// allocated.
#[tactic(auto, unfolding(rb_read_defs::specs::Events::rotate))]
pub fn read_rotate(alloc: Global, payload: &[u8]) -> Result<RotateTo, CodecFault>
    ensures { result ≢ Err CodecOutOfMemory → result ≡ answer_of (rotate payload.now 0) }
{
    let mut fields = Fields::new(payload);
    let position = fields.number(8)?;
    let name = bytes_of(alloc, fields.rest())?;
    Ok(RotateTo { position, name })
}

/// Returns the list of these bytes.
pub(crate) fn bytes_of(alloc: Global, bytes: &[u8]) -> Result<Bytes, NoMemory>
    ensures { IfOk result (λ list. list ≡ bytes.now) }
{
    Ok(Items::from_vec(Vec::from_slice(alloc, bytes)?))
}
