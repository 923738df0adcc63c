ghost use Rattle.std.specs.Prelude.{◌≡◌, ◌+◌, ◌^◌, ◌<◌, ◌++◌, length, IfOk, OnOk, OnErr};
ghost use Rattle.rb_log_defs.specs.Event.{format_event, format_payload, query_event, query_payload, rotate_event, rotate_payload, xid_event, xid_payload};

use crate::event::write_event;
use crate::event_types::{
    FORMAT_DESCRIPTION_EVENT, HEADER_SIZE, POST_HEADER_LENGTHS, QUERY_EVENT, ROTATE_EVENT,
    XID_EVENT,
};
use byteorder::{ByteOrder, LittleEndian};
use rb_base::NoMemory;
use std::alloc::Global;

/// The length of a format description event's payload, in bytes.
const FORMAT_SIZE: usize = 92;

/// The server version in each log's format description, at most 50 bytes.
const SERVER_VERSION: [u8; 6] = *b"8.0-rb";

/// Appends the format description event that begins each file of the log: 111 bytes, by the server
/// `server`, starting at `start`. If memory allocation fails, `out` is unchanged.
#[tactic(auto, using(rb_log_defs::proofs::Sizes::format_length))]
pub fn write_format(
    alloc: Global,
    out: &mut Vec<u8>,
    server: u32,
    start: u32,
) -> Result<(), NoMemory>
    requires { start + 111 < 2 ^ 32 }
    ensures ok { OnOk result (out.new.items ≡ out.old.items ++ format_event server start) }
    ensures size { OnOk result (length out.new.items ≡ length out.old.items + 111) }
    ensures err { OnErr result (out.new.items ≡ out.old.items) }
{
    write_event(
        alloc,
        out,
        FORMAT_DESCRIPTION_EVENT,
        server,
        start,
        &format_array(),
    )?;
    Ok(())
}

#[tactic(auto, unfolding(rb_log_defs::specs::Event::format_payload))]
fn format_array() -> [u8; FORMAT_SIZE]
    ensures { result ≡ format_payload }
{
    let mut payload = [0u8; FORMAT_SIZE];
    LittleEndian::write_u16(&mut payload, 4);
    payload[2..8].copy_from_slice(&SERVER_VERSION);
    payload[56] = HEADER_SIZE as u8;
    payload[57..].copy_from_slice(&POST_HEADER_LENGTHS);
    payload
}

/// Appends a query event with the statement `text`, such as BEGIN: 33 bytes and the text, by the
/// server `server`, starting at `start`. Its schema is empty and its thread id is 0. If memory
/// allocation fails, `out` is unchanged.
#[tactic(auto, using(rb_log_defs::proofs::Sizes::query_payload_length))]
pub fn write_query(
    alloc: Global,
    out: &mut Vec<u8>,
    server: u32,
    start: u32,
    text: &[u8],
) -> Result<(), NoMemory>
    requires { start + (33 + length text.now) < 2 ^ 32 }
    ensures ok { OnOk result (out.new.items ≡ out.old.items ++ query_event server text.now start) }
    ensures size { OnOk result (length out.new.items
        ≡ length out.old.items + (33 + length text.now)) }
    ensures err { OnErr result (out.new.items ≡ out.old.items) }
{
    let payload = query_payload(alloc, text)?;
    write_event(alloc, out, QUERY_EVENT, server, start, &payload)?;
    Ok(())
}

#[tactic(auto, unfolding(rb_log_defs::specs::Event::query_payload))]
fn query_payload(alloc: Global, text: &[u8]) -> Result<Vec<u8>, NoMemory>
    ensures { IfOk result (λ payload. payload.items ≡ query_payload text.now) }
{
    let mut payload = Vec::from_slice(alloc, &[0u8; 14])?;
    payload.extend_from_slice(text)?;
    Ok(payload)
}

/// Appends the rotate event that ends a full file of the log: 27 bytes and the name, by the server
/// `server`, starting at `start`. The log continues in the file `name` at `position`. If memory
/// allocation fails, `out` is unchanged.
#[tactic(auto, using(rb_log_defs::proofs::Sizes::rotate_payload_length))]
pub fn write_rotate(
    alloc: Global,
    out: &mut Vec<u8>,
    server: u32,
    start: u32,
    position: u64,
    name: &[u8],
) -> Result<(), NoMemory>
    requires { start + (27 + length name.now) < 2 ^ 32 }
    ensures ok { OnOk result (out.new.items ≡ out.old.items
        ++ rotate_event server position name.now start) }
    ensures size { OnOk result (length out.new.items
        ≡ length out.old.items + (27 + length name.now)) }
    ensures err { OnErr result (out.new.items ≡ out.old.items) }
{
    let payload = rotate_payload(alloc, position, name)?;
    write_event(alloc, out, ROTATE_EVENT, server, start, &payload)?;
    Ok(())
}

#[tactic(auto, unfolding(rb_log_defs::specs::Event::rotate_payload))]
fn rotate_payload(alloc: Global, position: u64, name: &[u8]) -> Result<Vec<u8>, NoMemory>
    ensures { IfOk result (λ payload. payload.items ≡ rotate_payload position name.now) }
{
    let mut number = [0u8; 8];
    LittleEndian::write_u64(&mut number, position);
    let mut payload = Vec::from_slice(alloc, &number)?;
    payload.extend_from_slice(name)?;
    Ok(payload)
}

/// Appends the XID event that ends the transaction with the number `xid`: 27 bytes, by the server
/// `server`, starting at `start`. If memory allocation fails, `out` is unchanged.
#[tactic(auto, using(rb_log_defs::proofs::Sizes::xid_payload_length))]
pub fn write_xid(
    alloc: Global,
    out: &mut Vec<u8>,
    server: u32,
    start: u32,
    xid: u64,
) -> Result<(), NoMemory>
    requires { start + 27 < 2 ^ 32 }
    ensures ok { OnOk result (out.new.items ≡ out.old.items ++ xid_event server xid start) }
    ensures size { OnOk result (length out.new.items ≡ length out.old.items + 27) }
    ensures err { OnErr result (out.new.items ≡ out.old.items) }
{
    write_event(alloc, out, XID_EVENT, server, start, &xid_array(xid))?;
    Ok(())
}

#[tactic(auto, unfolding(rb_log_defs::specs::Event::xid_payload))]
fn xid_array(xid: u64) -> [u8; 8]
    ensures { result ≡ xid_payload xid }
{
    let mut payload = [0u8; 8];
    LittleEndian::write_u64(&mut payload, xid);
    payload
}
