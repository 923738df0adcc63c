ghost use Rattle.std.specs.Prelude.{◌≡◌, ◌+◌, ◌^◌, ◌<◌, ◌≤◌, ◌++◌, length, OnOk};
ghost use Rattle.rb_log_defs.specs.Event.{header_bytes, event_bytes};
ghost use Rattle.rb_log_defs.specs.Rows.{rows_type, end_flag, change_event, status_event};
ghost use Rattle.rb_log_defs.specs.Fits.{Fits};

use rb_base::{Change, EpochBody, Kind, Mapped, NoMemory};
use rb_codec::{
    DELETE_ROWS_EVENT, HEADER_SIZE, Header, UPDATE_ROWS_EVENT, WRITE_ROWS_EVENT, write_header,
};
use rb_rows::{size_of_rows, size_of_status, write_rows, write_status};
use std::alloc::Global;
use std::slice::from_ref;

/// Appends the rows event of a change of this table, starting at `start`. `last` sets the flag that
/// ends the statement.
#[tactic(auto, unfolding(rb_log_defs::specs::Event::event_bytes), using(crate::proofs::Payloads::change_written))]
pub(crate) fn write_change(
    alloc: Global,
    out: &mut Vec<u8>,
    server: u32,
    start: u32,
    table: &Mapped,
    change: &Change,
    last: bool,
) -> Result<(), NoMemory>
    requires change { Fits table.now.columns change.now }
    requires few { length table.now.columns ≤ 64 }
    requires named { change.now.table ≡ table.now.id }
    requires fits { start + length
        (change_event server table.now.columns change.now (end_flag last) start) < 2 ^ 32 }
    ensures { OnOk result (out.new.items ≡ out.old.items
        ++ change_event server table.now.columns change.now (end_flag last) start) }
{
    let changes = from_ref(change);
    let size = size_of_rows(table, changes);
    write_head(alloc, out, rows_type(change.kind), server, start, size)?;
    write_rows(alloc, out, table, changes, last)?;
    Ok(())
}

/// Appends the rows event of the apply-status table, starting at `start`.
#[tactic(auto, unfolding(rb_log_defs::specs::Event::event_bytes), using(crate::proofs::Payloads::status_payload_written))]
pub(crate) fn write_status_event(
    alloc: Global,
    out: &mut Vec<u8>,
    body: &EpochBody,
    start: u32,
) -> Result<(), NoMemory>
    requires { start + length (status_event body.now start) < 2 ^ 32 }
    ensures { OnOk result (out.new.items ≡ out.old.items ++ status_event body.now start) }
{
    let kind = rows_type(Kind::Insert);
    write_head(alloc, out, kind, body.server, start, size_of_status(body))?;
    write_status(alloc, out, body, body.changes.as_slice().is_empty())?;
    Ok(())
}

/// Appends the header of an event whose payload has `payload` bytes.
fn write_head(
    alloc: Global,
    out: &mut Vec<u8>,
    kind: u8,
    server: u32,
    start: u32,
    payload: u64,
) -> Result<(), NoMemory>
    requires { start + (19 + payload) < 2 ^ 32 }
    ensures { OnOk result (out.new.items ≡ out.old.items
        ++ header_bytes kind server (19 + payload) (start + (19 + payload)) 0) }
{
    let size = HEADER_SIZE as u32 + payload as u32;
    let header = Header {
        kind,
        server,
        size,
        end: start + size,
        flags: 0,
    };
    write_header(alloc, out, &header)?;
    Ok(())
}

/// Returns the type code of a rows event.
fn rows_type(kind: Kind) -> u8
    ensures { result ≡ rows_type kind }
{
    match kind {
        Kind::Insert => WRITE_ROWS_EVENT,
        Kind::Update => UPDATE_ROWS_EVENT,
        Kind::Remove => DELETE_ROWS_EVENT,
    }
}
