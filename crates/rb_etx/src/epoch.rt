ghost use Rattle.std.specs.Prelude.{ℕ, ◌≡◌, ◌+◌, ◌^◌, ◌<◌, ◌≤◌, ◌++◌, length, map, drop, All, Err, IfOk, OnOk, OnErr};
ghost use Rattle.rb_log_defs.specs.Table.{table_map_event, columns_of};
ghost use Rattle.rb_log_defs.specs.Rows.{ends_statement};
ghost use Rattle.rb_log_defs.specs.Epoch.{joined_from, change_events, epoch_bytes};
ghost use Rattle.rb_log_defs.specs.Fits.{CanBeMapped, Fits, CanBeWritten};

use crate::event::{write_change, write_status_event};
use crate::fault::EncodeFault;
use crate::size::size_of_epoch;
use crate::table::{status_table, table_of};
use rb_base::{Change, EpochBody, Mapped, NoMemory};
use rb_codec::{write_query, write_table_map, write_xid};
use std::alloc::Global;

/// The greatest length of an epoch in bytes.
const MOST_BYTES: u64 = i32::MAX as u64;

/// Returns the bytes of an epoch as one transaction of the log, whose first event is at `start`, in
/// bytes from the start of the file and below 2147483648. The epoch has at most 65536 tables and
/// fewer than 4294967296 changes.
///
/// Returns `TooLarge` with the length of the epoch if that is more than 2147483647 bytes, and
/// `NoMemory` if the bytes cannot be allocated.
pub fn encode_epoch(alloc: Global, body: &EpochBody, start: u32) -> Result<Vec<u8>, EncodeFault>
    requires writable { CanBeWritten body.now }
    requires few_tables { length body.now.tables ≤ 65536 }
    requires few_changes { length body.now.changes < 4294967296 }
    requires start { start < 2147483648 }
    ensures ok { IfOk result (λ bytes. bytes.items ≡ epoch_bytes body.now start) }
    ensures small { OnOk result (length (epoch_bytes body.now start) ≤ 2147483647) }
    ensures too_large { (n : ℕ) → result ≡ Err (EncodeFault.TooLarge n) →
        (n ≡ length (epoch_bytes body.now start)) × (2147483647 < n) }
{
    let size = size_of_epoch(body);
    if size > MOST_BYTES {
        return Err(EncodeFault::TooLarge(size));
    }
    let mut bytes = Vec::with_capacity(alloc, size as usize)?;
    write_events(alloc, &mut bytes, body, start)?;
    Ok(bytes)
}

/// Appends an epoch to `out`, whose first byte is at `start`, in bytes from the start of the file.
/// If memory allocation fails, `out` is unchanged.
pub fn write_epoch(
    alloc: Global,
    out: &mut Vec<u8>,
    body: &EpochBody,
    start: u32,
) -> Result<(), NoMemory>
    requires writable { CanBeWritten body.now }
    requires fits { start + (length out.old.items + length
        (epoch_bytes body.now (start + length out.old.items))) < 2 ^ 32 }
    ensures ok { OnOk result (out.new.items ≡ out.old.items
        ++ epoch_bytes body.now (start + length out.old.items)) }
    ensures err { OnErr result (out.new.items ≡ out.old.items) }
{
    let at = position(start, out);
    let mut bytes = Vec::new(alloc);
    write_events(alloc, &mut bytes, body, at)?;
    out.extend_from_slice(&bytes)?;
    Ok(())
}

/// Appends the events of an epoch to `out`, whose first byte is at `start`. If memory allocation
/// fails, the content of `out` is unspecified.
fn write_events(
    alloc: Global,
    out: &mut Vec<u8>,
    body: &EpochBody,
    start: u32,
) -> Result<(), NoMemory>
    requires writable { CanBeWritten body.now }
    requires fits { start + (length out.old.items + length
        (epoch_bytes body.now (start + length out.old.items))) < 2 ^ 32 }
    ensures { OnOk result (out.new.items ≡ out.old.items
        ++ epoch_bytes body.now (start + length out.old.items)) }
{
    let (server, tables) = (body.server, body.tables.as_slice());
    let at = position(start, out);
    write_query(alloc, out, server, at, b"BEGIN")?;
    let status = status_table(alloc)?;
    let at = position(start, out);
    write_table_map(alloc, out, server, at, &status)?;
    write_tables(alloc, out, server, start, tables)?;
    let at = position(start, out);
    write_status_event(alloc, out, body, at)?;
    let changes = body.changes.as_slice();
    write_changes(alloc, out, server, start, tables, changes)?;
    let at = position(start, out);
    write_xid(alloc, out, server, at, body.epoch.0)?;
    Ok(())
}

/// Returns the position of the next event, if the bytes of `out` begin at `start`.
fn position(start: u32, out: &Vec<u8>) -> u32
    requires { start + length out.now.items < 2 ^ 32 }
    ensures { result ≡ start + length out.now.items }
{
    start + out.len() as u32
}

/// Appends the table maps of these tables to `out`, whose bytes begin at `start`.
fn write_tables(
    alloc: Global,
    out: &mut Vec<u8>,
    server: u32,
    start: u32,
    tables: &[Mapped],
) -> Result<(), NoMemory>
    requires mapped { All CanBeMapped tables.now }
    requires fits { start + (length out.old.items + length
        (joined_from (start + length out.old.items)
        (map (table_map_event server) tables.now))) < 2 ^ 32 }
    ensures { OnOk result (out.new.items ≡ out.old.items
        ++ joined_from (start + length out.old.items) (map (table_map_event server) tables.now)) }
{
    for table in tables {
        let at = position(start, out);
        write_table_map(alloc, out, server, at, table)?;
    }
    Ok(())
}

/// Appends a rows event for each change to `out`, whose bytes begin at `start`. The last event
/// carries the flag that ends the statement.
fn write_changes(
    alloc: Global,
    out: &mut Vec<u8>,
    server: u32,
    start: u32,
    tables: &[Mapped],
    changes: &[Change],
) -> Result<(), NoMemory>
    requires fit { All (λ change. Fits (columns_of tables.now change.table) change) changes.now }
    requires mapped { All (λ change. (0 < length (columns_of tables.now change.table))
        × (length (columns_of tables.now change.table) ≤ 64)) changes.now }
    requires fits { start + (length out.old.items + length
        (joined_from (start + length out.old.items)
        (change_events server tables.now changes.now))) < 2 ^ 32 }
    ensures { OnOk result (out.new.items ≡ out.old.items
        ++ joined_from (start + length out.old.items)
        (change_events server tables.now changes.now)) }
{
    for index in 0..changes.len() {
        let change = &changes[index];
        let table = table_of(tables, change.table);
        let at = position(start, out);
        let last = is_last(changes, index);
        write_change(alloc, out, server, at, table, change, last)?;
    }
    Ok(())
}

/// Returns whether this is the last change.
fn is_last(changes: &[Change], index: usize) -> bool
    requires { index < length changes.now }
    ensures { result ≡ ends_statement (drop (index + 1) changes.now) }
{
    index + 1 == changes.len()
}
