ghost use Rattle.std.specs.Prelude.{◌≡◌, ℕ, ◌∷◌, List};
ghost use Rattle.rb_read_defs.specs.Stream.{Known, open_epoch, statuses_so_far};
ghost use Rattle.rb_read_defs.specs.declared.answers.Content.TheVariants as contents;
ghost use Rattle.rb_stream.specs.Content.{MapsColumns};
ghost use Rattle.rb_stream.specs.Epoch.{IsOpen};
ghost use Rattle.rb_stream.specs.EpochStatus.{HoldsStatus};
ghost use Rattle.rb_stream.specs.Taking.{Takes, Closes};
ghost use Rattle.rb_codec.specs.Columns.{HasColumns};

use crate::epoch::OpenEpoch;
use crate::epoch_status::EpochStatus;
use crate::fault::StreamFault;
use rb_base::{Changes, Epoch, Field, Mapped, MappedTables};
use rb_read_defs::{Content, RotateTo, StatusRow, Step};
use std::alloc::Global;

/// Adds the content of an event to the open epoch, and returns the step that the event gives, if
/// any. The event starts at `at` and ends at `end`; the server `server` wrote it.
///
/// Without an open epoch, a table map, changes and apply-status rows change nothing, and the end of
/// an epoch is a bad event.
pub(crate) fn take_content(
    alloc: Global,
    current: &mut Option<OpenEpoch>,
    at: u64,
    end: u64,
    server: u32,
    content: Content,
) -> Result<Option<Step>, StreamFault>
    requires columns { MapsColumns content }
    ensures { (known : List Known) → IsOpen current.old (open_epoch known) →
        Takes at known (record { end = end; server = server; says = content }) result current.new }
{
    match content {
        Content::Formats => Ok(Some(Step::Format)),
        Content::Begins => {
            *current = Some(OpenEpoch::new(alloc));
            Ok(None)
        }
        Content::Ends => end_epoch(alloc, current, at, end, server),
        Content::Rotates(RotateTo { position, name }) => Ok(Some(Step::Rotate(position, name))),
        Content::Maps(table) => take_map(current, at, end, server, table),
        Content::Changes(changes) => take_changes(current, at, end, server, changes),
        Content::Statuses(rows) => take_statuses(current, at, end, server, rows.as_slice()),
        Content::Skipped => Ok(None),
    }
}

/// Adds a table map to the open epoch.
fn take_map(
    current: &mut Option<OpenEpoch>,
    at: u64,
    end: u64,
    server: u32,
    table: Mapped,
) -> Result<Option<Step>, StreamFault>
    requires columns { HasColumns table }
    ensures { (known : List Known) → IsOpen current.old (open_epoch known) →
        Takes at known (record { end = end; server = server; says = contents.Maps table }) result
        current.new }
{
    match current {
        Some(epoch) => epoch.map(table)?,
        None => return Ok(None),
    }
    Ok(None)
}

/// Adds changes to the open epoch.
fn take_changes(
    current: &mut Option<OpenEpoch>,
    at: u64,
    end: u64,
    server: u32,
    changes: Changes,
) -> Result<Option<Step>, StreamFault>
    ensures { (known : List Known) → IsOpen current.old (open_epoch known) →
        Takes at known (record { end = end; server = server; says = contents.Changes changes })
        result current.new }
{
    match current {
        Some(epoch) => epoch.change(changes)?,
        None => return Ok(None),
    }
    Ok(None)
}

/// Adds apply-status rows to the open epoch. An epoch has at most one row whose server is that of
/// the row's event, and at most one other row.
fn take_statuses(
    current: &mut Option<OpenEpoch>,
    at: u64,
    end: u64,
    server: u32,
    rows: &[StatusRow],
) -> Result<Option<Step>, StreamFault>
    ensures { (known : List Known) → IsOpen current.old (open_epoch known) →
        Takes at known (record { end = end; server = server; says = contents.Statuses rows.now })
        result current.new }
{
    let Some(epoch_status) = status_so_far(current).with_rows(server, rows) else {
        return Err(StreamFault::BadEvent(at, Field::Status));
    };
    match current {
        Some(epoch) => epoch.set_status(epoch_status),
        None => return Ok(None),
    }
    Ok(None)
}

/// Returns the apply-status rows of the open epoch so far.
fn status_so_far(current: &Option<OpenEpoch>) -> EpochStatus
    ensures { (known : List Known) → IsOpen current.now (open_epoch known) →
        HoldsStatus result (statuses_so_far known) }
{
    match current {
        Some(epoch) => epoch.epoch_status(),
        None => EpochStatus::nothing(),
    }
}

/// Ends the open epoch.
fn end_epoch(
    alloc: Global,
    current: &mut Option<OpenEpoch>,
    at: u64,
    end: u64,
    server: u32,
) -> Result<Option<Step>, StreamFault>
    ensures { (known : List Known) → IsOpen current.old (open_epoch known) →
        Takes at known (record { end = end; server = server; says = contents.Ends }) result
        current.new }
{
    let Some(epoch) = current.take() else {
        return Err(StreamFault::BadEvent(at, Field::Status));
    };
    match closing(alloc, &epoch, at, server) {
        Ok((own, tables)) => Ok(Some(Step::Epoch(epoch.into_body(server, own, tables), end))),
        Err(fault) => {
            *current = Some(epoch);
            Err(fault)
        }
    }
}

/// Returns what the end of an epoch adds: the epoch's number, which is in the apply-status row of
/// the server that ends it, and its tables.
fn closing(
    alloc: Global,
    epoch: &OpenEpoch,
    at: u64,
    server: u32,
) -> Result<(Epoch, MappedTables), StreamFault>
    ensures { Closes epoch.now at server result }
{
    match epoch.epoch_status().own {
        Some(row) if row.server == server => Ok((row.epoch, epoch.tables(alloc)?)),
        _ => Err(StreamFault::BadEvent(at, Field::Status)),
    }
}
