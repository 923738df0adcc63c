ghost use Rattle.std.specs.Prelude.{◌≡◌, ◌+◌, ◌-◌, ◌^◌, ◌<◌, length, All, IfOk};
ghost use Rattle.rb_log_defs.specs.Fits.{CanBeWritten};
ghost use Rattle.rb_log_defs.specs.File.{file_start, rotated, new_binlog, rotated_at, with_epoch, binlog_of, binlog_files, index_rows};
ghost use Rattle.rb_reference.specs.Standing.{binlog_in, AreSmall};

use crate::row::index_row;
use rb_base::{Bytes, EpochBody, IndexRows, NoMemory, SiteId};
use rb_codec::{MAGIC, file_name, write_format, write_rotate};
use rb_etx::write_epoch;
use std::alloc::Global;

/// The position of a file's first event, in bytes from the file's start.
const FIRST_EVENT: u32 = 4;

/// A site's binlog: the full files, file 1 first; the last file; and the index rows.
#[derive(Drop)]
struct Layout {
    closed: Vec<Bytes>,
    last: Vec<u8>,
    rows: IndexRows,
}

/// Returns the files of a site's binlog of these bodies, file 1 first. A file is rotated if it has
/// at least `limit` bytes after an epoch. Returns `NoMemory` if memory allocation fails, and no
/// other error.
pub fn binlog_files(
    alloc: Global,
    site: SiteId,
    limit: u64,
    bodies: &[EpochBody],
) -> Result<Vec<Bytes>, NoMemory>
    requires writable { All CanBeWritten bodies.now }
    requires small { All (λ file. length file < 2 ^ 32) (binlog_files site limit bodies.now) }
    requires few { length bodies.now < 2 ^ 32 - 1 }
    ensures files { IfOk result (λ files. files.items ≡ binlog_files site limit bodies.now) }
{
    let Layout {
        mut closed,
        last,
        ..
    } = binlog_of(alloc, site, limit, bodies)?;
    closed.push(Bytes::from_vec(last))?;
    Ok(closed)
}

/// Returns the index rows of that binlog, the oldest first. Returns `NoMemory` if memory allocation
/// fails, and no other error.
pub fn index_rows(
    alloc: Global,
    site: SiteId,
    limit: u64,
    bodies: &[EpochBody],
) -> Result<IndexRows, NoMemory>
    requires writable { All CanBeWritten bodies.now }
    requires small { All (λ file. length file < 2 ^ 32) (binlog_files site limit bodies.now) }
    requires few { length bodies.now < 2 ^ 32 - 1 }
    ensures rows { IfOk result (λ rows. rows ≡ index_rows site limit bodies.now) }
{
    let Layout { rows, .. } = binlog_of(alloc, site, limit, bodies)?;
    Ok(rows)
}

/// Returns the binlog of these bodies, written in this order.
fn binlog_of(
    alloc: Global,
    site: SiteId,
    limit: u64,
    bodies: &[EpochBody],
) -> Result<Layout, NoMemory>
    requires writable { All CanBeWritten bodies.now }
    requires small { All (λ file. length file < 2 ^ 32) (binlog_files site limit bodies.now) }
    requires few { length bodies.now < 2 ^ 32 - 1 }
    ensures { IfOk result (λ log. binlog_in log ≡ binlog_of site limit bodies.now) }
{
    let mut log = new_binlog(alloc, site)?;
    for body in bodies {
        log = with_epoch(alloc, site, limit, log, body)?;
    }
    Ok(log)
}

/// Returns a binlog without an epoch.
fn new_binlog(alloc: Global, site: SiteId) -> Result<Layout, NoMemory>
    ensures { IfOk result (λ log. binlog_in log ≡ new_binlog site) }
{
    Ok(Layout {
        closed: Vec::new(alloc),
        last: file_start(alloc, site)?,
        rows: IndexRows::new(alloc),
    })
}

/// Returns the start of each file of a site.
#[tactic(auto, unfolding(rb_log_defs::specs::File::file_start))]
fn file_start(alloc: Global, site: SiteId) -> Result<Vec<u8>, NoMemory>
    ensures { IfOk result (λ bytes. bytes.items ≡ file_start site) }
{
    let mut bytes = Vec::from_slice(alloc, &MAGIC)?;
    write_format(alloc, &mut bytes, site.server_id(), FIRST_EVENT)?;
    Ok(bytes)
}

/// Returns the binlog with one more epoch at the end of the last file.
fn with_epoch(
    alloc: Global,
    site: SiteId,
    limit: u64,
    log: Layout,
    body: &EpochBody,
) -> Result<Layout, NoMemory>
    requires writable { CanBeWritten body.now }
    requires small { AreSmall (with_epoch site limit (binlog_in log) body.now) }
    requires few { length log.closed.items + 2 < 2 ^ 32 }
    ensures { IfOk result (λ next. binlog_in next
        ≡ with_epoch site limit (binlog_in log) body.now) }
{
    let Layout {
        closed,
        mut last,
        mut rows,
    } = log;
    let start = last.len() as u32;
    write_epoch(alloc, &mut last, body, 0)?;
    let end = last.len() as u64;
    rows.push(index_row(site, closed.len() as u32 + 1, u64::from(start), end, body))?;
    rotated_at(alloc, site, limit, Layout { closed, last, rows })
}

/// Returns the binlog with its last file rotated and the next one begun, if that file has reached
/// the limit.
fn rotated_at(alloc: Global, site: SiteId, limit: u64, log: Layout) -> Result<Layout, NoMemory>
    requires small { AreSmall (rotated_at site limit (binlog_in log)) }
    requires few { length log.closed.items + 2 < 2 ^ 32 }
    ensures { IfOk result (λ next. binlog_in next ≡ rotated_at site limit (binlog_in log)) }
{
    if (log.last.len() as u64) < limit {
        return Ok(log);
    }
    let Layout {
        mut closed,
        last,
        rows,
    } = log;
    let full = rotated(alloc, site, closed.len() as u32 + 1, last)?;
    closed.push(Bytes::from_vec(full))?;
    Ok(Layout {
        closed,
        last: file_start(alloc, site)?,
        rows,
    })
}

/// Returns the file with this number with its rotate event at the end.
#[tactic(auto, using(crate::proofs::Growing::rotated_length))]
fn rotated(alloc: Global, site: SiteId, number: u32, mut file: Vec<u8>) -> Result<Vec<u8>, NoMemory>
    requires small { length (rotated site number file.items) < 2 ^ 32 }
    requires few { number + 1 < 2 ^ 32 }
    ensures { IfOk result (λ full. full.items ≡ rotated site number file.items) }
{
    let name = file_name(alloc, site, number + 1)?;
    let end = file.len() as u32;
    let position = u64::from(FIRST_EVENT);
    write_rotate(alloc, &mut file, site.server_id(), end, position, &name)?;
    Ok(file)
}
