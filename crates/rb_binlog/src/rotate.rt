ghost use Rattle.std.specs.Prelude.{◌≡◌, ◌≢◌, ◌<◌, ◌≤◌, ◌+◌, ◌-◌, ◌^◌, ℕ, length, take, IfOk, OnOk, OnErr};
ghost use Rattle.rb_base.specs.Site.{server_of};
ghost use Rattle.rb_log_defs.specs.Event.{rotate_event};
ghost use Rattle.rb_log_defs.specs.File.{file_name as name_of, rotated};
ghost use Rattle.rb_disk.specs.Fault.{HasDiskCause};

use crate::append::append_synced;
use rb_base::{NoMemory, SiteId};
use rb_codec::{file_name, write_rotate};
use rb_disk::{DiskLogFault, LogDisk};
use std::alloc::Global;

/// The position of a file's first event, after the magic number.
const FIRST_POSITION: u64 = 4;

// Returns the rotate event of a file that ends at `start`: the log continues in the next one.
fn rotate_bytes(alloc: Global, site: SiteId, file: u32, start: u32) -> Result<Vec<u8>, NoMemory>
    requires number { file < 2 ^ 32 - 1 }
    requires fits { start + (27 + length (name_of site (file + 1))) < 2 ^ 32 }
    ensures { IfOk result (λ bytes. bytes.items
        ≡ rotate_event (server_of site) 4 (name_of site (file + 1)) start) }
{
    let name = file_name(alloc, site, file + 1)?;
    let mut bytes = Vec::new(alloc);
    write_rotate(
        alloc,
        &mut bytes,
        site.server_id(),
        start,
        FIRST_POSITION,
        &name,
    )?;
    Ok(bytes)
}

/// Writes the rotate event that names the next file to a file that ends at `end`, and syncs it. At
/// a fault the bytes before `end` are unchanged.
pub(crate) fn end_file<D: LogDisk>(
    alloc: Global,
    site: SiteId,
    file: u32,
    end: u32,
    disk: &mut D,
) -> Result<(), DiskLogFault>
    requires end { end ≡ length (D.seen disk.old file) }
    requires number { file < 2 ^ 32 - 1 }
    requires fits { end + (27 + length (name_of site (file + 1))) < 2 ^ 32 }
    ensures ended { OnOk result (D.seen disk.new file ≡ rotated site file (D.seen disk.old file)) }
    ensures kept { OnErr result (take end (D.seen disk.new file) ≡ D.seen disk.old file) }
    ensures others { (other : ℕ) → other ≢ file → D.seen disk.new other ≡ D.seen disk.old other }
    ensures cause { HasDiskCause (D.fault_count disk.old) (D.fault_count disk.new) result }
{
    let event = rotate_bytes(alloc, site, file, end)?;
    append_synced(file, end, &event, disk)?;
    Ok(())
}
