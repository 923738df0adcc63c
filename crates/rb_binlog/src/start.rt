ghost use Rattle.std.specs.Prelude.{◌≡◌, ◌≢◌, ◌<◌, ◌-◌, ◌^◌, ℕ, [], length, vec_len, IfOk};
ghost use Rattle.rb_log_defs.specs.File.{file_start};
ghost use Rattle.rb_disk.specs.Fault.{HasDiskCause};

use crate::append::append_synced;
use rb_base::{NoMemory, SiteId};
use rb_codec::{MAGIC, write_format};
use rb_disk::{DiskLogFault, LogDisk};
use std::alloc::Global;

// Returns the first bytes of each binlog file of a site.
#[tactic(auto, unfolding(rb_log_defs::specs::File::file_start))]
fn file_start_bytes(alloc: Global, site: SiteId) -> Result<Vec<u8>, NoMemory>
    ensures bytes { IfOk result (λ bytes. bytes.items ≡ file_start site) }
    ensures size { IfOk result (λ bytes. vec_len bytes ≡ 115) }
{
    let mut bytes = Vec::from_slice(alloc, &MAGIC)?;
    write_format(alloc, &mut bytes, site.server_id(), MAGIC.len() as u32)?;
    Ok(bytes)
}

/// Begins an empty binlog file, syncs it, and returns its length in bytes. A fault may leave bytes
/// in the file.
pub(crate) fn begin_file<D: LogDisk>(
    alloc: Global,
    site: SiteId,
    file: u32,
    disk: &mut D,
) -> Result<u32, DiskLogFault>
    requires empty { D.seen disk.old file ≡ [] }
    requires number { file < 2 ^ 32 - 1 }
    ensures begun { IfOk result (λ _. D.seen disk.new file ≡ file_start site) }
    ensures size { IfOk result (λ end. end ≡ length (file_start site)) }
    ensures others { (other : ℕ) → other ≢ file → D.seen disk.new other ≡ D.seen disk.old other }
    ensures cause { HasDiskCause (D.fault_count disk.old) (D.fault_count disk.new) result }
{
    let bytes = file_start_bytes(alloc, site)?;
    append_synced(file, 0, &bytes, disk)?;
    Ok(bytes.len() as u32)
}
