ghost use Rattle.std.specs.Prelude.{◌≡◌, ◌≢◌, ◌<◌, ◌-◌, ◌^◌, ◌++◌, ℕ, length, take, OnOk, OnErr};
ghost use Rattle.rb_disk.specs.Fault.{HasDiskCause};

use rb_disk::{DiskLogFault, LogDisk};

/// Appends bytes to a file that ends at `end`, in one write, and syncs it. At a fault the bytes
/// before `end` are unchanged, and any bytes may follow up to the length that was to be written.
pub(crate) fn append_synced<D: LogDisk>(
    file: u32,
    end: u32,
    bytes: &[u8],
    disk: &mut D,
) -> Result<(), DiskLogFault>
    requires end { end ≡ length (D.seen disk.old file) }
    requires number { file < 2 ^ 32 - 1 }
    ensures appended { OnOk result (D.seen disk.new file ≡ D.seen disk.old file ++ bytes.now) }
    ensures kept { OnErr result (take end (D.seen disk.new file) ≡ D.seen disk.old file) }
    ensures others { (other : ℕ) → other ≢ file → D.seen disk.new other ≡ D.seen disk.old other }
    ensures cause { HasDiskCause (D.fault_count disk.old) (D.fault_count disk.new) result }
{
    disk.write_at(file, u64::from(end), bytes)?;
    disk.sync(file)?;
    Ok(())
}
