ghost use Rattle.std.specs.Prelude.{◌≡◌, ◌≢◌, ◌<◌, ◌≤◌, ◌-◌, ◌^◌, ℕ, [], length, take, OnOk, OnErr};
ghost use Rattle.rb_disk.specs.Fault.{HasDiskCause};

use rb_disk::{DiskLogFault, LogDisk};

/// Truncates a file to a length, in bytes, and syncs it. At a fault the bytes before that end are
/// unchanged.
pub(crate) fn cut_file<D: LogDisk>(file: u32, end: u64, disk: &mut D) -> Result<(), DiskLogFault>
    requires { end ≤ length (D.seen disk.old file) }
    ensures cut { OnOk result (D.seen disk.new file ≡ take end (D.seen disk.old file)) }
    ensures kept { OnErr result (take end (D.seen disk.new file)
        ≡ take end (D.seen disk.old file)) }
    ensures others { (other : ℕ) → other ≢ file → D.seen disk.new other ≡ D.seen disk.old other }
    ensures cause { HasDiskCause (D.fault_count disk.old) (D.fault_count disk.new) result }
{
    disk.cut(file, end)?;
    disk.sync(file)?;
    Ok(())
}

// Empties a file that has bytes, and syncs it.
fn empty_file<D: LogDisk>(file: u32, disk: &mut D) -> Result<(), DiskLogFault>
    ensures empty { OnOk result (D.seen disk.new file ≡ []) }
    ensures others { (other : ℕ) → other ≢ file → D.seen disk.new other ≡ D.seen disk.old other }
    ensures cause { HasDiskCause (D.fault_count disk.old) (D.fault_count disk.new) result }
{
    if disk.len(file) == 0 {
        return Ok(());
    }
    cut_file(file, 0, disk)?;
    Ok(())
}

/// Empties all files after this one, and syncs them. The files up to it never change.
pub(crate) fn empty_later<D: LogDisk>(file: u32, disk: &mut D) -> Result<(), DiskLogFault>
    requires { file < 2 ^ 32 - 1 }
    ensures empty { OnOk result ((later : ℕ) → file < later → D.seen disk.new later ≡ []) }
    ensures same { (other : ℕ) → other ≤ file → D.seen disk.new other ≡ D.seen disk.old other }
    ensures cause { HasDiskCause (D.fault_count disk.old) (D.fault_count disk.new) result }
{
    for later in file + 1..disk.files() {
        empty_file(later, disk)?;
    }
    Ok(())
}
