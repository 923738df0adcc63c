ghost use Rattle.std.specs.Prelude.{◌≡◌, ℕ, [], IfSome, IsNone};
ghost use Rattle.rb_disk.specs.Disk.{IsLowestFile};

use crate::device::LogDisk;

/// Returns the lowest file that is not empty and its length in bytes, or `None` if all files are
/// empty. It allocates no memory.
pub fn lowest_file<D: LogDisk>(disk: &D) -> Option<(u32, u64)>
    ensures held { IfSome result (λ found. IsLowestFile found.0 found.1 (D.seen disk.now)) }
    ensures empty { IsNone result → (file : ℕ) → D.seen disk.now file ≡ [] }
{
    for file in 0..disk.files() {
        let length = disk.len(file);
        if length > 0 {
            return Some((file, length));
        }
    }
    None
}
