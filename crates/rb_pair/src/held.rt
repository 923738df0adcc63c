ghost use Rattle.std.specs.Prelude.{◌≡◌, IfSome, IsNone};
ghost use Rattle.rb_pair.specs.Held.{AreEmpty, IsFirstHeld};

use rb_base::SiteId;
use rb_disk::{LogDisk, lowest_file};

/// A file that is not empty.
#[derive(Clone, Copy, Debug)]
pub struct HeldFile {
    /// The site that the device belongs to.
    pub site: SiteId,
    pub file: u32,
    /// The file's length, in bytes.
    pub length: u64,
}

/// Returns the first file that is not empty, site A's device before site B's and the lowest file
/// first; `None` if both devices are empty.
pub fn first_held<D: LogDisk>(disk_a: &D, disk_b: &D) -> Option<HeldFile>
    ensures held { IfSome result (λ found.
        IsFirstHeld found.site found.file found.length (D.seen disk_a.now) (D.seen disk_b.now)) }
    ensures empty { IsNone result → AreEmpty (D.seen disk_a.now) (D.seen disk_b.now) }
{
    if let Some((file, length)) = lowest_file(disk_a) {
        return Some(HeldFile {
            site: SiteId::A,
            file,
            length,
        });
    }
    let (file, length) = lowest_file(disk_b)?;
    Some(HeldFile {
        site: SiteId::B,
        file,
        length,
    })
}
