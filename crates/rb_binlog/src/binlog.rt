ghost use Rattle.std.specs.Prelude.{◌≡◌, ◌≢◌, ◌≤◌, ◌<◌, ◌+◌, ◌-◌, ◌^◌, ◌++◌, ◌∷◌, ℕ, List, [], length, take, drop, nat_le, IfOk, OnOk, OnErr, false};
ghost use Rattle.rb_base.specs.declared.site.SiteId.{SiteId};
ghost use Rattle.rb_log_defs.specs.File.{Binlog, files_in, new_binlog, rotated_at};
ghost use Rattle.rb_device_defs.specs.Files.{HoldsPrefix};
ghost use Rattle.rb_disk.specs.Fault.{HasDiskCause};

use crate::append::append_synced;
use crate::cut::{cut_file, empty_later};
use crate::rotate::end_file;
use crate::start::begin_file;
use rb_base::SiteId;
use rb_disk::{DiskLogFault, LogDisk};
use std::alloc::Global;

/// The number of the first binlog file. File 0 is the index.
const FIRST_FILE: u32 = 1;

/// The binlog files of a site: the number and the length of the last one. Their bytes are on the
/// device.
#[derive(Debug, Drop)]
pub struct BinlogFiles {
    alloc: Global,
    site: SiteId,
    // The number of the last file, counted from 1.
    number: u32,
    // Its length, in bytes.
    length: u32,
}

impl BinlogFiles {
    ghost use Rattle.rb_binlog.specs.Binlog.{StandsFor, Stands, number_of, length_of, rotation_size};

    /// Begins a binlog without an epoch: writes the start of file 1 and syncs it. The files from 1
    /// on must be empty. At a fault, also if memory runs out, file 1 may have some bytes, and no
    /// other file changes.
    pub fn create<D: LogDisk>(
        alloc: Global,
        site: SiteId,
        disk: &mut D,
    ) -> Result<BinlogFiles, DiskLogFault>
        requires empty { (number : ℕ) → 1 ≤ number → D.seen disk.old number ≡ [] }
        ensures begun { IfOk result (λ files.
            StandsFor files site (new_binlog site) (D.seen disk.new)) }
        ensures others { (other : ℕ) → other ≢ 1 → D.seen disk.new other ≡ D.seen disk.old other }
        ensures cause { HasDiskCause (D.fault_count disk.old) (D.fault_count disk.new) result }
    {
        let length = begin_file(alloc, site, FIRST_FILE, disk)?;
        Ok(BinlogFiles {
            alloc,
            site,
            number: FIRST_FILE,
            length,
        })
    }

    /// Appends bytes to the last file, in one write, and syncs it. At a fault, also if memory runs
    /// out, the bytes before the old end are unchanged, any bytes may follow them, and this value
    /// still has the old end.
    pub fn append<D: LogDisk>(&mut self, bytes: &[u8], disk: &mut D) -> Result<(), DiskLogFault>
        requires stands { Stands self.old (D.seen disk.old) }
        requires fits { length_of self.old + length bytes.now < 2 ^ 32 }
        ensures appended { OnOk result ((site : SiteId) (log : Binlog) →
            StandsFor self.old site log (D.seen disk.old) →
            StandsFor self.new site (record log { last = log.last ++ bytes.now })
            (D.seen disk.new)) }
        ensures kept { OnErr result ((site : SiteId) (log : Binlog) →
            StandsFor self.old site log (D.seen disk.old) →
            HoldsPrefix (number_of self.old) (length_of self.old) (files_in log)
            (D.seen disk.new)) }
        ensures stays { OnErr result (self.new ≡ self.old) }
        ensures others { (other : ℕ) → other ≢ number_of self.old →
            D.seen disk.new other ≡ D.seen disk.old other }
        ensures cause { HasDiskCause (D.fault_count disk.old) (D.fault_count disk.new) result }
    {
        append_synced(self.number, self.length, bytes, disk)?;
        self.length += bytes.len() as u32;
        Ok(())
    }

    /// Rotates the log if the last file has reached the limit, in bytes: appends a rotate event
    /// that names the next file, syncs it, then writes and syncs the start of that file. Returns
    /// whether it rotated. At a fault, also if memory runs out, both files may have some more
    /// bytes; the old bytes of the last file and all files before it are unchanged, and this value
    /// still has the old end.
    pub fn rotate_if<D: LogDisk>(&mut self, limit: u64, disk: &mut D) -> Result<bool, DiskLogFault>
        requires stands { Stands self.old (D.seen disk.old) }
        requires few { number_of self.old < 4294967294 }
        requires fits { limit ≤ length_of self.old →
            length_of self.old + rotation_size self.old < 2 ^ 32 }
        ensures rotated { IfOk result (λ rotated. (site : SiteId) (log : Binlog) →
            StandsFor self.old site log (D.seen disk.old) →
            StandsFor self.new site (rotated_at site limit log) (D.seen disk.new)
            × (rotated ≡ nat_le limit (length log.last))) }
        ensures kept { OnErr result ((site : SiteId) (log : Binlog) →
            StandsFor self.old site log (D.seen disk.old) →
            HoldsPrefix (number_of self.old) (length_of self.old) (files_in log)
            (D.seen disk.new)) }
        ensures stays { OnErr result (self.new ≡ self.old) }
        ensures before { (other : ℕ) → other < number_of self.old →
            D.seen disk.new other ≡ D.seen disk.old other }
        ensures later { (other : ℕ) → number_of self.old + 1 < other →
            D.seen disk.new other ≡ D.seen disk.old other }
        ensures untouched { IfOk result (λ rotated. rotated ≡ false → disk.new ≡ disk.old) }
        ensures cause { HasDiskCause (D.fault_count disk.old) (D.fault_count disk.new) result }
    {
        if u64::from(self.length) < limit {
            return Ok(false);
        }
        end_file(self.alloc, self.site, self.number, self.length, disk)?;
        let length = begin_file(self.alloc, self.site, self.number + 1, disk)?;
        self.number += 1;
        self.length = length;
        Ok(true)
    }

    /// Returns the bytes of a file from a position on: at most `count`, and at most to the file's
    /// end. Past its end there are none. No file changes.
    pub fn read_at<D: LogDisk>(
        alloc: Global,
        file: u32,
        position: u64,
        count: u64,
        disk: &mut D,
    ) -> Result<Vec<u8>, DiskLogFault>
        ensures bytes { IfOk result (λ bytes. bytes.items
            ≡ take count (drop position (D.seen disk.old file))) }
        ensures same { (other : ℕ) → D.seen disk.new other ≡ D.seen disk.old other }
        ensures cause { HasDiskCause (D.fault_count disk.old) (D.fault_count disk.new) result }
    {
        let left = disk.len(file).saturating_sub(position);
        let size = left.min(count);
        if size == 0 {
            return Ok(Vec::new(alloc));
        }
        let mut bytes = vec![in alloc; 0u8; size as usize]?;
        disk.read(file, position, &mut bytes)?;
        Ok(bytes)
    }

    /// Truncates a file to a length, in bytes, empties all later files, and syncs them: the binlog
    /// then ends there. At a fault, also if memory runs out, the bytes before that end are
    /// unchanged, and the bytes after it are unspecified.
    pub fn cut_to<D: LogDisk>(
        alloc: Global,
        site: SiteId,
        file: u32,
        position: u64,
        disk: &mut D,
    ) -> Result<BinlogFiles, DiskLogFault>
        requires number { (1 ≤ file) × (file < 2 ^ 32 - 1) }
        requires within { position ≤ length (D.seen disk.old file) }
        requires fits { position < 2 ^ 32 }
        ensures cut { IfOk result (λ files. (log : Binlog) → file ≡ length log.closed + 1 →
            position ≡ length log.last →
            HoldsPrefix file position (files_in log) (D.seen disk.old) →
            StandsFor files site log (D.seen disk.new)) }
        ensures kept { OnErr result ((files : List (List ℕ)) →
            HoldsPrefix file position files (D.seen disk.old) →
            HoldsPrefix file position files (D.seen disk.new)) }
        ensures before { (other : ℕ) → other < file →
            D.seen disk.new other ≡ D.seen disk.old other }
        ensures cause { HasDiskCause (D.fault_count disk.old) (D.fault_count disk.new) result }
    {
        cut_file(file, position, disk)?;
        empty_later(file, disk)?;
        Ok(BinlogFiles {
            alloc,
            site,
            number: file,
            length: position as u32,
        })
    }

    /// Returns the number of the last file, and its length in bytes. Allocates nothing.
    pub fn end(&self) -> (u32, u32)
        ensures { (result.0 ≡ number_of self.now) × (result.1 ≡ length_of self.now) }
    {
        (self.number, self.length)
    }
}
