ghost use Rattle.std.specs.Prelude.{◌≡◌, ◌≤◌, ◌<◌, ◌^◌, ℕ, List, [], ◌∷◌, ◌++◌, length, All, Err, IfOk, OnOk, OnErr, true, false};
ghost use Rattle.rb_base.specs.declared.body.EpochBody.{EpochBody};
ghost use Rattle.rb_log_defs.specs.Epoch.{epoch_bytes};
ghost use Rattle.rb_log_defs.specs.Fits.{CanBeMapped, CanBeWritten};
ghost use Rattle.rb_log_defs.specs.File.{new_binlog, binlog_of, binlog_files, index_rows};
ghost use Rattle.rb_journal_defs.specs.Body.{has_something_to_log};
ghost use Rattle.rb_disk.specs.Disk.{IsLowestFile};
ghost use Rattle.rb_disk.specs.Fault.{HasDiskCause};
ghost use Rattle.rb_device_defs.specs.Image.{HoldsUpTo, IsLogImage};
ghost use Rattle.rb_binlog.specs.Binlog as binlog;
ghost use Rattle.rb_inject.specs.Body.{body_of_assembled};
ghost use Rattle.rb_inject.specs.Injector.{IsLimit, HoldsBinlogTo};
ghost use Rattle.rb_inject.specs.Fault.{HasInjectCause, IsNotEmpty, IsTooLarge};

use crate::body::{body_of, has_something};
use crate::fault::InjectFault;
use crate::row::{Place, row_at};
use rb_base::{Epoch, EpochBody, IndexRow, MappedTables, SiteId};
use rb_binlog::BinlogFiles;
use rb_disk::{DiskLogFault, LogDisk, lowest_file};
use rb_etx::encode_epoch;
use rb_index::EpochIndex;
use rb_message_defs::Assembled;
use std::alloc::Global;

/// The injector of a site, with the site's log.
#[derive(Debug, Drop)]
pub struct Injector {
    alloc: Global,
    site: SiteId,
    limit: u64,
    // The tables as the log names them.
    tables: MappedTables,
    files: BinlogFiles,
    index: EpochIndex,
}

impl Injector {
    ghost use Rattle.rb_inject.specs.Injector.{LogSetup, IsLogSetup, StandsFor, Stands, LeavesImage, CanBeRecovered, bodies_with, body_for, last_file_of, written_of, limit_of};

    /// Begins a log without an epoch on an empty device: first the index in file 0, then file 1.
    /// Binlog files are rotated when they reach `limit` bytes, 512 to 67108864. `NotEmpty` names
    /// the lowest file that is not empty, and does not touch the device.
    pub fn create<D: LogDisk>(
        alloc: Global,
        site: SiteId,
        limit: u64,
        tables: MappedTables,
        disk: &mut D,
    ) -> Result<Injector, InjectFault>
        requires setup { IsLogSetup (record { site = site; limit = limit; tables = tables }) }
        ensures created { IfOk result (λ injector.
            StandsFor injector (record { site = site; limit = limit; tables = tables }) []
            (D.seen disk.new)) }
        ensures not_empty { (file size : ℕ) → result ≡ Err (InjectFault.NotEmpty file size) →
            IsLowestFile file size (D.seen disk.old) }
        ensures refused { (file size : ℕ) → IsLowestFile file size (D.seen disk.old) →
            IsNotEmpty result }
        ensures untouched { IsNotEmpty result → disk.new ≡ disk.old }
        ensures no_size { IsTooLarge result → ⊥ }
        ensures stopped { OnErr result (((file : ℕ) → D.seen disk.old file ≡ []) →
            IsLogImage site limit [] (D.seen disk.new)) }
        ensures cause { HasInjectCause (D.fault_count disk.old) (D.fault_count disk.new) result }
    {
        if let Some((file, length)) = lowest_file(disk) {
            return Err(InjectFault::NotEmpty { file, length });
        }
        let index = EpochIndex::create(alloc, disk)?;
        let files = BinlogFiles::create(alloc, site, disk)?;
        Ok(Injector {
            alloc,
            site,
            limit,
            tables,
            files,
            index,
        })
    }

    /// Takes an assembled epoch above the last one in the log. If it has something to log, its
    /// bytes are appended to the last file and synced, its row is appended to the index, and the
    /// file is rotated if it has reached the limit; the result is `true`. Otherwise the device is
    /// not touched, and the result is `false`.
    ///
    /// `TooLarge` gives the size of an epoch of more than 2147483647 bytes, and does not touch the
    /// device. After any fault the injector is gone, and `recover` recovers its log.
    pub fn take<D: LogDisk>(
        self,
        assembled: Assembled,
        disk: &mut D,
    ) -> Result<(Injector, bool), InjectFault>
        requires stands { Stands self (D.seen disk.old) }
        requires later { written_of self < assembled.epoch.0 }
        requires writable { CanBeWritten (body_for self assembled) }
        requires few { length (body_for self assembled).changes < 2 ^ 32 }
        requires few_files { last_file_of self < 4294967294 }
        ensures taken { IfOk result (λ pair. (setup : LogSetup) (bodies : List EpochBody) →
            StandsFor self setup bodies (D.seen disk.old) →
            StandsFor pair.0 setup (bodies_with bodies
            (body_of_assembled setup.site setup.tables assembled)) (D.seen disk.new)) }
        ensures logged { IfOk result (λ pair. pair.1
            ≡ has_something_to_log (body_for self assembled)) }
        ensures size { IfOk result (λ pair. pair.1 ≡ true →
            length (epoch_bytes (body_for self assembled) 0) ≤ 2147483647) }
        ensures too_large { (size : ℕ) → result ≡ Err (InjectFault.TooLarge size) →
            (size ≡ length (epoch_bytes (body_for self assembled) 0)) × (2147483647 < size)
            × (has_something_to_log (body_for self assembled) ≡ true) }
        ensures untouched { IsTooLarge result → disk.new ≡ disk.old }
        ensures begun { IsNotEmpty result → ⊥ }
        ensures nothing { has_something_to_log (body_for self assembled) ≡ false →
            disk.new ≡ disk.old }
        ensures stopped { OnErr result ((setup : LogSetup) (bodies : List EpochBody) →
            StandsFor self setup bodies (D.seen disk.old) →
            LeavesImage setup bodies (body_of_assembled setup.site setup.tables assembled)
            (D.seen disk.new)) }
        ensures cause { HasInjectCause (D.fault_count disk.old) (D.fault_count disk.new) result }
    {
        let body = body_of(self.alloc, self.site, self.tables.as_slice(), assembled)?;
        if !has_something(&body) {
            return Ok((self, false));
        }
        let mut injector = self;
        injector.log(&body, disk)?;
        Ok((injector, true))
    }

    /// Recovers the log from a device that was stopped within a call, with the epochs that the
    /// device has. What follows the last one is cut off, and the file is rotated if it has reached
    /// the limit. After a fault the log can be recovered again, with the same epochs.
    pub fn recover<D: LogDisk>(
        alloc: Global,
        site: SiteId,
        limit: u64,
        tables: MappedTables,
        disk: &mut D,
    ) -> Result<Injector, DiskLogFault>
        requires setup { IsLogSetup (record { site = site; limit = limit; tables = tables }) }
        requires image { (bodies : List EpochBody)
            × CanBeRecovered (record { site = site; limit = limit; tables = tables }) bodies
            (D.seen disk.old) }
        ensures recovered { IfOk result (λ injector. (bodies : List EpochBody) →
            CanBeRecovered (record { site = site; limit = limit; tables = tables }) bodies
            (D.seen disk.old) →
            StandsFor injector (record { site = site; limit = limit; tables = tables }) bodies
            (D.seen disk.new)) }
        ensures kept { OnErr result ((bodies : List EpochBody) →
            CanBeRecovered (record { site = site; limit = limit; tables = tables }) bodies
            (D.seen disk.old) →
            IsLogImage site limit bodies (D.seen disk.new)) }
        ensures cause { HasDiskCause (D.fault_count disk.old) (D.fault_count disk.new) result }
    {
        let index = EpochIndex::recover(alloc, disk)?;
        let files = open_files(alloc, site, limit, index.rows().last().copied(), disk)?;
        Ok(Injector {
            alloc,
            site,
            limit,
            tables,
            files,
            index,
        })
    }

    /// Returns the last epoch in the log, or epoch 0 if there is none. Allocates nothing.
    pub fn written(&self) -> Epoch
        ensures { result.0 ≡ written_of self.now }
    {
        match self.index.rows().last() {
            Some(row) => row.epoch,
            None => Epoch(0),
        }
    }

    /// Returns the length at which its files are rotated, in bytes. Allocates nothing.
    pub fn limit(&self) -> u64
        ensures { result ≡ limit_of self.now }
    {
        self.limit
    }

    /// Returns the index of the log. Allocates nothing.
    pub fn index(&self) -> &EpochIndex
        ensures { (setup : LogSetup) (bodies : List EpochBody) (seen : ℕ → List ℕ) →
            StandsFor self.now setup bodies seen →
            result.now ≡ index_rows setup.site setup.limit bodies }
    {
        &self.index
    }

    /// Returns the number of the last binlog file. Allocates nothing.
    pub fn last_file(&self) -> u32
        ensures { result ≡ last_file_of self.now }
    {
        self.files.end().0
    }

    // Logs a body: appends its bytes to the last file and its row to the index, and rotates the
    // file if it has reached the limit.
    fn log<D: LogDisk>(&mut self, body: &EpochBody, disk: &mut D) -> Result<(), InjectFault>
        requires stands { Stands self.old (D.seen disk.old) }
        requires later { written_of self.old < body.now.epoch.0 }
        requires writable { CanBeWritten body.now }
        requires few { length body.now.changes < 2 ^ 32 }
        requires few_tables { length body.now.tables ≤ 65536 }
        requires few_files { last_file_of self.old < 4294967294 }
        ensures logged { OnOk result ((setup : LogSetup) (bodies : List EpochBody) →
            StandsFor self.old setup bodies (D.seen disk.old) →
            StandsFor self.new setup (bodies ++ body.now ∷ []) (D.seen disk.new)) }
        ensures size { OnOk result (length (epoch_bytes body.now 0) ≤ 2147483647) }
        ensures too_large { (size : ℕ) → result ≡ Err (InjectFault.TooLarge size) →
            (size ≡ length (epoch_bytes body.now 0)) × (2147483647 < size) }
        ensures untouched { IsTooLarge result → disk.new ≡ disk.old }
        ensures begun { IsNotEmpty result → ⊥ }
        ensures stopped { OnErr result ((setup : LogSetup) (bodies : List EpochBody) →
            StandsFor self.old setup bodies (D.seen disk.old) →
            LeavesImage setup bodies body.now (D.seen disk.new)) }
        ensures cause { HasInjectCause (D.fault_count disk.old) (D.fault_count disk.new) result }
    {
        let (file, position) = self.files.end();
        let bytes = encode_epoch(self.alloc, body, position)?;
        let next_position = position + bytes.as_slice().len() as u32;
        let place = Place {
            file,
            position,
            next_position,
        };
        let row = row_at(self.site, place, body);
        self.files.append(&bytes, disk)?;
        self.index.append_row(row, disk)?;
        self.files.rotate_if(self.limit, disk)?;
        Ok(())
    }
}

// Returns the binlog up to the end of the last row's epoch, rotated if its file has reached the
// limit. Begins the binlog anew if there is no row.
fn open_files<D: LogDisk>(
    alloc: Global,
    site: SiteId,
    limit: u64,
    last: Option<IndexRow>,
    disk: &mut D,
) -> Result<BinlogFiles, DiskLogFault>
    requires limit { IsLimit limit }
    requires there { (bodies : List EpochBody)
        × HoldsBinlogTo site limit last bodies (D.seen disk.old) }
    ensures opened { IfOk result (λ files. (bodies : List EpochBody) →
        HoldsBinlogTo site limit last bodies (D.seen disk.old) →
        binlog.StandsFor files site (binlog_of site limit bodies) (D.seen disk.new)) }
    ensures kept { OnErr result ((bodies : List EpochBody) →
        HoldsBinlogTo site limit last bodies (D.seen disk.old) →
        HoldsUpTo last (binlog_files site limit bodies) (D.seen disk.new)) }
    ensures index { D.seen disk.new 0 ≡ D.seen disk.old 0 }
    ensures cause { HasDiskCause (D.fault_count disk.old) (D.fault_count disk.new) result }
{
    let Some(row) = last else {
        return begin_anew(alloc, site, disk);
    };
    let mut files = BinlogFiles::cut_to(alloc, site, row.next_file, row.next_position, disk)?;
    files.rotate_if(limit, disk)?;
    Ok(files)
}

// Begins a binlog without an epoch, over files of which nothing counts.
fn begin_anew<D: LogDisk>(
    alloc: Global,
    site: SiteId,
    disk: &mut D,
) -> Result<BinlogFiles, DiskLogFault>
    ensures begun { IfOk result (λ files.
        binlog.StandsFor files site (new_binlog site) (D.seen disk.new)) }
    ensures index { D.seen disk.new 0 ≡ D.seen disk.old 0 }
    ensures cause { HasDiskCause (D.fault_count disk.old) (D.fault_count disk.new) result }
{
    BinlogFiles::cut_to(alloc, site, 1, 0, disk)?;
    BinlogFiles::create(alloc, site, disk)
}
