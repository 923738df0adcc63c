ghost use Rattle.std.specs.Prelude.{◌≡◌, ◌≢◌, ◌≤◌, ◌<◌, ◌+◌, ◌*◌, ◌⊎◌, ◌++◌, ◌∷◌, ℕ, List, [], length, All, IfOk, OnOk, OnErr};
ghost use Rattle.rb_base.specs.declared.body.IndexRow.{IndexRow};
ghost use Rattle.std.specs.Prelude.{nat_le};
ghost use Rattle.rb_log_defs.specs.Index.{index_file, position_after};
ghost use Rattle.rb_device_defs.specs.Index.{HasRoom, IsIndexImage, NeverFall, begins_with_record, last_epoch_of, open_records};
ghost use Rattle.rb_disk.specs.Fault.{HasDiskCause};

use crate::record::{CLOSED, OPEN, RECORD_SIZE, read_record, record_array};
use rb_base::{Epoch, IndexRow, NoMemory};
use rb_disk::{DiskLogFault, LogDisk};
use std::alloc::Global;
use std::marker::Model;

/// The file of the device that holds the index.
const INDEX_FILE: u32 = 0;

/// The place of the log's first event, by file and position.
const FIRST_EVENT: (u32, u64) = (1, 4);

/// The rows of the index, which are also on the device.
#[derive(Debug, Drop)]
pub struct EpochIndex {
    rows: Vec<IndexRow>,
}

impl Model for EpochIndex {
    ghost use Rattle.std.specs.Prelude.{List};
    ghost use Rattle.rb_base.specs.declared.body.IndexRow.{IndexRow};
    ghost use Rattle.rb_device_defs.specs.Index.{NeverFall};

    ghost Value = { List IndexRow };

    ghost view = { λ index. index.rows.items };

    ghost invariant = { λ index. NeverFall index.rows.items };
}

impl EpochIndex {
    /// Begins an index without rows: file 0, which must be empty, gets the closed gate of the first
    /// record, and is synced.
    #[tactic(auto, unfolding(rb_log_defs::specs::Index::index_file))]
    pub fn create<D: LogDisk>(alloc: Global, disk: &mut D) -> Result<EpochIndex, DiskLogFault>
        requires empty { D.seen disk.old 0 ≡ [] }
        ensures begun { IfOk result (λ index. (index ≡ []) × (D.seen disk.new 0 ≡ index_file [])) }
        ensures kept { OnErr result (IsIndexImage [] (D.seen disk.new 0)) }
        ensures others { (other : ℕ) → other ≢ 0 → D.seen disk.new other ≡ D.seen disk.old other }
        ensures cause { HasDiskCause (D.fault_count disk.old) (D.fault_count disk.new) result }
    {
        disk.write_at(INDEX_FILE, 0, &[CLOSED])?;
        disk.sync(INDEX_FILE)?;
        Ok(EpochIndex {
            rows: Vec::new(alloc),
        })
    }

    /// Appends a row. Its epoch must not be below that of the last one. The record and the closed
    /// gate of the next one are written and synced; then the record's gate is opened and synced. At
    /// a fault file 0 is an image of the index with or without the row.
    pub fn append_row<D: LogDisk>(
        &mut self,
        row: IndexRow,
        disk: &mut D,
    ) -> Result<(), DiskLogFault>
        requires held { D.seen disk.old 0 ≡ index_file self.old }
        requires later { last_epoch_of self.old ≤ row.epoch.0 }
        ensures appended { OnOk result ((self.new ≡ self.old ++ row ∷ [])
            × (D.seen disk.new 0 ≡ index_file self.new)) }
        ensures kept { OnErr result (IsIndexImage self.old (D.seen disk.new 0)
            ⊎ IsIndexImage (self.old ++ row ∷ []) (D.seen disk.new 0)) }
        ensures same { OnErr result (self.new ≡ self.old) }
        ensures others { (other : ℕ) → other ≢ 0 → D.seen disk.new other ≡ D.seen disk.old other }
        ensures cause { HasDiskCause (D.fault_count disk.old) (D.fault_count disk.new) result }
    {
        // Memory is reserved first, so a row on the device is always in this list.
        self.rows.reserve(1)?;
        add_record(&row, disk)?;
        self.rows.push(row)?;
        Ok(())
    }

    /// Recovers an index from file 0 after a call that was cut off. The rows are those whose
    /// records can be taken. What follows them is cut off, and the gate after them closed. After a
    /// fault the index can be recovered again, with the same rows.
    pub fn recover<D: LogDisk>(alloc: Global, disk: &mut D) -> Result<EpochIndex, DiskLogFault>
        requires image { (rows : List IndexRow) × IsIndexImage rows (D.seen disk.old 0)
            × All HasRoom rows × NeverFall rows }
        ensures recovered { IfOk result (λ index. (rows : List IndexRow) →
            IsIndexImage rows (D.seen disk.old 0) → All HasRoom rows →
            (index ≡ rows) × (D.seen disk.new 0 ≡ index_file rows)) }
        ensures kept { OnErr result ((rows : List IndexRow) →
            IsIndexImage rows (D.seen disk.old 0) → IsIndexImage rows (D.seen disk.new 0)) }
        ensures others { (other : ℕ) → other ≢ 0 → D.seen disk.new other ≡ D.seen disk.old other }
        ensures cause { HasDiskCause (D.fault_count disk.old) (D.fault_count disk.new) result }
    {
        let rows = read_rows(alloc, disk)?;
        let gate = (rows.len() * RECORD_SIZE) as u64;
        cut_after(gate, disk)?;
        close_gate(gate, disk)?;
        Ok(EpochIndex { rows })
    }

    /// Returns the rows, the oldest first. Allocates nothing.
    pub fn rows(&self) -> &[IndexRow]
        ensures { result.now ≡ self.now }
    {
        &self.rows
    }

    /// Returns the place at which the log continues after an epoch, by file and position in bytes
    /// from the file's start. It is the end of the last row with an epoch at most this one, or the
    /// first event of file 1 if there is none. The search is logarithmic, and allocates nothing.
    pub fn position_after(&self, epoch: Epoch) -> (u32, u64)
        ensures { result ≡ position_after self.now epoch.0 }
    {
        let later = self.rows.partition_point(
            |row: &IndexRow| -> bool
                ensures { result ≡ nat_le row.now.epoch.0 epoch.0 }
            { row.epoch.0 <= epoch.0 },
        );
        match self.rows[..later].last() {
            Some(row) => (row.next_file, row.next_position),
            None => FIRST_EVENT,
        }
    }
}

// Writes the record of a row after the closed gate at the end of the index, and opens the gate once
// the record is synced. The gate is one byte and a write of its own, so a fault leaves the record
// out or takes it whole.
fn add_record<D: LogDisk>(row: &IndexRow, disk: &mut D) -> Result<(), DiskLogFault>
    requires some { 0 < length (D.seen disk.old 0) }
    ensures added { OnOk result ((rows : List IndexRow) → D.seen disk.old 0 ≡ index_file rows →
        D.seen disk.new 0 ≡ index_file (rows ++ row.now ∷ [])) }
    ensures kept { OnErr result ((rows : List IndexRow) → D.seen disk.old 0 ≡ index_file rows →
        IsIndexImage rows (D.seen disk.new 0)
        ⊎ IsIndexImage (rows ++ row.now ∷ []) (D.seen disk.new 0)) }
    ensures others { (other : ℕ) → other ≢ 0 → D.seen disk.new other ≡ D.seen disk.old other }
    ensures cause { HasDiskCause (D.fault_count disk.old) (D.fault_count disk.new) result }
{
    let end = disk.len(INDEX_FILE);
    disk.write_at(INDEX_FILE, end, &record_array(row))?;
    disk.sync(INDEX_FILE)?;
    disk.write_at(INDEX_FILE, end - 1, &[OPEN])?;
    disk.sync(INDEX_FILE)?;
    Ok(())
}

// Returns the rows whose records can be taken from file 0. The file is synced first, so that what
// was read is not lost later.
fn read_rows<D: LogDisk>(alloc: Global, disk: &mut D) -> Result<Vec<IndexRow>, DiskLogFault>
    ensures within { IfOk result (λ taken. 65 * length taken.items ≤ length (D.seen disk.old 0)) }
    ensures count { IfOk result (λ taken. (rows : List IndexRow) →
        IsIndexImage rows (D.seen disk.old 0) → length taken.items ≡ length rows) }
    ensures taken { IfOk result (λ taken. (rows : List IndexRow) →
        IsIndexImage rows (D.seen disk.old 0) → All HasRoom rows → taken.items ≡ rows) }
    ensures same { (other : ℕ) → D.seen disk.new other ≡ D.seen disk.old other }
    ensures cause { HasDiskCause (D.fault_count disk.old) (D.fault_count disk.new) result }
{
    disk.sync(INDEX_FILE)?;
    let mut bytes = vec![in alloc; 0u8; disk.len(INDEX_FILE) as usize]?;
    disk.read(INDEX_FILE, 0, &mut bytes)?;
    let rows = take_rows(alloc, &bytes)?;
    Ok(rows)
}

// Returns the rows of the first records of these bytes, as long as a gate is open and its record
// whole, with a byte after it.
fn take_rows(alloc: Global, bytes: &[u8]) -> Result<Vec<IndexRow>, NoMemory>
    ensures within { IfOk result (λ taken. 65 * length taken.items ≤ length bytes.now) }
    ensures count { IfOk result (λ taken. (rows : List IndexRow) → IsIndexImage rows bytes.now →
        length taken.items ≡ length rows) }
    ensures taken { IfOk result (λ taken. (rows : List IndexRow) → IsIndexImage rows bytes.now →
        All HasRoom rows → taken.items ≡ rows) }
{
    let mut rows = Vec::new(alloc);
    let mut place = 0;
    'records: while begins_with_record(&bytes[place..]) {
        rows.push(read_record(&bytes[place + 1..]))?;
        place += RECORD_SIZE;
    }
    Ok(rows)
}

// Returns whether these bytes begin with a record that can be taken.
fn begins_with_record(bytes: &[u8]) -> bool
    ensures { result ≡ begins_with_record bytes.now }
{
    bytes.len() > RECORD_SIZE && bytes[0] == OPEN
}

// Truncates file 0 after the gate at this place, and syncs it, so that nothing of the rest comes
// back.
fn cut_after<D: LogDisk>(gate: u64, disk: &mut D) -> Result<(), DiskLogFault>
    requires within { gate ≤ length (D.seen disk.old 0) }
    ensures within { OnOk result (gate ≤ length (D.seen disk.new 0)) }
    ensures short { OnOk result (length (D.seen disk.new 0) ≤ gate + 1) }
    ensures kept { (rows : List IndexRow) → length (open_records rows) ≡ gate →
        IsIndexImage rows (D.seen disk.old 0) → IsIndexImage rows (D.seen disk.new 0) }
    ensures others { (other : ℕ) → other ≢ 0 → D.seen disk.new other ≡ D.seen disk.old other }
    ensures cause { HasDiskCause (D.fault_count disk.old) (D.fault_count disk.new) result }
{
    if disk.len(INDEX_FILE) - gate <= 1 {
        return Ok(());
    }
    disk.cut(INDEX_FILE, gate + 1)?;
    disk.sync(INDEX_FILE)?;
    Ok(())
}

// Closes the gate at this place, the last of file 0.
fn close_gate<D: LogDisk>(gate: u64, disk: &mut D) -> Result<(), DiskLogFault>
    requires within { gate ≤ length (D.seen disk.old 0) }
    requires short { length (D.seen disk.old 0) ≤ gate + 1 }
    ensures closed { OnOk result ((rows : List IndexRow) → length (open_records rows) ≡ gate →
        IsIndexImage rows (D.seen disk.old 0) → D.seen disk.new 0 ≡ index_file rows) }
    ensures kept { OnErr result ((rows : List IndexRow) → length (open_records rows) ≡ gate →
        IsIndexImage rows (D.seen disk.old 0) → IsIndexImage rows (D.seen disk.new 0)) }
    ensures others { (other : ℕ) → other ≢ 0 → D.seen disk.new other ≡ D.seen disk.old other }
    ensures cause { HasDiskCause (D.fault_count disk.old) (D.fault_count disk.new) result }
{
    disk.write_at(INDEX_FILE, gate, &[CLOSED])?;
    disk.sync(INDEX_FILE)?;
    Ok(())
}
