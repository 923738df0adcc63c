ghost use Rattle.std.specs.Prelude.{◌≡◌, ◌∷◌, List, [], All, IfOk};
ghost use Rattle.rb_base.specs.declared.body.IndexRow.{IndexRow};
ghost use Rattle.rb_log_defs.specs.Index.{index_file};
ghost use Rattle.rb_device_defs.specs.Index.{HasRoom, IsIndexImage, NeverFall};

use rb_base::{Epoch, IndexRow, Numbers};
use rb_disk::{DiskLogFault, FailingDisk, LogDisk, MemoryDisk};
use rb_index::EpochIndex;
use std::alloc::Global;
use std::test::Fail;

fn moves<T: Send>() {}

#[test]
fn an_index_goes_to_another_thread() {
    moves::<EpochIndex>();
}

// The row of epoch 1/0, which has two inserts.
fn row_to(next_position: u64) -> IndexRow
    ensures room { HasRoom result }
    ensures epoch { result.epoch.0 ≡ 4294967296 }
{
    IndexRow {
        epoch: Epoch(4294967296),
        orig_epoch: Epoch(4294967296),
        position: 115,
        next_position,
        file: 1,
        next_file: 1,
        inserts: 2,
        updates: 0,
        deletes: 0,
        schemaops: 0,
        orig_server_id: 1,
        gci: 1,
    }
}

#[test]
fn an_index_begins_with_a_closed_gate(rt: HostRuntime) -> Result<(), Fail> {
    let mut disk = MemoryDisk::new(rt.alloc());
    let index = EpochIndex::create(rt.alloc(), &mut disk)?;
    assert_eq!(rt; disk.file(0), b"\0".as_slice());
    assert_eq!(rt; index.rows().len(), 0);
    assert_eq!(rt; index.position_after(Epoch(4294967296)), (1, 4));
    Ok(())
}

// An index of one row.
fn one_row<D: LogDisk>(alloc: Global, disk: &mut D) -> Result<EpochIndex, DiskLogFault>
    requires empty { D.seen disk.old 0 ≡ [] }
    ensures one { IfOk result (λ index. (row : IndexRow) × (index ≡ row ∷ []) × HasRoom row
        × (row.epoch.0 ≡ 4294967296)) }
    ensures held { IfOk result (λ index. D.seen disk.new 0 ≡ index_file index) }
{
    let mut index = EpochIndex::create(alloc, disk)?;
    index.append_row(row_to(456), disk)?;
    Ok(index)
}

// An index of one more row, of the same epoch.
fn two_rows<D: LogDisk>(alloc: Global, disk: &mut D) -> Result<EpochIndex, DiskLogFault>
    requires empty { D.seen disk.old 0 ≡ [] }
{
    let mut index = one_row(alloc, disk)?;
    index.append_row(row_to(797), disk)?;
    Ok(index)
}

#[test]
fn rows_are_written_after_open_gates(rt: HostRuntime) -> Result<(), Fail> {
    let mut disk = MemoryDisk::new(rt.alloc());
    let index = two_rows(rt.alloc(), &mut disk)?;
    let epochs = b"\x01\0\0\0\0\x01\0\0\0\0\0\0\0\x01\0\0\0";
    let places = b"\x73\0\0\0\0\0\0\0\xc8\x01\0\0\0\0\0\0\x01\0\0\0\x01\0\0\0";
    let counts = b"\x02\0\0\0\0\0\0\0\0\0\0\0\0\0\0\0\x01\0\0\0\x01\0\0\0\x01";
    let file = disk.file(0);
    assert_eq!(rt; file.get(..17), Some(epochs.as_slice()));
    assert_eq!(rt; file.get(17..41), Some(places.as_slice()));
    assert_eq!(rt; file.get(41..66), Some(counts.as_slice()));
    assert_eq!(rt; (file.len(), file.last()), (131, Some(&0)));
    assert_eq!(rt; index.position_after(Epoch(4294967295)), (1, 4));
    assert_eq!(rt; index.position_after(Epoch(4294967296)), (1, 797));
    assert_eq!(rt; index.position_after(Epoch(8589934592)), (1, 797));
    Ok(())
}

// An index of one row with more bytes after its closed gate, recovered.
fn open_before_garbage<D: LogDisk>(alloc: Global, disk: &mut D) -> Result<EpochIndex, DiskLogFault>
    requires empty { D.seen disk.old 0 ≡ [] }
{
    let _index = one_row(alloc, disk)?;
    let end = disk.len(0);
    disk.write_at(0, end, b"a part of a record")?;
    EpochIndex::recover(alloc, disk)
}

// An index whose file ends with the record of the row, without a gate after it, recovered.
fn open_without_a_gate<D: LogDisk>(alloc: Global, disk: &mut D) -> Result<EpochIndex, DiskLogFault>
    requires empty { D.seen disk.old 0 ≡ [] }
{
    let _index = one_row(alloc, disk)?;
    let end = disk.len(0);
    disk.cut(0, end - 1)?;
    EpochIndex::recover(alloc, disk)
}

#[test]
fn what_is_no_whole_record_is_cut_off(rt: HostRuntime) -> Result<(), Fail> {
    let mut garbage = MemoryDisk::new(rt.alloc());
    let index = open_before_garbage(rt.alloc(), &mut garbage)?;
    assert_eq!(rt; index.rows(), [row_to(456)].as_slice());
    assert_eq!(rt; (garbage.len(0), garbage.file(0).last()), (66, Some(&0)));

    let mut short = MemoryDisk::new(rt.alloc());
    let index = open_without_a_gate(rt.alloc(), &mut short)?;
    assert_eq!(rt; index.rows().len(), 0);
    assert_eq!(rt; short.file(0), b"\0".as_slice());
    Ok(())
}

// Returns whether a first row could be appended.
fn appends<D: LogDisk>(index: &mut EpochIndex, disk: &mut D) -> bool
    requires none { index.old ≡ [] }
    requires held { D.seen disk.old 0 ≡ index_file index.old }
    ensures image { (rows : List IndexRow) × IsIndexImage rows (D.seen disk.new 0)
        × All HasRoom rows × NeverFall rows }
{
    match index.append_row(row_to(456), disk) {
        Ok(()) => true,
        Err(_) => false,
    }
}

// A new index, recovered after its first row was appended or not.
fn reopened<D: LogDisk>(alloc: Global, disk: &mut D) -> Result<(bool, EpochIndex), DiskLogFault>
    requires empty { D.seen disk.old 0 ≡ [] }
{
    let mut index = EpochIndex::create(alloc, disk)?;
    let appended = appends(&mut index, disk);
    let opened = EpochIndex::recover(alloc, disk)?;
    Ok((appended, opened))
}

// Calls 2 to 5 append the row. A call that fails does nothing, so the row counts once the last
// write is done.
#[test]
fn a_row_counts_once_its_gate_is_open(rt: HostRuntime) -> Result<(), Fail> {
    for failing in 2..7u64 {
        let numbers = Numbers::from_vec([failing].to_vec(rt.alloc())?);
        let mut disk = FailingDisk::new(MemoryDisk::new(rt.alloc()), numbers);
        match reopened(rt.alloc(), &mut disk) {
            Ok((appended, index)) => {
                assert_eq!(rt; (failing, appended), (failing, false));
                let count = usize::from(failing == 5);
                assert_eq!(rt; index.rows().len(), count);
                assert_eq!(rt; disk.len(0), (65 * count + 1) as u64);
            }
            Err(fault) => assert_eq!(rt; (failing, fault), (6, DiskLogFault::DiskFault)),
        }
        assert_eq!(rt; disk.faults(), 1);
    }
    Ok(())
}
