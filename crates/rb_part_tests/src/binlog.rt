ghost use Rattle.std.specs.Prelude.{◌≡◌, ◌≤◌, ◌+◌, ℕ, [], length, IfOk, OnOk};
ghost use Rattle.rb_binlog.specs.Binlog.{Stands, number_of, length_of};

use rb_base::{Numbers, OutFault, SiteId};
use rb_binlog::BinlogFiles;
use rb_disk::{DiskLogFault, FailingDisk, LogDisk, MemoryDisk};
use std::alloc::Global;
use std::test::Fail;

fn moves_and_shares<T: Send + Sync>() {}

#[test]
fn files_go_between_threads() {
    moves_and_shares::<BinlogFiles>();
}

// A binlog of site A whose file 1 has 683 bytes: its start of 115 and 568 more.
fn filled<D: LogDisk>(alloc: Global, disk: &mut D) -> Result<BinlogFiles, DiskLogFault>
    requires { (number : ℕ) → 1 ≤ number → D.seen disk.old number ≡ [] }
    ensures stands { IfOk result (λ files. Stands files (D.seen disk.new)) }
    ensures number { IfOk result (λ files. number_of files ≡ 1) }
    ensures size { IfOk result (λ files. length_of files ≡ 683) }
{
    let mut files = BinlogFiles::create(alloc, SiteId::A, disk)?;
    files.append(&[7u8; 568], disk)?;
    Ok(files)
}

// Rotates a filled binlog at a limit. Returns whether it rotated, and its end.
fn rotate_filled<D: LogDisk>(
    alloc: Global,
    limit: u64,
    disk: &mut D,
) -> Result<(bool, (u32, u32)), DiskLogFault>
    requires { (number : ℕ) → 1 ≤ number → D.seen disk.old number ≡ [] }
{
    let mut files = filled(alloc, disk)?;
    let rotated = files.rotate_if(limit, disk)?;
    Ok((rotated, files.end()))
}

#[test]
fn a_file_begins_with_its_magic_and_format(rt: HostRuntime) -> Result<(), Fail> {
    let alloc = rt.alloc();
    let mut disk = MemoryDisk::new(alloc);
    let files = BinlogFiles::create(alloc, SiteId::B, &mut disk)?;
    assert_eq!(rt; files.end(), (1, 115));
    assert_eq!(rt; disk.len(1), 115);
    // the magic number, and the header of server 2's format description event, which has 111 bytes
    // and ends at 115
    let start = [
        0xfe, 0x62, 0x69, 0x6e, 0, 0, 0, 0, 15, 2, 0, 0, 0, 0x6f, 0, 0, 0, 0x73, 0, 0, 0, 0, 0,
    ];
    let bytes = BinlogFiles::read_at(alloc, 1, 0, 23, &mut disk)?;
    assert_eq!(rt; bytes.as_slice(), start.as_slice());
    Ok(())
}

#[test]
fn a_file_is_rotated_at_the_limit(rt: HostRuntime) -> Result<(), Fail> {
    let alloc = rt.alloc();
    let mut disk = MemoryDisk::new(alloc);
    assert_eq!(rt; rotate_filled(alloc, 683, &mut disk)?, (true, (2, 115)));
    // a rotate event of server 1: it has 39 bytes, ends at 722, and names position 4 of
    // `a-bin.000002`
    let event = [
        0, 0, 0, 0, 4, 1, 0, 0, 0, 0x27, 0, 0, 0, 0xd2, 2, 0, 0, 0, 0, 4, 0, 0, 0, 0, 0, 0, 0,
        0x61, 0x2d, 0x62, 0x69, 0x6e, 0x2e, 0x30, 0x30, 0x30, 0x30, 0x30, 0x32,
    ];
    let bytes = BinlogFiles::read_at(alloc, 1, 683, 100, &mut disk)?;
    assert_eq!(rt; bytes.as_slice(), event.as_slice());
    assert_eq!(rt; (disk.len(1), disk.len(2), disk.len(3)), (722, 115, 0));
    Ok(())
}

#[test]
fn a_file_below_the_limit_stays(rt: HostRuntime) -> Result<(), Fail> {
    let alloc = rt.alloc();
    let mut disk = MemoryDisk::new(alloc);
    assert_eq!(rt; rotate_filled(alloc, 684, &mut disk)?, (false, (1, 683)));
    assert_eq!(rt; (disk.len(1), disk.len(2)), (683, 0));
    Ok(())
}

// A device that fails at one call.
fn failing_at(alloc: Global, call: u64) -> Result<FailingDisk, Fail>
    ensures { IfOk result (λ disk. disk.files ≡ []) }
{
    let failing = Numbers::from_vec([call].to_vec(alloc)?);
    Ok(FailingDisk::new(MemoryDisk::new(alloc), failing))
}

// The calls of a rotation, after the four that fill the file: 4 writes the rotate event, 5 syncs
// it, and 6 writes the next file.
#[test]
fn a_rotation_fails_midway(rt: HostRuntime) -> Result<(), Fail> {
    let alloc = rt.alloc();
    for call in [5, 6] {
        let mut disk = failing_at(alloc, call)?;
        assert_eq!(rt;
            rotate_filled(alloc, 683, &mut disk),
            Err(DiskLogFault::DiskFault)
        );
        assert_eq!(rt; (disk.len(1), disk.len(2), disk.faults()), (722, 0, 1));
    }
    Ok(())
}

// An index in file 0 and a binlog in files 1, 2 and 4.
fn write_files<D: LogDisk>(disk: &mut D) -> Result<(), OutFault>
    requires { (file : ℕ) → D.seen disk.old file ≡ [] }
    ensures { OnOk result (length (D.seen disk.new 1) ≡ 6) }
{
    disk.write_at(0, 0, b"index")?;
    disk.write_at(2, 0, b"gh")?;
    disk.write_at(4, 0, b"ij")?;
    disk.write_at(1, 0, b"abcdef")?;
    Ok(())
}

#[test]
fn bytes_are_read_up_to_the_end(rt: HostRuntime) -> Result<(), Fail> {
    let alloc = rt.alloc();
    let mut disk = failing_at(alloc, 6)?;
    write_files(&mut disk)?;
    let middle = BinlogFiles::read_at(alloc, 1, 1, 3, &mut disk)?;
    assert_eq!(rt; middle.as_slice(), b"bcd".as_slice());
    let last = BinlogFiles::read_at(alloc, 1, 4, 10, &mut disk)?;
    assert_eq!(rt; last.as_slice(), b"ef".as_slice());
    // these read nothing from the device, so the next read is call 6, which fails
    let following = BinlogFiles::read_at(alloc, 1, 7, 1, &mut disk)?;
    assert_eq!(rt; following.len(), 0);
    let none = BinlogFiles::read_at(alloc, 1, 2, 0, &mut disk)?;
    assert_eq!(rt; none.len(), 0);
    let failed = BinlogFiles::read_at(alloc, 1, 1, 3, &mut disk);
    assert!(rt; matches!(failed, Err(DiskLogFault::DiskFault)));
    Ok(())
}

#[test]
fn a_binlog_is_cut(rt: HostRuntime) -> Result<(), Fail> {
    let alloc = rt.alloc();
    let mut disk = MemoryDisk::new(alloc);
    write_files(&mut disk)?;
    let files = BinlogFiles::cut_to(alloc, SiteId::B, 1, 3, &mut disk)?;
    assert_eq!(rt; files.end(), (1, 3));
    assert_eq!(rt;
        (disk.file(0), disk.file(1)),
        (b"index".as_slice(), b"abc".as_slice())
    );
    assert_eq!(rt; (disk.len(2), disk.len(3), disk.len(4)), (0, 0, 0));
    Ok(())
}

// The calls of a cut, after the four that write the files: 4 and 5 cut file 1 and sync it, 6 cuts
// file 2.
#[test]
fn a_cut_fails_midway(rt: HostRuntime) -> Result<(), Fail> {
    let alloc = rt.alloc();
    for call in [5, 6] {
        let mut disk = failing_at(alloc, call)?;
        write_files(&mut disk)?;
        let cut = BinlogFiles::cut_to(alloc, SiteId::B, 1, 3, &mut disk);
        assert!(rt; matches!(cut, Err(DiskLogFault::DiskFault)));
        assert_eq!(rt; disk.file(1), b"abc".as_slice());
        assert_eq!(rt;
            (disk.file(2), disk.file(4)),
            (b"gh".as_slice(), b"ij".as_slice())
        );
    }
    Ok(())
}
