ghost use Rattle.std.specs.Prelude.{◌≡◌, ℕ, []};

use rb_base::{Failed, Numbers, OutFault};
use rb_disk::{FailingDisk, LogDisk, MemoryDisk};
use std::test::Fail;

fn moves<T: Send>() {}

#[test]
fn devices_go_between_threads() {
    moves::<MemoryDisk>();
    moves::<FailingDisk>();
}

// An append, an overwrite, a cut, and a write to a lower file than the first one.
fn write_and_cut<D: LogDisk>(disk: &mut D) -> Result<(), OutFault>
    requires { (file : ℕ) → D.seen disk.old file ≡ [] }
{
    disk.write_at(2, 0, b"abcdef")?;
    disk.write_at(2, 4, b"EFGH")?;
    disk.write_at(1, 0, b"x")?;
    disk.cut(2, 7)?;
    disk.sync(2)
}

#[test]
fn a_file_is_written_and_cut(rt: HostRuntime) -> Result<(), Fail> {
    let mut disk = MemoryDisk::new(rt.alloc());
    write_and_cut(&mut disk)?;
    assert_eq!(rt; disk.file(2), b"abcdEFG".as_slice());
    assert_eq!(rt; disk.file(1), b"x".as_slice());
    assert_eq!(rt; disk.file(0), b"".as_slice());
    assert_eq!(rt; disk.file(9), b"".as_slice());
    assert_eq!(rt; (disk.files(), disk.len(2), disk.len(9)), (3, 7, 0));
    let mut piece = [0u8; 3];
    if disk.len(2) >= 6 {
        disk.read(2, 3, &mut piece)?;
    }
    assert_eq!(rt; &piece, b"dEF");
    assert_eq!(rt; disk.faults(), 0);
    Ok(())
}

// Each of the four calls fails once, changes nothing, and works the next time.
#[test]
fn calls_fail_at_their_numbers(rt: HostRuntime) -> Result<(), Fail> {
    let alloc = rt.alloc();
    let failing = Numbers::from_vec([0u64, 2, 4, 6].to_vec(alloc)?);
    let mut disk = FailingDisk::new(MemoryDisk::new(alloc), failing);
    assert_eq!(rt; disk.write_at(0, 0, b"abc"), Err(OutFault::Failed));
    assert_eq!(rt; (disk.len(0), disk.files(), disk.faults()), (0, 0, 1));
    assert_eq!(rt; disk.write_at(0, 0, b"abc"), Ok(()));

    let mut piece = [0u8; 2];
    if disk.len(0) >= 3 {
        assert_eq!(rt; disk.read(0, 1, &mut piece), Err(Failed));
        assert_eq!(rt; piece, [0, 0]);
    }
    if disk.len(0) >= 3 {
        assert_eq!(rt; disk.read(0, 1, &mut piece), Ok(()));
        assert_eq!(rt; &piece, b"bc");
    }
    if disk.len(0) >= 1 {
        assert_eq!(rt; disk.cut(0, 1), Err(OutFault::Failed));
    }
    assert_eq!(rt; disk.file(0), b"abc".as_slice());
    if disk.len(0) >= 1 {
        assert_eq!(rt; disk.cut(0, 1), Ok(()));
    }
    assert_eq!(rt; disk.file(0), b"a".as_slice());
    assert_eq!(rt; disk.sync(0), Err(OutFault::Failed));
    assert_eq!(rt; disk.sync(0), Ok(()));
    assert_eq!(rt; disk.faults(), 4);
    Ok(())
}
