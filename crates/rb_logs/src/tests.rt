ghost use Rattle.std.specs.Prelude.{◌<◌, ◌-◌, ◌^◌};

use crate::dump::dump;
use crate::print::print_files;
use rb_base::{Numbers, OutFault};
use rb_disk::{LogDisk, MemoryDisk};
use rb_io::{MemorySink, SteadySink};
use std::alloc::Global;
use std::test::Fail;

// Returns a device with these bytes in a file.
fn device(alloc: Global, file: u32, bytes: &[u8]) -> Result<MemoryDisk, Fail>
    requires { file < 2 ^ 32 - 1 }
{
    let mut disk = MemoryDisk::new(alloc);
    disk.write_at(file, 0, bytes)?;
    Ok(disk)
}

// A file of one byte, one of 32 bytes and one of 33. Empty files are left out.
#[test]
fn files_are_dumped(rt: HostRuntime) -> Result<(), Fail> {
    let alloc = rt.alloc();
    let mut a = device(alloc, 0, &[0])?;
    a.write_at(2, 0, &[0xab; 32])?;
    let b = device(alloc, 1234567, &[0x0f; 33])?;
    let text = dump(alloc, &a, &b)?;
    let lines: [&[u8]; 7] = [
        b"file A 0 name=ndb_binlog_index length=1\n",
        b"00000000 00\n",
        b"file A 2 name=a-bin.000002 length=32\n",
        b"00000000 abababababababababababababababababababababababababababababababab\n",
        b"file B 1234567 name=b-bin.1234567 length=33\n",
        b"00000000 0f0f0f0f0f0f0f0f0f0f0f0f0f0f0f0f0f0f0f0f0f0f0f0f0f0f0f0f0f0f0f0f\n",
        b"00000020 0f\n",
    ];
    let mut expected = Vec::new(alloc);
    for line in lines {
        expected.extend_from_slice(line)?;
    }
    assert_eq!(rt; text.as_slice(), expected.as_slice());
    Ok(())
}

#[test]
fn nothing_is_printed_of_empty_devices(rt: HostRuntime) -> Result<(), Fail> {
    let alloc = rt.alloc();
    let mut out = SteadySink::new(alloc);
    print_files(
        alloc,
        &MemoryDisk::new(alloc),
        &MemoryDisk::new(alloc),
        &mut out,
    )?;
    assert_eq!(rt; out.bytes().len(), 0);
    Ok(())
}

#[test]
fn a_failing_sink_is_a_fault(rt: HostRuntime) -> Result<(), Fail> {
    let alloc = rt.alloc();
    let failing = Numbers::from_vec(vec![in alloc; 0u64]?);
    let mut out = MemorySink::new(alloc, failing);
    let a = device(alloc, 0, &[0])?;
    assert_eq!(rt;
        print_files(alloc, &a, &MemoryDisk::new(alloc), &mut out),
        Err(OutFault::Failed)
    );
    assert_eq!(rt; out.bytes().len(), 0);
    Ok(())
}
