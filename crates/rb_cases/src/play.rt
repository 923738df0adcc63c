use crate::case::{Case, Device};
use crate::edges::{CaseSink, CaseSource};
use crate::fault::{Fault, bad};
use rb_base::Bytes;
use rb_disk::{FailingDisk, LogDisk, MemoryDisk};
use rb_top::{Status, top};
use std::alloc::Global;
use std::thread::Threads;

/// What the program returned, and what it left.
#[derive(Drop)]
pub(crate) struct Played {
    pub(crate) status: Status,
    pub(crate) source: CaseSource,
    pub(crate) sink: CaseSink,
    pub(crate) disk_a: FailingDisk,
    pub(crate) disk_b: FailingDisk,
}

/// Calls the program on what a case gives.
pub(crate) fn play<R: Threads + Sync>(rt: &R, alloc: Global, case: &Case) -> Result<Played, Fault> {
    let input = Bytes::from_vec(Vec::from_slice(alloc, &case.input)?);
    let mut source = CaseSource::new(input, case.source.most, case.source.failing.copy(alloc)?);
    let mut sink = CaseSink::new(alloc, case.sink.most, case.sink.failing.copy(alloc)?);
    let mut disk_a = disk_of(alloc, &case.disk_a)?;
    let mut disk_b = disk_of(alloc, &case.disk_b)?;
    let status = top(
        rt,
        alloc,
        &case.words,
        &mut source,
        &mut sink,
        &mut disk_a,
        &mut disk_b,
    );
    Ok(Played {
        status,
        source,
        sink,
        disk_a,
        disk_b,
    })
}

// Returns a device with the files that a case says.
fn disk_of(alloc: Global, device: &Device) -> Result<FailingDisk, Fault> {
    let mut disk = MemoryDisk::new(alloc);
    for file in &device.held {
        if file.number == u32::MAX {
            return bad("a file's number is below 4294967295");
        }
        disk.write_at(file.number, 0, &file.bytes)?;
    }
    Ok(FailingDisk::new(disk, device.failing.copy(alloc)?))
}
