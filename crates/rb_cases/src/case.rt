use crate::fault::Fault;
use rb_base::{Bytes, Numbers, SiteId};
use std::alloc::Global;

/// What a case gives to the program, and what it wants of it.
#[derive(Drop)]
pub(crate) struct Case {
    pub(crate) words: Vec<Bytes>,
    pub(crate) input: Vec<u8>,
    pub(crate) source: Stream,
    pub(crate) sink: Stream,
    pub(crate) disk_a: Device,
    pub(crate) disk_b: Device,
    /// The wanted status: `done`, `usage`, or the line on standard error without its line feed.
    pub(crate) status: String,
    /// The bytes that the sink must have.
    pub(crate) output: Vec<u8>,
    /// How many bytes the source must have left.
    pub(crate) left: Left,
}

/// A source or a sink.
#[derive(Drop)]
pub(crate) struct Stream {
    /// How many bytes a call moves at most.
    pub(crate) most: usize,
    /// The calls that fail, numbered from 0.
    pub(crate) failing: Numbers,
}

/// A log device.
#[derive(Drop)]
pub(crate) struct Device {
    /// The calls that fail, numbered from 0.
    pub(crate) failing: Numbers,
    /// The files before the call.
    pub(crate) held: Vec<File>,
    /// The files after the call.
    pub(crate) files: Vec<File>,
}

/// A file of a device. A file that is not named is empty.
#[derive(Drop)]
pub(crate) struct File {
    pub(crate) number: u32,
    pub(crate) bytes: Vec<u8>,
}

/// How many bytes of the input the source has left.
#[derive(Clone, Copy, Debug, PartialEq, Eq)]
pub(crate) enum Left {
    All,
    Bytes(usize),
}

impl Case {
    /// Returns an empty case: no words, no input, no failing call, nothing wanted.
    pub(crate) fn new(alloc: Global) -> Case {
        Case {
            words: Vec::new(alloc),
            input: Vec::new(alloc),
            source: Stream::new(alloc),
            sink: Stream::new(alloc),
            disk_a: Device::new(alloc),
            disk_b: Device::new(alloc),
            status: String::new(alloc),
            output: Vec::new(alloc),
            left: Left::Bytes(0),
        }
    }

    /// Returns the device of a site.
    pub(crate) fn disk_mut(&mut self, site: SiteId) -> &mut Device {
        match site {
            SiteId::A => &mut self.disk_a,
            SiteId::B => &mut self.disk_b,
        }
    }
}

impl Stream {
    fn new(alloc: Global) -> Stream {
        Stream {
            most: usize::MAX,
            failing: Numbers::new(alloc),
        }
    }
}

impl Device {
    fn new(alloc: Global) -> Device {
        Device {
            failing: Numbers::new(alloc),
            held: Vec::new(alloc),
            files: Vec::new(alloc),
        }
    }
}

/// Appends bytes to the file of this number. The file is new if there is none.
pub(crate) fn append(
    alloc: Global,
    files: &mut Vec<File>,
    number: u32,
    bytes: &[u8],
) -> Result<(), Fault> {
    for file in files.iter_mut() {
        if file.number == number {
            file.bytes.extend_from_slice(bytes)?;
            return Ok(());
        }
    }
    let bytes = Vec::from_slice(alloc, bytes)?;
    files.push(File { number, bytes })?;
    Ok(())
}
