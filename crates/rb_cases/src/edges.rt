//! A source and a sink in memory. Each moves at most a chosen number of bytes a call, and fails at
//! chosen calls.

ghost use Rattle.std.specs.Prelude.{Some, ◌<◌};

use rb_base::{Bytes, Failed, Numbers, OutFault};
use rb_io::{MemorySource, Sink, Source};
use std::alloc::Global;

/// A source that gives at most `most` bytes a call.
#[derive(Drop)]
pub(crate) struct CaseSource {
    inner: MemorySource,
    most: usize,
    given: usize,
    ghost some: { 0 < most },
}

impl CaseSource {
    /// Returns a source of these bytes. It gives at least one byte a call.
    pub(crate) fn new(bytes: Bytes, most: usize, failing: Numbers) -> Self {
        CaseSource {
            inner: MemorySource::new(bytes, failing),
            most: most.max(1),
            given: 0,
        }
    }

    /// Returns how many bytes it gave.
    pub(crate) fn given(&self) -> usize {
        self.given
    }
}

impl Source for CaseSource {
    ghost left = { λ s. Some s.inner.left };

    ghost fault_count = { λ s. s.inner.faults };

    fn read(&mut self, into: &mut [u8]) -> Result<usize, Failed> {
        let most = self.most.min(into.len());
        let count = self.inner.read(&mut into[..most])?;
        self.given = self.given.saturating_add(count);
        Ok(count)
    }

    fn faults(&self) -> u64 {
        self.inner.faults()
    }
}

/// A sink that takes at most `most` bytes a call.
#[derive(Drop)]
pub(crate) struct CaseSink {
    bytes: Vec<u8>,
    most: usize,
    call: u64,
    failing: Numbers,
    faults: u64,
    ghost some: { 0 < most },
}

impl CaseSink {
    /// Returns a sink with no bytes. It takes at least one byte a call.
    pub(crate) fn new(alloc: Global, most: usize, failing: Numbers) -> Self {
        CaseSink {
            bytes: Vec::new(alloc),
            most: most.max(1),
            call: 0,
            failing,
            faults: 0,
        }
    }

    /// Returns the bytes that it took.
    pub(crate) fn bytes(&self) -> &[u8] {
        &self.bytes
    }
}

impl Sink for CaseSink {
    ghost held = { λ s. Some s.bytes.items };

    ghost fault_count = { λ s. s.faults };

    fn write(&mut self, bytes: &[u8]) -> Result<usize, OutFault> {
        let call = self.call;
        self.call = call.saturating_add(1);
        if self.failing.as_slice().contains(&call) {
            self.faults = self.faults.saturating_add(1);
            return Err(OutFault::Failed);
        }
        let count = bytes.len().min(self.most);
        self.bytes.extend_from_slice(&bytes[..count])?;
        Ok(count)
    }

    fn faults(&self) -> u64 {
        self.faults
    }
}
