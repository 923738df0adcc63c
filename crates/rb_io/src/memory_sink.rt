ghost use Rattle.std.specs.Prelude.{◌≡◌, ◌<◌, ◌+◌, ◌-◌, ◌^◌, ◌↔◌, [], min, length, Some, IfOk, OnOk, IsErrOf};
ghost use Rattle.std.specs.List.{Contains};
ghost use Rattle.std.specs.Io.{WritesAtMost};
ghost use Rattle.std.specs.Io.KnownBytes.{WriteAppends};
ghost use Rattle.rb_base.specs.Faults.{HasOutCause};

use crate::sink::Sink;
use rb_base::{Numbers, OutFault};
use std::alloc::Global;
use std::marker::Model;

/// A sink that keeps its bytes in memory and fails at chosen calls.
#[derive(Debug, Drop)]
pub struct MemorySink {
    bytes: Vec<u8>,
    call: u64,
    failing: Numbers,
    faults: u64,
}

impl Model for MemorySink {
    ghost use Rattle.rb_io.specs.Memory.{SinkState};

    ghost Value = { SinkState };

    ghost view = { λ s. record {
      held = s.bytes.items;
      call = s.call;
      failing = s.failing;
      faults = s.faults;
    } };
}

impl MemorySink {
    /// Creates an empty sink. Its calls are numbered from 0, and the calls whose numbers are in
    /// `failing` fail.
    pub fn new(alloc: Global, failing: Numbers) -> Self
        ensures { result ≡ record { held = []; call = 0; failing = failing; faults = 0 } }
    {
        MemorySink {
            bytes: Vec::new(alloc),
            call: 0,
            failing,
            faults: 0,
        }
    }

    /// Returns the bytes that were written to the sink.
    pub fn bytes(&self) -> &[u8]
        ensures { result.now ≡ self.now.held }
    {
        &self.bytes
    }
}

impl Sink for MemorySink {
    ghost held = { λ s. Some s.held };

    ghost fault_count = { λ s. s.faults };

    /// Writes all the bytes. A call that runs out of memory takes its number as any other call
    /// does, and changes nothing else.
    fn write(&mut self, bytes: &[u8]) -> Result<usize, OutFault>
        ensures bound { WritesAtMost result bytes.now }
        ensures some { IfOk result (λ n. 0 < length bytes.now → 0 < n) }
        ensures bytes { WriteAppends (Some self.old.held) (Some self.new.held) result bytes.now }
        ensures cause { HasOutCause self.old.faults self.new.faults result }
        ensures fails { IsErrOf result OutFault.Failed ↔ Contains self.old.failing self.old.call }
        ensures count { IfOk result (λ n. n ≡ length bytes.now) }
        ensures call { self.new.call ≡ min (self.old.call + 1) (2 ^ 64 - 1) }
        ensures failing { self.new.failing ≡ self.old.failing }
        ensures faults { IsErrOf result OutFault.Failed →
            self.new.faults ≡ min (self.old.faults + 1) (2 ^ 64 - 1) }
        ensures no_fault { OnOk result (self.new.faults ≡ self.old.faults) }
        ensures no_memory { IsErrOf result OutFault.NoMemory → self.new.faults ≡ self.old.faults }
    {
        let call = self.call;
        self.call = call.saturating_add(1);
        if self.failing.as_slice().contains(&call) {
            self.faults = self.faults.saturating_add(1);
            return Err(OutFault::Failed);
        }
        self.bytes.extend_from_slice(bytes)?;
        Ok(bytes.len())
    }

    fn faults(&self) -> u64 {
        self.faults
    }
}
