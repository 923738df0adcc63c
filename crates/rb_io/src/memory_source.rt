ghost use Rattle.std.specs.Prelude.{◌≡◌, ◌+◌, ◌-◌, ◌^◌, ◌↔◌, ◌++◌, min, length, take, drop, Some, IfOk, OnOk, IsErr, OnErr};
ghost use Rattle.std.specs.List.{Contains};
ghost use Rattle.std.specs.Io.{ReadsAtMost};
ghost use Rattle.std.specs.Io.KnownBytes.{ReadConsumes};
ghost use Rattle.rb_base.specs.Faults.{HasCause};

use crate::prefix::copy_prefix;
use crate::source::Source;
use rb_base::{Bytes, Failed, Numbers};
use std::marker::Model;

/// A source over bytes in memory that fails at chosen calls.
#[derive(Debug, Drop)]
pub struct MemorySource {
    bytes: Bytes,
    position: usize,
    call: u64,
    failing: Numbers,
    faults: u64,
}

impl Model for MemorySource {
    ghost use Rattle.std.specs.Prelude.{◌≤◌, length, drop};
    ghost use Rattle.rb_io.specs.Memory.{SourceState};

    ghost Value = { SourceState };

    ghost view = { λ s. record {
      left = drop s.position s.bytes;
      call = s.call;
      failing = s.failing;
      faults = s.faults;
    } };

    ghost invariant = { λ s. s.position ≤ length s.bytes };
}

impl MemorySource {
    /// Creates a source of these bytes. Its calls are numbered from 0, and the calls whose numbers
    /// are in `failing` fail.
    pub fn new(bytes: Bytes, failing: Numbers) -> Self
        ensures { result ≡ record { left = bytes; call = 0; failing = failing; faults = 0 } }
    {
        MemorySource {
            bytes,
            position: 0,
            call: 0,
            failing,
            faults: 0,
        }
    }
}

impl Source for MemorySource {
    ghost left = { λ s. Some s.left };

    ghost fault_count = { λ s. s.faults };

    /// Reads as many of the remaining bytes as `into` has room for.
    fn read(&mut self, into: &mut [u8]) -> Result<usize, Failed>
        ensures bound { ReadsAtMost result into.new }
        ensures bytes { ReadConsumes (Some self.old.left) (Some self.new.left) result into.new }
        ensures cause { HasCause self.old.faults self.new.faults result }
        ensures fails { IsErr result ↔ Contains self.old.failing self.old.call }
        ensures count { IfOk result (λ n. n ≡ min (length self.old.left) (length into.old)) }
        ensures following { IfOk result (λ n. drop n into.new ≡ drop n into.old) }
        ensures call { self.new.call ≡ min (self.old.call + 1) (2 ^ 64 - 1) }
        ensures failing { self.new.failing ≡ self.old.failing }
        ensures faults { OnErr result (self.new.faults ≡ min (self.old.faults + 1) (2 ^ 64 - 1)) }
        ensures no_fault { OnOk result (self.new.faults ≡ self.old.faults) }
    {
        let call = self.call;
        self.call = call.saturating_add(1);
        if self.failing.as_slice().contains(&call) {
            self.faults = self.faults.saturating_add(1);
            return Err(Failed);
        }
        let count = copy_prefix(&self.bytes.as_slice()[self.position..], into);
        self.position += count;
        Ok(count)
    }

    fn faults(&self) -> u64 {
        self.faults
    }
}
