ghost use Rattle.std.specs.Prelude.{◌≡◌, ◌<◌, [], min, length, drop, Some, IfOk, IsOk, IsErrOf};
ghost use Rattle.std.specs.Io.{ReadsAtMost, WritesAtMost};
ghost use Rattle.std.specs.Io.KnownBytes.{ReadConsumes, WriteAppends};
ghost use Rattle.rb_base.specs.Faults.{HasCause, HasOutCause};

use crate::prefix::copy_prefix;
use crate::sink::Sink;
use crate::source::Source;
use rb_base::{Bytes, Failed, OutFault};
use std::alloc::Global;
use std::marker::Model;

/// A source over bytes in memory that never fails.
#[derive(Debug, Drop)]
pub struct SteadySource {
    bytes: Bytes,
    position: usize,
}

impl Model for SteadySource {
    ghost use Rattle.std.specs.Prelude.{ℕ, ◌≤◌, List, length, drop};

    ghost Value = { List ℕ };

    ghost view = { λ s. drop s.position s.bytes };

    ghost invariant = { λ s. s.position ≤ length s.bytes };
}

impl SteadySource {
    /// Creates a source of these bytes.
    pub fn new(bytes: Bytes) -> Self
        ensures { result ≡ bytes }
    {
        SteadySource { bytes, position: 0 }
    }
}

impl Source for SteadySource {
    ghost left = { λ s. Some s };

    ghost fault_count = { λ _. 0 };

    /// Reads as many of the remaining bytes as `into` has room for.
    fn read(&mut self, into: &mut [u8]) -> Result<usize, Failed>
        ensures bound { ReadsAtMost result into.new }
        ensures bytes { ReadConsumes (Some self.old) (Some self.new) result into.new }
        ensures cause { HasCause 0 0 result }
        ensures never_fails { IsOk result }
        ensures count { IfOk result (λ n. n ≡ min (length self.old) (length into.old)) }
        ensures following { IfOk result (λ n. drop n into.new ≡ drop n into.old) }
    {
        let count = copy_prefix(&self.bytes.as_slice()[self.position..], into);
        self.position += count;
        Ok(count)
    }

    fn faults(&self) -> u64
        ensures { result ≡ 0 }
    {
        0
    }
}

/// A sink that keeps its bytes in memory and never fails.
#[derive(Debug, Drop)]
pub struct SteadySink {
    bytes: Vec<u8>,
}

impl Model for SteadySink {
    ghost use Rattle.std.specs.Prelude.{ℕ, List};

    ghost Value = { List ℕ };

    ghost view = { λ s. s.bytes.items };
}

impl SteadySink {
    /// Creates an empty sink.
    pub fn new(alloc: Global) -> Self
        ensures { result ≡ [] }
    {
        SteadySink {
            bytes: Vec::new(alloc),
        }
    }

    /// Returns the bytes that were written to the sink.
    pub fn bytes(&self) -> &[u8]
        ensures { result.now ≡ self.now }
    {
        &self.bytes
    }
}

impl Sink for SteadySink {
    ghost held = { λ s. Some s };

    ghost fault_count = { λ _. 0 };

    /// Writes all the bytes. If memory allocation fails, nothing is written.
    fn write(&mut self, bytes: &[u8]) -> Result<usize, OutFault>
        ensures bound { WritesAtMost result bytes.now }
        ensures some { IfOk result (λ n. 0 < length bytes.now → 0 < n) }
        ensures bytes { WriteAppends (Some self.old) (Some self.new) result bytes.now }
        ensures cause { HasOutCause 0 0 result }
        ensures never_fails { IsErrOf result OutFault.Failed → ⊥ }
        ensures count { IfOk result (λ n. n ≡ length bytes.now) }
    {
        self.bytes.extend_from_slice(bytes)?;
        Ok(bytes.len())
    }

    fn faults(&self) -> u64
        ensures { result ≡ 0 }
    {
        0
    }
}
