ghost use Rattle.std.specs.Prelude.{◌≡◌, ◌<◌, ℕ, List, Option, length, IfOk};
ghost use Rattle.std.specs.Io.{WritesAtMost};
ghost use Rattle.std.specs.Io.KnownBytes.{WriteAppends};
ghost use Rattle.rb_base.specs.Faults.{HasOutCause};

use rb_base::OutFault;

/// A receiver of bytes.
pub trait Sink {
    /// The bytes that were written to the sink, if the sink knows them.
    ghost held: { Self → Option (List ℕ) };

    /// How often the sink has failed.
    ghost fault_count: { Self → ℕ };

    /// Writes a prefix of `bytes` and returns its length, which is at least 1 if `bytes` is not
    /// empty.
    ///
    /// On an error nothing was written. At `Failed` the count of faults has risen.
    fn write(&mut self, bytes: &[u8]) -> Result<usize, OutFault>
        ensures bound { WritesAtMost result bytes.now }
        ensures some { IfOk result (λ n. 0 < length bytes.now → 0 < n) }
        ensures bytes { WriteAppends (held self.old) (held self.new) result bytes.now }
        ensures cause { HasOutCause (fault_count self.old) (fault_count self.new) result };

    /// Returns how often the sink has failed. The count stops at the greatest number of 64 bits.
    fn faults(&self) -> u64
        ensures { result ≡ fault_count self.now };
}
