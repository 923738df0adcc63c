ghost use Rattle.std.specs.Prelude.{◌≡◌, ℕ, List, Option};
ghost use Rattle.std.specs.Io.{ReadsAtMost};
ghost use Rattle.std.specs.Io.KnownBytes.{ReadConsumes};
ghost use Rattle.rb_base.specs.Faults.{HasCause};

use rb_base::Failed;

/// A supplier of bytes.
pub trait Source {
    /// The bytes that remain, if the source knows them.
    ghost left: { Self → Option (List ℕ) };

    /// How often the source has failed.
    ghost fault_count: { Self → ℕ };

    /// Reads the next bytes into the start of `into` and returns their number. If it returns 0 and
    /// `into` is not empty, the source is at its end.
    ///
    /// At `Failed` no byte is lost, and the count of faults has risen.
    fn read(&mut self, into: &mut [u8]) -> Result<usize, Failed>
        ensures bound { ReadsAtMost result into.new }
        ensures bytes { ReadConsumes (left self.old) (left self.new) result into.new }
        ensures cause { HasCause (fault_count self.old) (fault_count self.new) result };

    /// Returns how often the source has failed. The count stops at the greatest number of 64 bits.
    fn faults(&self) -> u64
        ensures { result ≡ fault_count self.now };
}
