ghost use Rattle.std.specs.Prelude.{◌≡◌, ◌≢◌, ◌<◌, ◌≤◌, ◌+◌, ◌-◌, ◌^◌, ℕ, List, [], length, take, slice_range, OnOk, IsErrOf};
ghost use Rattle.rb_base.specs.Faults.{HasCause, HasOutCause};
ghost use Rattle.rb_disk.specs.Disk.{Holds, Torn, CutShort};

use rb_base::{Failed, OutFault};

/// A log device: numbered files of bytes. Every number has a file, and only finitely many are not
/// empty.
pub trait LogDisk {
    /// The bytes of each file, as a read returns them.
    ghost seen: { Self → ℕ → List ℕ };

    /// How often the device has failed.
    ghost fault_count: { Self → ℕ };

    /// Returns a number from which on every file is empty.
    fn files(&self) -> u32
        ensures { (file : ℕ) → result ≤ file → seen self.now file ≡ [] };

    /// Returns the length of a file in bytes.
    fn len(&self, file: u32) -> u64
        ensures { result ≡ length (seen self.now file) };

    /// Fills `into` with the bytes of a file from `at` on. The whole range is within the file.
    ///
    /// At `Failed` the content of `into` is unspecified. No file changes in any case.
    fn read(&mut self, file: u32, at: u64, into: &mut [u8]) -> Result<(), Failed>
        requires { at + length into.old ≤ length (seen self.old file) }
        ensures bytes { OnOk result (into.new
            ≡ slice_range (seen self.old file) at (at + length into.old)) }
        ensures same { (other : ℕ) → seen self.new other ≡ seen self.old other }
        ensures cause { HasCause (fault_count self.old) (fault_count self.new) result };

    /// Overwrites the bytes of a file from `at` on, and extends the file if the write ends after
    /// its end. `at` must be within the file or at its end, and `file` below 2^32 - 1.
    ///
    /// At `Failed` the range of the write may hold any bytes, and the rest of the file is
    /// unchanged. At `NoMemory` the whole file is unchanged.
    fn write_at(&mut self, file: u32, at: u64, bytes: &[u8]) -> Result<(), OutFault>
        requires place { at ≤ length (seen self.old file) }
        requires number { file < 2 ^ 32 - 1 }
        ensures written { OnOk result (Holds (seen self.old file) at bytes.now
            (seen self.new file)) }
        ensures torn { IsErrOf result OutFault.Failed →
            Torn at (length bytes.now) (seen self.old file) (seen self.new file) }
        ensures memory { IsErrOf result OutFault.NoMemory →
            seen self.new file ≡ seen self.old file }
        ensures others { (other : ℕ) → other ≢ file → seen self.new other ≡ seen self.old other }
        ensures cause { HasOutCause (fault_count self.old) (fault_count self.new) result };

    /// Truncates a file to `len` bytes.
    ///
    /// At `Failed` the file's length is between `len` and its old length. Its first `len` bytes are
    /// unchanged; the bytes after them are unspecified. At `NoMemory` the file is unchanged.
    fn cut(&mut self, file: u32, len: u64) -> Result<(), OutFault>
        requires { len ≤ length (seen self.old file) }
        ensures cut { OnOk result (seen self.new file ≡ take len (seen self.old file)) }
        ensures short { IsErrOf result OutFault.Failed →
            CutShort len (seen self.old file) (seen self.new file) }
        ensures memory { IsErrOf result OutFault.NoMemory →
            seen self.new file ≡ seen self.old file }
        ensures others { (other : ℕ) → other ≢ file → seen self.new other ≡ seen self.old other }
        ensures cause { HasOutCause (fault_count self.old) (fault_count self.new) result };

    /// Makes earlier writes to a file durable. No file changes in any case.
    fn sync(&mut self, file: u32) -> Result<(), OutFault>
        ensures same { (other : ℕ) → seen self.new other ≡ seen self.old other }
        ensures cause { HasOutCause (fault_count self.old) (fault_count self.new) result };

    /// Returns how often the device has failed. The count stops at the greatest number of 64 bits.
    fn faults(&self) -> u64
        ensures { result ≡ fault_count self.now };
}
