ghost use Rattle.std.specs.Prelude.{◌≡◌, ◌≢◌, ◌<◌, ◌≤◌, ◌+◌, ◌-◌, ◌^◌, ◌↔◌, ℕ, [], min, length, take, slice_range, IsErr, OnOk, OnErr, IsErrOf, IsTrue};
ghost use Rattle.std.specs.Bool.{OnTrue, OnFalse};
ghost use Rattle.std.specs.List.{Contains};
ghost use Rattle.rb_base.specs.Faults.{Rose, HasCause, HasOutCause};
ghost use Rattle.rb_disk.specs.Disk.{Holds, Torn, CutShort};
ghost use Rattle.rb_disk.specs.Memory.{file_of, file_count};

use crate::device::LogDisk;
use crate::memory::MemoryDisk;
use rb_base::{Failed, Numbers, OutFault};
use std::marker::Model;

/// A log device in memory that fails at chosen calls. All calls of `read`, `write_at`, `cut` and
/// `sync` share one count, which starts at 0. A call that fails changes no file. A call that runs
/// out of memory also takes a number.
#[derive(Debug, Drop)]
pub struct FailingDisk {
    inner: MemoryDisk,
    call: u64,
    failing: Numbers,
    faults: u64,
}

impl Model for FailingDisk {
    ghost use Rattle.rb_disk.specs.Memory.{DiskState};

    ghost Value = { DiskState };

    ghost view = { λ disk. record {
      files = disk.inner;
      call = disk.call;
      failing = disk.failing;
      faults = disk.faults;
    } };
}

impl FailingDisk {
    /// Creates a device with the files of `inner`. The calls whose numbers are in `failing` fail.
    pub fn new(inner: MemoryDisk, failing: Numbers) -> FailingDisk
        ensures { result ≡ record { files = inner; call = 0; failing = failing; faults = 0 } }
    {
        FailingDisk {
            inner,
            call: 0,
            failing,
            faults: 0,
        }
    }

    /// Returns the bytes of a file.
    pub fn file(&self, number: u32) -> &[u8]
        ensures { result.now ≡ file_of self.now.files number }
    {
        self.inner.file(number)
    }
}

// Counts a call, and a fault if the call's number is in `failing`. Returns whether the call fails.
fn fails_now(call: &mut u64, failing: &Numbers, faults: &mut u64) -> bool
    ensures fails { IsTrue result ↔ Contains failing.now call.old }
    ensures call { call.new ≡ min (call.old + 1) (2 ^ 64 - 1) }
    ensures faults { OnTrue result (faults.new ≡ min (faults.old + 1) (2 ^ 64 - 1)) }
    ensures rose { OnTrue result (Rose faults.old faults.new) }
    ensures no_fault { OnFalse result (faults.new ≡ faults.old) }
    ensures later { faults.old ≤ faults.new }
{
    let number = *call;
    *call = number.saturating_add(1);
    if failing.as_slice().contains(&number) {
        *faults = faults.saturating_add(1);
        return true;
    }
    false
}

impl LogDisk for FailingDisk {
    ghost seen = { λ disk file. file_of disk.files file };

    ghost fault_count = { λ disk. disk.faults };

    fn files(&self) -> u32
        ensures empty { (file : ℕ) → result ≤ file → file_of self.now.files file ≡ [] }
        ensures count { result ≡ file_count self.now.files }
    {
        self.inner.files()
    }

    fn len(&self, file: u32) -> u64 {
        self.inner.len(file)
    }

    fn read(&mut self, file: u32, at: u64, into: &mut [u8]) -> Result<(), Failed>
        requires { at + length into.old ≤ length (file_of self.old.files file) }
        ensures bytes { OnOk result (into.new
            ≡ slice_range (file_of self.old.files file) at (at + length into.old)) }
        ensures same { self.new.files ≡ self.old.files }
        ensures cause { HasCause self.old.faults self.new.faults result }
        ensures fails { IsErr result ↔ Contains self.old.failing self.old.call }
        ensures call { self.new.call ≡ min (self.old.call + 1) (2 ^ 64 - 1) }
        ensures failing { self.new.failing ≡ self.old.failing }
        ensures faults { OnErr result (self.new.faults ≡ min (self.old.faults + 1) (2 ^ 64 - 1)) }
        ensures no_fault { OnOk result (self.new.faults ≡ self.old.faults) }
        ensures kept { OnErr result (into.new ≡ into.old) }
    {
        if fails_now(&mut self.call, &self.failing, &mut self.faults) {
            return Err(Failed);
        }
        self.inner.read(file, at, into)?;
        Ok(())
    }

    fn write_at(&mut self, file: u32, at: u64, bytes: &[u8]) -> Result<(), OutFault>
        requires place { at ≤ length (file_of self.old.files file) }
        requires number { file < 2 ^ 32 - 1 }
        ensures written { OnOk result (Holds (file_of self.old.files file) at bytes.now
            (file_of self.new.files file)) }
        ensures torn { IsErrOf result OutFault.Failed →
            Torn at (length bytes.now) (file_of self.old.files file)
            (file_of self.new.files file) }
        ensures memory { IsErrOf result OutFault.NoMemory →
            file_of self.new.files file ≡ file_of self.old.files file }
        ensures others { (other : ℕ) → other ≢ file →
            file_of self.new.files other ≡ file_of self.old.files other }
        ensures cause { HasOutCause self.old.faults self.new.faults result }
        ensures fails { IsErrOf result OutFault.Failed ↔ Contains self.old.failing self.old.call }
        ensures nothing { IsErrOf result OutFault.Failed → self.new.files ≡ self.old.files }
        ensures call { self.new.call ≡ min (self.old.call + 1) (2 ^ 64 - 1) }
        ensures failing { self.new.failing ≡ self.old.failing }
        ensures faults { IsErrOf result OutFault.Failed →
            self.new.faults ≡ min (self.old.faults + 1) (2 ^ 64 - 1) }
        ensures no_fault { OnOk result (self.new.faults ≡ self.old.faults) }
        ensures no_memory { IsErrOf result OutFault.NoMemory → self.new.faults ≡ self.old.faults }
    {
        if fails_now(&mut self.call, &self.failing, &mut self.faults) {
            return Err(OutFault::Failed);
        }
        self.inner.write_at(file, at, bytes)?;
        Ok(())
    }

    #[tactic(auto, using(crate::proofs::Unchanged::not_cut))]
    fn cut(&mut self, file: u32, len: u64) -> Result<(), OutFault>
        requires { len ≤ length (file_of self.old.files file) }
        ensures cut { OnOk result (file_of self.new.files file
            ≡ take len (file_of self.old.files file)) }
        ensures short { IsErrOf result OutFault.Failed →
            CutShort len (file_of self.old.files file)
            (file_of self.new.files file) }
        ensures memory { IsErrOf result OutFault.NoMemory →
            file_of self.new.files file ≡ file_of self.old.files file }
        ensures others { (other : ℕ) → other ≢ file →
            file_of self.new.files other ≡ file_of self.old.files other }
        ensures cause { HasOutCause self.old.faults self.new.faults result }
        ensures fails { IsErrOf result OutFault.Failed ↔ Contains self.old.failing self.old.call }
        ensures nothing { IsErrOf result OutFault.Failed → self.new.files ≡ self.old.files }
        ensures call { self.new.call ≡ min (self.old.call + 1) (2 ^ 64 - 1) }
        ensures failing { self.new.failing ≡ self.old.failing }
        ensures faults { IsErrOf result OutFault.Failed →
            self.new.faults ≡ min (self.old.faults + 1) (2 ^ 64 - 1) }
        ensures no_fault { OnOk result (self.new.faults ≡ self.old.faults) }
        ensures no_memory { IsErrOf result OutFault.NoMemory → self.new.faults ≡ self.old.faults }
    {
        if fails_now(&mut self.call, &self.failing, &mut self.faults) {
            return Err(OutFault::Failed);
        }
        self.inner.cut(file, len)?;
        Ok(())
    }

    fn sync(&mut self, file: u32) -> Result<(), OutFault>
        ensures same { self.new.files ≡ self.old.files }
        ensures cause { HasOutCause self.old.faults self.new.faults result }
        ensures fails { IsErrOf result OutFault.Failed ↔ Contains self.old.failing self.old.call }
        ensures call { self.new.call ≡ min (self.old.call + 1) (2 ^ 64 - 1) }
        ensures failing { self.new.failing ≡ self.old.failing }
        ensures faults { IsErrOf result OutFault.Failed →
            self.new.faults ≡ min (self.old.faults + 1) (2 ^ 64 - 1) }
        ensures no_fault { OnOk result (self.new.faults ≡ self.old.faults) }
        ensures no_memory { IsErrOf result OutFault.NoMemory → self.new.faults ≡ self.old.faults }
    {
        if fails_now(&mut self.call, &self.failing, &mut self.faults) {
            return Err(OutFault::Failed);
        }
        self.inner.sync(file)?;
        Ok(())
    }

    fn faults(&self) -> u64 {
        self.faults
    }
}
