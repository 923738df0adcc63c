ghost use Rattle.std.specs.Prelude.{◌≡◌, ◌≢◌, ◌<◌, ◌≤◌, ◌+◌, ◌-◌, ◌^◌, ℕ, [], length, take, slice_range, slice_index_or, IsOk, OnOk, OnErr, IsErrOf};
ghost use Rattle.rb_base.specs.Faults.{HasCause, HasOutCause};
ghost use Rattle.rb_disk.specs.Disk.{Holds, Torn, CutShort};
ghost use Rattle.rb_disk.specs.Memory.{file_of, file_count, no_files};

use crate::device::LogDisk;
use rb_base::{Failed, NoMemory, OutFault};
use std::alloc::Global;
use std::marker::Model;

#[derive(Debug, Drop)]
struct File {
    held: Vec<u8>,
}

impl Model for File {
    ghost use Rattle.std.specs.Prelude.{ℕ, List};
    ghost use Rattle.std.specs.Coded.{coded_list, coded_ℕ};

    ghost Value = { List ℕ };

    ghost coded = { coded_list coded_ℕ };

    ghost view = { λ file. file.held.items };
}

/// A log device in memory that never fails. A write allocates before it changes anything. A write
/// at the end of a file costs time in proportion to the bytes written, not to the file.
#[derive(Debug, Drop)]
pub struct MemoryDisk {
    alloc: Global,
    files: Vec<File>,
}

impl Model for MemoryDisk {
    ghost use Rattle.std.specs.Prelude.{◌<◌, ◌^◌, length};
    ghost use Rattle.rb_disk.specs.Memory.{MemoryFiles};

    ghost Value = { MemoryFiles };

    ghost view = { λ disk. disk.files.items };

    ghost invariant = { λ disk. length disk.files.items < 2 ^ 32 };
}

impl MemoryDisk {
    /// Creates a device whose files are all empty.
    pub fn new(alloc: Global) -> MemoryDisk
        ensures { result ≡ no_files }
    {
        MemoryDisk {
            alloc,
            files: Vec::new(alloc),
        }
    }

    /// Returns the bytes of a file.
    pub fn file(&self, number: u32) -> &[u8]
        ensures { result.now ≡ file_of self.now number }
    {
        match self.files.get(number as usize) {
            Some(file) => &file.held,
            None => &[],
        }
    }
}

impl LogDisk for MemoryDisk {
    ghost seen = { λ disk file. file_of disk file };

    ghost fault_count = { λ _. 0 };

    fn files(&self) -> u32
        ensures empty { (file : ℕ) → result ≤ file → file_of self.now file ≡ [] }
        ensures count { result ≡ file_count self.now }
    {
        self.files.len() as u32
    }

    fn len(&self, file: u32) -> u64 {
        self.file(file).len() as u64
    }

    fn read(&mut self, file: u32, at: u64, into: &mut [u8]) -> Result<(), Failed>
        requires { at + length into.old ≤ length (file_of self.old file) }
        ensures bytes { OnOk result (into.new
            ≡ slice_range (file_of self.old file) at (at + length into.old)) }
        ensures same { self.new ≡ self.old }
        ensures cause { HasCause 0 0 result }
        ensures never_fails { IsOk result }
    {
        let rest = &self.file(file)[at as usize..];
        into.copy_from_slice(&rest[..into.len()]);
        Ok(())
    }

    fn write_at(&mut self, file: u32, at: u64, bytes: &[u8]) -> Result<(), OutFault>
        requires place { at ≤ length (file_of self.old file) }
        requires number { file < 2 ^ 32 - 1 }
        ensures written { OnOk result (Holds (file_of self.old file) at bytes.now
            (file_of self.new file)) }
        ensures torn { IsErrOf result OutFault.Failed →
            Torn at (length bytes.now) (file_of self.old file)
            (file_of self.new file) }
        ensures memory { IsErrOf result OutFault.NoMemory →
            file_of self.new file ≡ file_of self.old file }
        ensures others { (other : ℕ) → other ≢ file →
            file_of self.new other ≡ file_of self.old other }
        ensures cause { HasOutCause 0 0 result }
        ensures never_fails { IsErrOf result OutFault.Failed → ⊥ }
    {
        let number = file as usize;
        make_files(self.alloc, &mut self.files, number + 1)?;
        let file = &mut self.files[number];
        overwrite(&mut file.held, at as usize, bytes)?;
        Ok(())
    }

    fn cut(&mut self, file: u32, len: u64) -> Result<(), OutFault>
        requires { len ≤ length (file_of self.old file) }
        ensures cut { OnOk result (file_of self.new file
            ≡ take len (file_of self.old file)) }
        ensures short { IsErrOf result OutFault.Failed →
            CutShort len (file_of self.old file) (file_of self.new file) }
        ensures memory { IsErrOf result OutFault.NoMemory →
            file_of self.new file ≡ file_of self.old file }
        ensures others { (other : ℕ) → other ≢ file →
            file_of self.new other ≡ file_of self.old other }
        ensures cause { HasOutCause 0 0 result }
        ensures never_fails { IsOk result }
    {
        let number = file as usize;
        if number < self.files.len() {
            let file = &mut self.files[number];
            file.held.truncate(len as usize);
        }
        Ok(())
    }

    fn sync(&mut self, _file: u32) -> Result<(), OutFault>
        ensures same { self.new ≡ self.old }
        ensures cause { HasOutCause 0 0 result }
        ensures never_fails { IsOk result }
    {
        Ok(())
    }

    fn faults(&self) -> u64
        ensures { result ≡ 0 }
    {
        0
    }
}

// Appends empty files to `files` until there are at least `count`.
fn make_files(alloc: Global, files: &mut Vec<File>, count: usize) -> Result<(), NoMemory>
    requires { length files.old.items < 2 ^ 32 × (count < 2 ^ 32) }
    ensures ok { OnOk result (count ≤ length files.new.items) }
    ensures few { length files.new.items < 2 ^ 32 }
    ensures same { (other : ℕ) → slice_index_or files.new.items other []
        ≡ slice_index_or files.old.items other [] }
{
    while files.len() < count {
        files.push(File {
            held: Vec::new(alloc),
        })?;
    }
    Ok(())
}

// Overwrites the bytes of `held` from `at` on, and extends `held` if the write ends after its end.
fn overwrite(held: &mut Vec<u8>, at: usize, bytes: &[u8]) -> Result<(), NoMemory>
    requires { at ≤ length held.old.items }
    ensures ok { OnOk result (Holds held.old.items at bytes.now held.new.items) }
    ensures err { OnErr result (held.new.items ≡ held.old.items) }
{
    let inside = bytes.len().min(held.len() - at);
    held.extend_from_slice(&bytes[inside..])?;
    held[at..at + inside].copy_from_slice(&bytes[..inside]);
    Ok(())
}
