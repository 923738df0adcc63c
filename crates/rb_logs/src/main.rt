//! A second program over the same call. It runs a script over two devices in memory, drops the
//! report, and prints the files of both devices, byte by byte.
//!
//! Its contracts say that the words are those of a run, and that the text printed is exactly the
//! one that the definitions give for two devices. [`rb_top::top`] carries the theorem.
#![tactic(auto)]

ghost use Rattle.std.specs.Prelude.{◌≡◌, ◌∷◌, [], codes, IfOk};

mod dump;
mod print;
#[cfg(test)]
mod tests;

use crate::print::print_files;
use rb_base::{Bytes, NoMemory, OutFault};
use rb_disk::MemoryDisk;
use rb_ending::{exit_number, print_status};
use rb_io::{StdSink, StdSource, SteadySink};
use rb_top::{Status, top};
use std::alloc::Global;
use std::io::{Read, Write};
use std::process::ExitCode;
use std::thread::Threads;

fn main(rt: HostRuntime) -> ExitCode {
    let status = run(&rt, rt.stdin(), rt.stdout());
    // If standard error fails too, only the exit number is left to report the failure.
    let _ = print_status(rt.alloc(), &mut StdSink::new(rt.stderr()), status);
    ExitCode::from(exit_number(status))
}

// Runs the script on the input, and prints the files that it left.
fn run<R, I, O>(rt: &R, input: I, output: O) -> Status
where
    R: Threads + Sync + AllocGlobal,
    I: Read + Drop,
    O: Write + Drop,
{
    let mut disk_a = MemoryDisk::new(rt.alloc());
    let mut disk_b = MemoryDisk::new(rt.alloc());
    let status = run_script(rt, input, &mut disk_a, &mut disk_b);
    if status != Status::Done {
        return status;
    }
    match print_files(rt.alloc(), &disk_a, &disk_b, &mut StdSink::new(output)) {
        Ok(()) => Status::Done,
        Err(OutFault::Failed) => Status::WriteFault,
        Err(OutFault::NoMemory) => Status::NoMemory,
    }
}

// Runs the script on the input over these devices. The report is dropped.
fn run_script<R, I>(rt: &R, input: I, disk_a: &mut MemoryDisk, disk_b: &mut MemoryDisk) -> Status
where
    R: Threads + Sync + AllocGlobal,
    I: Read + Drop,
{
    let Ok(words) = run_words(rt.alloc()) else {
        return Status::NoMemory;
    };
    let mut report = SteadySink::new(rt.alloc());
    top(
        rt,
        rt.alloc(),
        &words,
        &mut StdSource::new(input),
        &mut report,
        disk_a,
        disk_b,
    )
}

// Returns the words of a run: the one word `run`.
fn run_words(alloc: Global) -> Result<Vec<Bytes>, NoMemory>
    ensures { IfOk result (λ words. words.items ≡ codes "run" ∷ []) }
{
    let mut words = Vec::new(alloc);
    words.push(Bytes::from_vec(Vec::from_slice(alloc, b"run")?))?;
    Ok(words)
}
