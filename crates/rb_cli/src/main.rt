//! The program. It hands the process's arguments, its standard streams and two devices in memory to
//! [`rb_top::top`], and exits with the number that the status has for a shell.
//!
//! Its one contract is that the words are the process's arguments. The call of the program carries
//! the theorem.
#![tactic(auto)]

mod arguments;
#[cfg(test)]
mod tests;

use crate::arguments::arguments;
use rb_disk::MemoryDisk;
use rb_ending::{exit_number, print_status};
use rb_io::{StdSink, StdSource};
use rb_top::{Status, top};
use std::env::Env;
use std::io::{Read, Write};
use std::process::ExitCode;
use std::thread::Threads;

fn main(rt: HostRuntime) -> ExitCode {
    let status = run(&rt, rt.stdin(), rt.stdout());
    // If standard error fails too, only the exit number is left to report the failure.
    let _ = print_status(rt.alloc(), &mut StdSink::new(rt.stderr()), status);
    ExitCode::from(exit_number(status))
}

// Runs the program with the process's words and streams. Output is written through: std buffers
// none of it.
fn run<R, I, O>(rt: &R, input: I, output: O) -> Status
where
    R: Threads + Sync + Env + AllocGlobal,
    I: Read + Drop,
    O: Write + Drop,
{
    let words = match arguments(rt) {
        Ok(words) => words,
        Err(status) => return status,
    };
    let mut disk_a = MemoryDisk::new(rt.alloc());
    let mut disk_b = MemoryDisk::new(rt.alloc());
    top(
        rt,
        rt.alloc(),
        &words,
        &mut StdSource::new(input),
        &mut StdSink::new(output),
        &mut disk_a,
        &mut disk_b,
    )
}
