//! What a status means to a shell: the exit number of the process, and the line that it writes to
//! standard error before it exits.
//!
//! The contracts say that each status has the number and the line that the definitions give. The
//! statuses are those of the program; each process with a `main` uses this crate.
#![tactic(auto)]

mod ending;
#[cfg(test)]
mod tests;

pub use ending::{exit_number, print_status};
