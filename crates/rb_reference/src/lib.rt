//! Simple and slow programs that compute the definitions of the log one at a time, so that worked
//! examples can be run.
//!
//! The contract of each function is that its result is the value of one definition: the files of a
//! binlog with their rotation, its index rows, the index file, and the place at which the log
//! continues after an epoch. It uses the writers of events and of epochs. The program does not use
//! it: the program writes its log piece by piece to a device, with functions of its own.
#![tactic(auto)]

mod index;
mod layout;
mod row;

pub use index::{index_file, position_after};
pub use layout::{binlog_files, index_rows};
