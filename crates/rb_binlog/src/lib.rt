//! The binlog files of a site on its log device, numbered from 1. Bytes are appended to the last
//! one, and it is rotated when it reaches a limit.
//!
//! A [`BinlogFiles`] represents a binlog of the definitions (`StandsFor`): the full files, and the
//! last one. The contract of each call gives the binlog after it, and what a fault leaves. The
//! crate uses the log device, the writers of single events and the definitions of the log; the
//! injector uses it.
#![tactic(auto)]

mod append;
mod binlog;
mod cut;
mod rotate;
mod start;

pub use binlog::BinlogFiles;
