//! `mysql.ndb_binlog_index` of a site, in file 0 of its log device: the place of each epoch in the
//! binlog.
//!
//! An [`EpochIndex`] is seen as the list of its rows, the oldest first. File 0 has their records,
//! each after a gate. A row counts once its gate is open, and the gate is opened by a write of its
//! own after the record is synced. It uses the log device and the definitions of the index; the
//! injector uses it.
#![tactic(auto)]

mod index;
mod record;

pub use index::EpochIndex;
