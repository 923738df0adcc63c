//! Laws over whole runs that relate two languages: the meaning of a run's script, and the reading
//! of its log.
//!
//! The definitions are those of a script's run and of the reading of a log. `specs/Files` adds the
//! relation between binlog files and the epochs that a reader gets from them. The laws are in
//! `law`.
#![tactic(auto)]

pub mod law;
