//! The injector of a site. It takes assembled epochs in order, and logs those that have something
//! to log: each is one transaction of the binlog, with a row of the index.
//!
//! An [`Injector`] represents the logged bodies (`StandsFor`), over a device that holds exactly
//! their log. After a fault it is gone; [`Injector::recover`] then recovers the log from the
//! device, with or without the epoch that was being logged. The crate uses the encoder of
//! epochs, the binlog files and the index; the cluster uses it.
#![tactic(auto)]

mod body;
mod fault;
mod injector;
mod row;

pub use fault::InjectFault;
pub use injector::Injector;
