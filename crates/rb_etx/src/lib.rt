//! An epoch as one transaction of the binary log: BEGIN, the maps of its tables, the apply-status
//! rows, a rows event for each change, and the XID.
//!
//! [`encode_epoch`] returns exactly the bytes that the definitions of the log give for the epoch at
//! that position, or an error if there are too many; [`size_of_epoch`] returns their number. It
//! uses the values, the definitions of the log, the writers of single events, and the writers of
//! the payloads of rows events. The injector uses it.
#![tactic(auto)]

mod epoch;
mod event;
mod fault;
mod size;
mod table;

pub use epoch::{encode_epoch, write_epoch};
pub use fault::EncodeFault;
pub use size::size_of_epoch;
