//! The decoder of the binary log, which turns pieces of bytes into epochs.
//!
//! A [`Decoder`] represents the position at which it began, all bytes that it was fed, and the
//! events whose steps it has returned. Each result is what the definitions of reading give for all
//! those bytes, joined. It therefore does not depend on how the bytes were cut into pieces. It uses
//! the readers of single events; the readers of whole logs use it.
#![tactic(auto)]

mod content;
mod decoder;
mod epoch;
mod epoch_status;
mod fault;
mod order;
mod taking;
mod unread;

pub use decoder::Decoder;
pub use fault::StreamFault;
pub use rb_read_defs::Step;
