//! The event buffer of the injector: it assembles epochs from the messages of data nodes.
//!
//! A buffer represents what it was fed (`StandsFor`): the last epoch taken from it, and all
//! messages that it received. Each result is a fact on those.
#![tactic(auto)]

mod buffer;
mod epoch;
mod gathered;

pub use buffer::EventBuffer;
pub use rb_message_defs::{Assembled, Missing, Received};
