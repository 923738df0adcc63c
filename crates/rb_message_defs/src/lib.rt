//! The messages that data nodes send to the injector's event buffer, and the epochs that the buffer
//! can assemble from them.
//!
//! The definitions are in `specs/`, and laws about them in `proofs/`. The messages that are sent
//! follow from the journal. The messages that are received are a list, the newest first, and every
//! test on them is a test on that list. The types here are the results of the event buffer's calls.
#![tactic(auto)]

mod answers;

pub use answers::{Assembled, Missing, Received};
