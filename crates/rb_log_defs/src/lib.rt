//! The binary log as it is written: events, row images, epochs, files with their rotation, and
//! index rows.
//!
//! The definitions are in `specs/`; each file names the public format that it follows. Laws about
//! them are in `proofs/`. The functions of [`worked`] compute the definitions on worked examples:
//! each has an empty body, and its contract states the result. The writers, the injector and the
//! top call cite the definitions.
#![tactic(auto)]

mod worked;

pub use worked::{an_empty_log, empty_epochs, rotation, the_ends_of_texts, the_first_path};
