//! The languages of input and output: the script that the program runs, the report that it prints,
//! and the text of a log that it reads.
//!
//! The definitions are in `specs/`, over whole lists of lines and words. The types here are those
//! of a script. The parser and the printer cite the definitions.
#![tactic(auto)]

mod script;

pub use script::{BadLine, Limit, LinedEvent, LinedEvents, Script, ScriptKind};
