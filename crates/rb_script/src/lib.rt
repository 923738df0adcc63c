//! The parser of scripts: it turns the bytes of a script into a setup and events.
//!
//! Its contract: a script is accepted exactly if the definitions give one for its bytes, and the
//! result is that one. Otherwise the line and the kind are those of the first line that the
//! definitions refuse. Parsing is one pass, in time linear in the bytes, and ends at the first bad
//! line. It uses the types and definitions of scripts; the program plays the events.
#![tactic(auto)]

mod before;
mod byte;
mod column;
mod cut;
mod fault;
mod form;
mod limit;
mod lines;
mod operation;
mod reading;
mod table;
mod word;

pub use fault::ParseFault;
pub use limit::MOST_SCRIPT_BYTES;
pub use lines::parse;
pub use rb_text_defs::{BadLine, Limit, LinedEvent, LinedEvents, Script, ScriptKind};
