//! The program. It reads a script, runs it over two sites and their log devices, and prints the
//! report; or it reads a log and prints its epochs.
//!
//! [`top`] carries the project's theorem: what the sink and the device hold at each status, and
//! when each status comes. It uses the parser, the pair of sites, the printer and the edges; the
//! program's `main` uses it.
#![tactic(auto)]

mod fault;
mod play;
mod program;
mod read;
mod run;
mod status;
mod words;

pub use program::top;
pub use status::Status;
