//! Sources and sinks of bytes: the traits [`Source`] and [`Sink`], their forms in memory and over
//! std's readers and writers, and calls that read or write everything.
//!
//! The one contract: a call reads or writes exactly the bytes that it reports, in order, and
//! returns a failure only if its object's count of faults rose. The crate uses only `rb_base`; the
//! programs use it.
#![tactic(auto)]

mod memory_sink;
mod memory_source;
mod prefix;
mod sink;
mod source;
mod standard;
mod steady;
mod whole;

pub use memory_sink::MemorySink;
pub use memory_source::MemorySource;
pub use sink::Sink;
pub use source::Source;
pub use standard::{StdSink, StdSource};
pub use steady::{SteadySink, SteadySource};
pub use whole::{ReadAllFault, read_all, write_all};
