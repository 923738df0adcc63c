//! The log device, which holds the binlog files and the index as numbered files of bytes: the trait
//! [`LogDisk`], a form in memory, and a form that fails at chosen calls.
//!
//! The one contract: a call changes only the file that it names. A call that succeeds does there
//! what its clauses say. A call that fails leaves the file unchanged outside the range that it
//! names. The count of faults never falls, and it has risen at `Failed`. The devices in memory say
//! exactly when theirs rises. The crate uses only `rb_base`; the binlog files, the index, the
//! injector, the cluster, the pair and the program use it.
#![tactic(auto)]

mod device;
mod failing;
mod fault;
mod lowest;
mod memory;

pub use device::LogDisk;
pub use failing::FailingDisk;
pub use fault::DiskLogFault;
pub use lowest::lowest_file;
pub use memory::MemoryDisk;
