ghost use Rattle.std.specs.Prelude.{◌≡◌};
ghost use Rattle.rb_top.specs.ReadLoop.{read_fault_of};
ghost use Rattle.rb_top.specs.declared.fault.ReadLogFault.TheVariants.{ReadFault as SourceFailed, NoMemory as OutOfMemory};

use rb_base::{Failed, Field, NoMemory, OutFault};
use std::alloc::AllocError;

/// Why a log was not read to its end.
#[derive(Clone, Copy, Debug, PartialEq, Eq)]
pub(crate) enum ReadLogFault {
    /// The event at `position`, in bytes from the log's start, is bad: `field` is its first wrong
    /// field.
    BadLog { position: u64, field: Field },
    /// The source failed, and its count of faults rose.
    ReadFault,
    /// The sink failed, and its count of faults rose.
    WriteFault,
    NoMemory,
}

impl From<Failed> for ReadLogFault {
    ghost from_gives = { λ _ e. e ≡ SourceFailed };

    fn from(_: Failed) -> Self {
        ReadLogFault::ReadFault
    }
}

impl From<OutFault> for ReadLogFault {
    ghost from_gives = { λ fault e. e ≡ read_fault_of fault };

    fn from(fault: OutFault) -> Self {
        match fault {
            OutFault::Failed => ReadLogFault::WriteFault,
            OutFault::NoMemory => ReadLogFault::NoMemory,
        }
    }
}

impl From<NoMemory> for ReadLogFault {
    ghost from_gives = { λ _ e. e ≡ OutOfMemory };

    fn from(_: NoMemory) -> Self {
        ReadLogFault::NoMemory
    }
}

impl From<AllocError> for ReadLogFault {
    ghost from_gives = { λ _ e. e ≡ OutOfMemory };

    fn from(_: AllocError) -> Self {
        ReadLogFault::NoMemory
    }
}
