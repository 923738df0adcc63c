ghost use Rattle.std.specs.Prelude.{◌≡◌};
ghost use Rattle.rb_stream.specs.declared.fault.StreamFault.TheVariants.{NoMemory as StreamOutOfMemory};

use rb_base::{Field, NoMemory};
use std::alloc::{AllocError, AllocFailed};

/// The error of a decoder.
#[derive(Clone, Copy, Debug, PartialEq, Eq)]
pub enum StreamFault {
    /// This field is wrong in the event at this position, in bytes from the start of the file.
    BadEvent(u64, Field),
    NoMemory,
}

impl From<NoMemory> for StreamFault {
    ghost from_gives = { λ _ e. e ≡ StreamOutOfMemory };

    fn from(_: NoMemory) -> Self {
        StreamFault::NoMemory
    }
}

impl From<AllocError> for StreamFault {
    ghost from_gives = { λ _ e. e ≡ StreamOutOfMemory };

    fn from(_: AllocError) -> Self {
        StreamFault::NoMemory
    }
}

impl<T: Drop> From<AllocFailed<T>> for StreamFault {
    ghost from_gives = { λ _ e. e ≡ StreamOutOfMemory };

    fn from(_: AllocFailed<T>) -> Self {
        StreamFault::NoMemory
    }
}
