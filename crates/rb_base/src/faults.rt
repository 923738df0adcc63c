ghost use Rattle.std.specs.Prelude.{◌≡◌};
ghost use Rattle.rb_base.specs.declared.faults.OutFault.TheVariants.{NoMemory as OutOfMemory};
ghost use Rattle.rb_base.specs.declared.faults.CodecFault.TheVariants.{NoMemory as CodecOutOfMemory};

use crate::memory::NoMemory;
use std::alloc::{AllocError, AllocFailed};

/// The error of a source that failed.
#[derive(Clone, Copy, Debug, PartialEq, Eq)]
pub struct Failed;

/// The error of a sink or a device.
#[derive(Clone, Copy, Debug, PartialEq, Eq)]
pub enum OutFault {
    /// The object failed, and its count of faults rose.
    Failed,
    /// The object itself ran out of memory. It is unchanged, and so is its count of faults.
    NoMemory,
}

impl From<NoMemory> for OutFault {
    ghost from_gives = { λ _ e. e ≡ OutOfMemory };

    fn from(_: NoMemory) -> Self {
        OutFault::NoMemory
    }
}

impl From<AllocError> for OutFault {
    ghost from_gives = { λ _ e. e ≡ OutOfMemory };

    fn from(_: AllocError) -> Self {
        OutFault::NoMemory
    }
}

impl<T: Drop> From<AllocFailed<T>> for OutFault {
    ghost from_gives = { λ _ e. e ≡ OutOfMemory };

    fn from(_: AllocFailed<T>) -> Self {
        OutFault::NoMemory
    }
}

/// The field of a binlog event that is wrong.
#[derive(Clone, Copy, Debug, PartialEq, Eq)]
pub enum Field {
    Magic,
    EventType,
    EventSize,
    EndPosition,
    Order,
    Version,
    HeaderLength,
    PostHeader,
    QueryText,
    TableId,
    Columns,
    ColumnType,
    Metadata,
    Extra,
    Width,
    Present,
    Null,
    Length,
    Key,
    Status,
    AfterRotate,
    Limit,
}

/// The error of reading a part of an event.
#[derive(Clone, Copy, Debug, PartialEq, Eq)]
pub enum CodecFault {
    /// The field that starts at this place does not end within the bytes.
    Short(usize),
    /// The field that starts at this place is complete and wrong.
    BadField(usize, Field),
    NoMemory,
}

impl From<NoMemory> for CodecFault {
    ghost from_gives = { λ _ e. e ≡ CodecOutOfMemory };

    fn from(_: NoMemory) -> Self {
        CodecFault::NoMemory
    }
}

/// The result of reading a length-encoded number.
#[derive(Clone, Copy, Debug, PartialEq, Eq)]
pub enum LengthRead {
    /// The number and the place after it.
    Number(u64, usize),
    /// The number does not end within the bytes.
    Short,
    /// The first byte is `fb` or `ff`, which begin no number.
    Wrong,
}
