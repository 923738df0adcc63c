ghost use Rattle.std.specs.Prelude.{◌≡◌};
ghost use Rattle.rb_inject.specs.Fault.{inject_fault_of, too_large_of};
ghost use Rattle.rb_inject.specs.declared.fault.InjectFault.TheVariants.{NoMemory as OutOfMemory};

use rb_base::NoMemory;
use rb_disk::DiskLogFault;
use rb_etx::EncodeFault;

/// Why an epoch was not logged, or a log not begun.
#[derive(Clone, Copy, Debug, PartialEq, Eq)]
pub enum InjectFault {
    /// A log begins on an empty device only. This file, the lowest that is not empty, has `length`
    /// bytes.
    NotEmpty { file: u32, length: u64 },
    /// The epoch would take this many bytes, more than 2147483647. The device was not touched.
    TooLarge(u64),
    /// The device failed, and its count of faults rose.
    DiskFault,
    NoMemory,
}

impl From<DiskLogFault> for InjectFault {
    ghost from_gives = { λ fault e. e ≡ inject_fault_of fault };

    fn from(fault: DiskLogFault) -> Self {
        match fault {
            DiskLogFault::DiskFault => InjectFault::DiskFault,
            DiskLogFault::NoMemory => InjectFault::NoMemory,
        }
    }
}

impl From<EncodeFault> for InjectFault {
    ghost from_gives = { λ fault e. e ≡ too_large_of fault };

    fn from(fault: EncodeFault) -> Self {
        match fault {
            EncodeFault::TooLarge(size) => InjectFault::TooLarge(size),
            EncodeFault::NoMemory => InjectFault::NoMemory,
        }
    }
}

impl From<NoMemory> for InjectFault {
    ghost from_gives = { λ _ e. e ≡ OutOfMemory };

    fn from(_: NoMemory) -> Self {
        InjectFault::NoMemory
    }
}
