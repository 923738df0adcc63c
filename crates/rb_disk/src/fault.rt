ghost use Rattle.std.specs.Prelude.{◌≡◌};
ghost use Rattle.rb_disk.specs.Fault.{fault_of};
ghost use Rattle.rb_disk.specs.declared.fault.DiskLogFault.TheVariants.{DiskFault as DeviceFailed, NoMemory as OutOfMemory};

use rb_base::{Failed, NoMemory, OutFault};
use std::alloc::{AllocError, AllocFailed};

/// The error of a log on a device.
#[derive(Clone, Copy, Debug, PartialEq, Eq)]
pub enum DiskLogFault {
    /// The device failed, and its count of faults rose.
    DiskFault,
    /// Memory ran out, in this process or in the device.
    NoMemory,
}

impl From<OutFault> for DiskLogFault {
    ghost from_gives = { λ fault e. e ≡ fault_of fault };

    fn from(fault: OutFault) -> Self {
        match fault {
            OutFault::Failed => DiskLogFault::DiskFault,
            OutFault::NoMemory => DiskLogFault::NoMemory,
        }
    }
}

impl From<Failed> for DiskLogFault {
    ghost from_gives = { λ _ e. e ≡ DeviceFailed };

    fn from(_: Failed) -> Self {
        DiskLogFault::DiskFault
    }
}

impl From<NoMemory> for DiskLogFault {
    ghost from_gives = { λ _ e. e ≡ OutOfMemory };

    fn from(_: NoMemory) -> Self {
        DiskLogFault::NoMemory
    }
}

impl From<AllocError> for DiskLogFault {
    ghost from_gives = { λ _ e. e ≡ OutOfMemory };

    fn from(_: AllocError) -> Self {
        DiskLogFault::NoMemory
    }
}

impl<T: Drop> From<AllocFailed<T>> for DiskLogFault {
    ghost from_gives = { λ _ e. e ≡ OutOfMemory };

    fn from(_: AllocFailed<T>) -> Self {
        DiskLogFault::NoMemory
    }
}
