ghost use Rattle.std.specs.Prelude.{◌≡◌};
ghost use Rattle.rb_etx.specs.declared.fault.EncodeFault.TheVariants.{NoMemory as OutOfMemory};

use rb_base::NoMemory;
use std::alloc::AllocError;

/// The error of encoding an epoch.
#[derive(Clone, Copy, Debug, PartialEq, Eq)]
pub enum EncodeFault {
    /// The epoch's length, which is this number of bytes, is more than 2147483647.
    TooLarge(u64),
    NoMemory,
}

impl From<NoMemory> for EncodeFault {
    ghost from_gives = { λ _ e. e ≡ OutOfMemory };

    fn from(_: NoMemory) -> Self {
        EncodeFault::NoMemory
    }
}

impl From<AllocError> for EncodeFault {
    ghost from_gives = { λ _ e. e ≡ OutOfMemory };

    fn from(_: AllocError) -> Self {
        EncodeFault::NoMemory
    }
}
