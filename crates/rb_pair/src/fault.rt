ghost use Rattle.std.specs.Prelude.{◌≡◌};
ghost use Rattle.rb_pair.specs.declared.fault.PairFault.TheVariants.{NoMemory as OutOfMemory};

use rb_base::{NoMemory, SiteId};
use std::alloc::AllocError;

/// Why a pair did not begin, or ended.
#[derive(Clone, Copy, Debug, PartialEq, Eq)]
pub enum PairFault {
    /// This file of the site's device is not empty, and its length in bytes is `length`. The pair
    /// did not begin.
    NotEmpty {
        site: SiteId,
        file: u32,
        length: u64,
    },
    /// The site's device failed, and its count of faults rose.
    DiskFault(SiteId),
    NoMemory,
}

impl From<NoMemory> for PairFault {
    ghost from_gives = { λ _ e. e ≡ OutOfMemory };

    fn from(_: NoMemory) -> Self {
        PairFault::NoMemory
    }
}

impl From<AllocError> for PairFault {
    ghost from_gives = { λ _ e. e ≡ OutOfMemory };

    fn from(_: AllocError) -> Self {
        PairFault::NoMemory
    }
}
