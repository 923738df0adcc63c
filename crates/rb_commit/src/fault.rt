ghost use Rattle.std.specs.Prelude.{◌≡◌};
ghost use Rattle.rb_commit.specs.declared.fault.TxFault.TheVariants.{NoMemory as OutOfMemory};

use rb_base::NoMemory;

/// Why a client's transaction is refused. Each number is that of the first bad operation, counted
/// from 0.
#[derive(Clone, Copy, Debug, PartialEq, Eq)]
pub enum TxFault {
    /// The operation names a row that an earlier operation of the transaction named.
    RowTwice(u32),
    /// The operation inserts a key that has a row.
    KeyThere(u32),
    /// The operation updates or removes a key that has no row.
    NoKey(u32),
    NoMemory,
}

impl From<NoMemory> for TxFault {
    ghost from_gives = { λ _ e. e ≡ OutOfMemory };

    fn from(_: NoMemory) -> Self {
        TxFault::NoMemory
    }
}
