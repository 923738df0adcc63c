ghost use Rattle.std.specs.Prelude.{◌≡◌};
ghost use Rattle.rb_group.specs.declared.answers.GroupFault.TheVariants.{NoMemory as OutOfMemory};

use rb_base::{Epoch, NoMemory, SentList};

/// What the failure of a node did.
#[derive(Debug, Drop)]
pub enum FailOutcome {
    /// This many buckets got a new owner, which resends these messages.
    Takeover(u32, SentList),
    /// No other node of this group covers: the group is lost, and this epoch was needed.
    Lost { group: u32, epoch: Epoch },
}

/// Why a node did not fail or restart. The group is unchanged.
#[derive(Clone, Copy, Debug, PartialEq, Eq)]
pub enum GroupFault {
    /// This node is down already.
    NodeDown(u32),
    /// This node is up already.
    NodeUp(u32),
    NoMemory,
}

impl From<NoMemory> for GroupFault {
    ghost from_gives = { λ _ e. e ≡ OutOfMemory };

    fn from(_: NoMemory) -> Self {
        GroupFault::NoMemory
    }
}
