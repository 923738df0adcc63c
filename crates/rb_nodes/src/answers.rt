use rb_base::Epoch;

/// What the failure of a node did.
#[derive(Clone, Copy, Debug, PartialEq, Eq)]
pub enum NodeFailure {
    /// This many buckets have a new owner, which resent what is unacknowledged of them.
    Takeover(u32),
    /// No other node of this group covers: the group is lost, and this epoch was needed.
    Lost { group: u32, epoch: Epoch },
}
