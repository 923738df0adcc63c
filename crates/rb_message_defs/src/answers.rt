use rb_base::{Epoch, Parts};

/// What an event buffer does with a message that it receives.
#[derive(Clone, Copy, Debug, PartialEq, Eq)]
pub enum Received {
    /// The buffer keeps it: it is the first message for its bucket, epoch and place.
    Kept,
    /// The buffer drops it: an earlier message had the same bucket, epoch and place.
    Known,
    /// The buffer drops it: its epoch is at or below the last taken epoch.
    Old,
}

/// The first message that an event buffer lacks of its next epoch: a place of a bucket, or the
/// bucket's Done, which is the place `None`.
#[derive(Clone, Copy, Debug, PartialEq, Eq)]
pub struct Missing {
    pub bucket: u32,
    pub place: Option<u32>,
}

/// A whole epoch: its number; the epoch that was closed before it, or 0; and its parts, bucket 0
/// first.
#[derive(Debug, Drop)]
pub struct Assembled {
    pub epoch: Epoch,
    pub prev: Epoch,
    pub parts: Parts,
}
