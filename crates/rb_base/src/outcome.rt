use crate::epoch::Epoch;
use crate::list::Items;
use crate::site::SiteId;

/// An event of a binlog file, as the event `dump` of a script lists it.
#[derive(Clone, Copy, Debug, PartialEq, Eq)]
pub struct Listed {
    pub file: u32,
    pub position: u64,
    pub kind: u8,
    pub size: u32,
    pub end: u32,
}

pub type ListedEvents = Items<Listed>;

/// The outcome of an event of a script. `sent` is the length of the site's Sent list after the
/// event. A `place` of `None` means the bucket's Done.
#[derive(Debug, Drop)]
pub enum Outcome {
    Committed {
        transid: u64,
        epoch: Epoch,
        sent: u64,
    },
    /// The change with this number names a row that an earlier change of its transaction named.
    RowTwice(u32),
    /// The change with this number inserts a key that is present.
    KeyThere(u32),
    /// The change with this number updates or removes a key that is absent.
    NoKey(u32),
    Closed {
        epoch: Epoch,
        sent: u64,
    },
    Kept,
    Known,
    Old,
    NoMessage {
        place: u64,
        sent: u64,
    },
    Delivered {
        kept: u64,
        known: u64,
        old: u64,
    },
    Wrote {
        count: u64,
        written: Epoch,
        bucket: u32,
        place: Option<u32>,
    },
    Logged {
        kept: u64,
        known: u64,
        old: u64,
        count: u64,
        written: Epoch,
        bucket: u32,
        place: Option<u32>,
    },
    Failed {
        takeover: u32,
        sent: u64,
    },
    Lost {
        group: u32,
        epoch: Epoch,
    },
    NodeDown(u32),
    Restarted {
        since: Epoch,
    },
    NodeUp(u32),
    Resent {
        sent: u64,
    },
    Recovered {
        written: Epoch,
        sent: u64,
    },
    Taken {
        file: u32,
        position: u64,
    },
    NotNext {
        file: u32,
        position: u64,
    },
    Applied {
        epoch: Epoch,
        accepted: u32,
        rejected: u32,
        refreshed: u32,
        sent: u64,
    },
    Nothing,
    Flowed {
        count: u64,
        file: u32,
        position: u64,
    },
    ApplierAt {
        file: u32,
        position: u64,
    },
    Dumped {
        files: u32,
        events: ListedEvents,
    },
    Drained,
    DrainLost {
        site: SiteId,
        group: u32,
        epoch: Epoch,
    },
    SiteLost {
        group: u32,
        epoch: Epoch,
    },
}
