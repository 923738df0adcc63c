use crate::change::Changes;
use crate::epoch::Epoch;
use crate::list::Items;
use crate::schema::MappedTables;

/// What the injector logs of one epoch: its number, the changes, the tables that they name, and at
/// the secondary the reflected epoch, if there is one.
#[derive(Debug, Drop)]
pub struct EpochBody {
    /// The site's server id.
    pub server: u32,
    pub epoch: Epoch,
    pub reflected: Option<Epoch>,
    /// The tables of the changes, in ascending order of their ids, each once.
    pub tables: MappedTables,
    pub changes: Changes,
}

pub type Bodies = Items<EpochBody>;

/// A bucket's part of one epoch: the changes of all its `Part` messages, by place.
pub type Part = Changes;

/// The parts of one epoch, bucket 0 first.
pub type Parts = Items<Part>;

/// A row of `mysql.ndb_binlog_index`: the place of an epoch in the binlog, and how many changes
/// the epoch has.
#[derive(Clone, Copy, Debug, PartialEq, Eq)]
pub struct IndexRow {
    pub epoch: Epoch,
    pub orig_epoch: Epoch,
    /// The position of the epoch's first event, in bytes from the start of `file`.
    pub position: u64,
    /// The position after the epoch's last event.
    pub next_position: u64,
    pub file: u32,
    pub next_file: u32,
    pub inserts: u32,
    pub updates: u32,
    pub deletes: u32,
    /// Always 0, since schemas never change.
    pub schemaops: u32,
    pub orig_server_id: u32,
    pub gci: u32,
}

pub type IndexRows = Items<IndexRow>;
