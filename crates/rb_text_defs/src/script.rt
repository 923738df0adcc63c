use rb_base::{Event, Items, Setup};

/// A limit that a line of a script may exceed. The description of the script language states each
/// of them.
#[derive(Clone, Copy, Debug, PartialEq, Eq)]
pub enum Limit {
    /// The length of the script in bytes.
    Bytes,
    /// The number of lines, skipped lines included.
    Lines,
    Tables,
    /// The number of columns of a table, without its key.
    Columns,
    /// The length in bytes of a table's longest row.
    RowBytes,
    /// The number of node groups of a site.
    Groups,
    /// The number of nodes in a group.
    Replicas,
    /// The length in bytes from which a site's binlog files are rotated.
    LogLimit,
    /// The number of changes of one transaction.
    TxChanges,
    /// The number of changes of all transactions.
    Changes,
    /// A bound on what the run keeps and sends: the number of changes, plus 32 for each close,
    /// times how often all of them may be sent.
    Work,
}

/// The reason for which a line is refused.
#[derive(Clone, Copy, Debug, PartialEq, Eq)]
pub enum ScriptKind {
    /// The line has none of the language's forms.
    Syntax,
    /// The line does not fit the lines before it.
    Setup,
    /// The line exceeds this limit.
    Limit(Limit),
}

/// A refused line by its number, counted from 1. Line 0 means the whole script.
#[derive(Clone, Copy, Debug, PartialEq, Eq)]
pub struct BadLine {
    pub line: u32,
    pub kind: ScriptKind,
}

/// An event with the number of its line.
#[derive(Debug, Drop)]
pub struct LinedEvent {
    pub line: u32,
    pub event: Event,
}

pub type LinedEvents = Items<LinedEvent>;

/// A script: its setup, and its events in order.
#[derive(Debug, Drop)]
pub struct Script {
    pub setup: Setup,
    pub events: LinedEvents,
}
