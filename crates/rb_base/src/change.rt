ghost use Rattle.std.specs.Prelude.{◌≡◌, IfOk};

use crate::epoch::Epoch;
use crate::list::Items;
use crate::memory::NoMemory;
use crate::row::Row;
use std::alloc::Global;

/// The kind of a change, one for each of the three kinds of rows events.
#[derive(Clone, Copy, Debug, PartialEq, Eq)]
pub enum Kind {
    Insert,
    Update,
    Remove,
}

/// A change of one row.
#[derive(Debug, Drop)]
pub struct Change {
    /// The number of the table: 0 for the apply-status table, otherwise its place among the
    /// script's declarations, counted from 1.
    pub table: u16,
    /// The row's key, which is value 0 of each row image.
    pub key: u64,
    pub kind: Kind,
    /// The before image. An insert has none.
    pub before: Option<Row>,
    /// The after image. A remove has none.
    pub after: Option<Row>,
    /// The server id of the site whose client or applier made the change.
    pub author: u32,
    /// The transaction's number at its author, counted from 1.
    pub transid: u64,
}

pub type Changes = Items<Change>;

impl Change {
    /// Returns an equal change.
    pub fn copy(&self, alloc: Global) -> Result<Change, NoMemory>
        ensures { IfOk result (λ copy. copy ≡ self.now) }
    {
        Ok(Change {
            table: self.table,
            key: self.key,
            kind: self.kind,
            before: Row::copy_of(alloc, &self.before)?,
            after: Row::copy_of(alloc, &self.after)?,
            author: self.author,
            transid: self.transid,
        })
    }
}

/// The reason for which a change was rejected, as in the column `NDB$CFT_CAUSE` of an exceptions
/// table.
#[derive(Clone, Copy, Debug, PartialEq, Eq)]
pub enum Cause {
    DataInConflict,
    RowAlreadyExists,
    RowDoesNotExist,
    TransInConflict,
}

/// A row of an exceptions table `T$EX`: the site that rejected the change, the server and epoch
/// from which it came, a count that rises from 1, the cause and the change.
#[derive(Debug, Drop)]
pub struct ExceptionRow {
    pub server: u32,
    pub source: u32,
    pub epoch: Epoch,
    pub count: u32,
    pub cause: Cause,
    pub change: Change,
}

pub type ExceptionRows = Items<ExceptionRow>;
