ghost use Rattle.std.specs.Prelude.{◌≡◌, IfOk};

use crate::list::{Bytes, Items};
use crate::memory::NoMemory;
use std::alloc::Global;

/// The type of a column, as in a table map event.
#[derive(Clone, Copy, Debug, PartialEq, Eq)]
pub enum Column {
    /// LONGLONG: an unsigned number of 8 bytes.
    Num,
    /// LONG: a number of 4 bytes. Only the apply-status table has it, and tables that are read from
    /// a log.
    Long,
    /// VARCHAR: text of at most this number of bytes.
    Text(u16),
}

pub type Columns = Items<Column>;

/// A table as a script declares it: its name, and its columns except the key.
#[derive(Debug, Drop)]
pub struct Schema {
    pub name: Bytes,
    pub columns: Columns,
}

pub type Schemas = Items<Schema>;

/// A table as a table map event describes it: its id, the names of its schema and of the table, and
/// all its columns, the key first.
#[derive(Debug, Drop)]
pub struct Mapped {
    pub id: u16,
    pub schema: Bytes,
    pub name: Bytes,
    pub columns: Columns,
}

pub type MappedTables = Items<Mapped>;

impl Mapped {
    /// Returns an equal value.
    pub fn copy(&self, alloc: Global) -> Result<Mapped, NoMemory>
        ensures { IfOk result (λ copy. copy ≡ self.now) }
    {
        Ok(Mapped {
            id: self.id,
            schema: self.schema.copy(alloc)?,
            name: self.name.copy(alloc)?,
            columns: self.columns.copy(alloc)?,
        })
    }
}
