ghost use Rattle.std.specs.Prelude.{◌≡◌, ◌<◌, ◌^◌, length, IfOk};
ghost use Rattle.rb_journal_defs.specs.Body.{mapped_table, mapped_tables};

use rb_base::{Bytes, Column, Columns, Mapped, MappedTables, NoMemory, Schema};
use std::alloc::Global;

/// Returns the declared tables, numbered from 1, as the log's table maps name them.
pub(crate) fn map_tables(alloc: Global, schemas: &[Schema]) -> Result<MappedTables, NoMemory>
    requires few { length schemas.now < 2 ^ 16 }
    ensures { IfOk result (λ tables. tables ≡ mapped_tables schemas.now) }
{
    let mut tables = MappedTables::new(alloc);
    for number in 0..schemas.len() {
        tables.push(map_table(alloc, number as u16 + 1, &schemas[number])?)?;
    }
    Ok(tables)
}

/// Returns an equal list of tables.
pub(crate) fn copy_tables(alloc: Global, tables: &[Mapped]) -> Result<MappedTables, NoMemory>
    ensures { IfOk result (λ copy. copy ≡ tables.now) }
{
    let mut copy = MappedTables::new(alloc);
    for table in tables {
        copy.push(table.copy(alloc)?)?;
    }
    Ok(copy)
}

// Returns the table map of table `id`: its schema is `db`, and its key is the column before the
// declared ones.
fn map_table(alloc: Global, id: u16, schema: &Schema) -> Result<Mapped, NoMemory>
    ensures { IfOk result (λ table. table ≡ mapped_table (id, schema.now)) }
{
    let mut columns = Columns::new(alloc);
    columns.push(Column::Num)?;
    for column in schema.columns.as_slice() {
        columns.push(*column)?;
    }
    Ok(Mapped {
        id,
        schema: Bytes::from_vec(Vec::from_slice(alloc, b"db")?),
        name: schema.name.copy(alloc)?,
        columns,
    })
}
