ghost use Rattle.std.specs.Prelude.{◌≡◌, ◌<◌, length, IfOk};
ghost use Rattle.rb_log_defs.specs.Table.{columns_of, status_table};

use rb_base::{Column, Items, Mapped, NoMemory};
use std::alloc::Global;

/// Returns the table `mysql.ndb_apply_status`, with id 0 and the columns server id, epoch, log
/// name, start position and end position.
pub(crate) fn status_table(alloc: Global) -> Result<Mapped, NoMemory>
    ensures { IfOk result (λ table. table ≡ status_table) }
{
    let columns = [
        Column::Long,
        Column::Num,
        Column::Text(255),
        Column::Num,
        Column::Num,
    ];
    Ok(Mapped {
        id: 0,
        schema: Items::from_vec(Vec::from_slice(alloc, b"mysql")?),
        name: Items::from_vec(Vec::from_slice(alloc, b"ndb_apply_status")?),
        columns: Items::from_vec(Vec::from_slice(alloc, &columns)?),
    })
}

/// Returns the table with this id, which one of these tables has.
pub(crate) fn table_of(tables: &[Mapped], id: u16) -> &Mapped
    requires { 0 < length (columns_of tables.now id) }
    ensures columns { result.now.columns ≡ columns_of tables.now id }
    ensures id { result.now.id ≡ id }
{
    for table in tables {
        if table.id == id {
            return table;
        }
    }
    unreachable!()
}
