ghost use Rattle.std.specs.Prelude.{◌≡◌, ◌≢◌, ◌≤◌, ◌<◌, ◌&&◌, nat_le, length, Err, IfOk};
ghost use Rattle.std.specs.List.{list_all};
ghost use Rattle.rb_base.specs.declared.faults.CodecFault.TheVariants.{NoMemory as CodecOutOfMemory};
ghost use Rattle.rb_read_defs.specs.Reading.{answer_of};
ghost use Rattle.rb_read_defs.specs.Events.{table_map, is_status, is_type, are_types, metadata_size, columns_from};
ghost use Rattle.rb_codec.specs.Columns.{HasColumns};

use crate::bitmap::all_clear;
use crate::column::{LONG, LONGLONG, VARCHAR, column_from, is_type, metadata_width};
use crate::fields::{Fields, check};
use crate::read::bytes_of;
use rb_base::{CodecFault, Columns, Field, Items, Mapped, NoMemory};
use std::alloc::Global;

/// Reads the payload of a TABLE_MAP event, which names the table of an id for the rows events after
/// it. The flags, the bytes after the two names, and the bytes after the null bitmap may have any
/// value.
///
/// `Short` has the place of the first field that does not end within the payload. `BadField` has
/// the place of the first field that is complete and wrong:
///
/// - `TableId`: the id is above 65535;
/// - `Columns`: the number of columns is outside 1 to 64;
/// - `ColumnType`: a column is no LONG, LONGLONG or VARCHAR, the first one is no LONGLONG, or
///   `mysql.ndb_apply_status` has types other than its own;
/// - `Metadata`: the length is not two bytes for each VARCHAR;
/// - `Null`: a column may be NULL.
///
/// Places are in bytes from the start of the payload.
#[tactic(auto, unfolding(rb_read_defs::specs::Events::table_map))]
pub fn read_table_map(alloc: Global, payload: &[u8]) -> Result<Mapped, CodecFault>
    ensures read { result ≢ Err CodecOutOfMemory → result ≡ answer_of (table_map payload.now 0) }
    ensures columns { IfOk result HasColumns }
{
    let mut fields = Fields::new(payload);
    let id = fields.number(6)?;
    check(id <= 65535, 0, Field::TableId)?;
    fields.number(2)?;
    let schema_size = fields.number(1)? as usize;
    let schema = fields.some_bytes(schema_size)?;
    fields.number(1)?;
    let name_size = fields.number(1)? as usize;
    let name = fields.some_bytes(name_size)?;
    fields.number(1)?;
    let at = fields.at();
    let count = fields.length_number(Field::Columns)?;
    check(is_count(count), at, Field::Columns)?;
    let at = fields.at();
    let types = fields.some_bytes(count as usize)?;
    check(are_types(schema, name, types), at, Field::ColumnType)?;
    let at = fields.at();
    let size = fields.length_number(Field::Metadata)?;
    check(size == metadata_size(types), at, Field::Metadata)?;
    let metadata = fields.some_bytes(size as usize)?;
    let at = fields.at();
    let nulls = fields.some_bytes((types.len() + 7) / 8)?;
    check(all_clear(types.len(), nulls), at, Field::Null)?;
    Ok(Mapped {
        id: id as u16,
        schema: bytes_of(alloc, schema)?,
        name: bytes_of(alloc, name)?,
        columns: columns_from(alloc, types, metadata)?,
    })
}

/// Returns whether a table can have this number of columns.
fn is_count(count: u64) -> bool
    ensures { result ≡ (nat_le 1 count && nat_le count 64) }
{
    1 <= count && count <= 64
}

/// Returns whether the table with these names is `mysql.ndb_apply_status`.
pub fn is_status(schema: &[u8], name: &[u8]) -> bool
    ensures { result ≡ is_status schema.now name.now }
{
    schema == b"mysql".as_slice() && name == b"ndb_apply_status".as_slice()
}

/// Returns whether the table with these names can have columns of these types. The apply-status
/// table has exactly its own types; any other table has a LONGLONG first, which is its key.
fn are_types(schema: &[u8], name: &[u8], types: &[u8]) -> bool
    requires { 1 ≤ length types.now }
    ensures { result ≡ are_types schema.now name.now types.now }
{
    if is_status(schema, name) {
        return types == [LONG, LONGLONG, VARCHAR, LONGLONG, LONGLONG].as_slice();
    }
    are_all_types(types) && types[0] == LONGLONG
}

/// Returns whether each of these types is accepted.
fn are_all_types(types: &[u8]) -> bool
    ensures { result ≡ list_all is_type types.now }
{
    types.iter().all(|kind| is_type(*kind))
}

/// Returns the length in bytes of the metadata of columns with these types.
fn metadata_size(types: &[u8]) -> u64
    ensures { result ≡ metadata_size types.now }
{
    let mut size = 0;
    for kind in types {
        size += metadata_width(*kind) as u64;
    }
    size
}

/// Returns the columns with these types and this metadata.
fn columns_from(alloc: Global, types: &[u8], metadata: &[u8]) -> Result<Columns, NoMemory>
    requires { metadata_size types.now ≤ length metadata.now }
    ensures { IfOk result (λ columns. columns ≡ columns_from types.now metadata.now) }
{
    let mut columns = Items::new(alloc);
    let mut rest = metadata;
    for kind in types {
        columns.push(column_from(*kind, rest))?;
        rest = &rest[metadata_width(*kind)..];
    }
    Ok(columns)
}
