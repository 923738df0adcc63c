ghost use Rattle.std.specs.Prelude.{ℕ, ◌≡◌, ◌+◌, ◌^◌, ◌<◌, ◌≤◌, [], ◌∷◌, ◌++◌, length, map, IfOk, OnOk, OnErr};
ghost use Rattle.rb_base.specs.Length.{length_bytes};
ghost use Rattle.rb_log_defs.specs.Table.{type_of, all_metadata, bitmap_size, table_map_payload, table_map_event};
ghost use Rattle.rb_log_defs.specs.Event.{zeros};
ghost use Rattle.byteorder.specs.Endian.{little_bytes};
ghost use Rattle.rb_log_defs.specs.Fits.{CanBeMapped};

use crate::column::{type_code, write_metadata};
use crate::event::write_event;
use crate::event_types::TABLE_MAP_EVENT;
use byteorder::{ByteOrder, LittleEndian};
use rb_base::{Column, Mapped, NoMemory, write_length};
use std::alloc::Global;

/// Appends the table map event of `table`, by the server `server`, starting at `start`. It names
/// the table of the id `table.id` for the rows events after it. If memory allocation fails, `out`
/// is unchanged.
#[tactic(auto, using(rb_log_defs::proofs::Sizes::event_length))]
pub fn write_table_map(
    alloc: Global,
    out: &mut Vec<u8>,
    server: u32,
    start: u32,
    table: &Mapped,
) -> Result<(), NoMemory>
    requires mapped { CanBeMapped table.now }
    requires fits { start + length (table_map_event server table.now start) < 2 ^ 32 }
    ensures ok { OnOk result (out.new.items ≡ out.old.items
        ++ table_map_event server table.now start) }
    ensures size { OnOk result (length out.new.items
        ≡ length out.old.items + length (table_map_event server table.now start)) }
    ensures err { OnErr result (out.new.items ≡ out.old.items) }
{
    let payload = table_map_payload(alloc, table)?;
    write_event(alloc, out, TABLE_MAP_EVENT, server, start, &payload)?;
    Ok(())
}

#[tactic(auto, unfolding(rb_log_defs::specs::Table::table_map_payload))]
fn table_map_payload(alloc: Global, table: &Mapped) -> Result<Vec<u8>, NoMemory>
    requires mapped { CanBeMapped table.now }
    ensures { IfOk result (λ payload. payload.items ≡ table_map_payload table.now) }
{
    let columns = table.columns.as_slice();
    let mut payload = Vec::from_slice(alloc, &id_and_flags(table.id))?;
    write_name(&mut payload, table.schema.as_slice())?;
    write_name(&mut payload, table.name.as_slice())?;
    write_length(alloc, &mut payload, columns.len() as u64)?;
    payload.extend_from_slice(&types(alloc, columns)?)?;
    let metadata = metadata(alloc, columns)?;
    write_length(alloc, &mut payload, metadata.len() as u64)?;
    payload.extend_from_slice(&metadata)?;
    payload.extend_from_slice(&vec![in alloc; 0u8; (columns.len() + 7) / 8]?)?;
    Ok(payload)
}

/// Returns the table's id in 6 bytes, and flags 0.
fn id_and_flags(id: u16) -> [u8; 8]
    ensures { result ≡ little_bytes 6 id ++ zeros 2 }
{
    let mut bytes = [0u8; 8];
    LittleEndian::write_u48(&mut bytes, id as u64);
    bytes
}

/// Appends a name after its length, which takes one byte, and a zero byte after it.
fn write_name(out: &mut Vec<u8>, name: &[u8]) -> Result<(), NoMemory>
    requires { length name.now < 256 }
    ensures { OnOk result (out.new.items ≡ out.old.items
        ++ (length name.now ∷ (name.now ++ (0 ∷ [])))) }
{
    out.push(name.len() as u8)?;
    out.extend_from_slice(name)?;
    out.push(0)?;
    Ok(())
}

fn types(alloc: Global, columns: &[Column]) -> Result<Vec<u8>, NoMemory>
    ensures { IfOk result (λ types. types.items ≡ map type_of columns.now) }
{
    Ok(
        columns
            .iter()
            .map(|column| type_code(*column))
            .collect(alloc)?,
    )
}

/// Returns the metadata of all columns.
fn metadata(alloc: Global, columns: &[Column]) -> Result<Vec<u8>, NoMemory>
    requires { length columns.now ≤ 64 }
    ensures { IfOk result (λ metadata. metadata.items ≡ all_metadata columns.now) }
{
    let mut metadata = Vec::new(alloc);
    for column in columns {
        write_metadata(&mut metadata, *column)?;
    }
    Ok(metadata)
}
