ghost use Rattle.std.specs.Prelude.{◌≡◌, ◌∷◌, IfOk};
ghost use Rattle.rb_log_defs.specs.Index.{index_record, index_file, position_after};

use byteorder::{ByteOrder, LittleEndian};
use rb_base::{Bytes, Epoch, IndexRow, NoMemory};
use std::alloc::Global;

/// The gate before each record of file 0.
const OPEN_GATE: u8 = 1;

/// The gate at the end of file 0.
const CLOSED_GATE: u8 = 0;

/// The place of the first event of file 1.
const FIRST_PLACE: (u32, u64) = (1, 4);

/// Returns file 0 of a log with these index rows: an open gate and a record of 64 bytes for each
/// row, and a closed gate at the end. Returns `NoMemory` if memory allocation fails, and no other
/// error.
#[tactic(auto, unfolding(rb_log_defs::specs::Index::index_file))]
pub fn index_file(alloc: Global, rows: &[IndexRow]) -> Result<Bytes, NoMemory>
    ensures { IfOk result (λ file. file ≡ index_file rows.now) }
{
    let mut file = Vec::new(alloc);
    for row in rows {
        file.extend_from_slice(&gated_record(row))?;
    }
    file.push(CLOSED_GATE)?;
    Ok(Bytes::from_vec(file))
}

/// Returns an open gate and the record of a row.
#[tactic(auto, unfolding(rb_log_defs::specs::Index::index_record))]
fn gated_record(row: &IndexRow) -> [u8; 65]
    ensures { result ≡ 1 ∷ index_record row.now }
{
    let mut bytes = [OPEN_GATE; 65];
    LittleEndian::write_u64(&mut bytes[1..], row.epoch.0);
    LittleEndian::write_u64(&mut bytes[9..], row.orig_epoch.0);
    LittleEndian::write_u64(&mut bytes[17..], row.position);
    LittleEndian::write_u64(&mut bytes[25..], row.next_position);
    LittleEndian::write_u32(&mut bytes[33..], row.file);
    LittleEndian::write_u32(&mut bytes[37..], row.next_file);
    LittleEndian::write_u32(&mut bytes[41..], row.inserts);
    LittleEndian::write_u32(&mut bytes[45..], row.updates);
    LittleEndian::write_u32(&mut bytes[49..], row.deletes);
    LittleEndian::write_u32(&mut bytes[53..], row.schemaops);
    LittleEndian::write_u32(&mut bytes[57..], row.orig_server_id);
    LittleEndian::write_u32(&mut bytes[61..], row.gci);
    bytes
}

/// Returns the place at which the log continues after an epoch, as a file and a position in bytes
/// from its start. `rows` are the log's index rows, the oldest first. If no row is of that epoch or
/// an earlier one, the place is the first event of file 1.
#[tactic(auto, using(crate::proofs::Rows::place_moves, crate::proofs::Rows::place_stays))]
pub fn position_after(rows: &[IndexRow], epoch: Epoch) -> (u32, u64)
    ensures { result ≡ position_after rows.now epoch.0 }
{
    let mut place = FIRST_PLACE;
    for row in rows {
        if row.epoch.0 <= epoch.0 {
            place = (row.next_file, row.next_position);
        }
    }
    place
}
