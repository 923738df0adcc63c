ghost use Rattle.std.specs.Prelude.{◌≡◌, ◌≤◌, ◌++◌, ◌∷◌, ℕ, List, [], length};
ghost use Rattle.rb_base.specs.declared.body.IndexRow.{IndexRow};
ghost use Rattle.rb_log_defs.specs.Index.{index_record};
ghost use Rattle.rb_device_defs.specs.Index.{HasRoom};

use byteorder::{ByteOrder, LittleEndian};
use rb_base::{Epoch, IndexRow};

/// The gate of a record that does not count.
pub(crate) const CLOSED: u8 = 0;

/// The gate of a record that counts.
pub(crate) const OPEN: u8 = 1;

/// The size of a record with its gate, in bytes.
pub(crate) const RECORD_SIZE: usize = 65;

/// Returns the record of a row without its gate, and the closed gate of the next one.
#[tactic(auto, unfolding(rb_log_defs::specs::Index::index_record))]
pub(crate) fn record_array(row: &IndexRow) -> [u8; RECORD_SIZE]
    ensures { result ≡ index_record row.now ++ 0 ∷ [] }
{
    let mut bytes = [CLOSED; RECORD_SIZE];
    LittleEndian::write_u64(&mut bytes[0..], row.epoch.0);
    LittleEndian::write_u64(&mut bytes[8..], row.orig_epoch.0);
    LittleEndian::write_u64(&mut bytes[16..], row.position);
    LittleEndian::write_u64(&mut bytes[24..], row.next_position);
    LittleEndian::write_u32(&mut bytes[32..], row.file);
    LittleEndian::write_u32(&mut bytes[36..], row.next_file);
    LittleEndian::write_u32(&mut bytes[40..], row.inserts);
    LittleEndian::write_u32(&mut bytes[44..], row.updates);
    LittleEndian::write_u32(&mut bytes[48..], row.deletes);
    LittleEndian::write_u32(&mut bytes[52..], row.schemaops);
    LittleEndian::write_u32(&mut bytes[56..], row.orig_server_id);
    LittleEndian::write_u32(&mut bytes[60..], row.gci);
    bytes
}

/// Returns the row of the record with which these bytes begin. Its gate is not among them.
pub(crate) fn read_record(bytes: &[u8]) -> IndexRow
    requires { 64 ≤ length bytes.now }
    ensures { (row : IndexRow) (rest : List ℕ) → HasRoom row →
        bytes.now ≡ index_record row ++ rest → result ≡ row }
{
    IndexRow {
        epoch: Epoch(LittleEndian::read_u64(bytes)),
        orig_epoch: Epoch(LittleEndian::read_u64(&bytes[8..])),
        position: LittleEndian::read_u64(&bytes[16..]),
        next_position: LittleEndian::read_u64(&bytes[24..]),
        file: LittleEndian::read_u32(&bytes[32..]),
        next_file: LittleEndian::read_u32(&bytes[36..]),
        inserts: LittleEndian::read_u32(&bytes[40..]),
        updates: LittleEndian::read_u32(&bytes[44..]),
        deletes: LittleEndian::read_u32(&bytes[48..]),
        schemaops: LittleEndian::read_u32(&bytes[52..]),
        orig_server_id: LittleEndian::read_u32(&bytes[56..]),
        gci: LittleEndian::read_u32(&bytes[60..]),
    }
}
