ghost use Rattle.std.specs.Prelude.{◌≡◌, ◌+◌, ◌^◌, ◌-◌, ◌≤◌, ◌++◌, OnOk, OnErr};
ghost use Rattle.std.specs.Io.{StartsWith};
ghost use Rattle.byteorder.specs.Endian.{little_bytes};
ghost use Rattle.rb_log_defs.specs.Rows.{end_flag, transid_extra, present_bitmap, present_bitmaps};

use byteorder::{ByteOrder, LittleEndian};
use rb_base::{Kind, NoMemory};

/// The first byte of extra data that carries a transaction's number.
const TRANSID: u8 = 0x52;

/// Returns the table's id, the flags, and the extra data after its length. The extra data is the
/// transaction's number.
pub(crate) fn rows_head(table: u16, last: bool, transid: u64) -> [u8; 19]
    ensures { result ≡ little_bytes 6 table
        ++ (little_bytes 2 (end_flag last) ++ (little_bytes 2 11 ++ transid_extra transid)) }
{
    let mut bytes = [0u8; 19];
    LittleEndian::write_u48(&mut bytes, table as u64);
    LittleEndian::write_u16(&mut bytes[6..], if last { 1 } else { 0 });
    LittleEndian::write_u16(&mut bytes[8..], 11);
    bytes[10] = TRANSID;
    LittleEndian::write_u64(&mut bytes[11..], transid);
    bytes
}

/// Appends the present bitmaps: one for each row image of the kind. If memory allocation fails,
/// `out` still starts with the bytes that it had.
#[tactic(auto, using(crate::proofs::Images::still_starts))]
pub(crate) fn write_present(out: &mut Vec<u8>, kind: Kind, columns: usize) -> Result<(), NoMemory>
    requires { columns ≤ 64 }
    ensures ok { OnOk result (out.new.items ≡ out.old.items ++ present_bitmaps kind columns) }
    ensures err { OnErr result (StartsWith out.new.items out.old.items) }
{
    match kind {
        Kind::Insert | Kind::Remove => write_bitmap(out, columns)?,
        Kind::Update => {
            write_bitmap(out, columns)?;
            write_bitmap(out, columns)?;
        }
    }
    Ok(())
}

/// Appends a present bitmap in which every column is present. If memory allocation fails, `out` is
/// unchanged.
#[tactic(auto, using(crate::proofs::Images::bitmap_cut))]
fn write_bitmap(out: &mut Vec<u8>, columns: usize) -> Result<(), NoMemory>
    requires { columns ≤ 64 }
    ensures ok { OnOk result (out.new.items ≡ out.old.items ++ present_bitmap columns) }
    ensures err { OnErr result (out.new.items ≡ out.old.items) }
{
    let mut bytes = [0u8; 8];
    LittleEndian::write_u64(&mut bytes, all_present(columns));
    out.extend_from_slice(&bytes[..(columns + 7) / 8])?;
    Ok(())
}

/// Returns the number whose lowest `columns` bits are 1.
fn all_present(columns: usize) -> u64
    requires { columns ≤ 64 }
    ensures { result ≡ 2 ^ columns - 1 }
{
    ((1u128 << columns) - 1) as u64
}
