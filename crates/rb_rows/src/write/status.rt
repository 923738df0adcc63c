ghost use Rattle.std.specs.Prelude.{◌≡◌, [], ◌∷◌, ◌++◌, OnOk, OnErr};
ghost use Rattle.byteorder.specs.Endian.{little_bytes};
ghost use Rattle.rb_log_defs.specs.Event.{zeros};
ghost use Rattle.rb_log_defs.specs.Table.{status_columns};
ghost use Rattle.rb_log_defs.specs.Rows.{row_image, status_row, end_flag, status_written};

use crate::write::size::{ONE_ROW_SIZE, TWO_ROWS_SIZE};
use byteorder::{ByteOrder, LittleEndian};
use rb_base::{EpochBody, NoMemory};
use std::alloc::Global;

/// Appends the payload of the apply-status rows of an epoch: the site's own row, and the primary's
/// row if the epoch reflects one of the primary's epochs. `last` sets the flag that ends the
/// statement. If memory allocation fails, `out` is unchanged.
pub fn write_status(
    _alloc: Global,
    out: &mut Vec<u8>,
    body: &EpochBody,
    last: bool,
) -> Result<(), NoMemory>
    ensures ok { OnOk result (out.new.items ≡ out.old.items
        ++ status_written body.now (end_flag last)) }
    ensures err { OnErr result (out.new.items ≡ out.old.items) }
{
    let own = status_image(body.server, body.epoch.0);
    match body.reflected {
        None => {
            out.reserve(ONE_ROW_SIZE)?;
            out.extend_from_slice(&status_head(last))?;
            out.extend_from_slice(&own)?;
        }
        Some(epoch) => {
            out.reserve(TWO_ROWS_SIZE)?;
            out.extend_from_slice(&status_head(last))?;
            out.extend_from_slice(&own)?;
            out.extend_from_slice(&status_image(1, epoch.0))?;
        }
    }
    Ok(())
}

/// Returns the part of the payload before the rows: the table's id, the flags, the length of the
/// extra data, the number of columns, and the present bitmap.
fn status_head(last: bool) -> [u8; 12]
    ensures { result ≡ zeros 6 ++ (little_bytes 2 (end_flag last) ++ (2 ∷ 0 ∷ 5 ∷ 31 ∷ [])) }
{
    let flag = if last { 1 } else { 0 };
    [0, 0, 0, 0, 0, 0, flag, 0, 2, 0, 5, 0x1f]
}

/// Returns the row image of a server and the last epoch of that server whose rows are applied.
#[tactic(auto, unfolding(rb_log_defs::specs::Rows::row_image, rb_log_defs::specs::Rows::text_bytes))]
fn status_image(server: u32, epoch: u64) -> [u8; 30]
    ensures { result ≡ row_image status_columns (status_row server epoch) }
{
    let mut bytes = [0u8; 30];
    LittleEndian::write_u32(&mut bytes[1..], server);
    LittleEndian::write_u64(&mut bytes[5..], epoch);
    bytes
}
