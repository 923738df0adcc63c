ghost use Rattle.std.specs.Prelude.{◌≡◌, ◌≤◌, ◌++◌, length, OnOk, OnErr};
ghost use Rattle.std.specs.Io.{StartsWith};
ghost use Rattle.rb_log_defs.specs.Rows.{values_bytes, row_image, image_of, images_of};
ghost use Rattle.rb_log_defs.specs.Fits.{Fits, FitsColumns, IsImage};

use rb_base::{Change, Column, Kind, NoMemory, Row, Value};
use rb_codec::column::write_value;

/// Appends the row images of a change: the after image of an insert, the before image of a remove,
/// and both of an update. If memory allocation fails, `out` still starts with the bytes that
/// it had.
#[tactic(auto, using(crate::proofs::Images::still_starts))]
pub(crate) fn write_images(
    out: &mut Vec<u8>,
    columns: &[Column],
    change: &Change,
) -> Result<(), NoMemory>
    requires change { Fits columns.now change.now }
    requires few { length columns.now ≤ 64 }
    ensures ok { OnOk result (out.new.items ≡ out.old.items
        ++ images_of change.now.kind columns.now change.now.before change.now.after) }
    ensures err { OnErr result (StartsWith out.new.items out.old.items) }
{
    match change.kind {
        Kind::Insert => write_image_of(out, columns, &change.after)?,
        Kind::Update => {
            write_image_of(out, columns, &change.before)?;
            write_image_of(out, columns, &change.after)?;
        }
        Kind::Remove => write_image_of(out, columns, &change.before)?,
    }
    Ok(())
}

/// Appends the row image of a row, or nothing if there is no row.
fn write_image_of(out: &mut Vec<u8>, columns: &[Column], row: &Option<Row>) -> Result<(), NoMemory>
    requires image { IsImage columns.now row.now }
    requires few { length columns.now ≤ 64 }
    ensures ok { OnOk result (out.new.items ≡ out.old.items ++ image_of columns.now row.now) }
    ensures err { OnErr result (StartsWith out.new.items out.old.items) }
{
    match row {
        Some(row) => write_image(out, columns, row)?,
        None => {}
    }
    Ok(())
}

/// Appends a row image: a bitmap of the NULL values, which is all zero, and then the values.
#[tactic(auto, unfolding(rb_log_defs::specs::Rows::row_image), using(crate::proofs::Images::zeros_cut, crate::proofs::Images::still_starts))]
fn write_image(out: &mut Vec<u8>, columns: &[Column], row: &Row) -> Result<(), NoMemory>
    requires fits { FitsColumns columns.now row.now.values }
    requires few { length columns.now ≤ 64 }
    ensures ok { OnOk result (out.new.items ≡ out.old.items ++ row_image columns.now row.now) }
    ensures err { OnErr result (StartsWith out.new.items out.old.items) }
{
    out.extend_from_slice(&[0u8; 8][..(columns.len() + 7) / 8])?;
    write_values(out, columns, row.values.as_slice())?;
    Ok(())
}

fn write_values(out: &mut Vec<u8>, columns: &[Column], values: &[Value]) -> Result<(), NoMemory>
    requires { FitsColumns columns.now values.now }
    ensures ok { OnOk result (out.new.items ≡ out.old.items
        ++ values_bytes columns.now values.now) }
    ensures err { OnErr result (StartsWith out.new.items out.old.items) }
{
    for index in 0..columns.len() {
        write_value(out, columns[index], &values[index])?;
    }
    Ok(())
}
