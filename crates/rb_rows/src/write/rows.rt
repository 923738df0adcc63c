ghost use Rattle.std.specs.Prelude.{◌≡◌, ◌≤◌, [], ◌∷◌, ◌++◌, length, All, OnOk, OnErr};
ghost use Rattle.std.specs.Io.{StartsWith};
ghost use Rattle.rb_log_defs.specs.Rows.{end_flag, rows_written};
ghost use Rattle.rb_log_defs.specs.Fits.{Fits};

use crate::write::head::{rows_head, write_present};
use crate::write::image::write_images;
use crate::write::size::size_of_rows;
use rb_base::{Change, Mapped, NoMemory, write_length};
use std::alloc::Global;

/// Appends the payload of the rows event of these changes of a table. For now `changes` is exactly
/// one change. `last` sets the flag that ends the statement. If memory allocation fails, `out` is
/// unchanged.
pub fn write_rows(
    alloc: Global,
    out: &mut Vec<u8>,
    table: &Mapped,
    changes: &[Change],
    last: bool,
) -> Result<(), NoMemory>
    requires one { length changes.now ≡ 1 }
    requires few { length table.now.columns ≤ 64 }
    requires fits { All (λ change. Fits table.now.columns change) changes.now }
    ensures ok { OnOk result (out.new.items ≡ out.old.items
        ++ rows_written table.now.id table.now.columns changes.now (end_flag last)) }
    ensures err { OnErr result (out.new.items ≡ out.old.items) }
{
    let old_len = out.len();
    out.reserve(size_of_rows(table, changes) as usize)?;
    if let Err(error) = append_rows(alloc, out, table, changes, last) {
        out.truncate(old_len);
        return Err(error);
    }
    Ok(())
}

/// Appends that payload. If memory allocation fails, `out` still starts with the bytes that it had.
#[tactic(auto, using(crate::proofs::Images::still_starts))]
fn append_rows(
    alloc: Global,
    out: &mut Vec<u8>,
    table: &Mapped,
    changes: &[Change],
    last: bool,
) -> Result<(), NoMemory>
    requires one { length changes.now ≡ 1 }
    requires few { length table.now.columns ≤ 64 }
    requires fits { All (λ change. Fits table.now.columns change) changes.now }
    ensures ok { OnOk result (out.new.items ≡ out.old.items
        ++ rows_written table.now.id table.now.columns changes.now (end_flag last)) }
    ensures err { OnErr result (StartsWith out.new.items out.old.items) }
{
    let change = &changes[0];
    let columns = table.columns.as_slice();
    out.extend_from_slice(&rows_head(table.id, last, change.transid))?;
    write_length(alloc, out, columns.len() as u64)?;
    write_present(out, change.kind, columns.len())?;
    write_images(out, columns, change)?;
    Ok(())
}
