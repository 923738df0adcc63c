ghost use Rattle.std.specs.Prelude.{◌≡◌, ◌≤◌, Bool, length, All};
ghost use Rattle.rb_log_defs.specs.Rows.{present_bitmaps, values_bytes, image_of, images_of, end_flag, rows_written, status_written};
ghost use Rattle.rb_log_defs.specs.Fits.{Fits, FitsColumns, IsImage};

use rb_base::{Change, Column, EpochBody, Kind, Mapped, Row, Value};
use rb_codec::column::value_size;

/// The length in bytes of a payload before its bitmaps: the table's id, the flags, the length of
/// the extra data, the extra data, and the number of columns.
const HEAD_SIZE: u64 = 20;

/// The length in bytes of the payload of one apply-status row.
pub(crate) const ONE_ROW_SIZE: usize = 42;

/// The length in bytes of the payload of two apply-status rows.
pub(crate) const TWO_ROWS_SIZE: usize = 72;

/// Returns the length in bytes of the payload that `write_rows` appends, which is at most 8388788.
#[tactic(auto, using(crate::proofs::Images::one_length))]
pub fn size_of_rows(table: &Mapped, changes: &[Change]) -> u64
    requires one { length changes.now ≡ 1 }
    requires few { length table.now.columns ≤ 64 }
    requires fits { All (λ change. Fits table.now.columns change) changes.now }
    ensures size { (last : Bool) → result ≡ length
        (rows_written table.now.id table.now.columns changes.now (end_flag last)) }
    ensures most { result ≤ 8388788 }
{
    let change = &changes[0];
    let columns = table.columns.as_slice();
    HEAD_SIZE + presents_size(change.kind, columns.len()) + images_size(columns, change)
}

/// Returns the length in bytes of the present bitmaps.
#[tactic(auto, using(crate::proofs::Images::bitmap_length, crate::proofs::Images::two_bitmaps))]
fn presents_size(kind: Kind, columns: usize) -> u64
    requires { columns ≤ 64 }
    ensures size { result ≡ length (present_bitmaps kind columns) }
    ensures most { result ≤ 16 }
{
    let bitmap = (columns as u64 + 7) / 8;
    match kind {
        Kind::Insert | Kind::Remove => bitmap,
        Kind::Update => 2 * bitmap,
    }
}

/// Returns the length in bytes of the payload that `write_status` appends: 42, or 72 with the
/// primary's row.
#[tactic(auto, unfolding(rb_log_defs::specs::Rows::rows_payload, rb_base::specs::Length::length_bytes, rb_log_defs::specs::Rows::row_image, rb_log_defs::specs::Rows::text_bytes))]
pub fn size_of_status(body: &EpochBody) -> u64
    ensures size { (last : Bool) → result ≡ length (status_written body.now (end_flag last)) }
    ensures most { result ≤ 72 }
{
    match body.reflected {
        None => ONE_ROW_SIZE as u64,
        Some(_) => TWO_ROWS_SIZE as u64,
    }
}

/// Returns the length in bytes of the row images of a change.
fn images_size(columns: &[Column], change: &Change) -> u64
    requires change { Fits columns.now change.now }
    requires few { length columns.now ≤ 64 }
    ensures size { result ≡ length
        (images_of change.now.kind columns.now change.now.before change.now.after) }
    ensures most { result ≤ 8388752 }
{
    match change.kind {
        Kind::Insert => image_of_size(columns, &change.after),
        Kind::Update => {
            image_of_size(columns, &change.before) + image_of_size(columns, &change.after)
        }
        Kind::Remove => image_of_size(columns, &change.before),
    }
}

/// Returns the length in bytes of the row image of a row, or 0 if there is no row.
#[tactic(auto, unfolding(rb_log_defs::specs::Rows::row_image))]
fn image_of_size(columns: &[Column], row: &Option<Row>) -> u64
    requires image { IsImage columns.now row.now }
    requires few { length columns.now ≤ 64 }
    ensures size { result ≡ length (image_of columns.now row.now) }
    ensures most { result ≤ 4194376 }
{
    match row {
        Some(row) => {
            (columns.len() as u64 + 7) / 8 + values_size(columns, row.values.as_slice())
        }
        None => 0,
    }
}

fn values_size(columns: &[Column], values: &[Value]) -> u64
    requires fits { FitsColumns columns.now values.now }
    requires few { length columns.now ≤ 64 }
    ensures size { result ≡ length (values_bytes columns.now values.now) }
    ensures most { result ≤ 4194368 }
{
    let mut size = 0;
    for index in 0..columns.len() {
        size += value_size(columns[index], &values[index]);
    }
    size
}
