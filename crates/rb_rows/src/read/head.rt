ghost use Rattle.std.specs.Prelude.{◌≡◌, ◌≤◌, length};
ghost use Rattle.rb_read_defs.specs.Rows.{present, presents, rows_head, transid_in};
ghost use Rattle.rb_codec.specs.Fields.{Gives};

use byteorder::{ByteOrder, LittleEndian};
use rb_base::{CodecFault, Field, Kind, Mapped};
use rb_codec::{Fields, all_set, check};

/// The first byte of extra data that carries a transaction's number.
const TRANSID: u8 = 0x52;

/// Reads the part of a rows event before its rows: table id, flags, extra data, number of columns,
/// present bitmaps. Returns the transaction's number.
#[tactic(auto, unfolding(rb_read_defs::specs::Rows::rows_head))]
pub(crate) fn read_head(fields: &mut Fields, kind: Kind, table: &Mapped) -> Result<u64, CodecFault>
    requires some { 1 ≤ length table.now.columns }
    ensures gives { Gives (λ transid. transid) result fields.new.at
        (rows_head kind table.now fields.old.bytes.now fields.old.at) }
    ensures bytes { fields.new.bytes ≡ fields.old.bytes }
{
    let columns = table.columns.as_slice().len();
    let at = fields.at();
    let id = fields.number(6)?;
    check(id == u64::from(table.id), at, Field::TableId)?;
    fields.number(2)?;
    let at = fields.at();
    let size = fields.number(2)? as usize;
    check(2 <= size, at, Field::Extra)?;
    let extra = fields.some_bytes(size - 2)?;
    let at = fields.at();
    let width = fields.length_number(Field::Width)?;
    check(width == columns as u64, at, Field::Width)?;
    read_presents(fields, kind, columns)?;
    Ok(transid_in(extra))
}

/// Returns the transaction's number in the extra data, or 0 if the extra data has another form.
fn transid_in(extra: &[u8]) -> u64
    ensures { result ≡ transid_in extra.now }
{
    if extra.len() != 9 || extra[0] != TRANSID {
        return 0;
    }
    LittleEndian::read_u64(&extra[1..])
}

/// Reads the present bitmaps of this number of columns: one for each row image, so an update has
/// two.
fn read_presents<'a>(
    fields: &mut Fields<'a>,
    kind: Kind,
    columns: usize,
) -> Result<&'a [u8], CodecFault>
    requires some { 1 ≤ columns }
    ensures gives { Gives (λ bitmap. bitmap.now) result fields.new.at
        (presents kind columns fields.old.bytes.now fields.old.at) }
    ensures bytes { fields.new.bytes ≡ fields.old.bytes }
{
    match kind {
        Kind::Update => {
            read_present(fields, columns)?;
            read_present(fields, columns)
        }
        Kind::Insert | Kind::Remove => read_present(fields, columns),
    }
}

/// Reads the present bitmap of one row image, in which all columns must be present.
fn read_present<'a>(fields: &mut Fields<'a>, columns: usize) -> Result<&'a [u8], CodecFault>
    requires some { 1 ≤ columns }
    ensures gives { Gives (λ bitmap. bitmap.now) result fields.new.at
        (present columns fields.old.bytes.now fields.old.at) }
    ensures bytes { fields.new.bytes ≡ fields.old.bytes }
{
    let at = fields.at();
    let bitmap = fields.some_bytes(columns.div_ceil(8))?;
    check(all_set(columns, bitmap), at, Field::Present)?;
    Ok(bitmap)
}
