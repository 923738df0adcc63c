ghost use Rattle.std.specs.Prelude.{◌≡◌, List};
ghost use Rattle.rb_read_defs.specs.Stream.{Known, is_open, is_rotated, is_in_order, header_fault};

use rb_base::Field;
use rb_codec::{
    DELETE_ROWS_EVENT, FORMAT_DESCRIPTION_EVENT, QUERY_EVENT, ROTATE_EVENT, TABLE_MAP_EVENT,
    UPDATE_ROWS_EVENT, WRITE_ROWS_EVENT, XID_EVENT,
};
use rb_read_defs::Header;

/// Returns the fault of an event with this header at this position, if it is not allowed there.
/// After a rotation no event is allowed.
pub(crate) fn order_fault(rotated: bool, inside: bool, at: u64, header: Header) -> Option<Field>
    ensures { (known : List Known) → rotated ≡ is_rotated known → inside ≡ is_open known →
        result ≡ header_fault at known header }
{
    if rotated {
        return Some(Field::AfterRotate);
    }
    if is_in_order(inside, at, header.kind) {
        return None;
    }
    Some(Field::Order)
}

/// Returns whether an event of this type is allowed at this position, within an epoch or outside. A
/// query event is always allowed here, since its text decides.
fn is_in_order(inside: bool, at: u64, kind: u8) -> bool
    ensures { (known : List Known) → inside ≡ is_open known → result ≡ is_in_order at known kind }
{
    if kind == QUERY_EVENT {
        return true;
    }
    if at == 4 {
        return kind == FORMAT_DESCRIPTION_EVENT;
    }
    match kind {
        XID_EVENT | TABLE_MAP_EVENT | WRITE_ROWS_EVENT | UPDATE_ROWS_EVENT | DELETE_ROWS_EVENT => {
            inside
        }
        ROTATE_EVENT | FORMAT_DESCRIPTION_EVENT => !inside,
        _ => true,
    }
}
