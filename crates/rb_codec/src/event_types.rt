ghost use Rattle.std.specs.Prelude.{◌≡◌, ◌≤◌, ◌-◌, ◌==◌, length, get_or};
ghost use Rattle.rb_log_defs.specs.Event.{post_header_lengths};
ghost use Rattle.rb_read_defs.specs.Events.{is_known, are_post_headers};

/// The magic number at the start of a binlog file.
pub const MAGIC: [u8; 4] = [0xfe, b'b', b'i', b'n'];

/// The length of an event's header in bytes.
pub const HEADER_SIZE: usize = 19;

/// The type code of a QUERY event.
pub const QUERY_EVENT: u8 = 2;

/// The type code of a ROTATE event.
pub const ROTATE_EVENT: u8 = 4;

/// The type code of a FORMAT_DESCRIPTION event.
pub const FORMAT_DESCRIPTION_EVENT: u8 = 15;

/// The type code of an XID event.
pub const XID_EVENT: u8 = 16;

/// The type code of a TABLE_MAP event.
pub const TABLE_MAP_EVENT: u8 = 19;

/// The type code of a WRITE_ROWS event.
pub const WRITE_ROWS_EVENT: u8 = 30;

/// The type code of an UPDATE_ROWS event.
pub const UPDATE_ROWS_EVENT: u8 = 31;

/// The type code of a DELETE_ROWS event.
pub const DELETE_ROWS_EVENT: u8 = 32;

/// The length of the post-header of each event type from 1 to 35.
pub(crate) const POST_HEADER_LENGTHS: [u8; 35] = [
    0, 13, 0, 8, 0, 0, 0, 0, 0, 0, 0, 0, 0, 0, 92, 0, 0, 0, 8, 0, 0, 0, 0, 0, 0, 0, 0, 0, 0, 10,
    10, 10, 0, 0, 0,
];

/// Returns whether events of this type are known. A reader skips other events if their flags allow
/// it.
pub fn is_known(kind: u8) -> bool
    ensures { result ≡ is_known kind }
{
    matches!(
        kind,
        QUERY_EVENT
            | ROTATE_EVENT
            | FORMAT_DESCRIPTION_EVENT
            | XID_EVENT
            | TABLE_MAP_EVENT
            | WRITE_ROWS_EVENT
            | UPDATE_ROWS_EVENT
            | DELETE_ROWS_EVENT
    )
}

/// Returns whether these are at least 32 post-header lengths, with the right length for each known
/// type.
pub(crate) fn are_post_headers(lengths: &[u8]) -> bool
    ensures { result ≡ are_post_headers lengths.now }
{
    32 <= lengths.len()
        && has_length_of(lengths, QUERY_EVENT)
        && has_length_of(lengths, ROTATE_EVENT)
        && has_length_of(lengths, FORMAT_DESCRIPTION_EVENT)
        && has_length_of(lengths, XID_EVENT)
        && has_length_of(lengths, TABLE_MAP_EVENT)
        && has_length_of(lengths, WRITE_ROWS_EVENT)
        && has_length_of(lengths, UPDATE_ROWS_EVENT)
        && has_length_of(lengths, DELETE_ROWS_EVENT)
}

fn has_length_of(lengths: &[u8], kind: u8) -> bool
    requires lengths { 32 ≤ length lengths.now }
    requires kind { (1 ≤ kind) × (kind ≤ 32) }
    ensures { result ≡ (get_or lengths.now (kind - 1) 0 == get_or post_header_lengths
        (kind - 1) 0) }
{
    let index = kind as usize - 1;
    lengths[index] == POST_HEADER_LENGTHS[index]
}
