ghost use Rattle.std.specs.Prelude.{◌<◌, ◌≤◌, length, IfOk};
ghost use Rattle.rb_log_defs.specs.Fits.{CanBeMapped};

use rb_base::{CodecFault, Column, Field, Items, Mapped, NoMemory, SiteId};
use rb_codec::{
    Header, QueryText, all_clear, all_set, file_name, is_status, read_format, read_header,
    read_query, read_rotate, read_table_map, read_xid, write_event, write_format, write_header,
    write_query, write_rotate, write_table_map, write_xid,
};
use std::alloc::Global;
use std::test::Fail;

/// The format description by server 1, at position 4, as docs/LOG_FORMAT.md spells it.
const FORMAT: [u8; 111] = [
    0, 0, 0, 0, 0x0f, 1, 0, 0, 0, 0x6f, 0, 0, 0, 0x73, 0, 0, 0, 0, 0, 4, 0, 0x38, 0x2e, 0x30, 0x2d,
    0x72, 0x62, 0, 0, 0, 0, 0, 0, 0, 0, 0, 0, 0, 0, 0, 0, 0, 0, 0, 0, 0, 0, 0, 0, 0, 0, 0, 0, 0, 0,
    0, 0, 0, 0, 0, 0, 0, 0, 0, 0, 0, 0, 0, 0, 0, 0, 0, 0, 0, 0, 0x13, 0, 0x0d, 0, 8, 0, 0, 0, 0, 0,
    0, 0, 0, 0, 0, 0x5c, 0, 0, 0, 8, 0, 0, 0, 0, 0, 0, 0, 0, 0, 0, 0x0a, 0x0a, 0x0a, 0, 0, 0,
];

/// BEGIN by server 1, at position 115.
const BEGIN: [u8; 38] = [
    0, 0, 0, 0, 2, 1, 0, 0, 0, 0x26, 0, 0, 0, 0x99, 0, 0, 0, 0, 0, 0, 0, 0, 0, 0, 0, 0, 0, 0, 0, 0,
    0, 0, 0, 0x42, 0x45, 0x47, 0x49, 0x4e,
];

/// The map of the apply-status table by server 1, at position 153.
const STATUS_MAP: [u8; 62] = [
    0, 0, 0, 0, 0x13, 1, 0, 0, 0, 0x3e, 0, 0, 0, 0xd7, 0, 0, 0, 0, 0, 0, 0, 0, 0, 0, 0, 0, 0, 5,
    0x6d, 0x79, 0x73, 0x71, 0x6c, 0, 0x10, 0x6e, 0x64, 0x62, 0x5f, 0x61, 0x70, 0x70, 0x6c, 0x79,
    0x5f, 0x73, 0x74, 0x61, 0x74, 0x75, 0x73, 0, 5, 3, 8, 0x0f, 8, 8, 2, 0xff, 0, 0,
];

/// The map of table 1, db.t, by server 1, at position 215.
const TABLE_MAP: [u8; 39] = [
    0, 0, 0, 0, 0x13, 1, 0, 0, 0, 0x27, 0, 0, 0, 0xfe, 0, 0, 0, 0, 0, 1, 0, 0, 0, 0, 0, 0, 0, 2,
    0x64, 0x62, 0, 1, 0x74, 0, 2, 8, 8, 0, 0,
];

/// An XID event with the number 7 by server 1, at position 173.
const XID: [u8; 27] = [
    0, 0, 0, 0, 0x10, 1, 0, 0, 0, 0x1b, 0, 0, 0, 0xc8, 0, 0, 0, 0, 0, 7, 0, 0, 0, 0, 0, 0, 0,
];

/// A rotate event by server 1, at position 683, to the start of the file a-bin.000002.
const ROTATE: [u8; 39] = [
    0, 0, 0, 0, 4, 1, 0, 0, 0, 0x27, 0, 0, 0, 0xd2, 2, 0, 0, 0, 0, 4, 0, 0, 0, 0, 0, 0, 0, 0x61,
    0x2d, 0x62, 0x69, 0x6e, 0x2e, 0x30, 0x30, 0x30, 0x30, 0x30, 0x32,
];

/// The header of an event of type 16 that ends at 200, with flags.
const HEADER: [u8; 19] = [
    0, 0, 0, 0, 0x10, 1, 0, 0, 0, 0x1b, 0, 0, 0, 0xc8, 0, 0, 0, 2, 1,
];

#[test]
fn headers(rt: HostRuntime) -> Result<(), Fail> {
    let header = Header {
        kind: 16,
        server: 1,
        size: 27,
        end: 200,
        flags: 0x0102,
    };
    let mut out = Vec::new(rt.alloc());
    write_header(rt.alloc(), &mut out, &header)?;
    assert_eq!(rt; out.as_slice(), HEADER.as_slice());
    Ok(())
}

#[test]
fn fixed_events(rt: HostRuntime) -> Result<(), Fail> {
    let mut out = Vec::new(rt.alloc());
    write_format(rt.alloc(), &mut out, 1, 4)?;
    assert_eq!(rt; out.as_slice(), FORMAT.as_slice());
    let mut out = Vec::new(rt.alloc());
    write_query(rt.alloc(), &mut out, 1, 115, b"BEGIN")?;
    assert_eq!(rt; out.as_slice(), BEGIN.as_slice());
    let mut out = Vec::new(rt.alloc());
    write_rotate(rt.alloc(), &mut out, 1, 683, 4, b"a-bin.000002")?;
    assert_eq!(rt; out.as_slice(), ROTATE.as_slice());
    let mut out = Vec::new(rt.alloc());
    write_xid(rt.alloc(), &mut out, 1, 173, 7)?;
    assert_eq!(rt; out.as_slice(), XID.as_slice());
    let mut out = Vec::new(rt.alloc());
    write_event(rt.alloc(), &mut out, 16, 1, 173, &[7, 0, 0, 0, 0, 0, 0, 0])?;
    assert_eq!(rt; out.as_slice(), XID.as_slice());
    Ok(())
}

fn table(
    alloc: Global,
    id: u16,
    schema: &[u8],
    name: &[u8],
    columns: &[Column],
) -> Result<Mapped, NoMemory>
    requires names { (length schema.now < 256) × (length name.now < 256) }
    requires columns { (0 < length columns.now) × (length columns.now ≤ 64) }
    ensures { IfOk result CanBeMapped }
{
    Ok(Mapped {
        id,
        schema: Items::from_vec(Vec::from_slice(alloc, schema)?),
        name: Items::from_vec(Vec::from_slice(alloc, name)?),
        columns: Items::from_vec(Vec::from_slice(alloc, columns)?),
    })
}

#[test]
#[tactic(auto, using(rb_log_defs::proofs::Sizes::table_map_bound))]
fn table_maps(rt: HostRuntime) -> Result<(), Fail> {
    let columns = [
        Column::Long,
        Column::Num,
        Column::Text(255),
        Column::Num,
        Column::Num,
    ];
    let status = table(rt.alloc(), 0, b"mysql", b"ndb_apply_status", &columns)?;
    let mut out = Vec::new(rt.alloc());
    write_table_map(rt.alloc(), &mut out, 1, 153, &status)?;
    assert_eq!(rt; out.as_slice(), STATUS_MAP.as_slice());
    let user = table(rt.alloc(), 1, b"db", b"t", &[Column::Num, Column::Num])?;
    let mut out = Vec::new(rt.alloc());
    write_table_map(rt.alloc(), &mut out, 1, 215, &user)?;
    assert_eq!(rt; out.as_slice(), TABLE_MAP.as_slice());
    Ok(())
}

/// The position of the payload in each event above.
const AT_PAYLOAD: usize = 19;

/// A header of type 99 at the file's start, with LOG_EVENT_IGNORABLE_F and without an end.
const IGNORABLE: [u8; 19] = [
    9, 9, 9, 9, 0x63, 1, 0, 0, 0, 0x13, 0, 0, 0, 0, 0, 0, 0, 0x80, 0,
];

#[test]
fn headers_read(rt: HostRuntime) {
    let header = Header {
        kind: 16,
        server: 1,
        size: 27,
        end: 200,
        flags: 0x0102,
    };
    assert_eq!(rt; read_header(&HEADER, 173), Ok(header));
    assert_eq!(rt; read_header(&HEADER[..12], 173), Err(CodecFault::Short(9)));
    assert_eq!(rt;
        read_header(&HEADER, 174),
        Err(CodecFault::BadField(13, Field::EndPosition))
    );
    let skipped = Header {
        kind: 99,
        server: 1,
        size: 19,
        end: 0,
        flags: 0x80,
    };
    assert_eq!(rt; read_header(&IGNORABLE, 0), Ok(skipped));
    assert_eq!(rt;
        read_header(&IGNORABLE[..18], 0),
        Err(CodecFault::Short(17))
    );
    let mut unknown = IGNORABLE;
    unknown[17] = 0x7f;
    assert_eq!(rt;
        read_header(&unknown, 0),
        Err(CodecFault::BadField(4, Field::EventType))
    );
    let mut small = IGNORABLE;
    small[9] = 18;
    assert_eq!(rt;
        read_header(&small, 0),
        Err(CodecFault::BadField(9, Field::EventSize))
    );
}

#[test]
fn formats_read(rt: HostRuntime) {
    let payload = &FORMAT[AT_PAYLOAD..];
    assert_eq!(rt; read_format(payload), Ok(()));
    assert_eq!(rt; read_format(&payload[..51]), Err(CodecFault::Short(2)));
    assert_eq!(rt;
        read_format(&payload[..88]),
        Err(CodecFault::BadField(57, Field::PostHeader))
    );
    let mut other = FORMAT;
    other[19] = 3;
    assert_eq!(rt;
        read_format(&other[AT_PAYLOAD..]),
        Err(CodecFault::BadField(0, Field::Version))
    );
}

#[test]
fn queries_read(rt: HostRuntime) {
    let payload = &BEGIN[AT_PAYLOAD..];
    assert_eq!(rt; read_query(payload), Ok(QueryText::Begin));
    assert_eq!(rt; read_query(&payload[..10]), Err(CodecFault::Short(9)));
    assert_eq!(rt;
        read_query(&payload[..18]),
        Err(CodecFault::BadField(14, Field::QueryText))
    );
    // Of thread 7, with the schema db, and three bytes of status variables before it.
    let commit = [
        7, 0, 0, 0, 1, 0, 0, 0, 2, 0, 0, 3, 0, 0x0a, 0x0b, 0x0c, 0x64, 0x62, 0, 0x43, 0x4f, 0x4d,
        0x4d, 0x49, 0x54,
    ];
    assert_eq!(rt; read_query(&commit), Ok(QueryText::Commit));
    assert_eq!(rt; read_query(&commit[..15]), Err(CodecFault::Short(13)));
}

#[test]
fn xids_and_rotations_read(rt: HostRuntime) -> Result<(), Fail> {
    assert_eq!(rt; read_xid(&XID[AT_PAYLOAD..]), Ok(7));
    assert_eq!(rt; read_xid(&[7, 0, 0, 0, 0, 0, 0]), Err(CodecFault::Short(0)));
    assert_eq!(rt;
        read_xid(&[7, 0, 0, 0, 0, 0, 0, 1, 0]),
        Err(CodecFault::BadField(8, Field::EventSize))
    );
    let to = read_rotate(rt.alloc(), &ROTATE[AT_PAYLOAD..])
        .ok()
        .ok_or("a rotation")?;
    assert_eq!(rt; to.position, 4);
    assert_eq!(rt; to.name.as_slice(), b"a-bin.000002".as_slice());
    assert!(rt; matches!(read_rotate(rt.alloc(), &[4, 0]), Err(CodecFault::Short(0))));
    Ok(())
}

/// Table 5, db.t: a LONGLONG, a LONG and a VARCHAR of at most 300 bytes, with optional metadata
/// after the null bitmap. The unused bits of the bitmap are set.
const OTHER_MAP: [u8; 28] = [
    5, 0, 0, 0, 0, 0, 1, 0, 2, 0x64, 0x62, 0, 1, 0x74, 0, 3, 8, 3, 0x0f, 0xfc, 2, 0, 0x2c, 1, 0xf8,
    1, 2, 3,
];

#[test]
fn table_maps_read(rt: HostRuntime) -> Result<(), Fail> {
    let table = read_table_map(rt.alloc(), &OTHER_MAP)
        .ok()
        .ok_or("a table map")?;
    assert_eq!(rt; table.id, 5);
    assert_eq!(rt; table.schema.as_slice(), b"db".as_slice());
    assert_eq!(rt; table.name.as_slice(), b"t".as_slice());
    let columns = [Column::Num, Column::Long, Column::Text(300)];
    assert_eq!(rt; table.columns.as_slice(), columns.as_slice());
    assert!(rt; read_table_map(rt.alloc(), &STATUS_MAP[AT_PAYLOAD..]).is_ok());
    assert!(rt;
        matches!(
            read_table_map(rt.alloc(), &OTHER_MAP[..23]),
            Err(CodecFault::Short(22))
        )
    );
    let mut other = OTHER_MAP;
    other[16] = 3;
    let read = read_table_map(rt.alloc(), &other);
    assert!(rt; matches!(read, Err(CodecFault::BadField(16, Field::ColumnType))));
    let mut other = OTHER_MAP;
    other[24] = 0xfc;
    let read = read_table_map(rt.alloc(), &other);
    assert!(rt; matches!(read, Err(CodecFault::BadField(24, Field::Null))));
    Ok(())
}

#[test]
fn bitmaps_and_names(rt: HostRuntime) {
    assert!(rt; all_set(9, &[0xff, 0x03]));
    assert!(rt; !all_set(9, &[0xff, 0x02]));
    assert!(rt; all_clear(64, &[0, 0, 0, 0, 0, 0, 0, 0]));
    assert!(rt; !all_clear(64, &[0, 0, 0, 0, 0, 0, 0, 0x80]));
    assert!(rt; is_status(b"mysql", b"ndb_apply_status"));
    assert!(rt; !is_status(b"mysql", b"ndb_apply_statu"));
}

#[test]
#[tactic(auto, using(rb_log_defs::proofs::Sizes::table_map_bound))]
fn what_is_written_is_read(rt: HostRuntime) -> Result<(), Fail> {
    let mut out = Vec::new(rt.alloc());
    write_xid(rt.alloc(), &mut out, 1, 173, 18446744073709551615)?;
    let header = Header {
        kind: 16,
        server: 1,
        size: 27,
        end: 200,
        flags: 0,
    };
    assert_eq!(rt; read_header(&out, 173), Ok(header));
    assert_eq!(rt; read_xid(&out[AT_PAYLOAD..]), Ok(18446744073709551615));
    let mut out = Vec::new(rt.alloc());
    write_rotate(rt.alloc(), &mut out, 1, 683, 4, b"b-bin.000003")?;
    let to = read_rotate(rt.alloc(), &out[AT_PAYLOAD..])
        .ok()
        .ok_or("a rotation")?;
    assert_eq!(rt; to.name.as_slice(), b"b-bin.000003".as_slice());
    let columns = [Column::Num, Column::Text(65535), Column::Text(7)];
    let mapped = table(rt.alloc(), 65535, b"s", b"names", &columns)?;
    let mut out = Vec::new(rt.alloc());
    write_table_map(rt.alloc(), &mut out, 1, 215, &mapped)?;
    let payload = out.get(AT_PAYLOAD..).ok_or("a payload")?;
    let read = read_table_map(rt.alloc(), payload)
        .ok()
        .ok_or("a table map")?;
    assert_eq!(rt; read.id, 65535);
    assert_eq!(rt; read.columns.as_slice(), columns.as_slice());
    Ok(())
}

#[test]
fn names_have_six_digits_or_more(rt: HostRuntime) -> Result<(), Fail> {
    let alloc = rt.alloc();
    let first = file_name(alloc, SiteId::A, 1)?;
    assert_eq!(rt; first.as_slice(), b"a-bin.000001".as_slice());
    let six = file_name(alloc, SiteId::B, 999_999)?;
    assert_eq!(rt; six.as_slice(), b"b-bin.999999".as_slice());
    let seven = file_name(alloc, SiteId::B, 1_000_000)?;
    assert_eq!(rt; seven.as_slice(), b"b-bin.1000000".as_slice());
    Ok(())
}
