use rb_base::{Field, Value};
use rb_stream::{Decoder, Step, StreamFault};
use std::test::Fail;

/// File 1 of the worked example, which docs/LOG_FORMAT.md spells: the magic number, the format
/// description, and an epoch of two inserts.
pub(crate) const FILE: [u8; 456] = [
    0xfe, 0x62, 0x69, 0x6e, 0, 0, 0, 0, 0x0f, 1, 0, 0, 0, 0x6f, 0, 0, 0, 0x73, 0, 0, 0, 0, 0, 4, 0,
    0x38, 0x2e, 0x30, 0x2d, 0x72, 0x62, 0, 0, 0, 0, 0, 0, 0, 0, 0, 0, 0, 0, 0, 0, 0, 0, 0, 0, 0, 0,
    0, 0, 0, 0, 0, 0, 0, 0, 0, 0, 0, 0, 0, 0, 0, 0, 0, 0, 0, 0, 0, 0, 0, 0, 0, 0, 0, 0, 0x13, 0,
    0x0d, 0, 8, 0, 0, 0, 0, 0, 0, 0, 0, 0, 0, 0x5c, 0, 0, 0, 8, 0, 0, 0, 0, 0, 0, 0, 0, 0, 0, 0x0a,
    0x0a, 0x0a, 0, 0, 0, 0, 0, 0, 0, 2, 1, 0, 0, 0, 0x26, 0, 0, 0, 0x99, 0, 0, 0, 0, 0, 0, 0, 0, 0,
    0, 0, 0, 0, 0, 0, 0, 0, 0, 0, 0x42, 0x45, 0x47, 0x49, 0x4e, 0, 0, 0, 0, 0x13, 1, 0, 0, 0, 0x3e,
    0, 0, 0, 0xd7, 0, 0, 0, 0, 0, 0, 0, 0, 0, 0, 0, 0, 0, 5, 0x6d, 0x79, 0x73, 0x71, 0x6c, 0, 0x10,
    0x6e, 0x64, 0x62, 0x5f, 0x61, 0x70, 0x70, 0x6c, 0x79, 0x5f, 0x73, 0x74, 0x61, 0x74, 0x75, 0x73,
    0, 5, 3, 8, 0x0f, 8, 8, 2, 0xff, 0, 0, 0, 0, 0, 0, 0x13, 1, 0, 0, 0, 0x27, 0, 0, 0, 0xfe, 0, 0,
    0, 0, 0, 1, 0, 0, 0, 0, 0, 0, 0, 2, 0x64, 0x62, 0, 1, 0x74, 0, 2, 8, 8, 0, 0, 0, 0, 0, 0, 0x1e,
    1, 0, 0, 0, 0x3d, 0, 0, 0, 0x3b, 1, 0, 0, 0, 0, 0, 0, 0, 0, 0, 0, 0, 0, 2, 0, 5, 0x1f, 0, 1, 0,
    0, 0, 0, 0, 0, 0, 1, 0, 0, 0, 0, 0, 0, 0, 0, 0, 0, 0, 0, 0, 0, 0, 0, 0, 0, 0, 0, 0, 0, 0, 0,
    0x1e, 1, 0, 0, 0, 0x39, 0, 0, 0, 0x74, 1, 0, 0, 0, 0, 1, 0, 0, 0, 0, 0, 0, 0, 0x0b, 0, 0x52, 1,
    0, 0, 0, 0, 0, 0, 0, 2, 3, 0, 5, 0, 0, 0, 0, 0, 0, 0, 7, 0, 0, 0, 0, 0, 0, 0, 0, 0, 0, 0, 0x1e,
    1, 0, 0, 0, 0x39, 0, 0, 0, 0xad, 1, 0, 0, 0, 0, 1, 0, 0, 0, 0, 0, 1, 0, 0x0b, 0, 0x52, 2, 0, 0,
    0, 0, 0, 0, 0, 2, 3, 0, 6, 0, 0, 0, 0, 0, 0, 0, 8, 0, 0, 0, 0, 0, 0, 0, 0, 0, 0, 0, 0x10, 1, 0,
    0, 0, 0x1b, 0, 0, 0, 0xc8, 1, 0, 0, 0, 0, 0, 0, 0, 0, 1, 0, 0, 0,
];

/// A rotate event at 456 that names file 2.
const ROTATION: [u8; 39] = [
    0, 0, 0, 0, 4, 1, 0, 0, 0, 0x27, 0, 0, 0, 0xef, 1, 0, 0, 0, 0, 4, 0, 0, 0, 0, 0, 0, 0, 0x61,
    0x2d, 0x62, 0x69, 0x6e, 0x2e, 0x30, 0x30, 0x30, 0x30, 0x30, 0x32,
];

/// Returns the number that a value is.
fn number_of(value: Option<&Value>) -> Option<u64> {
    match value {
        Some(Value::Num(number)) => Some(*number),
        _ => None,
    }
}

#[test]
fn the_worked_file(rt: HostRuntime) -> Result<(), Fail> {
    let mut decoder = Decoder::new(rt.alloc(), 0);
    decoder.feed(&FILE)?;
    assert!(rt; matches!(decoder.next(), Ok(Step::Format)));
    let Ok(Step::Epoch(body, end)) = decoder.next() else {
        return Err(Fail::from("an epoch"));
    };
    assert_eq!(rt; end, 456);
    assert_eq!(rt; body.server, 1);
    assert_eq!(rt; body.epoch.0, 4294967296);
    assert!(rt; body.reflected.is_none());
    assert_eq!(rt; body.tables.as_slice().len(), 1);
    assert_eq!(rt; body.changes.as_slice().len(), 2);
    let change = body.changes.as_slice().first().ok_or("a change")?;
    assert_eq!(rt; change.table, 1);
    assert_eq!(rt; change.key, 5);
    assert_eq!(rt; change.transid, 1);
    let after = change.after.as_ref().ok_or("a row")?;
    assert_eq!(rt; number_of(after.values.as_slice().get(1)), Some(7));
    assert!(rt; matches!(decoder.next(), Ok(Step::NeedMore)));
    assert_eq!(rt; decoder.rest(), 0);
    Ok(())
}

#[test]
fn an_epoch_that_is_cut_short(rt: HostRuntime) -> Result<(), Fail> {
    let mut decoder = Decoder::new(rt.alloc(), 0);
    decoder.feed(&FILE[..355])?;
    assert!(rt; matches!(decoder.next(), Ok(Step::Format)));
    assert!(rt; matches!(decoder.next(), Ok(Step::NeedMore)));
    assert_eq!(rt; decoder.rest(), 240);
    Ok(())
}

#[test]
fn a_rotation(rt: HostRuntime) -> Result<(), Fail> {
    let mut decoder = Decoder::new(rt.alloc(), 456);
    decoder.feed(&ROTATION)?;
    let Ok(Step::Rotate(position, name)) = decoder.next() else {
        return Err(Fail::from("a rotation"));
    };
    assert_eq!(rt; position, 4);
    assert_eq!(rt; name.as_slice(), b"a-bin.000002".as_slice());
    assert_eq!(rt; decoder.rest(), 0);
    Ok(())
}

#[test]
fn a_bad_event_is_kept(rt: HostRuntime) -> Result<(), Fail> {
    let mut log = FILE;
    log[334] = 2;
    let mut decoder = Decoder::new(rt.alloc(), 0);
    decoder.feed(&log)?;
    assert!(rt; matches!(decoder.next(), Ok(Step::Format)));
    let fault = StreamFault::BadEvent(315, Field::TableId);
    assert!(rt; matches!(decoder.next(), Err(found) if found == fault));
    assert!(rt; matches!(decoder.next(), Err(found) if found == fault));
    assert_eq!(rt; decoder.rest(), 341);
    Ok(())
}
