use rb_base::{
    Bodies, Bytes, Change, Changes, ClientOp, ClientOps, Columns, Epoch, Event, ExceptionRows,
    Kind, LengthRead, Mapped, MappedTables, NoMemory, Op, Row, SentList, SiteId, Value, Values,
    bucket_of, read_length, write_length,
};
use std::test::Fail;

fn moves_and_shares<T: Send + Sync>() {}

#[test]
fn lists_go_between_threads() {
    moves_and_shares::<Bytes>();
    moves_and_shares::<Changes>();
    moves_and_shares::<SentList>();
    moves_and_shares::<MappedTables>();
    moves_and_shares::<Bodies>();
    moves_and_shares::<ClientOps>();
    moves_and_shares::<ExceptionRows>();
}

#[test]
fn epochs_and_sites(rt: HostRuntime) {
    let first = Epoch(4294967296);
    assert_eq!(rt; (first.gci(), first.micro()), (1, 0));
    assert_eq!(rt; first.next(), Some(Epoch(4294967297)));
    assert_eq!(rt; first.next_gci(), Some(Epoch(8589934592)));
    assert_eq!(rt; Epoch(u64::MAX).next(), None);
    assert_eq!(rt; Epoch(u64::MAX).next_gci(), None);
    assert_eq!(rt; SiteId::A.server_id(), 1);
    assert_eq!(rt; SiteId::A.peer().server_id(), 2);
}

// The greatest key, in the first two tables of four buckets.
#[test]
fn buckets_of_the_greatest_key(rt: HostRuntime) {
    assert_eq!(rt; bucket_of(1, u64::MAX, 4), 0);
    assert_eq!(rt; bucket_of(2, u64::MAX, 4), 1);
}

// The ends of each form of a length-encoded number, from the protocol's description.
#[test]
fn lengths(rt: HostRuntime) -> Result<(), Fail> {
    let cases: [(u64, &[u8]); 7] = [
        (0, &[0]),
        (250, &[250]),
        (251, &[0xfc, 251, 0]),
        (65535, &[0xfc, 0xff, 0xff]),
        (65536, &[0xfd, 0, 0, 1]),
        (16777216, &[0xfe, 0, 0, 0, 1, 0, 0, 0, 0]),
        (
            u64::MAX,
            &[0xfe, 0xff, 0xff, 0xff, 0xff, 0xff, 0xff, 0xff, 0xff],
        ),
    ];
    for (number, spelled) in cases {
        let mut out = vec![in rt.alloc(); 7u8]?;
        write_length(rt.alloc(), &mut out, number)?;
        assert_eq!(rt; &out[..1], [7].as_slice(), "at {number}");
        assert_eq!(rt; &out[1..], spelled, "at {number}");
    }
    Ok(())
}

// The four forms, a small number in the longest, and bytes that are no number.
#[test]
fn lengths_read(rt: HostRuntime) {
    assert_eq!(rt; read_length(&[7, 250], 1), LengthRead::Number(250, 2));
    assert_eq!(rt;
        read_length(&[0xfc, 0x2c, 1], 0),
        LengthRead::Number(300, 3)
    );
    assert_eq!(rt;
        read_length(&[0xfd, 0, 0, 1], 0),
        LengthRead::Number(65536, 4)
    );
    assert_eq!(rt;
        read_length(&[0, 0xfe, 0, 0, 0, 1, 0, 0, 0, 0], 1),
        LengthRead::Number(16777216, 10)
    );
    assert_eq!(rt;
        read_length(&[0xfe, 5, 0, 0, 0, 0, 0, 0, 0], 0),
        LengthRead::Number(5, 9)
    );
    assert_eq!(rt; read_length(&[7], 1), LengthRead::Short);
    assert_eq!(rt; read_length(&[0xfd, 0, 0], 0), LengthRead::Short);
    assert_eq!(rt; read_length(&[0xfb, 0, 0], 0), LengthRead::Wrong);
    assert_eq!(rt; read_length(&[0xff], 0), LengthRead::Wrong);
}

fn five(rt: &HostRuntime) -> Result<Row, NoMemory> {
    let mut values = Values::new(rt.alloc());
    values.push(Value::Num(5))?;
    values.push(Value::Text(Bytes::new(rt.alloc())))?;
    Ok(Row { values })
}

#[test]
fn copies(rt: HostRuntime) -> Result<(), Fail> {
    let change = Change {
        table: 1,
        key: 5,
        kind: Kind::Insert,
        before: None,
        after: Some(five(&rt)?),
        author: 1,
        transid: 9,
    };
    let copy = change.copy(rt.alloc())?;
    assert_eq!(rt;
        (copy.table, copy.key, copy.kind, copy.author, copy.transid),
        (1, 5, Kind::Insert, 1, 9)
    );
    assert!(rt; copy.before.is_none());
    let row = copy.after.ok_or("the image is copied")?;
    assert_eq!(rt; row.values.as_slice().len(), 2);

    let mut operations = ClientOps::new(rt.alloc());
    operations.push(ClientOp {
        op: Op::Put,
        table: 1,
        key: 5,
        row: Some(five(&rt)?),
    })?;
    let event = Event::Tx(SiteId::B, operations).copy(rt.alloc())?;
    assert!(rt; matches!(event, Event::Tx(SiteId::B, _)));

    let table = Mapped {
        id: 3,
        schema: Bytes::new(rt.alloc()),
        name: Bytes::from_vec(b"t".to_vec(rt.alloc())?),
        columns: Columns::new(rt.alloc()),
    };
    let copy = table.copy(rt.alloc())?;
    assert_eq!(rt; copy.id, 3);
    assert_eq!(rt; copy.name.as_slice(), b"t".as_slice());
    Ok(())
}
