ghost use Rattle.std.specs.Prelude.{◌≡◌, IfOk};
ghost use Rattle.rb_text_defs.specs.LogText.{Ascend};

use rb_base::{
    Bytes, Change, Changes, Columns, Epoch, EpochBody, IndexRow, Kind, Listed, ListedEvents,
    Mapped, MappedTables, Outcome, Row, SiteId, Value, Values,
};
use rb_print::{print_body, print_log, print_outcome, print_rest, print_rotation, print_table};
use std::alloc::Global;
use std::test::Fail;

/// Lines of events, written by hand.
#[test]
fn outcomes(rt: HostRuntime) -> Result<(), Fail> {
    let committed = Outcome::Committed {
        transid: 1,
        epoch: Epoch(4294967296),
        sent: 2,
    };
    let text = print_outcome(rt.alloc(), 3, &committed)?;
    assert_eq!(rt;
        text.as_slice(),
        b"3 ok transid=1 epoch=4294967296 sent=2\n".as_slice()
    );
    let logged = Outcome::Logged {
        kept: 1,
        known: 2,
        old: 3,
        count: 4,
        written: Epoch(5),
        bucket: 6,
        place: None,
    };
    let text = print_outcome(rt.alloc(), 100000, &logged)?;
    assert_eq!(rt;
        text.as_slice(),
        b"100000 delivered kept=1 known=2 old=3 wrote 4 written=5 missing=6:done\n".as_slice()
    );
    let lost = Outcome::SiteLost {
        group: 1,
        epoch: Epoch(7),
    };
    let text = print_outcome(rt.alloc(), 8, &lost)?;
    assert_eq!(rt; text.as_slice(), b"8 site lost 1 7\n".as_slice());
    Ok(())
}

#[test]
fn a_dump(rt: HostRuntime) -> Result<(), Fail> {
    let mut events = ListedEvents::new(rt.alloc());
    events.push(Listed {
        file: 1,
        position: 4,
        kind: 15,
        size: 116,
        end: 120,
    })?;
    let text = print_outcome(rt.alloc(), 2, &Outcome::Dumped { files: 1, events })?;
    assert_eq!(rt;
        text.as_slice(),
        b"2 dumped files=1\nevent file=1 pos=4 type=15 size=116 end=120\n".as_slice()
    );
    Ok(())
}

#[test]
fn a_table(rt: HostRuntime) -> Result<(), Fail> {
    let mut values = Values::new(rt.alloc());
    values.push(Value::Num(5))?;
    values.push(Value::Text(Bytes::from_vec(Vec::from_slice(rt.alloc(), b"a\"b\n")?)))?;
    let text = print_table(rt.alloc(), SiteId::A, b"t", &[Row { values }])?;
    assert_eq!(rt;
        text.as_slice(),
        b"table A t rows=1\nrow 5 \"a\\x22b\\x0a\"\n".as_slice()
    );
    Ok(())
}

#[test]
fn a_log(rt: HostRuntime) -> Result<(), Fail> {
    let row = IndexRow {
        epoch: Epoch(4294967296),
        orig_epoch: Epoch(4294967296),
        position: 115,
        next_position: 456,
        file: 1,
        next_file: 1,
        inserts: 2,
        updates: 0,
        deletes: 0,
        schemaops: 0,
        orig_server_id: 1,
        gci: 1,
    };
    let text = print_log(rt.alloc(), SiteId::A, 2, &[row])?;
    assert_eq!(rt;
        text.as_slice(),
        b"log A files=2 epochs=1 written=4294967296\n\
            epoch 4294967296 gci=1 file=1 pos=115 next=456 ins=2 upd=0 del=0\n"
            .as_slice()
    );
    let text = print_log(rt.alloc(), SiteId::A, 1, &[])?;
    assert_eq!(rt;
        text.as_slice(),
        b"log A files=1 epochs=0 written=0\n".as_slice()
    );
    Ok(())
}

// A name or a text.
fn bytes(alloc: Global, text: &[u8]) -> Result<Bytes, Fail> {
    Ok(Bytes::from_vec(Vec::from_slice(alloc, text)?))
}

// A row with a text.
fn row(alloc: Global, key: u64, text: &[u8]) -> Result<Row, Fail> {
    let mut values = Values::new(alloc);
    values.push(Value::Num(key))?;
    values.push(Value::Text(bytes(alloc, text)?))?;
    Ok(Row { values })
}

// A table of this id and name, without columns.
fn mapped(alloc: Global, id: u16, name: &[u8]) -> Result<Mapped, Fail>
    ensures { IfOk result (λ table. table.id ≡ id) }
{
    Ok(Mapped {
        id,
        schema: bytes(alloc, b"db")?,
        name: bytes(alloc, name)?,
        columns: Columns::new(alloc),
    })
}

// The tables 1 and 7.
#[tactic(auto, unfolding(rb_text_defs::specs::LogText::Ascend))]
fn two_tables(alloc: Global) -> Result<MappedTables, Fail>
    ensures { IfOk result (λ tables. Ascend tables) }
{
    let mut tables = MappedTables::new(alloc);
    tables.push(mapped(alloc, 1, b"t")?)?;
    tables.push(mapped(alloc, 7, b"a\"")?)?;
    Ok(tables)
}

/// A change of each kind, each to a table of its own.
fn changes_of_each_kind(alloc: Global) -> Result<Changes, Fail> {
    let mut changes = Changes::new(alloc);
    let images = [
        (1u16, Kind::Insert, None, Some(row(alloc, 5, b"x")?)),
        (
            7,
            Kind::Update,
            Some(row(alloc, 5, b"x")?),
            Some(row(alloc, 5, b"")?),
        ),
        (2, Kind::Remove, Some(row(alloc, 5, b"\n")?), None),
    ];
    for (table, kind, before, after) in images {
        changes.push(Change {
            table,
            key: 5,
            kind,
            before,
            after,
            author: 1,
            transid: 18446744073709551615,
        })?;
    }
    Ok(changes)
}

/// An epoch with a change of each kind; one is to a table that is not among those of the epoch.
#[test]
fn an_epoch(rt: HostRuntime) -> Result<(), Fail> {
    let alloc = rt.alloc();
    let tables = two_tables(alloc)?;
    let changes = changes_of_each_kind(alloc)?;
    let body = EpochBody {
        server: 2,
        epoch: Epoch(4294967297),
        reflected: Some(Epoch(9)),
        tables,
        changes,
    };
    let text = print_body(alloc, &body, 500)?;
    assert_eq!(rt;
        text.as_slice(),
        b"epoch 4294967297 server=2 reflected=9 changes=3 end=500
ins db.t transid=18446744073709551615 key=5 before=- after=(5 \"x\")
upd db.a\\x22 transid=18446744073709551615 key=5 before=(5 \"x\") after=(5 \"\")
del  transid=18446744073709551615 key=5 before=(5 \"\\x0a\") after=-
"
            .as_slice()
    );
    Ok(())
}

#[test]
fn other_lines_of_a_log(rt: HostRuntime) -> Result<(), Fail> {
    let text = print_rotation(rt.alloc(), 4, b"a-bin.000002")?;
    assert_eq!(rt;
        text.as_slice(),
        b"rotate name=a-bin.000002 position=4\n".as_slice()
    );
    let text = print_rest(rt.alloc(), 240)?;
    assert_eq!(rt; text.as_slice(), b"end rest=240\n".as_slice());
    Ok(())
}
