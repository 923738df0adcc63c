ghost use Rattle.std.specs.Prelude.{◌≡◌, [], ◌∷◌, IfOk};
ghost use Rattle.rb_base.specs.declared.schema.Column.TheVariants.{Num};
ghost use Rattle.rb_log_defs.specs.Fits.{Fits, FitsColumns};

use rb_base::{
    Change, CodecFault, Column, Epoch, EpochBody, Field, Items, Kind, Mapped, NoMemory, Row, Value,
};
use rb_rows::{read_rows, read_status, size_of_rows, size_of_status, write_rows, write_status};
use std::alloc::Global;
use std::slice::from_ref;
use std::test::Fail;

/// The apply-status row of site A's epoch 1.0, as docs/LOG_FORMAT.md spells it.
const STATUS: [u8; 42] = [
    0, 0, 0, 0, 0, 0, 0, 0, 2, 0, 5, 0x1f, 0, 1, 0, 0, 0, 0, 0, 0, 0, 1, 0, 0, 0, 0, 0, 0, 0, 0, 0,
    0, 0, 0, 0, 0, 0, 0, 0, 0, 0, 0,
];

/// The insert of the row (5, 7) in transaction 1, as docs/LOG_FORMAT.md spells it.
const INSERT: [u8; 38] = [
    1, 0, 0, 0, 0, 0, 0, 0, 0x0b, 0, 0x52, 1, 0, 0, 0, 0, 0, 0, 0, 2, 3, 0, 5, 0, 0, 0, 0, 0, 0, 0,
    7, 0, 0, 0, 0, 0, 0, 0,
];

/// An update of the row (5, 7) to the row (5, 9) of table 1, without a transaction's number.
const UPDATE: [u8; 47] = [
    1, 0, 0, 0, 0, 0, 1, 0, 2, 0, 2, 3, 3, 0, 5, 0, 0, 0, 0, 0, 0, 0, 7, 0, 0, 0, 0, 0, 0, 0, 0, 5,
    0, 0, 0, 0, 0, 0, 0, 9, 0, 0, 0, 0, 0, 0, 0,
];

/// The table of these columns.
fn table(alloc: Global, id: u16, columns: &[Column]) -> Result<Mapped, NoMemory>
    ensures columns { IfOk result (λ table. table.columns ≡ columns.now) }
    ensures id { IfOk result (λ table. table.id ≡ id) }
{
    Ok(Mapped {
        id,
        schema: Items::new(alloc),
        name: Items::new(alloc),
        columns: Items::from_vec(Vec::from_slice(alloc, columns)?),
    })
}

/// The row (5, this number).
fn row(alloc: Global, number: u64) -> Result<Row, NoMemory>
    ensures { IfOk result (λ row. FitsColumns (Num ∷ Num ∷ []) row.values) }
{
    Ok(Row {
        values: Items::from_vec(Vec::from_array(alloc, [Value::Num(5), Value::Num(number)])?),
    })
}

/// Returns the change of `INSERT`.
fn insert(alloc: Global) -> Result<Change, NoMemory>
    ensures fits { IfOk result (Fits (Num ∷ Num ∷ [])) }
    ensures table { IfOk result (λ change. change.table ≡ 1) }
{
    Ok(Change {
        table: 1,
        key: 5,
        kind: Kind::Insert,
        before: None,
        after: Some(row(alloc, 7)?),
        author: 1,
        transid: 1,
    })
}

/// Returns the change of `UPDATE`, but in transaction 3.
fn update(alloc: Global) -> Result<Change, NoMemory>
    ensures fits { IfOk result (Fits (Num ∷ Num ∷ [])) }
    ensures table { IfOk result (λ change. change.table ≡ 1) }
{
    Ok(Change {
        table: 1,
        key: 5,
        kind: Kind::Update,
        before: Some(row(alloc, 7)?),
        after: Some(row(alloc, 9)?),
        author: 1,
        transid: 3,
    })
}

/// Returns the number that a value is.
fn number_of(value: Option<&Value>) -> Option<u64> {
    match value {
        Some(Value::Num(number)) => Some(*number),
        _ => None,
    }
}

#[test]
fn an_insert_is_read(rt: HostRuntime) -> Result<(), Fail> {
    let table = table(rt.alloc(), 1, &[Column::Num, Column::Num])?;
    let changes = read_rows(rt.alloc(), &INSERT, Kind::Insert, 3, &table)
        .ok()
        .ok_or("changes")?;
    assert_eq!(rt; changes.as_slice().len(), 1);
    let change = changes.as_slice().first().ok_or("a change")?;
    assert_eq!(rt; change.table, 1);
    assert_eq!(rt; change.key, 5);
    assert_eq!(rt; change.author, 3);
    assert_eq!(rt; change.transid, 1);
    assert!(rt; change.before.is_none());
    let after = change.after.as_ref().ok_or("a row")?;
    assert_eq!(rt; number_of(after.values.as_slice().get(1)), Some(7));
    Ok(())
}

#[test]
fn an_update_is_read(rt: HostRuntime) -> Result<(), Fail> {
    let table = table(rt.alloc(), 1, &[Column::Num, Column::Num])?;
    let changes = read_rows(rt.alloc(), &UPDATE, Kind::Update, 1, &table)
        .ok()
        .ok_or("changes")?;
    let change = changes.as_slice().first().ok_or("a change")?;
    assert_eq!(rt; change.transid, 0);
    let before = change.before.as_ref().ok_or("a row")?;
    assert_eq!(rt; number_of(before.values.as_slice().get(1)), Some(7));
    let after = change.after.as_ref().ok_or("a row")?;
    assert_eq!(rt; number_of(after.values.as_slice().get(1)), Some(9));
    let mut other = UPDATE;
    other[31] = 6;
    let read = read_rows(rt.alloc(), &other, Kind::Update, 1, &table);
    assert!(rt; matches!(read, Err(CodecFault::BadField(31, Field::Key))));
    let read = read_rows(rt.alloc(), &UPDATE[..46], Kind::Update, 1, &table);
    assert!(rt; matches!(read, Err(CodecFault::Short(39))));
    Ok(())
}

#[test]
fn a_status_row_is_read(rt: HostRuntime) -> Result<(), Fail> {
    let columns = [
        Column::Long,
        Column::Num,
        Column::Text(255),
        Column::Num,
        Column::Num,
    ];
    let table = table(rt.alloc(), 0, &columns)?;
    let rows = read_status(rt.alloc(), &STATUS, &table).ok().ok_or("rows")?;
    assert_eq!(rt; rows.as_slice().len(), 1);
    let row = rows.as_slice().first().ok_or("a row")?;
    assert_eq!(rt; row.server, 1);
    assert_eq!(rt; row.epoch.0, 4294967296);
    let rows = read_status(rt.alloc(), &STATUS[..12], &table)
        .ok()
        .ok_or("no rows")?;
    assert_eq!(rt; rows.as_slice().len(), 0);
    Ok(())
}

#[test]
fn an_insert_is_written(rt: HostRuntime) -> Result<(), Fail> {
    let table = table(rt.alloc(), 1, &[Column::Num, Column::Num])?;
    let change = insert(rt.alloc())?;
    let mut out = Vec::new(rt.alloc());
    write_rows(rt.alloc(), &mut out, &table, from_ref(&change), false)?;
    assert_eq!(rt; out.as_slice(), INSERT.as_slice());
    assert_eq!(rt; size_of_rows(&table, from_ref(&change)), 38);
    Ok(())
}

#[test]
fn an_update_is_written(rt: HostRuntime) -> Result<(), Fail> {
    let table = table(rt.alloc(), 1, &[Column::Num, Column::Num])?;
    let change = update(rt.alloc())?;
    let mut out = Vec::new(rt.alloc());
    write_rows(rt.alloc(), &mut out, &table, from_ref(&change), true)?;
    assert_eq!(rt; out.len(), 56);
    assert_eq!(rt; size_of_rows(&table, from_ref(&change)), 56);
    assert_eq!(rt; &out[..8], &UPDATE[..8]);
    assert_eq!(rt; &out[19..], &UPDATE[10..]);
    Ok(())
}

#[test]
fn a_status_row_is_written(rt: HostRuntime) -> Result<(), Fail> {
    let body = EpochBody {
        server: 1,
        epoch: Epoch(4294967296),
        reflected: None,
        tables: Items::new(rt.alloc()),
        changes: Items::new(rt.alloc()),
    };
    let mut out = Vec::new(rt.alloc());
    write_status(rt.alloc(), &mut out, &body, false)?;
    assert_eq!(rt; out.as_slice(), STATUS.as_slice());
    assert_eq!(rt; size_of_status(&body), 42);
    Ok(())
}
