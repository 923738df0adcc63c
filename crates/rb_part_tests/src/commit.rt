ghost use Rattle.std.specs.Prelude.{◌≡◌, [], ◌∷◌, ◌<◌, ◌^◌, length, IfOk};
ghost use Rattle.rb_base.specs.declared.row.Value.TheVariants.{Num};

use rb_base::{
    Bytes, Changes, ClientOp, Columns, Epoch, Kind, NoMemory, Op, Row, Schema, Value, Values,
};
use rb_commit::{Clock, TxFault, prepare};
use rb_store::{Held, Tables};
use std::alloc::Global;
use std::test::Fail;

// From the first epoch, 1 / 0, to 1 / 1 and to 2 / 0.
#[test]
fn a_clock_closes_and_draws(rt: HostRuntime) {
    let mut clock = Clock::new();
    assert_eq!(rt; (clock.open(), clock.prev()), (Epoch(4294967296), Epoch(0)));
    assert_eq!(rt; clock.close(false), Some(Epoch(4294967296)));
    assert_eq!(rt; clock.open(), Epoch(4294967297));
    assert_eq!(rt; clock.close(true), Some(Epoch(4294967297)));
    assert_eq!(rt;
        (clock.open(), clock.prev()),
        (Epoch(8589934592), Epoch(4294967297))
    );
    assert_eq!(rt; clock.draw(), Some(1));
    assert_eq!(rt; clock.draw(), Some(2));
}

fn row_of(alloc: Global, key: u64, number: u64) -> Result<Row, NoMemory>
    ensures { IfOk result (λ row. row.values ≡ Num key ∷ Num number ∷ []) }
{
    let mut values = Values::new(alloc);
    values.push(Value::Num(key))?;
    values.push(Value::Num(number))?;
    Ok(Row { values })
}

// One table, with a row of key 5 and number 50, or without.
fn tables_with(alloc: Global, there: bool) -> Result<Tables, NoMemory> {
    let schema = Schema {
        name: Bytes::new(alloc),
        columns: Columns::new(alloc),
    };
    let mut tables = Tables::new(alloc, &[schema])?;
    if there {
        let held = Held {
            row: row_of(alloc, 5, 50)?,
            author: 1,
            epoch: Epoch(4294967296),
        };
        tables.reserve(1, &[5])?;
        tables.put(1, held);
    }
    Ok(tables)
}

fn operation(alloc: Global, op: Op, key: u64, number: u64) -> Result<ClientOp, NoMemory> {
    let row = if op == Op::Del {
        None
    } else {
        Some(row_of(alloc, key, number)?)
    };
    Ok(ClientOp {
        op,
        table: 1,
        key,
        row,
    })
}

// Returns what site A says to transaction 7.
fn answer(
    alloc: Global,
    there: bool,
    operations: &[ClientOp],
) -> Result<Result<Changes, TxFault>, NoMemory>
    requires { length operations.now < 2 ^ 32 }
{
    let tables = tables_with(alloc, there)?;
    Ok(prepare(alloc, &tables, operations, 1, 7))
}

fn number_in(row: &Option<Row>) -> Option<u64> {
    match row {
        Some(row) => match row.values.as_slice() {
            [Value::Num(_), Value::Num(number)] => Some(*number),
            _ => None,
        },
        None => None,
    }
}

#[test]
fn transactions_are_refused(rt: HostRuntime) -> Result<(), Fail> {
    let alloc = rt.alloc();
    let twice = [
        operation(alloc, Op::Ins, 5, 1)?,
        operation(alloc, Op::Ins, 5, 2)?,
    ];
    let answered = answer(alloc, false, &twice)?;
    assert!(rt; matches!(answered, Err(TxFault::RowTwice(1))));
    let answered = answer(alloc, true, &[operation(alloc, Op::Ins, 5, 3)?])?;
    assert!(rt; matches!(answered, Err(TxFault::KeyThere(0))));
    let answered = answer(alloc, true, &[operation(alloc, Op::Del, 9, 0)?])?;
    assert!(rt; matches!(answered, Err(TxFault::NoKey(0))));
    let both = [
        operation(alloc, Op::Upd, 5, 4)?,
        operation(alloc, Op::Ins, 5, 1)?,
    ];
    let answered = answer(alloc, true, &both)?;
    assert!(rt; matches!(answered, Err(TxFault::RowTwice(1))));
    Ok(())
}

// An overwrite of a row, and an insert.
#[test]
fn changes_have_their_images(rt: HostRuntime) -> Result<(), Fail> {
    let alloc = rt.alloc();
    let operations = [
        operation(alloc, Op::Put, 5, 51)?,
        operation(alloc, Op::Put, 6, 60)?,
    ];
    let changes = answer(alloc, true, &operations)?
        .ok()
        .ok_or("it is accepted")?;
    let [first, second] = changes.as_slice() else {
        return Err("there are two changes".into());
    };
    assert_eq!(rt; (first.table, first.key, first.kind), (1, 5, Kind::Update));
    assert_eq!(rt; (first.author, first.transid), (1, 7));
    assert_eq!(rt;
        (number_in(&first.before), number_in(&first.after)),
        (Some(50), Some(51))
    );
    assert_eq!(rt; (second.key, second.kind), (6, Kind::Insert));
    assert_eq!(rt;
        (number_in(&second.before), number_in(&second.after)),
        (None, Some(60))
    );
    Ok(())
}

#[test]
fn a_remove_has_no_after_image(rt: HostRuntime) -> Result<(), Fail> {
    let alloc = rt.alloc();
    let answered = answer(alloc, true, &[operation(alloc, Op::Del, 5, 0)?])?;
    let changes = answered.ok().ok_or("it is accepted")?;
    let [change] = changes.as_slice() else {
        return Err("there is one change".into());
    };
    assert_eq!(rt; change.kind, Kind::Remove);
    assert_eq!(rt;
        (number_in(&change.before), number_in(&change.after)),
        (Some(50), None)
    );
    Ok(())
}
