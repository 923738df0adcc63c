ghost use Rattle.std.specs.Prelude.{◌≡◌, [], ◌∷◌, length, IfOk};
ghost use Rattle.rb_base.specs.declared.row.Value.TheVariants.{Num};
ghost use Rattle.rb_store.specs.Tables.{tables_in, IsDeclared};

use rb_base::{Bytes, Columns, Epoch, NoMemory, Row, Schema, Value, Values};
use rb_store::{Held, Tables};
use std::alloc::Global;
use std::test::Fail;

fn moves<T: Send>() {}

#[test]
fn tables_go_between_threads() {
    moves::<Tables>();
}

fn schema(alloc: Global) -> Schema {
    Schema {
        name: Bytes::new(alloc),
        columns: Columns::new(alloc),
    }
}

// Returns a row of a key and a number, which this site changed in its first epoch.
fn held(alloc: Global, key: u64, number: u64, author: u32) -> Result<Held, NoMemory>
    ensures { IfOk result (λ held. held.row.values ≡ Num key ∷ Num number ∷ []) }
{
    let mut values = Values::new(alloc);
    values.push(Value::Num(key))?;
    values.push(Value::Num(number))?;
    Ok(Held {
        row: Row { values },
        author,
        epoch: Epoch(4294967296),
    })
}

fn put(
    alloc: Global,
    tables: &mut Tables,
    table: u16,
    key: u64,
    number: u64,
    author: u32,
) -> Result<(), NoMemory>
    requires { IsDeclared tables.old table }
    ensures { tables_in tables.new ≡ tables_in tables.old }
{
    let held = held(alloc, key, number, author)?;
    tables.reserve(table, &[key])?;
    tables.put(table, held);
    Ok(())
}

fn remove(tables: &mut Tables, table: u16, key: u64) -> Result<(), NoMemory>
    requires { IsDeclared tables.old table }
    ensures { tables_in tables.new ≡ tables_in tables.old }
{
    tables.reserve(table, &[key])?;
    tables.remove(table, key);
    Ok(())
}

// Returns the numbers after the keys of a table's rows.
fn numbers(alloc: Global, tables: &Tables, table: u16) -> Result<Vec<u64>, NoMemory> {
    let mut numbers = Vec::new(alloc);
    for row in tables.dump(table)?.as_slice() {
        if let [Value::Num(_), Value::Num(number)] = row.values.as_slice() {
            numbers.push(*number)?;
        }
    }
    Ok(numbers)
}

fn author_at(tables: &Tables, table: u16, key: u64) -> Option<u32> {
    tables.get(table, key).map(|held| held.author)
}

fn two_tables(alloc: Global) -> Result<Tables, NoMemory>
    ensures { IfOk result (λ tables. tables_in tables ≡ 2) }
{
    Tables::new(alloc, &[schema(alloc), schema(alloc)])
}

// Rows go in by descending key, one of them is put twice, and one is removed.
#[test]
fn rows_are_put_and_removed(rt: HostRuntime) -> Result<(), Fail> {
    let alloc = rt.alloc();
    let mut tables = two_tables(alloc)?;
    put(alloc, &mut tables, 2, 9, 90, 1)?;
    put(alloc, &mut tables, 2, 7, 70, 1)?;
    put(alloc, &mut tables, 2, 5, 50, 1)?;
    put(alloc, &mut tables, 2, 9, 91, 2)?;
    assert_eq!(rt;
        numbers(alloc, &tables, 2)?.as_slice(),
        [50, 70, 91].as_slice()
    );
    assert_eq!(rt; author_at(&tables, 2, 9), Some(2));
    remove(&mut tables, 2, 7)?;
    assert_eq!(rt; numbers(alloc, &tables, 2)?.as_slice(), [50, 91].as_slice());
    assert_eq!(rt; author_at(&tables, 2, 7), None);
    assert_eq!(rt; author_at(&tables, 1, 9), None);
    assert_eq!(rt; author_at(&tables, 3, 9), None);
    assert_eq!(rt; numbers(alloc, &tables, 0)?.as_slice(), [].as_slice());
    Ok(())
}

// Room alone shows no row, and several changes of one key use the room reserved for them.
#[test]
fn room_shows_no_row(rt: HostRuntime) -> Result<(), Fail> {
    let alloc = rt.alloc();
    let mut tables = two_tables(alloc)?;
    tables.reserve(1, &[3, 3])?;
    assert_eq!(rt; author_at(&tables, 1, 3), None);
    assert_eq!(rt; numbers(alloc, &tables, 1)?.as_slice(), [].as_slice());
    put(alloc, &mut tables, 1, 3, 30, 1)?;
    remove(&mut tables, 1, 3)?;
    remove(&mut tables, 1, 3)?;
    assert_eq!(rt; author_at(&tables, 1, 3), None);
    Ok(())
}
