//! The bodies of the worked examples.
#![tactic(auto)]

ghost use Rattle.std.specs.Prelude.{◌≡◌, [], ◌∷◌, All, codes, IfOk};
ghost use Rattle.rb_log_defs.specs.Fits.{CanBeWritten};
ghost use Rattle.rb_log_defs.specs.Worked.{table_t, insert, epoch_of_inserts, first_path, around_empty_epochs};

use rb_base::{Change, Column, Epoch, EpochBody, Items, Kind, Mapped, NoMemory, Row, Value};
use std::alloc::Global;

/// Returns the table map of a table with these columns.
fn table(alloc: Global, id: u16, name: &[u8], columns: &[Column]) -> Result<Mapped, NoMemory>
    ensures { IfOk result (λ table. table
        ≡ record { id = id; schema = codes "db"; name = name.now; columns = columns.now }) }
{
    Ok(Mapped {
        id,
        schema: Items::from_vec(Vec::from_slice(alloc, b"db")?),
        name: Items::from_vec(Vec::from_slice(alloc, name)?),
        columns: Items::from_vec(Vec::from_slice(alloc, columns)?),
    })
}

/// Returns an insert of a row at site A.
fn insert_of(table: u16, key: u64, row: Row, transid: u64) -> Change
    ensures { result ≡ record {
      table = table;
      key = key;
      kind = Kind.Insert;
      before = None;
      after = Some row;
      author = 1;
      transid = transid;
    } }
{
    Change {
        table,
        key,
        kind: Kind::Insert,
        before: None,
        after: Some(row),
        author: 1,
        transid,
    }
}

/// Returns an insert of two numbers.
fn insert(alloc: Global, key: u64, value: u64, transid: u64) -> Result<Change, NoMemory>
    ensures { IfOk result (λ change. change ≡ insert key value transid) }
{
    let values = Vec::from_array(alloc, [Value::Num(key), Value::Num(value)])?;
    let row = Row {
        values: Items::from_vec(values),
    };
    Ok(insert_of(1, key, row, transid))
}

/// Returns the body of an epoch of site A.
fn epoch(epoch: Epoch, tables: Vec<Mapped>, changes: Vec<Change>) -> EpochBody
    ensures { result ≡ record {
      server = 1;
      epoch = epoch;
      reflected = None;
      tables = tables.items;
      changes = changes.items;
    } }
{
    EpochBody {
        server: 1,
        epoch,
        reflected: None,
        tables: Items::from_vec(tables),
        changes: Items::from_vec(changes),
    }
}

/// Returns an epoch with these inserts into the table `t` of two numbers.
fn epoch_of_inserts(alloc: Global, number: u64, inserts: Vec<Change>) -> Result<EpochBody, NoMemory>
    ensures { IfOk result (λ body. body ≡ epoch_of_inserts number inserts.items) }
{
    let table = table(alloc, 1, b"t", &[Column::Num, Column::Num])?;
    Ok(epoch(Epoch(number), Vec::from_array(alloc, [table])?, inserts))
}

/// Returns the epoch of the worked example: inserts of the keys 5 and 6.
pub(crate) fn first_path(alloc: Global) -> Result<Vec<EpochBody>, NoMemory>
    ensures is { IfOk result (λ bodies. bodies.items ≡ first_path ∷ []) }
    ensures writable { IfOk result (λ bodies. All CanBeWritten bodies.items) }
{
    let inserts = [insert(alloc, 5, 7, 1)?, insert(alloc, 6, 8, 2)?];
    let body = epoch_of_inserts(alloc, 4294967296, Vec::from_array(alloc, inserts)?)?;
    Ok(Vec::from_array(alloc, [body])?)
}

/// Returns two epochs of one insert each: the first epoch, and micro GCI 1 of GCI 2.
pub(crate) fn around_empty_epochs(alloc: Global) -> Result<Vec<EpochBody>, NoMemory>
    ensures is { IfOk result (λ bodies. bodies.items ≡ around_empty_epochs) }
    ensures writable { IfOk result (λ bodies. All CanBeWritten bodies.items) }
{
    let first = Vec::from_array(alloc, [insert(alloc, 1, 1, 1)?])?;
    let second = Vec::from_array(alloc, [insert(alloc, 2, 2, 2)?])?;
    let first = epoch_of_inserts(alloc, 4294967296, first)?;
    let second = epoch_of_inserts(alloc, 8589934593, second)?;
    Ok(Vec::from_array(alloc, [first, second])?)
}
