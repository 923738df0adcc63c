//! Epochs of a few tables and changes, as the encoder takes them.
#![tactic(auto)]

ghost use Rattle.std.specs.Prelude.{◌≡◌, [], ◌∷◌, ◌≤◌, length, codes, IfOk};
ghost use Rattle.rb_base.specs.declared.row.Value.TheVariants as values;
ghost use Rattle.rb_log_defs.specs.Fits.{CanBeWritten};

use rb_base::{Change, Column, Epoch, EpochBody, Items, Kind, Mapped, NoMemory, Row, Value};
use std::alloc::Global;

fn table(alloc: Global, id: u16, name: &[u8], columns: &[Column]) -> Result<Mapped, NoMemory>
    ensures { IfOk result (λ table. table
        ≡ record { id = id; schema = codes "db"; name = name.now; columns = columns.now }) }
{
    Ok(Mapped {
        id,
        schema: Items::from_vec(Vec::from_slice(alloc, b"db")?),
        name: Items::from_vec(Vec::from_slice(alloc, name)?),
        columns: Items::from_vec(Vec::from_slice(alloc, columns)?),
    })
}

fn numbers(alloc: Global, key: u64, number: u64) -> Result<Row, NoMemory>
    ensures { IfOk result (λ row. row
        ≡ record { values = values.Num key ∷ values.Num number ∷ [] }) }
{
    Ok(Row {
        values: Items::from_vec(Vec::from_array(alloc, [Value::Num(key), Value::Num(number)])?),
    })
}

/// A row of the greatest key and the text `a`.
fn text(alloc: Global) -> Result<Row, NoMemory>
    ensures { IfOk result (λ row. row
        ≡ record { values = values.Num 18446744073709551615 ∷ values.Text (codes "a") ∷ [] }) }
{
    let text = Items::from_vec(Vec::from_slice(alloc, b"a")?);
    Ok(Row {
        values: Items::from_vec(Vec::from_array(alloc, [Value::Num(u64::MAX), Value::Text(text)])?),
    })
}

fn change(
    kind: Kind,
    table: u16,
    key: u64,
    before: Option<Row>,
    after: Option<Row>,
    transid: u64,
) -> Change
    ensures { result ≡ record {
      table = table;
      key = key;
      kind = kind;
      before = before;
      after = after;
      author = 1;
      transid = transid;
    } }
{
    Change {
        table,
        key,
        kind,
        before,
        after,
        author: 1,
        transid,
    }
}

/// Inserts of the keys 5 and 6.
pub(crate) fn two_inserts(alloc: Global) -> Result<EpochBody, NoMemory>
    ensures writable { IfOk result CanBeWritten }
    ensures tables { IfOk result (λ body. length body.tables ≤ 2) }
    ensures changes { IfOk result (λ body. length body.changes ≤ 2) }
{
    let table = table(alloc, 1, b"t", &[Column::Num, Column::Num])?;
    let first = change(Kind::Insert, 1, 5, None, Some(numbers(alloc, 5, 7)?), 1);
    let second = change(Kind::Insert, 1, 6, None, Some(numbers(alloc, 6, 8)?), 2);
    Ok(EpochBody {
        server: 1,
        epoch: Epoch(4294967296),
        reflected: None,
        tables: Items::from_vec(Vec::from_array(alloc, [table])?),
        changes: Items::from_vec(Vec::from_array(alloc, [first, second])?),
    })
}

/// An update of key 5, and a remove of key 6.
pub(crate) fn other_kinds(alloc: Global) -> Result<EpochBody, NoMemory>
    ensures writable { IfOk result CanBeWritten }
    ensures tables { IfOk result (λ body. length body.tables ≤ 2) }
    ensures changes { IfOk result (λ body. length body.changes ≤ 2) }
{
    let table = table(alloc, 1, b"t", &[Column::Num, Column::Num])?;
    let before = numbers(alloc, 5, 7)?;
    let after = numbers(alloc, 5, 9)?;
    let first = change(Kind::Update, 1, 5, Some(before), Some(after), 3);
    let second = change(Kind::Remove, 1, 6, Some(numbers(alloc, 6, 8)?), None, 4);
    Ok(EpochBody {
        server: 1,
        epoch: Epoch(8589934592),
        reflected: None,
        tables: Items::from_vec(Vec::from_array(alloc, [table])?),
        changes: Items::from_vec(Vec::from_array(alloc, [first, second])?),
    })
}

/// Inserts of a text, into a column whose lengths take 1 byte and into one whose lengths take 2.
pub(crate) fn texts(alloc: Global) -> Result<EpochBody, NoMemory>
    ensures writable { IfOk result CanBeWritten }
    ensures tables { IfOk result (λ body. length body.tables ≤ 2) }
    ensures changes { IfOk result (λ body. length body.changes ≤ 2) }
{
    let short = table(alloc, 1, b"x", &[Column::Num, Column::Text(255)])?;
    let long = table(alloc, 2, b"y", &[Column::Num, Column::Text(256)])?;
    let first = change(Kind::Insert, 1, u64::MAX, None, Some(text(alloc)?), 1);
    let second = change(Kind::Insert, 2, u64::MAX, None, Some(text(alloc)?), 2);
    Ok(EpochBody {
        server: 1,
        epoch: Epoch(4294967296),
        reflected: None,
        tables: Items::from_vec(Vec::from_array(alloc, [short, long])?),
        changes: Items::from_vec(Vec::from_array(alloc, [first, second])?),
    })
}

/// An epoch that only reflects an epoch of the peer.
pub(crate) fn reflected_alone(alloc: Global) -> Result<EpochBody, NoMemory>
    ensures writable { IfOk result CanBeWritten }
    ensures tables { IfOk result (λ body. length body.tables ≤ 2) }
    ensures changes { IfOk result (λ body. length body.changes ≤ 2) }
{
    Ok(EpochBody {
        server: 2,
        epoch: Epoch(12884901888),
        reflected: Some(Epoch(4294967296)),
        tables: Items::new(alloc),
        changes: Items::new(alloc),
    })
}
