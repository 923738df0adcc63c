//! Epochs of a few changes, as the injector takes them.
#![tactic(auto)]

ghost use Rattle.std.specs.Prelude.{◌≡◌, [], ◌∷◌, None, Some, IfOk};
ghost use Rattle.rb_base.specs.declared.site.SiteId.TheVariants.{A, B};
ghost use Rattle.rb_base.specs.declared.row.Value.TheVariants as values;
ghost use Rattle.rb_base.specs.declared.change.Kind.TheVariants.{Insert as Inserted};
ghost use Rattle.rb_log_defs.specs.Worked.{table_t, insert, first_path, epoch_of_inserts};
ghost use Rattle.rb_inject.specs.Body.{body_of_assembled};

use rb_base::{
    Change, Column, Epoch, Items, Kind, Mapped, MappedTables, NoMemory, Parts, Row, Value,
};
use rb_message_defs::Assembled;
use std::alloc::Global;

/// The table t, with one number after its key.
pub(crate) fn tables(alloc: Global) -> Result<MappedTables, NoMemory>
    ensures { IfOk result (λ tables. tables ≡ table_t ∷ []) }
{
    let table = Mapped {
        id: 1,
        schema: Items::from_vec(Vec::from_slice(alloc, b"db")?),
        name: Items::from_vec(Vec::from_slice(alloc, b"t")?),
        columns: Items::from_vec(Vec::from_slice(alloc, &[Column::Num, Column::Num])?),
    };
    Ok(Items::from_vec(Vec::from_array(alloc, [table])?))
}

// A row of two numbers.
fn row(alloc: Global, first: u64, second: u64) -> Result<Row, NoMemory>
    ensures { IfOk result (λ row. row
        ≡ record { values = values.Num first ∷ values.Num second ∷ [] }) }
{
    let values = Vec::from_array(alloc, [Value::Num(first), Value::Num(second)])?;
    Ok(Row {
        values: Items::from_vec(values),
    })
}

// An insert into table t by the client of site A.
fn inserted(alloc: Global, key: u64, value: u64, transid: u64) -> Result<Change, NoMemory>
    ensures { IfOk result (λ change. change ≡ insert key value transid) }
{
    Ok(Change {
        table: 1,
        key,
        kind: Kind::Insert,
        before: None,
        after: Some(row(alloc, key, value)?),
        author: 1,
        transid,
    })
}

// An insert into table t by the client of site B.
fn inserted_by_other(alloc: Global) -> Result<Change, NoMemory>
    ensures { IfOk result (λ change. change
        ≡ record {
          table = 1;
          key = 5;
          kind = Inserted;
          before = None;
          after = Some
              (record { values = values.Num 5 ∷ values.Num 7 ∷ [] });
          author = 2;
          transid = 1;
        }) }
{
    Ok(Change {
        table: 1,
        key: 5,
        kind: Kind::Insert,
        before: None,
        after: Some(row(alloc, 5, 7)?),
        author: 2,
        transid: 1,
    })
}

// The primary's row of the apply-status table, with its epoch 4294967296.
fn applied(alloc: Global) -> Result<Change, NoMemory>
    ensures { IfOk result (λ change. change
        ≡ record {
          table = 0;
          key = 1;
          kind = Inserted;
          before = None;
          after = Some
              (record { values = values.Num 1 ∷ values.Num 4294967296 ∷ [] });
          author = 1;
          transid = 3;
        }) }
{
    Ok(Change {
        table: 0,
        key: 1,
        kind: Kind::Insert,
        before: None,
        after: Some(row(alloc, 1, 4294967296)?),
        author: 1,
        transid: 3,
    })
}

// A whole epoch.
fn whole(epoch: u64, parts: Parts) -> Assembled
    ensures { result ≡ record {
      epoch = record { 0 = epoch };
      prev = record { 0 = 0 };
      parts = parts;
    } }
{
    Assembled {
        epoch: Epoch(epoch),
        prev: Epoch(0),
        parts,
    }
}

/// Inserts of the keys 5 and 6, in two buckets.
pub(crate) fn two_inserts(alloc: Global) -> Result<Assembled, NoMemory>
    ensures body { IfOk result (λ assembled. body_of_assembled A (table_t ∷ []) assembled
        ≡ first_path) }
    ensures epoch { IfOk result (λ assembled. assembled.epoch.0 ≡ 4294967296) }
{
    let first = Vec::from_array(alloc, [inserted(alloc, 5, 7, 1)?])?;
    let second = Vec::from_array(alloc, [inserted(alloc, 6, 8, 2)?])?;
    let parts = Vec::from_array(alloc, [Items::from_vec(first), Items::from_vec(second)])?;
    Ok(whole(4294967296, Items::from_vec(parts)))
}

/// An insert of one key.
pub(crate) fn one_insert(alloc: Global, epoch: u64, key: u64) -> Result<Assembled, NoMemory>
    ensures body { IfOk result (λ assembled. body_of_assembled A (table_t ∷ []) assembled
        ≡ epoch_of_inserts epoch (insert key key key ∷ [])) }
    ensures epoch { IfOk result (λ assembled. assembled.epoch.0 ≡ epoch) }
{
    let part = Vec::from_array(alloc, [inserted(alloc, key, key, key)?])?;
    let parts = Vec::from_array(alloc, [Items::from_vec(part)])?;
    Ok(whole(epoch, Items::from_vec(parts)))
}

/// Changes that site A does not log: an insert of site B, and the primary's row of the apply-status
/// table.
pub(crate) fn of_others(alloc: Global) -> Result<Assembled, NoMemory>
    ensures body { IfOk result (λ assembled. body_of_assembled A (table_t ∷ []) assembled
        ≡ record {
          server = 1;
          epoch = record { 0 = 4294967296 };
          reflected = None;
          tables = [];
          changes = [];
        }) }
    ensures epoch { IfOk result (λ assembled. assembled.epoch.0 ≡ 4294967296) }
{
    let first = Vec::from_array(alloc, [inserted_by_other(alloc)?])?;
    let second = Vec::from_array(alloc, [applied(alloc)?])?;
    let parts = Vec::from_array(alloc, [Items::from_vec(first), Items::from_vec(second)])?;
    Ok(whole(4294967296, Items::from_vec(parts)))
}

/// The primary's row of the apply-status table alone.
pub(crate) fn applied_alone(alloc: Global) -> Result<Assembled, NoMemory>
    ensures body { IfOk result (λ assembled. body_of_assembled B (table_t ∷ []) assembled
        ≡ record {
          server = 2;
          epoch = record { 0 = 12884901888 };
          reflected = Some
              (record { 0 = 4294967296 });
          tables = [];
          changes = [];
        }) }
    ensures epoch { IfOk result (λ assembled. assembled.epoch.0 ≡ 12884901888) }
{
    let part = Vec::from_array(alloc, [applied(alloc)?])?;
    let parts = Vec::from_array(alloc, [Items::from_vec(part)])?;
    Ok(whole(12884901888, Items::from_vec(parts)))
}
