ghost use Rattle.std.specs.Prelude.{◌≡◌, ◌≢◌, ℕ, ◌<◌, ◌^◌, ◌==◌, ◌&&◌, not, true, if◌then◌else◌, length, IfOk, OnOk, IfErr, None, Some};
ghost use Rattle.std.specs.Option.{option_map, option_copied};
ghost use Rattle.rb_journal_defs.specs.Transaction.{refusal_of, refused_over, kind_over, before_image, after_image, change_over, changes_made};
ghost use Rattle.rb_store.specs.Tables.{rows_in};
ghost use Rattle.rb_commit.specs.Fault.{fault_of};
ghost use Rattle.rb_commit.specs.Named.{is_named};

use crate::fault::TxFault;
use rb_base::{Change, Changes, ClientOp, Kind, NoMemory, Op, Row};
use rb_store::Tables;
use std::alloc::Global;
use std::collections::BTreeSet;

/// Returns the changes of a client's transaction over these tables, in the order of its operations.
/// `author` is the site's server id, and `transid` the transaction's number.
///
/// The transaction is judged whole, and nothing changes. An `Err` names the first bad operation; if
/// that one names a row again, only this is reported. `NoMemory` says that memory ran out. The time
/// is in proportion to the operations, times the logarithm of the rows.
pub fn prepare(
    alloc: Global,
    tables: &Tables,
    operations: &[ClientOp],
    author: u32,
    transid: u64,
) -> Result<Changes, TxFault>
    requires few { length operations.now < 2 ^ 32 }
    ensures accepted { IfOk result (λ changes. (refusal_of (rows_in tables.now) operations.now
        ≡ None) × (changes ≡ changes_made (rows_in tables.now) author transid operations.now)) }
    ensures refused { IfErr result (λ fault. fault ≢ TxFault.NoMemory →
        option_map fault_of (refusal_of (rows_in tables.now) operations.now) ≡ Some fault) }
{
    let mut named = BTreeSet::new(alloc);
    let mut changes = Changes::new(alloc);
    for number in 0..operations.len() {
        let operation = &operations[number];
        if !name_row(&mut named, operation)? {
            return Err(TxFault::RowTwice(number as u32));
        }
        let row = row_of(tables, operation.table, operation.key);
        if let Some(fault) = fault_over(number as u32, operation.op, row) {
            return Err(fault);
        }
        changes.push(change_of(alloc, row, operation, author, transid)?)?;
    }
    Ok(changes)
}

// Adds the row that an operation names. Returns whether it was not there before.
fn name_row(named: &mut BTreeSet<(u16, u64)>, operation: &ClientOp) -> Result<bool, NoMemory>
    ensures new { IfOk result (λ is_new. is_new
        ≡ not (is_named named.old operation.now.table operation.now.key)) }
    ensures named { OnOk result ((table key : ℕ) →
        is_named named.new table key
        ≡ (if (table == operation.now.table) &&
        (key == operation.now.key) then true else is_named named.old table key)) }
{
    Ok(named.insert((operation.table, operation.key))?)
}

// Returns the row of a key.
fn row_of(tables: &Tables, table: u16, key: u64) -> Option<&Row>
    ensures { option_copied result ≡ rows_in tables.now table key }
{
    match tables.get(table, key) {
        Some(held) => Some(&held.row),
        None => None,
    }
}

// Returns why an operation cannot be done over the key's row.
fn fault_over(number: u32, op: Op, row: Option<&Row>) -> Option<TxFault>
    ensures { result ≡ option_map fault_of (refused_over number op (option_copied row.entry)) }
{
    match (op, row) {
        (Op::Ins, Some(_)) => Some(TxFault::KeyThere(number)),
        (Op::Upd | Op::Del, None) => Some(TxFault::NoKey(number)),
        _ => None,
    }
}

// Returns the change that an operation makes over the key's row.
fn change_of(
    alloc: Global,
    row: Option<&Row>,
    operation: &ClientOp,
    author: u32,
    transid: u64,
) -> Result<Change, NoMemory>
    ensures { IfOk result (λ change. change
        ≡ change_over author transid (option_copied row.entry) operation.now) }
{
    let kind = kind_of(operation.op, row);
    Ok(Change {
        table: operation.table,
        key: operation.key,
        kind,
        before: before_of(alloc, kind, row)?,
        after: after_of(alloc, kind, &operation.row)?,
        author,
        transid,
    })
}

// Returns what an operation does to the key's row.
fn kind_of(op: Op, row: Option<&Row>) -> Kind
    ensures { result ≡ kind_over op (option_copied row.entry) }
{
    match (op, row) {
        (Op::Ins, _) | (Op::Put, None) => Kind::Insert,
        (Op::Upd, _) | (Op::Put, Some(_)) => Kind::Update,
        (Op::Del, _) => Kind::Remove,
    }
}

// Returns the before image; an insert has none.
fn before_of(alloc: Global, kind: Kind, row: Option<&Row>) -> Result<Option<Row>, NoMemory>
    ensures { IfOk result (λ image. image ≡ before_image kind (option_copied row.entry)) }
{
    match (kind, row) {
        (Kind::Update | Kind::Remove, Some(row)) => Ok(Some(row.copy(alloc)?)),
        _ => Ok(None),
    }
}

// Returns the after image; a remove has none.
fn after_of(alloc: Global, kind: Kind, row: &Option<Row>) -> Result<Option<Row>, NoMemory>
    ensures { IfOk result (λ image. image ≡ after_image kind row.now) }
{
    match (kind, row) {
        (Kind::Insert | Kind::Update, Some(row)) => Ok(Some(row.copy(alloc)?)),
        _ => Ok(None),
    }
}
