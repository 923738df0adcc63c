ghost use Rattle.std.specs.Prelude.{◌≡◌, ◌<◌, ◌≤◌, ◌∷◌, List, map, length, option_map, IfOk, IfSome};
ghost use Rattle.std.specs.List.{find, list_all, position};
ghost use Rattle.rb_base.specs.declared.row.Value.TheVariants.{Num};
ghost use Rattle.rb_base.specs.declared.schema.Column.TheVariants as columns;
ghost use Rattle.rb_text_defs.specs.Script.{client_op, is_named, most_tables, row_for, table_number, suits_column, suits_columns, suits_table, suits_tables};
ghost use Rattle.rb_script.specs.Seen.{operation_seen};

use crate::operation::Operation;
use rb_base::{ClientOp, ClientOps, Column, NoMemory, Op, Row, Schema, Value, Values};
use std::alloc::Global;

/// Returns the table of this name.
pub(crate) fn table_named<'a>(tables: &'a [Schema], name: &[u8]) -> Option<&'a Schema>
    ensures { option_map (λ table. table.now) result ≡ find (is_named name.now) tables.now }
{
    tables.iter().find(|table| is_named(table, name))
}

/// Returns the place of the table of this name, counted from 0.
pub(crate) fn place_of_table(tables: &[Schema], name: &[u8]) -> Option<usize>
    ensures place { result ≡ position (is_named name.now) tables.now }
    ensures within { IfSome result (λ place. place < length tables.now) }
{
    tables.iter().position(|table| is_named(table, name))
}

fn is_named(table: &Schema, name: &[u8]) -> bool
    ensures { result ≡ is_named name.now table.now }
{
    table.name.as_slice() == name
}

/// Returns whether each operation fits a declared table.
pub(crate) fn all_suit(tables: &[Schema], operations: &[Operation<'_>]) -> bool
    ensures { result ≡ list_all (suits_tables tables.now) (map operation_seen operations.now) }
{
    for operation in operations {
        if !suits_tables(tables, operation) {
            return false;
        }
    }
    true
}

/// Returns whether an operation fits a declared table.
fn suits_tables(tables: &[Schema], operation: &Operation<'_>) -> bool
    ensures { result ≡ suits_tables tables.now (operation_seen operation.now) }
{
    match table_named(tables, operation.table) {
        Some(table) => suits_table(operation, table),
        None => false,
    }
}

/// Returns whether an operation fits a table.
fn suits_table(operation: &Operation<'_>, table: &Schema) -> bool
    ensures { result ≡ suits_table (operation_seen operation.now) table.now }
{
    match operation.op {
        Op::Ins | Op::Upd | Op::Put => {
            suits_columns(table.columns.as_slice(), operation.values.as_slice())
        }
        Op::Del => true,
    }
}

/// Returns whether there is a value for each column, of its type.
#[tactic(auto, using(crate::proofs::TableLaws::suits_columns_other))]
fn suits_columns(columns: &[Column], values: &[Value]) -> bool
    ensures { result ≡ suits_columns columns.now values.now }
{
    if columns.len() != values.len() {
        return false;
    }
    for index in 0..columns.len() {
        if !suits_column(columns[index], &values[index]) {
            return false;
        }
    }
    true
}

/// Returns whether a value has a column's type, and is no longer than the column allows.
fn suits_column(column: Column, value: &Value) -> bool
    ensures { result ≡ suits_column column value.now }
{
    match column {
        Column::Num => matches!(value, Value::Num(_)),
        Column::Long => false,
        Column::Text(most) => is_text(value, most),
    }
}

/// Returns whether a value is a text of at most `most` bytes.
fn is_text(value: &Value, most: u16) -> bool
    ensures { result ≡ suits_column (columns.Text most) value.now }
{
    match value {
        Value::Num(_) => false,
        Value::Text(text) => text.as_slice().len() <= usize::from(most),
    }
}

/// Returns a client's operations, on the tables that they name.
#[tactic(auto, using(crate::proofs::AllOf::map_mapped))]
pub(crate) fn client_ops(
    alloc: Global,
    tables: &[Schema],
    operations: &[Operation<'_>],
) -> Result<ClientOps, NoMemory>
    requires { length tables.now ≤ most_tables }
    ensures { IfOk result (λ ops. ops
        ≡ map (client_op tables.now) (map operation_seen operations.now)) }
{
    let mut ops = Vec::new(alloc);
    for operation in operations {
        ops.push(client_op(alloc, tables, operation)?)?;
    }
    Ok(ClientOps::from_vec(ops))
}

/// Returns an operation on the table that it names.
fn client_op(
    alloc: Global,
    tables: &[Schema],
    operation: &Operation<'_>,
) -> Result<ClientOp, NoMemory>
    requires { length tables.now ≤ most_tables }
    ensures { IfOk result (λ op. op ≡ client_op tables.now (operation_seen operation.now)) }
{
    let row = row_for(alloc, operation)?;
    Ok(ClientOp {
        op: operation.op,
        table: table_number(tables, operation.table),
        key: operation.key,
        row,
    })
}

/// Returns the number of the table of this name, counted from 1.
fn table_number(tables: &[Schema], name: &[u8]) -> u16
    requires { length tables.now ≤ most_tables }
    ensures { result ≡ table_number tables.now name.now }
{
    match place_of_table(tables, name) {
        Some(place) => place as u16 + 1,
        None => 0,
    }
}

/// Returns the row that an operation puts: the key before the values. A remove has none.
fn row_for(alloc: Global, operation: &Operation<'_>) -> Result<Option<Row>, NoMemory>
    ensures { IfOk result (λ row. row
        ≡ row_for operation.now.op operation.now.key operation.now.values) }
{
    match operation.op {
        Op::Ins | Op::Upd | Op::Put => {
            let row = row(alloc, operation.key, operation.values.as_slice())?;
            Ok(Some(row))
        }
        Op::Del => Ok(None),
    }
}

/// Returns a row of a key and other values.
fn row(alloc: Global, key: u64, others: &[Value]) -> Result<Row, NoMemory>
    ensures { IfOk result (λ row. row ≡ record { values = Num key ∷ others.now }) }
{
    let mut values = Vec::new(alloc);
    values.push(Value::Num(key))?;
    for value in others {
        values.push(value.copy(alloc)?)?;
    }
    Ok(Row {
        values: Values::from_vec(values),
    })
}
