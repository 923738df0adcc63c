ghost use Rattle.std.specs.Prelude.{◌≡◌, IfOk};

use crate::list::{Bytes, Items};
use crate::memory::NoMemory;
use std::alloc::Global;

/// The value of one column.
#[derive(Debug, Drop)]
pub enum Value {
    Num(u64),
    Text(Bytes),
}

pub type Values = Items<Value>;

/// A row of a table: its values in the order of the columns, the key first.
#[derive(Debug, Drop)]
pub struct Row {
    pub values: Values,
}

pub type Rows = Items<Row>;

impl Value {
    /// Returns an equal value.
    pub fn copy(&self, alloc: Global) -> Result<Value, NoMemory>
        ensures { IfOk result (λ copy. copy ≡ self.now) }
    {
        match self {
            Value::Num(number) => Ok(Value::Num(*number)),
            Value::Text(text) => Ok(Value::Text(text.copy(alloc)?)),
        }
    }
}

impl Row {
    /// Returns an equal row.
    pub fn copy(&self, alloc: Global) -> Result<Row, NoMemory>
        ensures { IfOk result (λ copy. copy ≡ self.now) }
    {
        let mut values = Vec::new(alloc);
        for value in self.values.as_slice() {
            values.push(value.copy(alloc)?)?;
        }
        Ok(Row {
            values: Items::from_vec(values),
        })
    }

    /// Returns an equal row, or `None` if there is no row.
    pub(crate) fn copy_of(alloc: Global, row: &Option<Row>) -> Result<Option<Row>, NoMemory>
        ensures { IfOk result (λ copy. copy ≡ row.now) }
    {
        match row {
            Some(row) => Ok(Some(row.copy(alloc)?)),
            None => Ok(None),
        }
    }
}
