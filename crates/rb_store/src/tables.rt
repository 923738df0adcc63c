ghost use Rattle.std.specs.Prelude.{◌≡◌, ℕ, ◌==◌, ◌<◌, ◌≤◌, ◌+◌, ◌-◌, ◌^◌, length, IfOk, OnOk, IsSome, None, Some};
ghost use Rattle.std.specs.Option.{option_map};
ghost use Rattle.rb_journal_defs.specs.Table.{IsTable, key_in, key_of};

use crate::table::{Held, Table};
use rb_base::{NoMemory, Row, Rows, Schema, Value};
use std::alloc::Global;

/// The rows of a site's tables, and the room for changes of them. Tables are numbered from 1, in
/// the order of their declarations.
#[derive(Drop)]
pub struct Tables {
    alloc: Global,
    tables: Vec<Table>,
}

impl Tables {
    ghost use Rattle.rb_store.specs.Tables.{table_at, held_at, room_at, tables_in, rows_in, IsDeclared, with_held, room_less, room_more};

    /// Returns one empty table for each schema.
    #[tactic(auto, unfolding(crate::specs::Tables::held_at, crate::specs::Tables::room_at, crate::specs::Tables::tables_in))]
    pub fn new(alloc: Global, schemas: &[Schema]) -> Result<Tables, NoMemory>
        requires few { length schemas.now < 2 ^ 16 }
        ensures count { IfOk result (λ tables. tables_in tables ≡ length schemas.now) }
        ensures empty { IfOk result (λ tables. (table key : ℕ) → held_at tables table key ≡ None) }
        ensures room { IfOk result (λ tables. (table key : ℕ) → room_at tables table key ≡ 0) }
    {
        let mut tables = Vec::new(alloc);
        for _ in 0..schemas.len() {
            tables.push(Table::new(alloc))?;
        }
        Ok(Tables { alloc, tables })
    }

    // Returns the table with this number.
    fn find(&self, table: u16) -> Option<&Table>
        ensures { option_map (λ found. found.now) result ≡ table_at self.now.tables.items table }
    {
        self.tables.get(usize::from(table).checked_sub(1)?)
    }

    /// Returns the row of a key, if there is one. An undeclared table has none. Allocates nothing.
    #[tactic(auto, unfolding(crate::specs::Tables::held_at))]
    pub fn get(&self, table: u16, key: u64) -> Option<&Held>
        ensures { option_map (λ held. held.now) result ≡ held_at self.now table key }
    {
        self.find(table)?.get(key)
    }

    /// Reserves room for one change of each of these keys of a table; a key that is listed twice
    /// gets room for two. No row changes. After an `Err` some of the new room may be there, and no
    /// old room is lost.
    #[tactic(auto, unfolding(crate::specs::Tables::held_at, crate::specs::Tables::room_at, crate::specs::Tables::tables_in))]
    pub fn reserve(&mut self, table: u16, keys: &[u64]) -> Result<(), NoMemory>
        requires declared { IsDeclared self.old table }
        ensures rows { (t k : ℕ) → held_at self.new t k ≡ held_at self.old t k }
        ensures room { OnOk result ((t k : ℕ) →
            room_at self.new t k ≡ room_more table keys.now (room_at self.old) t k) }
        ensures kept { (t k : ℕ) → room_at self.old t k ≤ room_at self.new t k }
        ensures count { tables_in self.new ≡ tables_in self.old }
    {
        self.tables[usize::from(table) - 1].reserve(keys)?;
        Ok(())
    }

    /// Puts a row, over the one that its key may have. The key is the row's first value. Allocates
    /// nothing, and uses one place of the key's room.
    #[tactic(auto, unfolding(crate::specs::Tables::held_at, crate::specs::Tables::room_at, crate::specs::Tables::tables_in))]
    pub fn put(&mut self, table: u16, held: Held)
        requires keyed { IsSome (key_in held.row.values) }
        requires room { 0 < room_at self.old table (key_of held.row) }
        ensures rows { (t k : ℕ) → held_at self.new t k
            ≡ with_held table (key_of held.row) (Some held) (held_at self.old) t k }
        ensures room { (t k : ℕ) → room_at self.new t k
            ≡ room_less table (key_of held.row) (room_at self.old) t k }
        ensures count { tables_in self.new ≡ tables_in self.old }
    {
        let key = key_of_row(&held.row);
        self.tables[usize::from(table) - 1].put(key, held);
    }

    /// Removes the row of a key, if there is one. Allocates nothing, and uses one place of the
    /// key's room.
    #[tactic(auto, unfolding(crate::specs::Tables::held_at, crate::specs::Tables::room_at, crate::specs::Tables::tables_in))]
    pub fn remove(&mut self, table: u16, key: u64)
        requires room { 0 < room_at self.old table key }
        ensures rows { (t k : ℕ) → held_at self.new t k
            ≡ with_held table key None (held_at self.old) t k }
        ensures room { (t k : ℕ) → room_at self.new t k
            ≡ room_less table key (room_at self.old) t k }
        ensures count { tables_in self.new ≡ tables_in self.old }
    {
        self.tables[usize::from(table) - 1].remove(key);
    }

    /// Returns the rows of a table, by ascending key. An undeclared table has none.
    #[tactic(auto, unfolding(crate::specs::Tables::held_at))]
    pub fn dump(&self, table: u16) -> Result<Rows, NoMemory>
        ensures { IfOk result (λ rows. IsTable (rows_in self.now table) rows) }
    {
        match self.find(table) {
            Some(found) => Ok(found.dump(self.alloc)?),
            None => Ok(Rows::new(self.alloc)),
        }
    }
}

// Returns the key of a row; 0 if its first value is no number.
fn key_of_row(row: &Row) -> u64
    ensures { result ≡ key_of row.now }
{
    match row.values.as_slice().first() {
        Some(Value::Num(key)) => *key,
        _ => 0,
    }
}
