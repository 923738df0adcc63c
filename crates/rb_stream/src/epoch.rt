ghost use Rattle.std.specs.Prelude.{◌≡◌, ℕ, ◌==◌, if◌then◌else◌, ◌++◌, [], ◌∷◌, List, Some, OnOk, OnErr, IfOk, IfSome, option_to_list};
ghost use Rattle.std.specs.Option.{option_map, ForSome};
ghost use Rattle.std.specs.Ordering.{nat_cmp};
ghost use Rattle.std.specs.BTreeMap.{get};
ghost use Rattle.rb_codec.specs.Columns.{HasColumns};
ghost use Rattle.rb_read_defs.specs.Stream.{tables_named};

use crate::epoch_status::EpochStatus;
use rb_base::{Change, Changes, Epoch, EpochBody, Items, Mapped, MappedTables, NoMemory};
use std::alloc::Global;
use std::collections::BTreeMap;

/// An epoch that has begun and not ended yet.
#[derive(Drop)]
pub(crate) struct OpenEpoch {
    /// The last map of each table id.
    tables: BTreeMap<u64, Mapped>,
    epoch_status: EpochStatus,
    changes: Vec<Change>,
    ghost columns: { (id : ℕ) → ForSome (get nat_cmp tables id) HasColumns },
}

impl OpenEpoch {
    ghost use Rattle.rb_stream.specs.Epoch.{HoldsEpoch, table_in, named_tables};

    /// Creates an epoch of which only BEGIN was decoded.
    pub(crate) fn new(alloc: Global) -> OpenEpoch
        ensures { HoldsEpoch result [] }
    {
        OpenEpoch {
            tables: BTreeMap::new(alloc),
            epoch_status: EpochStatus::nothing(),
            changes: Vec::new(alloc),
        }
    }

    /// Returns the last map of a table id, if there is one.
    pub(crate) fn table(&self, id: u64) -> Option<&Mapped>
        ensures table { option_map (λ table. table.now) result ≡ table_in self.now id }
        ensures columns { IfSome result (λ table. HasColumns table.now) }
    {
        self.tables.get(&id)
    }

    /// Returns the apply-status rows so far.
    pub(crate) fn epoch_status(&self) -> EpochStatus
        ensures { result ≡ self.now.epoch_status }
    {
        self.epoch_status
    }

    /// Replaces the apply-status rows.
    pub(crate) fn set_status(&mut self, epoch_status: EpochStatus)
        ensures epoch_status { self.new.epoch_status ≡ epoch_status }
        ensures tables { self.new.tables ≡ self.old.tables }
        ensures changes { self.new.changes ≡ self.old.changes }
    {
        self.epoch_status = epoch_status;
    }

    /// Notes a table map in place of an earlier one with the same id. If memory allocation fails,
    /// the epoch is unchanged.
    pub(crate) fn map(&mut self, table: Mapped) -> Result<(), NoMemory>
        requires { HasColumns table }
        ensures ok { OnOk result ((id : ℕ) →
            table_in self.new id ≡ (if table.id == id then Some table else table_in self.old id)) }
        ensures err { OnErr result ((id : ℕ) → table_in self.new id ≡ table_in self.old id) }
        ensures epoch_status { self.new.epoch_status ≡ self.old.epoch_status }
        ensures changes { self.new.changes ≡ self.old.changes }
    {
        self.tables.insert(u64::from(table.id), table)?;
        Ok(())
    }

    /// Appends changes. If memory allocation fails, the epoch is unchanged.
    pub(crate) fn change(&mut self, changes: Changes) -> Result<(), NoMemory>
        ensures ok { OnOk result (self.new.changes.items ≡ self.old.changes.items ++ changes) }
        ensures err { OnErr result (self.new.changes.items ≡ self.old.changes.items) }
        ensures epoch_status { self.new.epoch_status ≡ self.old.epoch_status }
        ensures tables { self.new.tables ≡ self.old.tables }
    {
        let mut more = changes.into_vec();
        self.changes.append(&mut more)?;
        Ok(())
    }

    /// Returns the tables of the epoch's changes, each by the last map of its id, in ascending
    /// order of the ids.
    pub(crate) fn tables(&self, alloc: Global) -> Result<MappedTables, NoMemory>
        ensures { IfOk result (λ tables. tables ≡ named_tables self.now) }
    {
        let ids = named_ids(alloc, &self.changes)?;
        let mut tables = Items::new(alloc);
        for id in ids.as_slice() {
            push_copy(alloc, &mut tables, self.table(u64::from(*id)))?;
        }
        Ok(tables)
    }

    /// Returns the body of the epoch, which this server ends, with these tables.
    pub(crate) fn into_body(self, server: u32, epoch: Epoch, tables: MappedTables) -> EpochBody
        ensures { result ≡ record {
          server = server;
          epoch = epoch;
          reflected = option_map
              (λ row. row.epoch) self.epoch_status.other;
          tables = tables;
          changes = self.changes.items;
        } }
    {
        EpochBody {
            server,
            epoch,
            reflected: self.epoch_status.other.map(|row| row.epoch),
            tables,
            changes: Items::from_vec(self.changes),
        }
    }
}

/// Appends a copy of the table, if there is one.
fn push_copy(
    alloc: Global,
    tables: &mut MappedTables,
    table: Option<&Mapped>,
) -> Result<(), NoMemory>
    ensures { OnOk result (tables.new ≡ tables.old
        ++ option_to_list (option_map (λ held. held.now) table.entry)) }
{
    if let Some(table) = table {
        tables.push(table.copy(alloc)?)?;
    }
    Ok(())
}

/// Returns the id of every table that has a change, once and in ascending order. A new id moves the
/// greater ids by one place, and there are at most 65,535 of those.
fn named_ids(alloc: Global, changes: &[Change]) -> Result<Vec<u16>, NoMemory>
    ensures { IfOk result (λ ids. ids.items ≡ tables_named changes.now) }
{
    let mut ids = Vec::new(alloc);
    for change in changes {
        note(&mut ids, change.table)?;
    }
    Ok(ids)
}

/// Inserts an id into ascending ids, unless it is already there.
fn note(ids: &mut Vec<u16>, id: u16) -> Result<(), NoMemory>
    requires { (changes : List Change) × (ids.old.items ≡ tables_named changes) }
    ensures { OnOk result ((changes : List Change) (change : Change) →
        ids.old.items ≡ tables_named changes → change.table ≡ id →
        ids.new.items ≡ tables_named (changes ++ change ∷ [])) }
{
    if let Err(place) = ids.binary_search(&id) {
        ids.insert(place, id)?;
    }
    Ok(())
}
