ghost use Rattle.std.specs.Prelude.{◌≡◌, ℕ, ◌==◌, ◌<◌, ◌≤◌, ◌+◌, ◌-◌, if◌then◌else◌, IfOk, OnOk, None, Some};
ghost use Rattle.std.specs.Option.{option_map};
ghost use Rattle.rb_journal_defs.specs.Table.{IsTable};

use rb_base::{Epoch, NoMemory, Row, Rows};
use std::alloc::Global;
use std::collections::BTreeMap;

/// A row, with the server id of the site that made its last change, and the epoch in which this
/// site stored that change.
#[derive(Debug, Drop)]
pub struct Held {
    pub row: Row,
    pub author: u32,
    pub epoch: Epoch,
}

// The slot of a key: what the key holds, and how many of its changes have room.
#[derive(Debug, Drop)]
pub(crate) struct Slot {
    held: Option<Held>,
    room: u64,
}

// One table. A key has a slot from its first reservation until its row and its room are gone.
#[derive(Drop)]
pub(crate) struct Table {
    slots: BTreeMap<u64, Slot>,
}

impl Table {
    ghost use Rattle.rb_store.specs.Table.{slot_in, held_in, room_in, row_of, times};

    pub(crate) fn new(alloc: Global) -> Table
        ensures { (key : ℕ) → slot_in result key ≡ None }
    {
        Table {
            slots: BTreeMap::new(alloc),
        }
    }

    pub(crate) fn get(&self, key: u64) -> Option<&Held>
        ensures { option_map (λ held. held.now) result ≡ held_in self.now key }
    {
        match self.slots.get(&key) {
            Some(slot) => slot.held.as_ref(),
            None => None,
        }
    }

    // Reserves room for one more change of a key.
    fn reserve_one(&mut self, key: u64) -> Result<(), NoMemory>
        ensures held { (k : ℕ) → held_in self.new k ≡ held_in self.old k }
        ensures room { OnOk result ((k : ℕ) →
            room_in self.new k ≡ (if key == k then room_in self.old k + 1 else room_in self.old
            k)) }
        ensures kept { (k : ℕ) → room_in self.old k ≤ room_in self.new k }
    {
        match self.slots.get_mut(&key) {
            Some(slot) => {
                let Some(more) = slot.room.checked_add(1) else {
                    return Err(NoMemory);
                };
                slot.room = more;
            }
            None => {
                self.slots.insert(
                    key,
                    Slot {
                        held: None,
                        room: 1,
                    },
                )?;
            }
        }
        Ok(())
    }

    pub(crate) fn reserve(&mut self, keys: &[u64]) -> Result<(), NoMemory>
        ensures held { (k : ℕ) → held_in self.new k ≡ held_in self.old k }
        ensures room { OnOk result ((k : ℕ) →
            room_in self.new k ≡ room_in self.old k + times keys.now k) }
        ensures kept { (k : ℕ) → room_in self.old k ≤ room_in self.new k }
    {
        for key in keys {
            self.reserve_one(*key)?;
        }
        Ok(())
    }

    pub(crate) fn put(&mut self, key: u64, held: Held)
        requires { 0 < room_in self.old key }
        ensures held { (k : ℕ) → held_in self.new k
            ≡ (if key == k then Some held else held_in self.old k) }
        ensures room { (k : ℕ) → room_in self.new k
            ≡ (if key == k then room_in self.old k - 1 else room_in self.old k) }
    {
        if let Some(slot) = self.slots.get_mut(&key) {
            slot.held = Some(held);
            slot.room -= 1;
        }
    }

    pub(crate) fn remove(&mut self, key: u64)
        requires { 0 < room_in self.old key }
        ensures held { (k : ℕ) → held_in self.new k
            ≡ (if key == k then None else held_in self.old k) }
        ensures room { (k : ℕ) → room_in self.new k
            ≡ (if key == k then room_in self.old k - 1 else room_in self.old k) }
    {
        let Some(slot) = self.slots.get_mut(&key) else {
            return;
        };
        slot.held = None;
        slot.room -= 1;
        if slot.room == 0 {
            self.slots.remove(&key);
        }
    }

    pub(crate) fn dump(&self, alloc: Global) -> Result<Rows, NoMemory>
        ensures { IfOk result (λ rows. IsTable (λ key. row_of (held_in self.now key)) rows) }
    {
        let mut rows = Rows::new(alloc);
        for (_, slot) in &self.slots {
            if let Some(held) = &slot.held {
                rows.push(held.row.copy(alloc)?)?;
            }
        }
        Ok(rows)
    }
}
