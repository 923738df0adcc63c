ghost use Rattle.std.specs.Prelude.{◌≡◌, ℕ, if◌then◌else◌, OnOk};
ghost use Rattle.std.specs.List.{AllByRecursion};
ghost use Rattle.rb_journal_defs.specs.Journal.{names_key, of_key};
ghost use Rattle.rb_store.specs.Tables.{held_at, tables_in};
ghost use Rattle.rb_store.specs.Left.{held_after, held_left};
ghost use Rattle.rb_cluster.specs.Rows.{CanBeStored};

use rb_base::{Change, Epoch, Kind, NoMemory};
use rb_store::{Held, Tables};
use std::alloc::Global;

/// Stores changes of this epoch in the tables, in order, each row with its author and its epoch.
/// After an `Err` only some of them are stored.
pub(crate) fn store(
    alloc: Global,
    tables: &mut Tables,
    changes: &[Change],
    epoch: Epoch,
) -> Result<(), NoMemory>
    requires storable { AllByRecursion (CanBeStored (tables_in tables.old)) changes.now }
    ensures rows { OnOk result ((table key : ℕ) →
        held_at tables.new table key
        ≡ held_left epoch.0 (of_key table key changes.now) (held_at tables.old table key)) }
    ensures count { tables_in tables.new ≡ tables_in tables.old }
{
    for change in changes {
        store_change(alloc, tables, change, epoch)?;
    }
    Ok(())
}

// Stores what one change leaves of its row.
fn store_change(
    alloc: Global,
    tables: &mut Tables,
    change: &Change,
    epoch: Epoch,
) -> Result<(), NoMemory>
    requires storable { CanBeStored (tables_in tables.old) change.now }
    ensures rows { OnOk result ((table key : ℕ) →
        held_at tables.new table key
        ≡ (if names_key table key change.now then held_after epoch.0 change.now
        else held_at tables.old table key)) }
    ensures count { tables_in tables.new ≡ tables_in tables.old }
{
    tables.reserve(change.table, &[change.key])?;
    match (change.kind, &change.after) {
        (Kind::Insert | Kind::Update, Some(row)) => {
            let held = Held {
                row: row.copy(alloc)?,
                author: change.author,
                epoch,
            };
            tables.put(change.table, held);
        }
        _ => tables.remove(change.table, change.key),
    }
    Ok(())
}
