ghost use Rattle.std.specs.Prelude.{◌≡◌, ◌≤◌, ◌<◌, ◌*◌, ℕ, length, All};
ghost use Rattle.rb_log_defs.specs.Table.{all_metadata, columns_of};
ghost use Rattle.rb_log_defs.specs.Epoch.{epoch_bytes};
ghost use Rattle.rb_log_defs.specs.Fits.{CanBeMapped, Fits, CanBeWritten};
ghost use Rattle.rb_etx.specs.Size.{map_size, maps_size, change_size, changes_size};

use crate::table::table_of;
use rb_base::{Change, Column, EpochBody, Mapped};
use rb_codec::{HEADER_SIZE, column};
use rb_rows::{size_of_rows, size_of_status};
use std::slice::from_ref;

/// The length of the BEGIN event in bytes.
const BEGIN_SIZE: u64 = 38;

/// The length of the apply-status table's map in bytes.
const STATUS_MAP_SIZE: u64 = 62;

/// The length of the XID event in bytes.
const XID_SIZE: u64 = 27;

/// The length in bytes of a table map without its names, its columns, their metadata and the
/// bitmap: the header, the id and the flags, the lengths and ends of both names, the number of
/// columns, and the length of the metadata.
const MAP_SIZE: u64 = 33;

/// Returns the length of an epoch in the log in bytes, which does not depend on the position. The
/// epoch has at most 65536 tables and fewer than 4294967296 changes.
#[tactic(auto, using(crate::proofs::Sizes::epoch_length))]
pub fn size_of_epoch(body: &EpochBody) -> u64
    requires writable { CanBeWritten body.now }
    requires few_tables { length body.now.tables ≤ 65536 }
    requires few_changes { length body.now.changes < 4294967296 }
    ensures { (start : ℕ) → result ≡ length (epoch_bytes body.now start) }
{
    let tables = body.tables.as_slice();
    let maps = maps_size(tables);
    let status = HEADER_SIZE as u64 + size_of_status(body);
    let changes = changes_size(tables, body.changes.as_slice());
    BEGIN_SIZE + STATUS_MAP_SIZE + maps + status + changes + XID_SIZE
}

/// Returns the length in bytes of the table maps of these tables.
fn maps_size(tables: &[Mapped]) -> u64
    requires mapped { All CanBeMapped tables.now }
    requires few { length tables.now ≤ 65536 }
    ensures size { result ≡ maps_size tables.now }
    ensures most { result ≤ 1000 * 65536 }
{
    let mut size = 0;
    for table in tables {
        size += map_size(table);
    }
    size
}

/// Returns the length in bytes of a table's map.
#[tactic(auto, using(crate::proofs::Sizes::map_length, rb_log_defs::proofs::Sizes::metadata_bound))]
fn map_size(table: &Mapped) -> u64
    requires { CanBeMapped table.now }
    ensures size { result ≡ map_size table.now }
    ensures most { result ≤ 1000 }
{
    let columns = table.columns.as_slice();
    let names = table.schema.as_slice().len() + table.name.as_slice().len();
    let bitmap = (columns.len() + 7) / 8;
    MAP_SIZE + (names + columns.len() + bitmap) as u64 + metadata_size(columns)
}

/// Returns the length in bytes of the metadata of these columns.
fn metadata_size(columns: &[Column]) -> u64
    requires { length columns.now ≤ 64 }
    ensures size { result ≡ length (all_metadata columns.now) }
    ensures most { result ≤ 128 }
{
    let mut size = 0;
    for column in columns {
        size += column::metadata_size(*column);
    }
    size
}

/// Returns the length in bytes of the rows events of these changes.
fn changes_size(tables: &[Mapped], changes: &[Change]) -> u64
    requires fit { All (λ change. Fits (columns_of tables.now change.table) change) changes.now }
    requires mapped { All (λ change. (0 < length (columns_of tables.now change.table))
        × (length (columns_of tables.now change.table) ≤ 64)) changes.now }
    requires few { length changes.now < 4294967296 }
    ensures size { result ≡ changes_size tables.now changes.now }
    ensures most { result ≤ 8388807 * 4294967296 }
{
    let mut size = 0;
    for change in changes {
        size += change_size(tables, change);
    }
    size
}

/// Returns the length in bytes of the rows event of a change.
#[tactic(auto, using(crate::proofs::Payloads::change_length))]
fn change_size(tables: &[Mapped], change: &Change) -> u64
    requires fits { Fits (columns_of tables.now change.now.table) change.now }
    requires some { 0 < length (columns_of tables.now change.now.table) }
    requires few { length (columns_of tables.now change.now.table) ≤ 64 }
    ensures size { result ≡ change_size tables.now change.now }
    ensures most { result ≤ 8388807 }
{
    let table = table_of(tables, change.table);
    HEADER_SIZE as u64 + size_of_rows(table, from_ref(change))
}
