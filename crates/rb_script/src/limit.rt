ghost use Rattle.std.specs.Prelude.{◌≡◌, ◌+◌, ◌*◌, ◌^◌, ◌≤◌, ◌==◌, [], ◌∷◌, nat_le, nat_lt, ◌&&◌, not, length, map, IfNone};
ghost use Rattle.rb_text_defs.specs.Script.{least_limit, most_changes, most_limit, most_columns, most_groups, most_lines, most_replicas, most_row_bytes, most_tables, most_tx_changes, most_work, column_bytes, row_bytes};
ghost use Rattle.rb_base.specs.declared.schema.Column.TheVariants as columns;
ghost use Rattle.rb_text_defs.specs.declared.script.Limit.TheVariants as limits;
ghost use Rattle.rb_script.specs.Seen.{column_seen};
ghost use Rattle.rb_script.specs.Summarizes.{first_passed};

use crate::column::ColumnType;
use rb_base::{Schema, SiteSetup};
use rb_text_defs::Limit;

/// The most bytes that a script may have.
pub const MOST_SCRIPT_BYTES: u64 = 33554432;

/// The most lines that a script may have.
pub(crate) const MOST_LINES: u32 = 100000;

const MOST_TABLES: usize = 32;

const MOST_COLUMNS: usize = 15;

const MOST_ROW_BYTES: u64 = 1000;

const MOST_GROUPS: u32 = 8;

const MOST_REPLICAS: u32 = 4;

/// The length in bytes at which a site's files are rotated if no line gives another.
pub(crate) const DEFAULT_LIMIT: u64 = 1048576;

const LEAST_LIMIT: u64 = 512;

const MOST_LIMIT: u64 = 67108864;

const MOST_TX_CHANGES: u64 = 4096;

const MOST_CHANGES: u64 = 100000;

const MOST_WORK: u64 = 4000000;

/// The work of a close, if a change is 1.
const CLOSE_WORK: u32 = 32;

/// Returns the first limit that the shape of a site exceeds.
pub(crate) fn site_limit(shape: SiteSetup) -> Option<Limit>
    ensures { result ≡ first_passed
        ((not (nat_le 1 shape.groups && nat_le shape.groups most_groups), limits.Groups)
        ∷ (not (nat_le 1 shape.replicas && nat_le shape.replicas most_replicas), limits.Replicas)
        ∷ (
          not (nat_le least_limit shape.limit && nat_le shape.limit most_limit),
          limits.LogLimit,
        ) ∷ []) }
{
    if !is_within(shape.groups, MOST_GROUPS) {
        return Some(Limit::Groups);
    }
    if !is_within(shape.replicas, MOST_REPLICAS) {
        return Some(Limit::Replicas);
    }
    if shape.limit < LEAST_LIMIT || MOST_LIMIT < shape.limit {
        return Some(Limit::LogLimit);
    }
    None
}

fn is_within(number: u32, most: u32) -> bool
    ensures { result ≡ (nat_le 1 number && nat_le number most) }
{
    1 <= number && number <= most
}

/// Returns the first limit that a table with columns of these types exceeds, given the tables
/// before it.
pub(crate) fn table_limit(tables: &[Schema], types: &[ColumnType]) -> Option<Limit>
    ensures first { result ≡ first_passed
        ((nat_lt most_tables (length tables.now + 1), limits.Tables)
        ∷ (nat_lt most_columns (length (map column_seen types.now)), limits.Columns)
        ∷ (nat_lt most_row_bytes (row_bytes (map column_seen types.now)), limits.RowBytes) ∷ []) }
    ensures few { IfNone result (length tables.now + 1 ≤ most_tables) }
    ensures row { IfNone result (row_bytes (map column_seen types.now) ≤ most_row_bytes) }
{
    if tables.len() + 1 > MOST_TABLES {
        return Some(Limit::Tables);
    }
    if types.len() > MOST_COLUMNS {
        return Some(Limit::Columns);
    }
    if row_bytes(types) > MOST_ROW_BYTES {
        return Some(Limit::RowBytes);
    }
    None
}

/// Returns the maximum size in bytes of a row with a key and columns of these types.
fn row_bytes(types: &[ColumnType]) -> u64
    requires { length types.now ≤ 15 }
    ensures { result ≡ row_bytes (map column_seen types.now) }
{
    let mut bytes = 8;
    for column_type in types {
        bytes += column_bytes(*column_type);
    }
    bytes
}

/// Returns the maximum size in bytes of a column in a row. A text has a length before it.
fn column_bytes(column_type: ColumnType) -> u64
    ensures bytes { result ≡ column_bytes (column_seen column_type) }
    ensures few { result ≤ 2 ^ 32 + 1 }
{
    match column_type {
        ColumnType::Num => 8,
        ColumnType::Text(most) => text_bytes(most),
    }
}

fn text_bytes(most: u32) -> u64
    ensures bytes { result ≡ column_bytes (columns.Text most) }
    ensures few { result ≤ 2 ^ 32 + 1 }
{
    if most <= 255 {
        u64::from(most) + 1
    } else {
        u64::from(most) + 2
    }
}

/// Returns the first limit that a transaction of `changes` changes exceeds, given the counts of
/// changes, closes and restarts before it.
pub(crate) fn tx_limit(changes: u32, closes: u32, restarts: u32, count: usize) -> Option<Limit>
    requires closes { closes ≤ most_lines }
    requires restarts { restarts ≤ most_lines }
    ensures first { result ≡ first_passed ((nat_lt most_tx_changes count, limits.TxChanges)
        ∷ (nat_lt most_changes (changes + count), limits.Changes)
        ∷ (
          nat_lt most_work ((1 + restarts) * ((changes + count) + 32 * closes)),
          limits.Work,
        ) ∷ []) }
    ensures few { IfNone result (changes + count ≤ most_changes) }
{
    if count as u64 > MOST_TX_CHANGES {
        return Some(Limit::TxChanges);
    }
    let changes = u64::from(changes) + count as u64;
    if changes > MOST_CHANGES {
        return Some(Limit::Changes);
    }
    work_limit(changes as u32, closes, restarts)
}

/// Returns the limit of work, if these counts of changes, closes and restarts exceed it.
pub(crate) fn work_limit(changes: u32, closes: u32, restarts: u32) -> Option<Limit>
    requires changes { changes ≤ most_changes }
    requires closes { closes ≤ most_lines }
    requires restarts { restarts ≤ most_lines }
    ensures { result ≡ first_passed
        ((nat_lt most_work ((1 + restarts) * (changes + 32 * closes)), limits.Work) ∷ []) }
{
    if work(changes, closes, restarts) > MOST_WORK {
        return Some(Limit::Work);
    }
    None
}

/// Returns the work of these counts of changes and closes. All of them may be sent once more at
/// each restart.
fn work(changes: u32, closes: u32, restarts: u32) -> u64
    requires changes { changes ≤ most_changes }
    requires closes { closes ≤ most_lines }
    requires restarts { restarts ≤ most_lines }
    ensures { result ≡ (1 + restarts) * (changes + 32 * closes) }
{
    u64::from(1 + restarts) * u64::from(changes + CLOSE_WORK * closes)
}
