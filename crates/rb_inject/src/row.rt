ghost use Rattle.std.specs.Prelude.{◌≡◌, ◌<◌, ◌^◌, ◌+◌, length, count_by};
ghost use Rattle.rb_log_defs.specs.Index.{index_row, is_insert, is_update, is_remove};

use rb_base::{Change, EpochBody, IndexRow, Kind, SiteId};

/// An epoch's place in the binlog: its file, its first byte, and the end of its last one.
#[derive(Clone, Copy, Debug)]
pub(crate) struct Place {
    pub(crate) file: u32,
    pub(crate) position: u32,
    pub(crate) next_position: u32,
}

/// Returns the index row of a body at this place.
pub(crate) fn row_at(site: SiteId, place: Place, body: &EpochBody) -> IndexRow
    requires few { length body.now.changes < 2 ^ 32 }
    ensures { result ≡ index_row site place.file place.position place.next_position body.now }
{
    let counts = counts_of(body.changes.as_slice());
    IndexRow {
        epoch: body.epoch,
        orig_epoch: body.epoch,
        position: u64::from(place.position),
        next_position: u64::from(place.next_position),
        file: place.file,
        next_file: place.file,
        inserts: counts.inserts,
        updates: counts.updates,
        deletes: counts.deletes,
        schemaops: 0,
        orig_server_id: site.server_id(),
        gci: body.epoch.gci(),
    }
}

/// How many changes of each kind an epoch has.
#[derive(Clone, Copy, Debug)]
struct Counts {
    inserts: u32,
    updates: u32,
    deletes: u32,
}

// Counts the changes of each kind.
fn counts_of(changes: &[Change]) -> Counts
    requires few { length changes.now < 2 ^ 32 }
    ensures inserts { result.inserts
        ≡ count_by (λ change. is_insert change.kind) changes.now }
    ensures updates { result.updates
        ≡ count_by (λ change. is_update change.kind) changes.now }
    ensures deletes { result.deletes
        ≡ count_by (λ change. is_remove change.kind) changes.now }
{
    let mut counts = Counts {
        inserts: 0,
        updates: 0,
        deletes: 0,
    };
    for change in changes {
        counts.inserts += u32::from(matches!(change.kind, Kind::Insert));
        counts.updates += u32::from(matches!(change.kind, Kind::Update));
        counts.deletes += u32::from(matches!(change.kind, Kind::Remove));
    }
    counts
}
