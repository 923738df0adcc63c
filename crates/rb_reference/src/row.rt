ghost use Rattle.std.specs.Prelude.{◌≡◌, ◌<◌, ◌^◌, length, count_by};
ghost use Rattle.rb_log_defs.specs.Index.{index_row};
ghost use Rattle.rb_reference.specs.Counting.{is_of};

use rb_base::{Change, EpochBody, IndexRow, Kind, SiteId};

/// Returns the index row of an epoch whose events span the positions `position` to `next` of a
/// file.
pub(crate) fn index_row(
    site: SiteId,
    file: u32,
    position: u64,
    next: u64,
    body: &EpochBody,
) -> IndexRow
    requires { length body.now.changes < 2 ^ 32 }
    ensures { result ≡ index_row site file position next body.now }
{
    let changes = body.changes.as_slice();
    IndexRow {
        epoch: body.epoch,
        orig_epoch: body.epoch,
        position,
        next_position: next,
        file,
        next_file: file,
        inserts: count_of(changes, Kind::Insert),
        updates: count_of(changes, Kind::Update),
        deletes: count_of(changes, Kind::Remove),
        schemaops: 0,
        orig_server_id: site.server_id(),
        gci: body.epoch.gci(),
    }
}

/// Returns how many of these changes are of this kind.
fn count_of(changes: &[Change], kind: Kind) -> u32
    requires { length changes.now < 2 ^ 32 }
    ensures { result ≡ count_by (λ change. is_of kind change.kind) changes.now }
{
    changes
        .iter()
        .filter(|change| is_of(kind, change.kind))
        .count() as u32
}

fn is_of(kind: Kind, other: Kind) -> bool
    ensures { result ≡ is_of kind other }
{
    kind == other
}
