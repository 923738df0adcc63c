use crate::stream::FILE;
use bodies::{around_empty_epochs, first_path};
use rb_base::{Epoch, IndexRow, SiteId};
use rb_reference::{binlog_files, index_file, index_rows, position_after};
use std::test::Fail;

mod bodies;

/// The length of a file without epochs, in bytes.
const START: usize = 115;

// Returns the index row of an epoch of inserts, in file 1 of site A.
fn row(epoch: Epoch, position: u64, next_position: u64, inserts: u32) -> IndexRow {
    IndexRow {
        epoch,
        orig_epoch: epoch,
        position,
        next_position,
        file: 1,
        next_file: 1,
        inserts,
        updates: 0,
        deletes: 0,
        schemaops: 0,
        orig_server_id: 1,
        gci: epoch.gci(),
    }
}

#[test]
#[tactic(auto, using(rb_reference::proofs::Examples::small_none))]
fn an_empty_log(rt: HostRuntime) -> Result<(), Fail> {
    let files = binlog_files(rt.alloc(), SiteId::A, 1048576, &[])?;
    assert_eq!(rt; files.len(), 1);
    assert_eq!(rt; files[0].as_slice(), &FILE[..START]);
    let rows = index_rows(rt.alloc(), SiteId::A, 1048576, &[])?;
    assert_eq!(rt; rows.as_slice().len(), 0);
    let index = index_file(rt.alloc(), rows.as_slice())?;
    assert_eq!(rt; index.as_slice(), [0u8].as_slice());
    Ok(())
}

#[test]
#[tactic(auto, using(rb_reference::proofs::Examples::small_first_path))]
fn the_worked_example(rt: HostRuntime) -> Result<(), Fail> {
    let bodies = first_path(rt.alloc())?;
    let files = binlog_files(rt.alloc(), SiteId::A, 1048576, &bodies)?;
    assert_eq!(rt; files.len(), 1);
    assert_eq!(rt; files[0].as_slice(), FILE.as_slice());
    let rows = index_rows(rt.alloc(), SiteId::A, 1048576, &bodies)?;
    assert_eq!(rt;
        rows.as_slice(),
        [row(Epoch(4294967296), 115, 456, 2)].as_slice()
    );
    let index = index_file(rt.alloc(), rows.as_slice())?;
    assert_eq!(rt; index.as_slice().len(), 66);
    Ok(())
}

#[test]
#[tactic(auto, using(rb_reference::proofs::Examples::small_around))]
fn places_around_empty_epochs(rt: HostRuntime) -> Result<(), Fail> {
    let bodies = around_empty_epochs(rt.alloc())?;
    let rows = index_rows(rt.alloc(), SiteId::A, 1048576, &bodies)?;
    let rows = rows.as_slice();
    let first = row(Epoch(4294967296), 115, 399, 1);
    let second = row(Epoch(8589934593), 399, 683, 1);
    assert_eq!(rt; rows, [first, second].as_slice());
    assert_eq!(rt; position_after(rows, Epoch(0)), (1, 4));
    assert_eq!(rt; position_after(rows, Epoch(4294967298)), (1, 399));
    assert_eq!(rt; position_after(rows, Epoch(8589934593)), (1, 683));
    Ok(())
}

#[test]
#[tactic(auto, using(rb_reference::proofs::Examples::small_around_rotated))]
fn a_file_at_its_limit_is_rotated(rt: HostRuntime) -> Result<(), Fail> {
    let bodies = around_empty_epochs(rt.alloc())?;
    let files = binlog_files(rt.alloc(), SiteId::A, 512, &bodies)?;
    assert_eq!(rt; files.len(), 2);
    assert_eq!(rt; files[0].as_slice().len(), 722);
    assert_eq!(rt; files[1].as_slice(), &FILE[..START]);
    Ok(())
}
