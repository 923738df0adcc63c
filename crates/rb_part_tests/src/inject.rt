ghost use Rattle.std.specs.Prelude.{◌≡◌, ◌∷◌, ℕ, List, [], None, IfSome, IfOk, OnOk};
ghost use Rattle.rb_base.specs.declared.site.SiteId.TheVariants.{A};
ghost use Rattle.rb_base.specs.declared.body.EpochBody.{EpochBody};
ghost use Rattle.rb_log_defs.specs.Worked.{table_t, insert, epoch_of_inserts};
ghost use Rattle.rb_inject.specs.Body.{body_of_assembled};
ghost use Rattle.rb_inject.specs.Injector.{StandsFor, IsLimit, CanBeRecovered};

use epochs::{applied_alone, of_others, one_insert, tables, two_inserts};
use rb_base::{Epoch, MappedTables, NoMemory, Numbers, SiteId};
use rb_disk::{FailingDisk, LogDisk, MemoryDisk};
use rb_inject::{InjectFault, Injector};
use rb_message_defs::Assembled;
use std::alloc::Global;
use std::test::Fail;

mod epochs;

fn moves<T: Send>() {}

#[test]
fn an_injector_goes_to_another_thread() {
    moves::<Injector>();
}

// A log without an epoch.
fn begun<D: LogDisk>(
    alloc: Global,
    site: SiteId,
    limit: u64,
    disk: &mut D,
) -> Result<Injector, InjectFault>
    requires limit { IsLimit limit }
    ensures begun { IfOk result (λ injector.
        StandsFor injector (record { site = site; limit = limit; tables = table_t ∷ [] }) []
        (D.seen disk.new)) }
{
    let injector = Injector::create(alloc, site, limit, tables(alloc)?, disk)?;
    Ok(injector)
}

#[test]
fn a_log_begins_with_its_index_and_a_file(rt: HostRuntime) -> Result<(), Fail> {
    let mut disk = MemoryDisk::new(rt.alloc());
    let injector = begun(rt.alloc(), SiteId::A, 512, &mut disk)?;
    assert_eq!(rt; (disk.file(0), disk.len(1)), (b"\0".as_slice(), 115));
    assert_eq!(rt; (injector.written().0, injector.last_file()), (0, 1));
    assert_eq!(rt; injector.index().rows().len(), 0);
    Ok(())
}

#[test]
fn a_log_begins_on_an_empty_device_alone(rt: HostRuntime) -> Result<(), Fail> {
    for (file, bytes) in [(1, b"x".as_slice()), (3, b"abc".as_slice())] {
        let mut disk = MemoryDisk::new(rt.alloc());
        disk.write_at(file, 0, bytes)?;
        let length = bytes.len() as u64;
        match begun(rt.alloc(), SiteId::A, 512, &mut disk) {
            Ok(_) => assert!(rt; false),
            Err(fault) => assert_eq!(rt; fault, InjectFault::NotEmpty { file, length }),
        }
        assert_eq!(rt; (disk.len(0), disk.file(file)), (0, bytes));
        assert_eq!(rt; disk.len(1), if file == 1 { 1 } else { 0 });
    }
    Ok(())
}

// A log of site A that took two inserts.
fn log_two_inserts<D: LogDisk>(
    alloc: Global,
    disk: &mut D,
) -> Result<(Injector, bool), InjectFault> {
    let injector = begun(alloc, SiteId::A, 512, disk)?;
    injector.take(two_inserts(alloc)?, disk)
}

#[test]
fn an_epoch_is_logged_with_its_row(rt: HostRuntime) -> Result<(), Fail> {
    let mut disk = MemoryDisk::new(rt.alloc());
    let (injector, logged) = log_two_inserts(rt.alloc(), &mut disk)?;
    assert_eq!(rt; (logged, injector.written().0), (true, 4294967296));
    assert_eq!(rt; (disk.len(0), disk.len(1), disk.len(2)), (66, 456, 0));
    // an open gate, the epoch twice and 115; 456, file 1 twice and two inserts; server 1, GCI 1 and
    // a closed gate
    let epochs = b"\x01\0\0\0\0\x01\0\0\0\0\0\0\0\x01\0\0\0\x73\0\0\0\0\0\0\0";
    let places = b"\xc8\x01\0\0\0\0\0\0\x01\0\0\0\x01\0\0\0\x02\0\0\0";
    let last = b"\0\0\0\0\0\0\0\0\0\0\0\0\x01\0\0\0\x01\0\0\0\0";
    let file = disk.file(0);
    assert_eq!(rt; file.get(..25), Some(epochs.as_slice()));
    assert_eq!(rt; file.get(25..45), Some(places.as_slice()));
    assert_eq!(rt; file.get(45..), Some(last.as_slice()));
    Ok(())
}

// A log that took nothing of its own site.
fn log_others<D: LogDisk>(alloc: Global, disk: &mut D) -> Result<(Injector, bool), InjectFault> {
    let injector = begun(alloc, SiteId::A, 512, disk)?;
    injector.take(of_others(alloc)?, disk)
}

#[test]
fn what_others_changed_is_not_logged(rt: HostRuntime) -> Result<(), Fail> {
    let mut disk = MemoryDisk::new(rt.alloc());
    let (injector, logged) = log_others(rt.alloc(), &mut disk)?;
    assert_eq!(rt; (logged, injector.written().0), (false, 0));
    assert_eq!(rt; (disk.len(0), disk.len(1)), (1, 115));
    Ok(())
}

// A log of site B that took the record of an applied epoch of site A.
fn log_applied<D: LogDisk>(alloc: Global, disk: &mut D) -> Result<(Injector, bool), InjectFault> {
    let injector = begun(alloc, SiteId::B, 512, disk)?;
    injector.take(applied_alone(alloc)?, disk)
}

// BEGIN has 38 bytes, the map of the apply-status table 62, its row 91 and the XID event 27.
#[test]
fn an_applied_epoch_is_logged_at_the_secondary(rt: HostRuntime) -> Result<(), Fail> {
    let mut disk = MemoryDisk::new(rt.alloc());
    let (injector, logged) = log_applied(rt.alloc(), &mut disk)?;
    assert_eq!(rt; (logged, injector.written().0), (true, 12884901888));
    assert_eq!(rt; (disk.len(0), disk.len(1)), (66, 333));
    Ok(())
}

// A log of site A on an empty device, or none if that fails. Then it can be recovered.
fn begins<D: LogDisk>(alloc: Global, tables: MappedTables, disk: &mut D) -> Option<Injector>
    requires tables { tables ≡ table_t ∷ [] }
    requires empty { (file : ℕ) → D.seen disk.old file ≡ [] }
    ensures begun { IfSome result (λ injector.
        StandsFor injector (record { site = A; limit = 512; tables = table_t ∷ [] }) []
        (D.seen disk.new)) }
    ensures left { result ≡ None → (bodies : List EpochBody)
        × CanBeRecovered (record { site = A; limit = 512; tables = table_t ∷ [] }) bodies
        (D.seen disk.new) }
{
    match Injector::create(alloc, SiteId::A, 512, tables, disk) {
        Ok(injector) => Some(injector),
        Err(_) => None,
    }
}

// A log of site A that took one insert, of 284 bytes.
fn logs_first<D: LogDisk>(
    injector: Injector,
    assembled: Assembled,
    disk: &mut D,
) -> Option<Injector>
    requires begun { StandsFor injector (record { site = A; limit = 512; tables = table_t ∷ [] }) []
        (D.seen disk.old) }
    requires first { body_of_assembled A (table_t ∷ []) assembled
        ≡ epoch_of_inserts 4294967296 (insert 1 1 1 ∷ []) }
    requires epoch { assembled.epoch.0 ≡ 4294967296 }
    ensures logged { IfSome result
        (λ injector. StandsFor injector (record { site = A; limit = 512; tables = table_t ∷ [] })
        (epoch_of_inserts 4294967296 (insert 1 1 1 ∷ []) ∷ []) (D.seen disk.new)) }
    ensures left { result ≡ None → (bodies : List EpochBody)
        × CanBeRecovered (record { site = A; limit = 512; tables = table_t ∷ [] }) bodies
        (D.seen disk.new) }
{
    match injector.take(assembled, disk) {
        Ok((injector, _)) => Some(injector),
        Err(_) => None,
    }
}

// Returns whether a second epoch could be logged.
fn logs_second<D: LogDisk>(injector: Injector, assembled: Assembled, disk: &mut D) -> bool
    requires first { StandsFor injector (record { site = A; limit = 512; tables = table_t ∷ [] })
        (epoch_of_inserts 4294967296 (insert 1 1 1 ∷ []) ∷ []) (D.seen disk.old) }
    requires second { body_of_assembled A (table_t ∷ []) assembled
        ≡ epoch_of_inserts 8589934593 (insert 2 2 2 ∷ []) }
    requires epoch { assembled.epoch.0 ≡ 8589934593 }
    ensures left { (bodies : List EpochBody)
        × CanBeRecovered (record { site = A; limit = 512; tables = table_t ∷ [] }) bodies
        (D.seen disk.new) }
{
    match injector.take(assembled, disk) {
        Ok((_, logged)) => logged,
        Err(_) => false,
    }
}

// Returns whether a log could be begun on an empty device and take both epochs. The log can be
// recovered in any case.
fn logs_both<D: LogDisk>(
    alloc: Global,
    tables: MappedTables,
    first: Assembled,
    second: Assembled,
    disk: &mut D,
) -> bool
    requires tables { tables ≡ table_t ∷ [] }
    requires empty { (file : ℕ) → D.seen disk.old file ≡ [] }
    requires first { body_of_assembled A (table_t ∷ []) first
        ≡ epoch_of_inserts 4294967296 (insert 1 1 1 ∷ []) }
    requires first_epoch { first.epoch.0 ≡ 4294967296 }
    requires second { body_of_assembled A (table_t ∷ []) second
        ≡ epoch_of_inserts 8589934593 (insert 2 2 2 ∷ []) }
    requires second_epoch { second.epoch.0 ≡ 8589934593 }
    ensures left { (bodies : List EpochBody)
        × CanBeRecovered (record { site = A; limit = 512; tables = table_t ∷ [] }) bodies
        (D.seen disk.new) }
{
    let Some(injector) = begins(alloc, tables, disk) else {
        return false;
    };
    let Some(injector) = logs_first(injector, first, disk) else {
        return false;
    };
    logs_second(injector, second, disk)
}

// Returns whether two epochs could be logged.
fn logged_two<D: LogDisk>(alloc: Global, disk: &mut D) -> Result<bool, NoMemory>
    requires empty { (file : ℕ) → D.seen disk.old file ≡ [] }
    ensures left { OnOk result ((bodies : List EpochBody)
        × CanBeRecovered (record { site = A; limit = 512; tables = table_t ∷ [] }) bodies
        (D.seen disk.new)) }
{
    let tables = tables(alloc)?;
    let first = one_insert(alloc, 4294967296, 1)?;
    let second = one_insert(alloc, 8589934593, 2)?;
    Ok(logs_both(alloc, tables, first, second, disk))
}

// Returns whether two epochs could be logged, and recovers the log.
fn reopened<D: LogDisk>(alloc: Global, disk: &mut D) -> Result<(bool, Injector), InjectFault>
    requires empty { (file : ℕ) → D.seen disk.old file ≡ [] }
{
    let logged = logged_two(alloc, disk)?;
    let injector = Injector::recover(alloc, SiteId::A, 512, tables(alloc)?, disk)?;
    Ok((logged, injector))
}

#[test]
fn a_file_is_rotated_at_the_limit(rt: HostRuntime) -> Result<(), Fail> {
    let mut disk = MemoryDisk::new(rt.alloc());
    let (logged, injector) = reopened(rt.alloc(), &mut disk)?;
    assert_eq!(rt; (disk.len(0), disk.len(1), disk.len(2)), (131, 722, 115));
    assert_eq!(rt; (logged, injector.written().0), (true, 8589934593));
    assert_eq!(rt;
        (injector.index().rows().len(), injector.last_file()),
        (2, 2)
    );
    // the first epoch ends at 399, the next one is later than 4294967298
    let index = injector.index();
    assert_eq!(rt; index.position_after(Epoch(0)), (1, 4));
    assert_eq!(rt; index.position_after(Epoch(4294967298)), (1, 399));
    assert_eq!(rt; index.position_after(Epoch(8589934593)), (1, 683));
    Ok(())
}

// The rows of the index, and the lengths of files 0 to 2, where a log of two epochs was cut off at
// this call. A call that fails does nothing, so an epoch counts once its gate is open.
fn cut_off_at(failing: u64) -> (usize, [u64; 3]) {
    match failing {
        0..=8 => (0, [1, 115, 0]),
        9..=14 => (1, [66, 399, 0]),
        _ => (2, [131, 722, 115]),
    }
}

// Calls 0 to 3 begin the log: the index and file 1. Calls 4 to 9 log the first epoch: 4 and 5 its
// bytes, 6 to 9 its row, with the gate in 8. Calls 10 to 19 log the second one, with the gate in
// 14, and 16 to 19 rotate the file. Call 20 is the first of the recovery.
#[test]
fn an_epoch_counts_whole_or_not_at_all(rt: HostRuntime) -> Result<(), Fail> {
    for failing in 0..21u64 {
        let numbers = Numbers::from_vec([failing].to_vec(rt.alloc())?);
        let mut disk = FailingDisk::new(MemoryDisk::new(rt.alloc()), numbers);
        match reopened(rt.alloc(), &mut disk) {
            Ok((logged, injector)) => {
                assert_eq!(rt; (failing, logged), (failing, false));
                let rows = injector.index().rows().len();
                let left = (rows, [disk.len(0), disk.len(1), disk.len(2)]);
                assert_eq!(rt; (failing, left), (failing, cut_off_at(failing)));
                assert_eq!(rt; injector.last_file(), if rows == 2 { 2 } else { 1 });
            }
            Err(fault) => assert_eq!(rt; (failing, fault), (20, InjectFault::DiskFault)),
        }
        assert_eq!(rt; disk.faults(), 1);
    }
    Ok(())
}

// Returns whether the log can be recovered. If not, it can be recovered later.
fn opens<D: LogDisk>(alloc: Global, tables: MappedTables, disk: &mut D) -> bool
    requires tables { tables ≡ table_t ∷ [] }
    requires left { (bodies : List EpochBody)
        × CanBeRecovered (record { site = A; limit = 512; tables = table_t ∷ [] }) bodies
        (D.seen disk.old) }
    ensures left { (bodies : List EpochBody)
        × CanBeRecovered (record { site = A; limit = 512; tables = table_t ∷ [] }) bodies
        (D.seen disk.new) }
{
    match Injector::recover(alloc, SiteId::A, 512, tables, disk) {
        Ok(_) => true,
        Err(_) => false,
    }
}

// Returns whether the log can be recovered after the second epoch, and recovers it once more.
fn opened_twice<D: LogDisk>(alloc: Global, disk: &mut D) -> Result<(bool, Injector), InjectFault>
    requires empty { (file : ℕ) → D.seen disk.old file ≡ [] }
{
    logged_two(alloc, disk)?;
    let opened = opens(alloc, tables(alloc)?, disk);
    let injector = Injector::recover(alloc, SiteId::A, 512, tables(alloc)?, disk)?;
    Ok((opened, injector))
}

// Returns the lengths of files 0 to 2, when the second epoch was cut off at one call and the
// recovery after it at another.
fn sizes_after(alloc: Global, logging: u64, opening: u64) -> Result<[u64; 3], Fail> {
    let numbers = Numbers::from_vec([logging, opening].to_vec(alloc)?);
    let mut disk = FailingDisk::new(MemoryDisk::new(alloc), numbers);
    let (opened, _) = opened_twice(alloc, &mut disk)?;
    if opened {
        return Ok([0, 0, 0]);
    }
    Ok([disk.len(0), disk.len(1), disk.len(2)])
}

// Call 13 syncs the second epoch's record, whose gate is closed then. The recovery reads the index
// with calls 14 and 15, cuts off what follows the gate with 16 and 17, closes it with 18 and 19,
// and cuts file 1 with 20 and 21.
#[test]
fn an_opening_without_the_last_epoch_is_done_again(rt: HostRuntime) -> Result<(), Fail> {
    for opening in 14..22u64 {
        assert_eq!(rt;
            (opening, sizes_after(rt.alloc(), 13, opening)?),
            (opening, [66, 399, 0])
        );
    }
    Ok(())
}

// Call 19 syncs the start of file 2. The recovery reads the index with calls 20 and 21, closes its
// gate with 22 and 23, cuts file 1 after its last epoch with 24 and 25, empties file 2 with 26 and
// 27, and rotates file 1 anew with 28 to 31.
#[test]
fn an_opening_with_a_later_file_is_done_again(rt: HostRuntime) -> Result<(), Fail> {
    for opening in 20..32u64 {
        assert_eq!(rt;
            (opening, sizes_after(rt.alloc(), 19, opening)?),
            (opening, [131, 722, 115])
        );
    }
    Ok(())
}
