ghost use Rattle.std.specs.Prelude.{◌≡◌, ◌≤◌, ◌<◌, ℕ, [], ◌∷◌, Some, IfOk};
ghost use Rattle.rb_base.specs.declared.row.Value.TheVariants as values;
ghost use Rattle.rb_base.specs.declared.script.Op.TheVariants.{Ins};
ghost use Rattle.rb_journal_defs.specs.Body.{Shape};
ghost use Rattle.rb_play_defs.specs.Step.{Progress};
ghost use Rattle.rb_play_defs.specs.declared.event.SiteEvent.TheVariants.{Tx};
ghost use Rattle.rb_site_tests.specs.Trial.{one_setup};
ghost use Rattle.rb_play_defs.specs.Point.{EventFits};
ghost use Rattle.rb_site.specs.Site.{IsSite, CanTake, Plays, groups_of};

use rb_base::{
    Bytes, ClientOp, ClientOps, Column, Columns, Epoch, IndexRow, Items, Mode, NoMemory, Op,
    Outcome, Row, Schema, Schemas, Setup, SiteId, SiteSetup, Value, Values,
};
use rb_disk::{LogDisk, MemoryDisk};
use rb_evbuf::Missing;
use rb_site::{InjectFault, Site, SiteEvent, Stepped, StoppedSite};
use rb_store::Tables;
use std::alloc::Global;
use std::test::Fail;
use std::thread::Threads;

type Outcomes = Items<Outcome>;

fn moves<T: Send>() {}

#[test]
fn a_site_goes_to_another_thread() {
    moves::<Site>();
    moves::<StoppedSite>();
    moves::<Stepped>();
}

// Returns a setup with the table `t` of one number, and with one node at each site.
fn one_setup(alloc: Global) -> Result<Setup, NoMemory>
    ensures { IfOk result (λ setup. setup ≡ one_setup) }
{
    let mut columns = Columns::new(alloc);
    columns.push(Column::Num)?;
    let mut tables = Schemas::new(alloc);
    tables.push(Schema {
        name: Bytes::from_vec(Vec::from_slice(alloc, b"t")?),
        columns,
    })?;
    let one_node = SiteSetup {
        groups: 1,
        replicas: 1,
        limit: 1048576,
    };
    Ok(Setup {
        mode: Mode::Plain,
        a: one_node,
        b: one_node,
        tables,
    })
}

// Returns the transaction that inserts one row into `t`.
fn insert(alloc: Global, key: u64, number: u64) -> Result<SiteEvent, NoMemory>
    ensures { IfOk result (λ event. event
        ≡ Tx (record {
          op = Ins;
          table = 1;
          key = key;
          row = Some
              (record { values = values.Num key ∷ values.Num number ∷ [] });
        } ∷ [])) }
{
    let mut values = Values::new(alloc);
    values.push(Value::Num(key))?;
    values.push(Value::Num(number))?;
    let mut operations = ClientOps::new(alloc);
    operations.push(ClientOp {
        op: Op::Ins,
        table: 1,
        key,
        row: Some(Row { values }),
    })?;
    Ok(SiteEvent::Tx(operations))
}

// Plays one event. Returns the site and the outcome if the event ended.
fn one_event<R: Threads + Sync, D: LogDisk>(
    rt: &R,
    site: Site,
    event: SiteEvent,
    disk: &mut D,
) -> Result<(Site, Outcome), InjectFault>
    requires fits { CanTake site (D.seen disk.old) event }
    ensures stepped { IfOk result (λ pair. (shape : Shape) (run : Progress) →
        Plays shape run event site (D.seen disk.old) pair.0 (D.seen disk.new) pair.1) }
    ensures groups { IfOk result (λ pair. groups_of pair.0 ≡ groups_of site) }
{
    match site.step(rt, event, disk) {
        Stepped::On(site, outcome) => Ok((site, outcome)),
        Stepped::Stopped(_) => Err(InjectFault::DiskFault),
        Stepped::NoMemory => Err(InjectFault::NoMemory),
    }
}

// Returns a site of one node and its outcomes: two rows are inserted, and their epoch closes.
fn two_rows<R: Threads + Sync, D: LogDisk>(
    rt: &R,
    alloc: Global,
    disk: &mut D,
) -> Result<(Site, Outcomes), InjectFault>
    ensures there { IfOk result (λ pair. (shape : Shape) × (run : Progress)
        × IsSite shape pair.0 (D.seen disk.new) run) }
    ensures groups { IfOk result (λ pair. groups_of pair.0 ≡ 1) }
{
    let setup = one_setup(alloc)?;
    let site = Site::create(alloc, SiteId::A, &setup, disk)?;
    let (site, first) = one_event(rt, site, insert(alloc, 5, 7)?, disk)?;
    let (site, second) = one_event(rt, site, insert(alloc, 6, 8)?, disk)?;
    let (site, closed) = one_event(rt, site, SiteEvent::Close(false), disk)?;
    let mut outcomes = Outcomes::new(alloc);
    outcomes.push(first)?;
    outcomes.push(second)?;
    outcomes.push(closed)?;
    Ok((site, outcomes))
}

// Plays one more event, which needs nothing of the site.
fn go_on<R: Threads + Sync, D: LogDisk>(
    rt: &R,
    site: Site,
    event: SiteEvent,
    outcomes: &mut Outcomes,
    disk: &mut D,
) -> Result<Site, InjectFault>
    requires there { (shape : Shape) × (run : Progress) × IsSite shape site (D.seen disk.old) run }
    requires needs { (shape : Shape) (run : Progress) → EventFits shape run event }
    ensures there { IfOk result (λ after. (shape : Shape) × (run : Progress)
        × IsSite shape after (D.seen disk.new) run) }
    ensures groups { IfOk result (λ after. groups_of after ≡ groups_of site) }
{
    let (after, outcome) = one_event(rt, site, event, disk)?;
    outcomes.push(outcome)?;
    Ok(after)
}

// Delivers the messages in the wrong order, one of them twice, and one that was not sent; then
// injects.
fn message_by_message<R: Threads + Sync, D: LogDisk>(
    rt: &R,
    alloc: Global,
    disk: &mut D,
) -> Result<(Site, Outcomes), InjectFault>
    ensures groups { IfOk result (λ pair. groups_of pair.0 ≡ 1) }
{
    let (site, mut outcomes) = two_rows(rt, alloc, disk)?;
    let site = go_on(rt, site, SiteEvent::Deliver(2), &mut outcomes, disk)?;
    let site = go_on(rt, site, SiteEvent::Deliver(1), &mut outcomes, disk)?;
    let site = go_on(rt, site, SiteEvent::Deliver(0), &mut outcomes, disk)?;
    let site = go_on(rt, site, SiteEvent::Deliver(0), &mut outcomes, disk)?;
    let site = go_on(rt, site, SiteEvent::Deliver(3), &mut outcomes, disk)?;
    let site = go_on(rt, site, SiteEvent::Inject, &mut outcomes, disk)?;
    let site = go_on(rt, site, SiteEvent::Deliver(0), &mut outcomes, disk)?;
    Ok((site, outcomes))
}

// Returns the number in the row of a key.
fn number_at(tables: &Tables, key: u64) -> Option<u64> {
    match tables.get(1, key)?.row.values.as_slice().get(1)? {
        Value::Num(number) => Some(*number),
        Value::Text(_) => None,
    }
}

// Returns the author of the row of a key.
fn author_at(tables: &Tables, key: u64) -> Option<u32> {
    Some(tables.get(1, key)?.author)
}

// Returns the epoch in which the row of a key was stored.
fn epoch_at(tables: &Tables, key: u64) -> Option<Epoch> {
    Some(tables.get(1, key)?.epoch)
}

#[test]
fn the_readers_show_the_site(rt: HostRuntime) -> Result<(), Fail> {
    let alloc = rt.alloc();
    let mut disk = MemoryDisk::new(alloc);
    let (site, _outcomes) = message_by_message(&rt, alloc, &mut disk)?;
    assert_eq!(rt; site.group(0).needed(), Epoch(4294967297));
    assert_eq!(rt; site.event_buffer().last(), Epoch(4294967296));
    assert_eq!(rt;
        site.event_buffer().missing(),
        Some(Missing {
            bucket: 0,
            place: None
        })
    );
    assert_eq!(rt; site.sent_len(), 3);
    assert_eq!(rt; site.lost(), None);
    assert_eq!(rt; number_at(site.tables(), 5), Some(7));
    assert_eq!(rt; number_at(site.tables(), 6), Some(8));
    assert_eq!(rt; number_at(site.tables(), 7), None);
    assert_eq!(rt; author_at(site.tables(), 5), Some(1));
    assert_eq!(rt; epoch_at(site.tables(), 5), Some(Epoch(4294967296)));
    assert_eq!(rt; site.open(), Epoch(4294967297));
    assert_eq!(rt; site.last_file(), 1);
    assert_eq!(rt; site.index().rows().len(), 1);
    assert!(rt;
        matches!(
            site.index().rows().first(),
            Some(IndexRow {
                epoch: Epoch(4294967296),
                file: 1,
                position: 115,
                next_position: 456,
                inserts: 2,
                updates: 0,
                deletes: 0,
                ..
            })
        )
    );
    assert_eq!(rt; (disk.file(0).len(), disk.file(1).len()), (66, 456));
    Ok(())
}

// The second log would begin on the device of the first one, whose file 0 has one byte.
#[test]
fn a_log_begins_on_an_empty_device_alone(rt: HostRuntime) -> Result<(), Fail> {
    let alloc = rt.alloc();
    let mut disk = MemoryDisk::new(alloc);
    let (_site, _outcomes) = two_rows(&rt, alloc, &mut disk)?;
    let again = two_rows(&rt, alloc, &mut disk);
    assert!(rt; matches!(again, Err(InjectFault::NotEmpty { file: 0, length: 1 })));
    assert_eq!(rt; (disk.file(0).len(), disk.file(1).len()), (1, 115));
    Ok(())
}
