ghost use Rattle.std.specs.Option.{option_map};
ghost use Rattle.std.specs.Prelude.{◌≡◌, ◌+◌, ◌*◌, ◌<◌, ◌^◌, ℕ, [], length, List, Err, false, IfOk, OnErr};
ghost use Rattle.rb_evbuf.specs.Buffer.{StandsFor};
ghost use Rattle.rb_store.specs.Tables.{held_at};
ghost use Rattle.rb_store.specs.Left.{held_by};
ghost use Rattle.rb_log_defs.specs.File.{binlog_files, index_rows};
ghost use Rattle.rb_disk.specs.Disk.{IsLowestFile};
ghost use Rattle.rb_device_defs.specs.Image.{IsLogImage};
ghost use Rattle.rb_nodes.specs.Nodes.{GroupHolds};
ghost use Rattle.rb_nodes.specs.Net.{SameSize};
ghost use Rattle.rb_journal_defs.specs.Body.{Shape};
ghost use Rattle.rb_play_defs.specs.Play.{setup_at, shape_of};
ghost use Rattle.rb_play_defs.specs.UnfinishedLog.{HoldsUnfinishedLog};
ghost use Rattle.rb_play_defs.specs.Step.{Progress, fed_by, beginning, deliver_step, deliver_all_step, with_all_taken, inject_step, injector_step, takeable, worth_logging, site_step, written_bodies, answer_outcome as outcome_of_answer};
ghost use Rattle.rb_inject.specs.Injector as inject;
ghost use Rattle.rb_inject.specs.Injector.{IsLimit};
ghost use Rattle.rb_inject.specs.Fault.{HasInjectCause, IsNotEmpty, IsTooLarge};
ghost use Rattle.rb_play_defs.specs.Point.{AreDeclared, uses_device};

use crate::halt::Halt;
use crate::log::{Log, TakenEpochs, take_epochs};
use crate::mapping::copy_tables;
use crate::stopped::{StoppedCluster, own_setup};
use crate::tally::Tally;
use rb_base::{Epoch, NoMemory, Outcome, Setup, SiteId};
use rb_disk::{DiskLogFault, LogDisk, lowest_file};
use rb_evbuf::{EventBuffer, Missing, Received};
use rb_group::Group;
use rb_index::EpochIndex;
use rb_inject::{InjectFault, Injector};
use rb_play_defs::SiteEvent;
use rb_store::Tables;
use std::alloc::Global;

/// One cluster of a run.
#[derive(Drop)]
pub struct Cluster {
    rest: StoppedCluster,
    log: Log,
}

impl Cluster {
    ghost use Rattle.rb_cluster.specs.Net.{buffered_by};
    ghost use Rattle.rb_cluster.specs.Cluster.{IsCluster, IsStoppedCluster, HoldsLog, rest_of, log_setup, limit_of, sent_by_cluster, groups_of, replicas_of, SameSetup};
    ghost use Rattle.rb_cluster.specs.Plays.{Plays, SomePoint, Ready};
    ghost use Rattle.rb_cluster.specs.Taken.{IsLogAt};
    ghost use Rattle.rb_cluster.specs.Halt.{IfStopped, HasHaltCause};

    /// Creates a cluster of a setup on an empty device. The injector begins a log without an epoch.
    /// `NotEmpty` names the lowest file that is not empty, and leaves the device unchanged.
    pub fn create<D: LogDisk>(
        alloc: Global,
        id: SiteId,
        setup: &Setup,
        disk: &mut D,
    ) -> Result<Cluster, InjectFault>
        requires declared { AreDeclared (shape_of setup.now id) }
        requires some { 0 < (setup_at id setup.now).groups * (setup_at id setup.now).replicas }
        requires few { (setup_at id setup.now).groups * (setup_at id setup.now).replicas < 2 ^ 32 }
        requires tables { length setup.now.tables < 2 ^ 16 }
        requires limit { IsLimit (setup_at id setup.now).limit }
        ensures begun { IfOk result (λ cluster.
            IsCluster cluster (D.seen disk.new) (shape_of setup.now id)
            (beginning (setup_at id setup.now).groups (setup_at id setup.now).replicas)) }
        ensures setup { IfOk result (λ cluster.
            (groups_of cluster ≡ (setup_at id setup.now).groups)
            × (replicas_of cluster ≡ (setup_at id setup.now).replicas)
            × (limit_of cluster ≡ (setup_at id setup.now).limit)) }
        ensures not_empty { (file size : ℕ) → result ≡ Err (InjectFault.NotEmpty file size) →
            IsLowestFile file size (D.seen disk.old) }
        ensures refused { (file size : ℕ) → IsLowestFile file size (D.seen disk.old) →
            IsNotEmpty result }
        ensures untouched { IsNotEmpty result → disk.new ≡ disk.old }
        ensures no_size { IsTooLarge result → ⊥ }
        ensures stopped { OnErr result (((file : ℕ) → D.seen disk.old file ≡ []) →
            IsLogImage id (setup_at id setup.now).limit [] (D.seen disk.new)) }
        ensures cause { HasInjectCause (D.fault_count disk.old) (D.fault_count disk.new) result }
    {
        if let Some((file, length)) = lowest_file(disk) {
            return Err(InjectFault::NotEmpty { file, length });
        }
        let own = own_setup(id, setup);
        let rest = StoppedCluster::begin(alloc, id, setup)?;
        let events = EventBuffer::new(alloc, own.groups * own.replicas, Epoch(0))?;
        let tables = copy_tables(alloc, rest.books.mapped.as_slice())?;
        let injector = Injector::create(alloc, id, own.limit, tables, disk)?;
        let log = Log { events, injector };
        Ok(Cluster { rest, log })
    }

    /// Plays one event, and returns the cluster after it with its outcome. Only the events of the
    /// injector use the device. If the device fails, the rest of the cluster is left, unchanged.
    pub fn step<D: LogDisk>(
        self,
        event: SiteEvent,
        disk: &mut D,
    ) -> Result<(Cluster, Outcome), Halt>
        requires fits { SomePoint (Ready event self (D.seen disk.old)) }
        ensures stepped { IfOk result (λ pair. Plays (Ready event self (D.seen disk.old))
            (IsCluster pair.0 (D.seen disk.new)) (λ shape run. site_step shape run event) pair.1) }
        ensures setup { IfOk result (λ pair. SameSetup self pair.0) }
        ensures rest { IfStopped result (λ rest. rest ≡ rest_of self) }
        ensures part { OnErr result ((shape : Shape) (run : Progress) →
            IsCluster self (D.seen disk.old) shape run →
            HoldsUnfinishedLog shape.site (limit_of self) run.written
            (written_bodies shape (site_step shape run event).run) (D.seen disk.new)) }
        ensures untouched { uses_device event ≡ false → disk.new ≡ disk.old }
        ensures cause { HasHaltCause (D.fault_count disk.old) (D.fault_count disk.new) result }
    {
        match event {
            SiteEvent::Inject => self.inject(disk),
            SiteEvent::Injector => self.begin_again(disk),
            _ => match self.step_inside(event) {
                Ok(after) => Ok(after),
                Err(NoMemory) => Err(Halt::NoMemory),
            },
        }
    }

    /// Returns node group `number`, counted from 0. Allocates nothing.
    pub fn group(&self, number: u32) -> &Group
        requires number { number < groups_of self.now }
        ensures { (seen : ℕ → List ℕ) (shape : Shape) (run : Progress) →
            IsCluster self.now seen shape run →
            GroupHolds shape.buckets (buffered_by shape run) number result.now }
    {
        self.rest.nodes.group(number)
    }

    /// Returns the injector's event buffer. Allocates nothing.
    pub fn event_buffer(&self) -> &EventBuffer
        ensures { (seen : ℕ → List ℕ) (shape : Shape) (run : Progress) →
            IsCluster self.now seen shape run → StandsFor result.now (fed_by shape run) }
    {
        &self.log.events
    }

    /// Returns how many messages its nodes have sent. Allocates nothing.
    pub fn sent_len(&self) -> u64
        ensures { (seen : ℕ → List ℕ) (shape : Shape) (run : Progress) →
            IsCluster self.now seen shape run → result ≡ length run.sent }
    {
        self.rest.nodes.sent_len()
    }

    /// Returns its tables: at each key the row, its author and its epoch. Allocates nothing.
    pub fn tables(&self) -> &Tables
        ensures { (seen : ℕ → List ℕ) (shape : Shape) (run : Progress) →
            IsCluster self.now seen shape run →
            (table key : ℕ) → held_at result.now table key ≡ held_by table key run.journal }
    {
        &self.rest.books.tables
    }

    /// Returns its open epoch. Allocates nothing.
    pub fn open(&self) -> Epoch
        ensures { (seen : ℕ → List ℕ) (shape : Shape) (run : Progress) →
            IsCluster self.now seen shape run → result.0 ≡ run.opened }
    {
        self.rest.books.clock.open()
    }

    /// Returns the index of its log. Allocates nothing.
    pub fn index(&self) -> &EpochIndex
        ensures { (seen : ℕ → List ℕ) (shape : Shape) (run : Progress) →
            IsCluster self.now seen shape run →
            result.now ≡ index_rows shape.site (limit_of self.now) (written_bodies shape run) }
    {
        self.log.injector.index()
    }

    /// Returns the number of its last binlog file. Allocates nothing.
    pub fn last_file(&self) -> u32
        ensures { (seen : ℕ → List ℕ) (shape : Shape) (run : Progress) →
            IsCluster self.now seen shape run →
            result ≡ length (binlog_files shape.site (limit_of self.now)
            (written_bodies shape run)) }
    {
        self.log.injector.last_file()
    }

    /// Returns the first lost group with the epoch that was needed then; `None` if no group was
    /// lost. Allocates nothing.
    pub fn lost(&self) -> Option<(u32, Epoch)>
        ensures { (seen : ℕ → List ℕ) (shape : Shape) (run : Progress) →
            IsCluster self.now seen shape run →
            option_map (λ loss. (loss.0, loss.1.0)) result ≡ run.lost }
    {
        self.rest.nodes.lost()
    }

    // Plays an event that does not use the device.
    fn step_inside(self, event: SiteEvent) -> Result<(Cluster, Outcome), NoMemory>
        requires inside { uses_device event ≡ false }
        requires fits { (seen : ℕ → List ℕ) × SomePoint (Ready event self seen) }
        ensures stepped { IfOk result (λ pair. (seen : ℕ → List ℕ) →
            Plays (Ready event self seen) (IsCluster pair.0 seen)
            (λ shape run. site_step shape run event) pair.1) }
        ensures setup { IfOk result (λ pair. SameSetup self pair.0) }
    {
        match event {
            SiteEvent::Deliver(place) => self.deliver(place),
            SiteEvent::DeliverAll => self.deliver_all(),
            _ => {
                let Cluster { rest, log } = self;
                let (rest, outcome) = rest.step(event)?;
                Ok((Cluster { rest, log }, outcome))
            }
        }
    }

    // Delivers the message at a place to the event buffer, if there is one.
    fn deliver(self, place: u64) -> Result<(Cluster, Outcome), NoMemory>
        requires fits { (seen : ℕ → List ℕ) × SomePoint (IsCluster self seen) }
        ensures delivered { IfOk result (λ pair. (seen : ℕ → List ℕ) →
            Plays (IsCluster self seen) (IsCluster pair.0 seen)
            (λ shape run. deliver_step shape place run) pair.1) }
        ensures setup { IfOk result (λ pair. SameSetup self pair.0) }
    {
        let mut cluster = self;
        let sent = cluster.rest.nodes.sent_len();
        if place >= sent {
            return Ok((cluster, Outcome::NoMessage { place, sent }));
        }
        let answer = cluster.receive(place)?;
        Ok((cluster, answer_outcome(answer)))
    }

    // Delivers to the event buffer, in order, each message that was never delivered and whose
    // sender has not failed since.
    fn deliver_all(self) -> Result<(Cluster, Outcome), NoMemory>
        requires fits { (seen : ℕ → List ℕ) × SomePoint (IsCluster self seen) }
        ensures delivered { IfOk result (λ pair. (seen : ℕ → List ℕ) →
            Plays (IsCluster self seen) (IsCluster pair.0 seen) deliver_all_step pair.1) }
        ensures setup { IfOk result (λ pair. SameSetup self pair.0) }
    {
        let mut cluster = self;
        let mut tally = Tally::new();
        while let Some(place) = cluster.rest.nodes.first_waiting() {
            let answer = cluster.receive(place)?;
            tally.add(answer);
        }
        Ok((cluster, tally.outcome()))
    }

    // Delivers the message at a place to the event buffer.
    fn receive(&mut self, place: u64) -> Result<Received, NoMemory>
        requires fits { (seen : ℕ → List ℕ) × SomePoint (IsCluster self.old seen) }
        requires place { place < sent_by_cluster self.old }
        ensures received { IfOk result (λ answer. (seen : ℕ → List ℕ) →
            Plays (IsCluster self.old seen) (IsCluster self.new seen)
            (λ shape run. deliver_step shape place run) (outcome_of_answer answer)) }
        ensures setup { SameSetup self.old self.new }
    {
        let message = self.rest.nodes.deliver(place)?;
        self.log.events.receive(message)
    }

    // Plays `inject`: the injector takes the epochs up to the first one that is not whole, logs
    // those that have something to log, and acknowledges the last written one to the nodes.
    fn inject<D: LogDisk>(self, disk: &mut D) -> Result<(Cluster, Outcome), Halt>
        requires fits { SomePoint (IsCluster self (D.seen disk.old)) }
        ensures injected { IfOk result (λ pair. Plays (IsCluster self (D.seen disk.old))
            (IsCluster pair.0 (D.seen disk.new)) inject_step pair.1) }
        ensures setup { IfOk result (λ pair. SameSetup self pair.0) }
        ensures rest { IfStopped result (λ rest. rest ≡ rest_of self) }
        ensures part { OnErr result ((shape : Shape) (run : Progress) →
            IsCluster self (D.seen disk.old) shape run →
            HoldsUnfinishedLog shape.site (limit_of self) run.written
            (written_bodies shape (with_all_taken shape run)) (D.seen disk.new)) }
        ensures cause { HasHaltCause (D.fault_count disk.old) (D.fault_count disk.new) result }
    {
        let Cluster { rest, log } = self;
        match take_epochs(log, disk) {
            Ok(turn) => Ok(Cluster::following(rest, turn)),
            Err(DiskLogFault::DiskFault) => Err(Halt::Stopped(rest)),
            Err(DiskLogFault::NoMemory) => Err(Halt::NoMemory),
        }
    }

    // Returns the cluster after `inject`. The nodes may release only what is synced, so they learn
    // the last written epoch here.
    fn following(rest: StoppedCluster, turn: TakenEpochs) -> (Cluster, Outcome)
        requires fits { (seen : ℕ → List ℕ) × (shape : Shape) × (run : Progress)
            × IsStoppedCluster rest shape run
            × IsLogAt turn.log seen shape (with_all_taken shape run) }
        ensures injected { (seen : ℕ → List ℕ) (shape : Shape) (run : Progress) →
            IsStoppedCluster rest shape run →
            IsLogAt turn.log seen shape (with_all_taken shape run) →
            turn.count ≡ length (worth_logging shape run.journal (takeable shape run)) →
            IsCluster result.0 seen shape (inject_step shape run).run
            × (result.1 ≡ (inject_step shape run).outcome) }
        ensures size { SameSize rest.nodes result.0.rest.nodes }
        ensures limit { limit_of result.0 ≡ inject.limit_of turn.log.injector }
    {
        let TakenEpochs { log, count } = turn;
        let written = log.injector.written();
        let missing = log.events.missing().unwrap_or(Missing {
            bucket: 0,
            place: None,
        });
        let mut rest = rest;
        rest.nodes.acknowledge(written);
        let outcome = Outcome::Wrote {
            count,
            written,
            bucket: missing.bucket,
            place: missing.place,
        };
        (Cluster { rest, log }, outcome)
    }

    // Plays `injector`: the injector stopped, and recovers its log from the device.
    fn begin_again<D: LogDisk>(self, disk: &mut D) -> Result<(Cluster, Outcome), Halt>
        requires fits { SomePoint (IsCluster self (D.seen disk.old)) }
        ensures recovered { IfOk result (λ pair. Plays (IsCluster self (D.seen disk.old))
            (IsCluster pair.0 (D.seen disk.new)) injector_step pair.1) }
        ensures setup { IfOk result (λ pair. SameSetup self pair.0) }
        ensures rest { IfStopped result (λ rest. rest ≡ rest_of self) }
        ensures part { OnErr result ((shape : Shape) (run : Progress) →
            IsCluster self (D.seen disk.old) shape run →
            IsLogImage shape.site (limit_of self) (written_bodies shape run) (D.seen disk.new)) }
        ensures cause { HasHaltCause (D.fault_count disk.old) (D.fault_count disk.new) result }
    {
        let limit = self.log.injector.limit();
        let rest = self.rest;
        let Ok(tables) = copy_tables(rest.alloc, rest.books.mapped.as_slice()) else {
            return Err(Halt::NoMemory);
        };
        match Injector::recover(rest.alloc, rest.books.id, limit, tables, disk) {
            Ok(injector) => match Cluster::with_new(rest, injector) {
                Ok(after) => Ok(after),
                Err(NoMemory) => Err(Halt::NoMemory),
            },
            Err(DiskLogFault::DiskFault) => Err(Halt::Stopped(rest)),
            Err(DiskLogFault::NoMemory) => Err(Halt::NoMemory),
        }
    }

    // Returns a cluster with a new injector. Its event buffer is empty and waits for the epoch
    // after the last written one, and the owners resend.
    fn with_new(rest: StoppedCluster, injector: Injector) -> Result<(Cluster, Outcome), NoMemory>
        requires fits { (seen : ℕ → List ℕ) × (shape : Shape) × (run : Progress)
            × IsStoppedCluster rest shape run
            × inject.StandsFor injector (log_setup shape injector) (written_bodies shape run) seen }
        ensures recovered { IfOk result (λ pair. (seen : ℕ → List ℕ) (shape : Shape)
            (run : Progress) → IsStoppedCluster rest shape run →
            inject.StandsFor injector (log_setup shape injector) (written_bodies shape run) seen →
            IsCluster pair.0 seen shape (injector_step shape run).run
            × (pair.1 ≡ (injector_step shape run).outcome)) }
        ensures size { IfOk result (λ pair. SameSize rest.nodes pair.0.rest.nodes) }
        ensures limit { IfOk result (λ pair. limit_of pair.0 ≡ inject.limit_of injector) }
    {
        let written = injector.written();
        let events = EventBuffer::new(rest.alloc, rest.nodes.buckets(), written)?;
        let mut rest = rest;
        rest.send_again()?;
        let sent = rest.nodes.sent_len();
        let log = Log { events, injector };
        Ok((Cluster { rest, log }, Outcome::Recovered { written, sent }))
    }
}

// Returns the outcome of a delivery.
fn answer_outcome(answer: Received) -> Outcome
    ensures { result ≡ outcome_of_answer answer }
{
    match answer {
        Received::Kept => Outcome::Kept,
        Received::Known => Outcome::Known,
        Received::Old => Outcome::Old,
    }
}
