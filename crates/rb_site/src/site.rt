ghost use Rattle.std.specs.Option.{option_map};
ghost use Rattle.std.specs.Prelude.{◌≡◌, ◌*◌, ◌<◌, ◌^◌, ℕ, [], length, List, Err, false, IfOk, OnErr};
ghost use Rattle.rb_evbuf.specs.Buffer.{StandsFor};
ghost use Rattle.rb_store.specs.Tables.{held_at};
ghost use Rattle.rb_store.specs.Left.{held_by};
ghost use Rattle.rb_log_defs.specs.File.{binlog_files, index_rows};
ghost use Rattle.rb_disk.specs.Disk.{IsLowestFile};
ghost use Rattle.rb_device_defs.specs.Image.{IsLogImage};
ghost use Rattle.rb_nodes.specs.Nodes.{GroupHolds};
ghost use Rattle.rb_journal_defs.specs.Body.{Shape};
ghost use Rattle.rb_play_defs.specs.Play.{setup_at, shape_of};
ghost use Rattle.rb_play_defs.specs.UnfinishedLog.{HoldsUnfinishedLog};
ghost use Rattle.rb_play_defs.specs.Step.{Progress, fed_by, beginning, site_step, written_bodies};
ghost use Rattle.rb_inject.specs.Injector.{IsLimit};
ghost use Rattle.rb_inject.specs.Fault.{HasInjectCause, IsNotEmpty, IsTooLarge};
ghost use Rattle.rb_play_defs.specs.Point.{AreDeclared, uses_device};
ghost use Rattle.rb_cluster.specs.Net.{buffered_by};

use crate::stepped::{Stepped, StoppedSite};
use rb_base::{Epoch, Setup, SiteId};
use rb_cluster::{Cluster, Halt};
use rb_disk::LogDisk;
use rb_evbuf::EventBuffer;
use rb_group::Group;
use rb_index::EpochIndex;
use rb_inject::InjectFault;
use rb_play_defs::SiteEvent;
use rb_store::Tables;
use std::alloc::Global;
use std::thread::Threads;

/// One site of a run.
#[derive(Drop)]
pub struct Site {
    cluster: Cluster,
}

impl Site {
    ghost use Rattle.rb_site.specs.Site.{IsSite, IsStoppedSite, CanTake, Plays, rest_of, groups_of, replicas_of, limit_of, SameSetup};
    ghost use Rattle.rb_site.specs.Stepped.{IfOn, IfStopped, IsCut, HasStepCause};

    /// Creates a site of a setup on an empty device. The injector begins a log without an epoch.
    /// `NotEmpty` names the lowest file that is not empty, and leaves the device unchanged.
    pub fn create<D: LogDisk>(
        alloc: Global,
        id: SiteId,
        setup: &Setup,
        disk: &mut D,
    ) -> Result<Site, InjectFault>
        requires declared { AreDeclared (shape_of setup.now id) }
        requires some { 0 < (setup_at id setup.now).groups * (setup_at id setup.now).replicas }
        requires few { (setup_at id setup.now).groups * (setup_at id setup.now).replicas < 2 ^ 32 }
        requires tables { length setup.now.tables < 2 ^ 16 }
        requires limit { IsLimit (setup_at id setup.now).limit }
        ensures begun { IfOk result (λ site.
            IsSite (shape_of setup.now id) site (D.seen disk.new)
            (beginning (setup_at id setup.now).groups (setup_at id setup.now).replicas)) }
        ensures setup { IfOk result (λ site. (groups_of site ≡ (setup_at id setup.now).groups)
            × (replicas_of site ≡ (setup_at id setup.now).replicas)
            × (limit_of site ≡ (setup_at id setup.now).limit)) }
        ensures not_empty { (file size : ℕ) → result ≡ Err (InjectFault.NotEmpty file size) →
            IsLowestFile file size (D.seen disk.old) }
        ensures refused { (file size : ℕ) → IsLowestFile file size (D.seen disk.old) →
            IsNotEmpty result }
        ensures untouched { IsNotEmpty result → disk.new ≡ disk.old }
        ensures no_size { IsTooLarge result → ⊥ }
        ensures stopped { OnErr result (((file : ℕ) → D.seen disk.old file ≡ []) →
            IsLogImage id (setup_at id setup.now).limit [] (D.seen disk.new)) }
        ensures cause { HasInjectCause (D.fault_count disk.old) (D.fault_count disk.new) result }
    {
        match Cluster::create(alloc, id, setup, disk) {
            Ok(cluster) => Ok(Site { cluster }),
            Err(fault) => Err(fault),
        }
    }

    /// Plays one event, and returns the site after it with its outcome. Only the events of the
    /// injector use the device. If the device fails, the result is the rest of the site,
    /// unchanged.
    pub fn step<R: Threads + Sync, D: LogDisk>(
        self,
        _rt: &R,
        event: SiteEvent,
        disk: &mut D,
    ) -> Stepped
        requires fits { CanTake self (D.seen disk.old) event }
        ensures stepped { IfOn result (λ site outcome. (shape : Shape) (run : Progress) →
            Plays shape run event self (D.seen disk.old) site (D.seen disk.new) outcome) }
        ensures setup { IfOn result (λ site outcome. SameSetup self site) }
        ensures rest { IfStopped result (λ stopped. stopped ≡ rest_of self) }
        ensures stays { IfStopped result (λ stopped. (shape : Shape) (run : Progress) →
            IsSite shape self (D.seen disk.old) run → IsStoppedSite shape stopped run) }
        ensures part { IsCut result → (shape : Shape) (run : Progress) →
            IsSite shape self (D.seen disk.old) run →
            HoldsUnfinishedLog shape.site (limit_of self) run.written
            (written_bodies shape (site_step shape run event).run) (D.seen disk.new) }
        ensures untouched { uses_device event ≡ false → disk.new ≡ disk.old }
        ensures cause { HasStepCause (D.fault_count disk.old) (D.fault_count disk.new) result }
    {
        match self.cluster.step(event, disk) {
            Ok((cluster, outcome)) => Stepped::On(Site { cluster }, outcome),
            Err(Halt::Stopped(cluster)) => Stepped::Stopped(StoppedSite { cluster }),
            Err(Halt::NoMemory) => Stepped::NoMemory,
        }
    }

    /// Returns node group `number`, counted from 0. Allocates nothing.
    pub fn group(&self, number: u32) -> &Group
        requires number { number < groups_of self.now }
        ensures { (shape : Shape) (seen : ℕ → List ℕ) (run : Progress) →
            IsSite shape self.now seen run →
            GroupHolds shape.buckets (buffered_by shape run) number result.now }
    {
        self.cluster.group(number)
    }

    /// Returns the injector's event buffer. Allocates nothing.
    pub fn event_buffer(&self) -> &EventBuffer
        ensures { (shape : Shape) (seen : ℕ → List ℕ) (run : Progress) →
            IsSite shape self.now seen run → StandsFor result.now (fed_by shape run) }
    {
        self.cluster.event_buffer()
    }

    /// Returns how many messages its nodes have sent. Allocates nothing.
    pub fn sent_len(&self) -> u64
        ensures { (shape : Shape) (seen : ℕ → List ℕ) (run : Progress) →
            IsSite shape self.now seen run → result ≡ length run.sent }
    {
        self.cluster.sent_len()
    }

    /// Returns its tables: at each key the row, its author and its epoch. Allocates nothing.
    pub fn tables(&self) -> &Tables
        ensures { (shape : Shape) (seen : ℕ → List ℕ) (run : Progress) →
            IsSite shape self.now seen run →
            (table key : ℕ) → held_at result.now table key ≡ held_by table key run.journal }
    {
        self.cluster.tables()
    }

    /// Returns its open epoch. Allocates nothing.
    pub fn open(&self) -> Epoch
        ensures { (shape : Shape) (seen : ℕ → List ℕ) (run : Progress) →
            IsSite shape self.now seen run → result.0 ≡ run.opened }
    {
        self.cluster.open()
    }

    /// Returns the index of its log. Allocates nothing.
    pub fn index(&self) -> &EpochIndex
        ensures { (shape : Shape) (seen : ℕ → List ℕ) (run : Progress) →
            IsSite shape self.now seen run →
            result.now ≡ index_rows shape.site (limit_of self.now) (written_bodies shape run) }
    {
        self.cluster.index()
    }

    /// Returns the number of its last binlog file. Allocates nothing.
    pub fn last_file(&self) -> u32
        ensures { (shape : Shape) (seen : ℕ → List ℕ) (run : Progress) →
            IsSite shape self.now seen run →
            result ≡ length (binlog_files shape.site (limit_of self.now)
            (written_bodies shape run)) }
    {
        self.cluster.last_file()
    }

    /// Returns the first lost group with the epoch that was needed then; `None` if no group was
    /// lost. Allocates nothing.
    pub fn lost(&self) -> Option<(u32, Epoch)>
        ensures { (shape : Shape) (seen : ℕ → List ℕ) (run : Progress) →
            IsSite shape self.now seen run →
            option_map (λ loss. (loss.0, loss.1.0)) result ≡ run.lost }
    {
        self.cluster.lost()
    }
}
