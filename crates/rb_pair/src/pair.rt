ghost use Rattle.std.specs.Prelude.{◌≡◌, ℕ, ◌+◌, [], false, List, Err, IfOk, OnErr};
ghost use Rattle.rb_base.specs.declared.site.SiteId.TheVariants.{A};
ghost use Rattle.rb_base.specs.declared.site.SiteId.{SiteId};
ghost use Rattle.rb_base.specs.declared.script.Setup.{Setup};
ghost use Rattle.rb_device_defs.specs.Image.{IsLogImage};
ghost use Rattle.rb_journal_defs.specs.Body.{Shape};
ghost use Rattle.rb_text_defs.specs.Legal.{IsLegalSetup, changes_in_event};
ghost use Rattle.rb_play_defs.specs.Step.{Progress, site_step, written_bodies};
ghost use Rattle.rb_play_defs.specs.Play.{shape_of, steps_of_event, joined_outcome, Sites, after_steps, outcomes_of, beginnings};
ghost use Rattle.rb_play_defs.specs.UnfinishedLog.{HoldsUnfinishedLog};
ghost use Rattle.rb_disk.specs.Fault.{HasDiskCause};
ghost use Rattle.rb_site.specs.Site.{IsSite, limit_of};
ghost use Rattle.rb_pair.specs.Action.{use_device};
ghost use Rattle.rb_pair.specs.Fault.{IsNotEmpty, HasPairCause};
ghost use Rattle.rb_pair.specs.Held.{AreEmpty, IsFirstHeld};

use crate::acting::{act, changes_in};
use crate::action::action_of;
use crate::fault::PairFault;
use crate::held::{HeldFile, first_held};
use rb_base::{Event, Outcome, Setup, SiteId};
use rb_disk::{DiskLogFault, LogDisk};
use rb_site::{InjectFault, Site};
use std::alloc::Global;
use std::thread::Threads;

/// A pair of sites at a point of a run. Only site A is made, since site B has no event yet.
#[derive(Drop)]
pub struct Pair {
    a: Site,
    events: u64,
    // How many changes the events' transactions asked for.
    changes: u64,
}

impl Pair {
    ghost use Rattle.rb_pair.specs.Pair.{IsPair, HasRoom, CanPlay, events_of, changes_of};

    /// Creates a pair at the start of a run, over empty devices. Site A's device then holds a log
    /// without an epoch; site B's is not written to yet. `NotEmpty` names the first file that is
    /// not empty, site A before site B and the lowest file first, and leaves both devices
    /// unchanged. A fault of site A's device, or `NoMemory`, leaves an image of a log without an
    /// epoch.
    pub fn create<D: LogDisk>(
        alloc: Global,
        setup: &Setup,
        disk_a: &mut D,
        disk_b: &mut D,
    ) -> Result<Pair, PairFault>
        requires legal { IsLegalSetup setup.now }
        ensures begun { IfOk result (λ pair.
            IsPair setup.now pair (D.seen disk_a.new) (beginnings setup.now)) }
        ensures counts { IfOk result (λ pair. (events_of pair ≡ 0) × (changes_of pair ≡ 0)) }
        ensures not_empty { (site : SiteId) (file size : ℕ) →
            result ≡ Err (PairFault.NotEmpty site file size) →
            IsFirstHeld site file size (D.seen disk_a.old) (D.seen disk_b.old) }
        ensures refused { (site : SiteId) (file size : ℕ) →
            IsFirstHeld site file size (D.seen disk_a.old) (D.seen disk_b.old) →
            IsNotEmpty result }
        ensures untouched { IsNotEmpty result → disk_a.new ≡ disk_a.old }
        ensures other_device { disk_b.new ≡ disk_b.old }
        ensures stopped { OnErr result (AreEmpty (D.seen disk_a.old) (D.seen disk_b.old) →
            IsLogImage A setup.now.a.limit [] (D.seen disk_a.new)) }
        ensures cause { HasPairCause (D.fault_count disk_a.old) (D.fault_count disk_a.new) result }
    {
        if let Some(HeldFile { site, file, length }) = first_held(disk_a, disk_b) {
            return Err(PairFault::NotEmpty { site, file, length });
        }
        match Site::create(alloc, SiteId::A, setup, disk_a) {
            Ok(a) => Ok(Pair {
                a,
                events: 0,
                changes: 0,
            }),
            Err(InjectFault::DiskFault) => Err(PairFault::DiskFault(SiteId::A)),
            Err(InjectFault::NoMemory) => Err(PairFault::NoMemory),
            Err(InjectFault::NotEmpty { .. }) => unreachable!(),
            Err(InjectFault::TooLarge(_)) => unreachable!(),
        }
    }

    /// Plays one event of a script, and returns the pair after it with the event's outcome. After a
    /// fault, or `NoMemory`, site A's device can be recovered with the epochs that were logged
    /// before, and perhaps some of those that the event would have logged. Site A's device is
    /// unchanged if no step of the event uses it, and site B's is always unchanged.
    pub fn step<R: Threads + Sync, D: LogDisk>(
        self,
        rt: &R,
        event: Event,
        disk_a: &mut D,
        _disk_b: &mut D,
    ) -> Result<(Pair, Outcome), PairFault>
        requires room { CanPlay self (D.seen disk_a.old) event }
        ensures played { IfOk result (λ pair. (setup : Setup) (sites : Sites) →
            IsPair setup self (D.seen disk_a.old) sites → HasRoom setup self event →
            IsPair setup pair.0 (D.seen disk_a.new)
            (after_steps setup sites (steps_of_event event))
            × (pair.1 ≡ joined_outcome (outcomes_of setup sites (steps_of_event event)))) }
        ensures counts { IfOk result (λ pair. (events_of pair.0 ≡ events_of self + 1)
            × (changes_of pair.0 ≡ changes_of self + changes_in_event event)) }
        ensures never_not_empty { IsNotEmpty result → ⊥ }
        ensures untouched { use_device (steps_of_event event) ≡ false → disk_a.new ≡ disk_a.old }
        ensures other_device { _disk_b.new ≡ _disk_b.old }
        ensures stopped { OnErr result ((setup : Setup) (sites : Sites) →
            IsPair setup self (D.seen disk_a.old) sites → HasRoom setup self event →
            HoldsUnfinishedLog A setup.a.limit sites.a.written
            (written_bodies (shape_of setup A)
            (after_steps setup sites (steps_of_event event)).a) (D.seen disk_a.new)) }
        ensures cause { HasPairCause (D.fault_count disk_a.old) (D.fault_count disk_a.new) result }
    {
        let Pair { a, events, changes } = self;
        let own = changes_in(&event);
        let (a, outcome) = match act(rt, a, action_of(event), disk_a) {
            Ok(after) => after,
            Err(DiskLogFault::DiskFault) => return Err(PairFault::DiskFault(SiteId::A)),
            Err(DiskLogFault::NoMemory) => return Err(PairFault::NoMemory),
        };
        let pair = Pair {
            a,
            events: events + 1,
            changes: changes + own,
        };
        Ok((pair, outcome))
    }

    /// Returns site A. Allocates nothing.
    pub fn site_a(&self) -> &Site
        ensures { (setup : Setup) (seen : ℕ → List ℕ) (sites : Sites) →
            IsPair setup self.now seen sites →
            IsSite (shape_of setup A) result.now seen sites.a
            × (limit_of result.now ≡ setup.a.limit) }
    {
        &self.a
    }
}
