ghost use Rattle.std.specs.Prelude.{◌≡◌, ℕ, ◌∷◌, [], false, length, IfOk, OnErr};
ghost use Rattle.rb_base.specs.declared.site.SiteId.TheVariants.{A};
ghost use Rattle.rb_base.specs.declared.script.Setup.{Setup};
ghost use Rattle.rb_journal_defs.specs.Body.{Shape};
ghost use Rattle.rb_text_defs.specs.Legal.{changes_in_event};
ghost use Rattle.rb_play_defs.specs.Step.{Progress, site_step, written_bodies};
ghost use Rattle.rb_play_defs.specs.Play.{shape_of, Sites, after_steps, outcomes_of, joined, joined_outcome};
ghost use Rattle.rb_play_defs.specs.UnfinishedLog.{HoldsUnfinishedLog};
ghost use Rattle.rb_disk.specs.Fault.{HasDiskCause};
ghost use Rattle.rb_play_defs.specs.Point.{uses_device};
ghost use Rattle.rb_site.specs.Site.{IsSite, CanTake, Plays, limit_of};
ghost use Rattle.rb_pair.specs.Action.{ActionFits, CanAct, steps_of_action, use_device, after_log};

use crate::action::Action;
use rb_base::{Event, Outcome};
use rb_disk::{DiskLogFault, LogDisk};
use rb_site::{Site, SiteEvent, Stepped};
use std::thread::Threads;

/// Returns how many changes an event asks for.
pub(crate) fn changes_in(event: &Event) -> u64
    ensures { result ≡ changes_in_event event.now }
{
    match event {
        Event::Tx(_, operations) => operations.as_slice().len() as u64,
        _ => 0,
    }
}

/// Plays the steps of an event at site A, and returns the site after them with the event's
/// outcome.
pub(crate) fn act<R: Threads + Sync, D: LogDisk>(
    rt: &R,
    site: Site,
    action: Action,
    disk: &mut D,
) -> Result<(Site, Outcome), DiskLogFault>
    requires room { CanAct site (D.seen disk.old) action }
    ensures played { IfOk result (λ pair. (setup : Setup) (sites : Sites) →
        IsSite (shape_of setup A) site (D.seen disk.old) sites.a → ActionFits setup sites action →
        IsSite (shape_of setup A) pair.0 (D.seen disk.new)
        (after_steps setup sites (steps_of_action action)).a
        × (pair.1 ≡ joined_outcome (outcomes_of setup sites (steps_of_action action)))) }
    ensures limit { IfOk result (λ pair. limit_of pair.0 ≡ limit_of site) }
    ensures stopped { OnErr result ((setup : Setup) (sites : Sites) →
        IsSite (shape_of setup A) site (D.seen disk.old) sites.a → ActionFits setup sites action →
        HoldsUnfinishedLog A (limit_of site) sites.a.written
        (written_bodies (shape_of setup A) (after_steps setup sites (steps_of_action action)).a)
        (D.seen disk.new)) }
    ensures untouched { use_device (steps_of_action action) ≡ false → disk.new ≡ disk.old }
    ensures cause { HasDiskCause (D.fault_count disk.old) (D.fault_count disk.new) result }
{
    match action {
        Action::One(_, event) => step(rt, site, event, disk),
        Action::Log(_) => log(rt, site, disk),
        Action::Idle => Ok((site, Outcome::Nothing)),
    }
}

// Plays one event of the site and returns its outcome. A stopped site is dropped, since no event
// follows a fault.
fn step<R: Threads + Sync, D: LogDisk>(
    rt: &R,
    site: Site,
    event: SiteEvent,
    disk: &mut D,
) -> Result<(Site, Outcome), DiskLogFault>
    requires fits { CanTake site (D.seen disk.old) event }
    ensures stepped { IfOk result (λ pair. (shape : Shape) (run : Progress) →
        Plays shape run event site (D.seen disk.old) pair.0 (D.seen disk.new) pair.1) }
    ensures limit { IfOk result (λ pair. limit_of pair.0 ≡ limit_of site) }
    ensures stopped { OnErr result ((shape : Shape) (run : Progress) →
        IsSite shape site (D.seen disk.old) run →
        HoldsUnfinishedLog shape.site (limit_of site) run.written
        (written_bodies shape (site_step shape run event).run) (D.seen disk.new)) }
    ensures untouched { uses_device event ≡ false → disk.new ≡ disk.old }
    ensures cause { HasDiskCause (D.fault_count disk.old) (D.fault_count disk.new) result }
{
    match site.step(rt, event, disk) {
        Stepped::On(site, outcome) => Ok((site, outcome)),
        Stepped::Stopped(_) => Err(DiskLogFault::DiskFault),
        Stepped::NoMemory => Err(DiskLogFault::NoMemory),
    }
}

// Delivers every waiting message, then injects.
fn log<R: Threads + Sync, D: LogDisk>(
    rt: &R,
    site: Site,
    disk: &mut D,
) -> Result<(Site, Outcome), DiskLogFault>
    requires stands { (shape : Shape) × (run : Progress) × IsSite shape site (D.seen disk.old) run }
    ensures played { IfOk result (λ pair. (shape : Shape) (run : Progress) →
        IsSite shape site (D.seen disk.old) run →
        IsSite shape pair.0 (D.seen disk.new) (after_log shape run)
        × (pair.1 ≡ joined (site_step shape run SiteEvent.DeliverAll).outcome
        (site_step shape (site_step shape run SiteEvent.DeliverAll).run
        SiteEvent.Inject).outcome)) }
    ensures limit { IfOk result (λ pair. limit_of pair.0 ≡ limit_of site) }
    ensures stopped { OnErr result ((shape : Shape) (run : Progress) →
        IsSite shape site (D.seen disk.old) run →
        HoldsUnfinishedLog shape.site (limit_of site) run.written
        (written_bodies shape (after_log shape run)) (D.seen disk.new)) }
    ensures cause { HasDiskCause (D.fault_count disk.old) (D.fault_count disk.new) result }
{
    let (site, delivered) = step(rt, site, SiteEvent::DeliverAll, disk)?;
    let (site, wrote) = step(rt, site, SiteEvent::Inject, disk)?;
    Ok((site, logged(delivered, wrote)))
}

// Returns the outcome of `log`, given the outcomes of its two halves.
fn logged(delivered: Outcome, wrote: Outcome) -> Outcome
    ensures { result ≡ joined delivered wrote }
{
    match (delivered, wrote) {
        (
            Outcome::Delivered {
                kept,
                known,
                old: outdated,
            },
            Outcome::Wrote {
                count,
                written,
                bucket,
                place,
            },
        ) => Outcome::Logged {
            kept,
            known,
            old: outdated,
            count,
            written,
            bucket,
            place,
        },
        _ => Outcome::Nothing,
    }
}
