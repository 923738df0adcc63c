ghost use Rattle.std.specs.Prelude.{◌≡◌, ℕ, List, length, IfOk, OnErr};
ghost use Rattle.rb_disk.specs.Fault.{HasDiskCause};
ghost use Rattle.rb_journal_defs.specs.Body.{Shape};
ghost use Rattle.rb_inject.specs.Injector.{limit_of};
ghost use Rattle.rb_play_defs.specs.Step.{Progress, with_all_taken, takeable, worth_logging, written_bodies};
ghost use Rattle.rb_play_defs.specs.UnfinishedLog.{HoldsUnfinishedLog};
ghost use Rattle.rb_cluster.specs.Plays.{SomePoint};
ghost use Rattle.rb_cluster.specs.Taken.{IsLogAt, HasTaken, log_of};

use rb_disk::{DiskLogFault, LogDisk};
use rb_evbuf::EventBuffer;
use rb_inject::{InjectFault, Injector};

/// The log of a cluster: the event buffer, and the injector with its binlog.
#[derive(Drop)]
pub(crate) struct Log {
    pub(crate) events: EventBuffer,
    pub(crate) injector: Injector,
}

/// A log after `inject`, with the number of epochs that it logged.
#[derive(Drop)]
pub(crate) struct TakenEpochs {
    pub(crate) log: Log,
    pub(crate) count: u64,
}

/// Has the injector take the epochs up to the first one that is not whole, and log those that have
/// something to log.
pub(crate) fn take_epochs<D: LogDisk>(log: Log, disk: &mut D) -> Result<TakenEpochs, DiskLogFault>
    requires fits { SomePoint (IsLogAt log (D.seen disk.old)) }
    ensures taken { IfOk result (λ turn. (shape : Shape) (run : Progress) →
        IsLogAt log (D.seen disk.old) shape run →
        IsLogAt turn.log (D.seen disk.new) shape (with_all_taken shape run)
        × (turn.count ≡ length (worth_logging shape run.journal (takeable shape run)))) }
    ensures limit { IfOk result (λ turn. limit_of turn.log.injector ≡ limit_of log.injector) }
    ensures part { OnErr result ((shape : Shape) (run : Progress) →
        IsLogAt log (D.seen disk.old) shape run →
        HoldsUnfinishedLog shape.site (limit_of log.injector) run.written
        (written_bodies shape (with_all_taken shape run)) (D.seen disk.new)) }
    ensures cause { HasDiskCause (D.fault_count disk.old) (D.fault_count disk.new) result }
{
    let mut events = log.events;
    let mut injector = log.injector;
    let mut count = 0u64;
    loop {
        let (next, taken) = take_next(&mut events, injector, disk)?;
        injector = next;
        let Some(logged) = taken else {
            break;
        };
        // This number rises in each round, so the loop ends.
        let _last = events.last().0;
        count += u64::from(logged);
    }
    Ok(TakenEpochs {
        log: Log { events, injector },
        count,
    })
}

// Takes the next epoch, and logs it if it has something to log. Returns whether it had, or `None`
// if the epoch is not whole.
fn take_next<D: LogDisk>(
    events: &mut EventBuffer,
    injector: Injector,
    disk: &mut D,
) -> Result<(Injector, Option<bool>), DiskLogFault>
    requires fits { SomePoint (IsLogAt (log_of events.old injector) (D.seen disk.old)) }
    ensures taken { IfOk result (λ pair. (shape : Shape) (run : Progress) →
        IsLogAt (log_of events.old injector) (D.seen disk.old) shape run →
        HasTaken shape run (log_of events.new pair.0) (D.seen disk.new) pair.1) }
    ensures limit { IfOk result (λ pair. limit_of pair.0 ≡ limit_of injector) }
    ensures part { OnErr result ((shape : Shape) (run : Progress) →
        IsLogAt (log_of events.old injector) (D.seen disk.old) shape run →
        HoldsUnfinishedLog shape.site (limit_of injector) run.written
        (written_bodies shape (with_all_taken shape run)) (D.seen disk.new)) }
    ensures cause { HasDiskCause (D.fault_count disk.old) (D.fault_count disk.new) result }
{
    let Some(assembled) = events.take_epoch() else {
        return Ok((injector, None));
    };
    match injector.take(assembled, disk) {
        Ok((injector, logged)) => Ok((injector, Some(logged))),
        Err(InjectFault::DiskFault) => Err(DiskLogFault::DiskFault),
        Err(InjectFault::NoMemory) => Err(DiskLogFault::NoMemory),
        Err(InjectFault::TooLarge(_)) => unreachable!(),
        Err(InjectFault::NotEmpty { .. }) => unreachable!(),
    }
}
