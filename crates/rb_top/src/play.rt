ghost use Rattle.std.specs.Prelude.{◌≡◌, ◌++◌, ◌∷◌, [], IfOk, OnOk, OnErr};
ghost use Rattle.rb_base.specs.declared.site.SiteId.TheVariants.{A};
ghost use Rattle.rb_text_defs.specs.Legal.{IsLegal};
ghost use Rattle.rb_text_defs.specs.Report.{outcome_line};
ghost use Rattle.rb_play_defs.specs.Play.{play, log_of};
ghost use Rattle.rb_play_defs.specs.UnfinishedLog.{HoldsUnfinishedLog};
ghost use Rattle.rb_pair.specs.Fault.{IsNotEmpty, HasPairCause};
ghost use Rattle.rb_pair.specs.Held.{AreEmpty};
ghost use Rattle.rb_pair.specs.Pair.{IsPair};
ghost use Rattle.rb_top.specs.Run.{reported};

use rb_base::{NoMemory, Outcome, Setup};
use rb_disk::LogDisk;
use rb_pair::{Pair, PairFault};
use rb_print::print_outcome;
use rb_script::LinedEvents;
use std::alloc::Global;
use std::thread::Threads;

/// Plays a script's events in order at two new sites whose devices are empty, and appends one line
/// of the report for each.
pub(crate) fn play<R: Threads + Sync, D: LogDisk>(
    rt: &R,
    alloc: Global,
    setup: &Setup,
    events: LinedEvents,
    text: &mut Vec<u8>,
    disk_a: &mut D,
    disk_b: &mut D,
) -> Result<Pair, PairFault>
    requires legal { IsLegal (record { setup = setup.now; events = events }) }
    requires empty { AreEmpty (D.seen disk_a.old) (D.seen disk_b.old) }
    ensures played { IfOk result (λ pair. IsPair setup.now pair (D.seen disk_a.new)
        (play (record { setup = setup.now; events = events })).sites) }
    ensures reported { OnOk result (text.new.items ≡ text.old.items
        ++ reported (play (record { setup = setup.now; events = events })).outcomes) }
    ensures never_not_empty { IsNotEmpty result → ⊥ }
    ensures other_device { disk_b.new ≡ disk_b.old }
    ensures stopped { OnErr result
        (HoldsUnfinishedLog A setup.now.a.limit 0
        (log_of (record { setup = setup.now; events = events })) (D.seen disk_a.new)) }
    ensures cause { HasPairCause (D.fault_count disk_a.old) (D.fault_count disk_a.new) result }
{
    let mut pair = Pair::create(alloc, setup, disk_a, disk_b)?;
    for lined in events.into_vec() {
        let (after, outcome) = pair.step(rt, lined.event, disk_a, disk_b)?;
        pair = after;
        put_answer(alloc, text, lined.line, outcome)?;
    }
    Ok(pair)
}

// Appends the line that reports what an event did.
fn put_answer(
    alloc: Global,
    text: &mut Vec<u8>,
    line: u32,
    outcome: Outcome,
) -> Result<(), NoMemory>
    ensures { OnOk result (text.new.items ≡ text.old.items
        ++ (outcome_line line outcome ++ 10 ∷ [])) }
{
    let printed = print_outcome(alloc, line, &outcome)?;
    text.extend_from_slice(printed.as_slice())?;
    Ok(())
}
