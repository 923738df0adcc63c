ghost use Rattle.std.specs.Prelude.{◌≡◌, ℕ, ◌<◌, ◌^◌, ◌++◌, [], List, length, IfOk, OnOk, OnErr};
ghost use Rattle.std.specs.List.{flat_map};
ghost use Rattle.rb_base.specs.declared.site.SiteId.TheVariants.{A};
ghost use Rattle.rb_journal_defs.specs.Journal.{Journal, row_at};
ghost use Rattle.rb_journal_defs.specs.Body.{Shape};
ghost use Rattle.rb_store.specs.Tables.{rows_in};
ghost use Rattle.rb_text_defs.specs.Report.{log_lines, table_lines, text_of_lines};
ghost use Rattle.rb_text_defs.specs.Legal.{IsLegal};
ghost use Rattle.rb_play_defs.specs.Step.{Progress, written_bodies};
ghost use Rattle.rb_play_defs.specs.Play.{tables_left, log_of, log_rows, report_of, HoldsLogOf};
ghost use Rattle.rb_play_defs.specs.UnfinishedLog.{HoldsUnfinishedLog};
ghost use Rattle.rb_pair.specs.Fault.{IsNotEmpty, HasPairCause};
ghost use Rattle.rb_pair.specs.Held.{AreEmpty};
ghost use Rattle.rb_site.specs.Site.{IsSite, limit_of};

use crate::play::play;
use rb_base::{Bytes, NoMemory, Schema, SiteId};
use rb_disk::LogDisk;
use rb_pair::PairFault;
use rb_print::{print_log, print_table};
use rb_script::Script;
use rb_site::Site;
use rb_store::Tables;
use std::alloc::Global;
use std::thread::Threads;

/// Runs a script and returns its report.
pub(crate) fn run<R: Threads + Sync, D: LogDisk>(
    rt: &R,
    alloc: Global,
    script: Script,
    disk_a: &mut D,
    disk_b: &mut D,
) -> Result<Bytes, PairFault>
    requires legal { IsLegal script }
    requires empty { AreEmpty (D.seen disk_a.old) (D.seen disk_b.old) }
    ensures ok { IfOk result (λ report. (report ≡ report_of script)
        × HoldsLogOf script (D.seen disk_a.new)) }
    ensures never_not_empty { IsNotEmpty result → ⊥ }
    ensures other_device { disk_b.new ≡ disk_b.old }
    ensures err { OnErr result (HoldsUnfinishedLog A script.setup.a.limit 0 (log_of script)
        (D.seen disk_a.new)) }
    ensures cause { HasPairCause (D.fault_count disk_a.old) (D.fault_count disk_a.new) result }
{
    let Script { setup, events } = script;
    let mut text = Vec::from_slice(alloc, b"ndb replication report\n")?;
    let pair = play(rt, alloc, &setup, events, &mut text, disk_a, disk_b)?;
    let site = pair.site_a();
    put_log(alloc, &mut text, site)?;
    put_tables(alloc, &mut text, setup.tables.as_slice(), site.tables())?;
    text.extend_from_slice(b"end\n")?;
    Ok(Bytes::from_vec(text))
}

// Appends the lines of a site's log: the counts of its files and epochs, and a line for each row of
// its index.
fn put_log(alloc: Global, text: &mut Vec<u8>, site: &Site) -> Result<(), NoMemory>
    ensures { OnOk result ((shape : Shape) (seen : ℕ → List ℕ) (run : Progress) →
        IsSite shape site.now seen run →
        text.new.items ≡ text.old.items
        ++ text_of_lines (log_lines A (log_rows (limit_of site.now) (written_bodies shape run)))) }
{
    let rows = site.index().rows();
    let lines = print_log(alloc, SiteId::A, site.last_file(), rows)?;
    text.extend_from_slice(lines.as_slice())?;
    Ok(())
}

// Appends the lines of a site's tables.
fn put_tables(
    alloc: Global,
    text: &mut Vec<u8>,
    schemas: &[Schema],
    tables: &Tables,
) -> Result<(), NoMemory>
    requires few { length schemas.now < 2 ^ 16 }
    ensures { OnOk result ((journal : Journal) →
        ((table key : ℕ) → rows_in tables.now table key ≡ row_at table key journal) →
        text.new.items ≡ text.old.items
        ++ flat_map (λ table. text_of_lines (table_lines A table))
        (tables_left schemas.now journal)) }
{
    for (place, schema) in schemas.iter().enumerate() {
        let rows = tables.dump(place as u16 + 1)?;
        let lines = print_table(alloc, SiteId::A, schema.name.as_slice(), rows.as_slice())?;
        text.extend_from_slice(lines.as_slice())?;
    }
    Ok(())
}
