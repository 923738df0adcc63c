ghost use Rattle.std.specs.Prelude.{◌≡◌, ◌↔◌, ◌⊎◌, ℕ, List, [], Option, Some, None, Ok, Err, true, false, IfSome};
ghost use Rattle.rb_base.specs.Faults.{Rose};
ghost use Rattle.rb_text_defs.specs.declared.script.BadLine.{BadLine};
ghost use Rattle.rb_text_defs.specs.declared.script.Script.{Script};
ghost use Rattle.rb_text_defs.specs.Script.{script_of};
ghost use Rattle.rb_top.specs.Program.{are_run, are_read, IsNotEmpty, IsBadLog, IsDiskFault, IsBeforeRun, IsRunFault, IsReadingEnd, IsReadingFault, HasRun, HasStopped, IsUntouched};
ghost use Rattle.rb_pair.specs.Held.{AreEmpty, IsFirstHeld};
ghost use Rattle.rb_top.specs.ReadLog.{most_log_bytes, bad_event_of, HasReadLog, HasMetBadEvent, HasReadPrefix};

use crate::fault::ReadLogFault;
use crate::read::read_log;
use crate::run::run;
use crate::status::Status;
use crate::words::{are_read_words, are_run_words};
use rb_base::{Bytes, Field, OutFault, SiteId};
use rb_disk::LogDisk;
use rb_io::{ReadAllFault, Sink, Source, read_all, write_all};
use rb_pair::{HeldFile, PairFault, first_held};
use rb_script::{Limit, MOST_SCRIPT_BYTES, ParseFault, ScriptKind, parse};
use std::alloc::Global;
use std::thread::Threads;

/// Runs the program.
///
/// The one word `run` requires empty devices. It reads a script from the source, runs it over site
/// A, and writes the report to the sink. Site A's device then holds its log: the index in file 0,
/// the binlog in the files from 1 on.
///
/// The one word `read` reads a log from the source and writes its text to the sink. It changes no
/// device.
pub fn top<R: Threads + Sync, I: Source, O: Sink, D: LogDisk>(
    rt: &R,
    alloc: Global,
    words: &[Bytes],
    script: &mut I,
    out: &mut O,
    disk_a: &mut D,
    disk_b: &mut D,
) -> Status
    // The headline. At `Done` the script was read to its end and the sink grew by its report. Site
    // A's device holds exactly the log of the epochs that its injector took and that have something
    // to log: the binlog files and the index.
    ensures run_meets_headline { are_run words.now ≡ true → result ≡ Status.Done →
        HasRun (I.left script.old) (I.left script.new) (O.held out.old) (O.held out.new)
        (D.seen disk_a.new) }
    ensures site_b_is_untouched { disk_b.new ≡ disk_b.old }

    // A legal script over empty devices is run, unless memory runs out or an object fails.
    ensures a_legal_script_is_run { (bytes : List ℕ) (legal : Script) → are_run words.now ≡ true →
        AreEmpty (D.seen disk_a.old) (D.seen disk_b.old) →
        I.left script.old ≡ Some bytes →
        script_of bytes ≡ Ok legal →
        (Rose (I.fault_count script.old) (I.fault_count script.new) → ⊥) →
        (Rose (O.fault_count out.old) (O.fault_count out.new) → ⊥) →
        (Rose (D.fault_count disk_a.old) (D.fault_count disk_a.new) → ⊥) →
        (result ≡ Status.Done) ⊎ (result ≡ Status.NoMemory) }

    // The same for a log. At `Done` it was read to its end and is sound, and the sink grew by its
    // text.
    ensures reading_meets_its_text { are_read words.now ≡ true → result ≡ Status.Done →
        HasReadLog most_log_bytes (I.left script.old) (I.left script.new) (O.held out.old)
        (O.held out.new) }
    ensures reading_touches_no_device { are_read words.now ≡ true → disk_a.new ≡ disk_a.old }

    // A sound log is read, unless memory runs out or an object fails.
    ensures a_sound_log_is_read { (bytes : List ℕ) → are_read words.now ≡ true →
        I.left script.old ≡ Some bytes →
        bad_event_of bytes ≡ None →
        (Rose (I.fault_count script.old) (I.fault_count script.new) → ⊥) →
        (Rose (O.fault_count out.old) (O.fault_count out.new) → ⊥) →
        (result ≡ Status.Done) ⊎ (result ≡ Status.NoMemory) }

    // When each other status comes.
    ensures usage_exactly { (result ≡ Status.Usage) ↔ ((are_run words.now ≡ false)
        × (are_read words.now ≡ false)) }
    ensures not_empty_names_the_first_file { (site : SiteId) (file size : ℕ) →
        result ≡ Status.NotEmpty site file size →
        (are_run words.now ≡ true) × IsFirstHeld site file size (D.seen disk_a.old)
        (D.seen disk_b.old) }
    ensures a_device_that_is_not_empty_is_refused { (site : SiteId) (file size : ℕ) →
        are_run words.now ≡ true →
        IsFirstHeld site file size (D.seen disk_a.old) (D.seen disk_b.old) →
        result ≡ Status.NotEmpty site file size }
    ensures bad_script_names_the_first_bad_line { (line : ℕ) (kind : ScriptKind) →
        result ≡ Status.BadScript line kind →
        IfSome (I.left script.old) (λ bytes. script_of bytes
        ≡ Err (record { line = line; kind = kind })) }
    ensures a_bad_script_is_refused { (bytes : List ℕ) (bad : BadLine) → are_run words.now ≡ true →
        AreEmpty (D.seen disk_a.old) (D.seen disk_b.old) →
        I.left script.old ≡ Some bytes →
        script_of bytes ≡ Err bad →
        (result ≡ Status.BadScript bad.line bad.kind) ⊎ (result ≡ Status.ReadFault)
        ⊎ (result ≡ Status.NoMemory) }
    ensures bad_log_names_the_first_bad_event { (position : ℕ) (field : Field) →
        result ≡ Status.BadLog position field →
        IfSome (I.left script.old) (λ bytes. bad_event_of bytes ≡ Some (position, field)) }
    ensures a_bad_log_is_refused { (bytes : List ℕ) (position : ℕ) (field : Field) →
        are_read words.now ≡ true → I.left script.old ≡ Some bytes →
        bad_event_of bytes ≡ Some (position, field) →
        (result ≡ Status.BadLog position field) ⊎ (result ≡ Status.ReadFault)
        ⊎ (result ≡ Status.WriteFault) ⊎ (result ≡ Status.NoMemory) }
    ensures a_run_meets_no_bad_log { are_run words.now ≡ true → IsBadLog result → ⊥ }
    ensures a_reading_has_these_statuses { are_read words.now ≡ true → IsReadingEnd result }
    ensures read_fault_has_cause { result ≡ Status.ReadFault →
        Rose (I.fault_count script.old) (I.fault_count script.new) }
    ensures write_fault_has_cause { result ≡ Status.WriteFault →
        Rose (O.fault_count out.old) (O.fault_count out.new) }
    ensures disk_fault_has_cause { IsDiskFault result →
        Rose (D.fault_count disk_a.old) (D.fault_count disk_a.new) }
    ensures disk_fault_names_site_a { IsDiskFault result → result ≡ Status.DiskFault SiteId.A }

    // What each other status leaves.
    ensures usage_touches_nothing { result ≡ Status.Usage → (script.new ≡ script.old)
        × (out.new ≡ out.old) × (disk_a.new ≡ disk_a.old) }
    ensures not_empty_touches_nothing { IsNotEmpty result → (script.new ≡ script.old)
        × (out.new ≡ out.old) × (disk_a.new ≡ disk_a.old) }
    ensures no_run_touches_no_output { are_run words.now ≡ true → IsBeforeRun result →
        (out.new ≡ out.old) × (disk_a.new ≡ disk_a.old) }
    ensures a_fault_leaves_an_unfinished_log { are_run words.now ≡ true → IsRunFault result →
        HasStopped (I.left script.old) (I.left script.new) (O.held out.old) (O.held out.new)
        (D.seen disk_a.new) result }
    ensures no_memory_leaves_an_unfinished_log { are_run words.now ≡ true →
        result ≡ Status.NoMemory →
        IsUntouched (O.held out.old) (O.held out.new) (D.seen disk_a.old) (D.seen disk_a.new)
        ⊎ HasStopped (I.left script.old) (I.left script.new) (O.held out.old) (O.held out.new)
        (D.seen disk_a.new) result }
    ensures a_bad_log_is_printed_up_to_it { (position : ℕ) (field : Field) →
        result ≡ Status.BadLog position field →
        HasMetBadEvent most_log_bytes position field (I.left script.old) (I.left script.new)
        (O.held out.old) (O.held out.new) }
    ensures a_stopped_reading_leaves_a_prefix { are_read words.now ≡ true → IsReadingFault result →
        HasReadPrefix most_log_bytes (I.left script.old) (I.left script.new) (O.held out.old)
        (O.held out.new) }
{
    if are_run_words(words) {
        if let Some(HeldFile { site, file, length }) = first_held(disk_a, disk_b) {
            return Status::NotEmpty { site, file, length };
        }
        return run_script(rt, alloc, script, out, disk_a, disk_b);
    }
    if are_read_words(words) {
        return print_log(alloc, script, out);
    }
    Status::Usage
}

// The word `run`.
fn run_script<R: Threads + Sync, I: Source, O: Sink, D: LogDisk>(
    rt: &R,
    alloc: Global,
    script: &mut I,
    out: &mut O,
    disk_a: &mut D,
    disk_b: &mut D,
) -> Status
    requires empty { AreEmpty (D.seen disk_a.old) (D.seen disk_b.old) }
    ensures other_device { disk_b.new ≡ disk_b.old }
    ensures run_meets_headline { result ≡ Status.Done →
        HasRun (I.left script.old) (I.left script.new) (O.held out.old) (O.held out.new)
        (D.seen disk_a.new) }
    ensures a_legal_script_is_run { (bytes : List ℕ) (legal : Script) →
        I.left script.old ≡ Some bytes →
        script_of bytes ≡ Ok legal →
        (Rose (I.fault_count script.old) (I.fault_count script.new) → ⊥) →
        (Rose (O.fault_count out.old) (O.fault_count out.new) → ⊥) →
        (Rose (D.fault_count disk_a.old) (D.fault_count disk_a.new) → ⊥) →
        (result ≡ Status.Done) ⊎ (result ≡ Status.NoMemory) }
    ensures no_usage { result ≡ Status.Usage → ⊥ }
    ensures no_held_file { IsNotEmpty result → ⊥ }
    ensures no_bad_log { IsBadLog result → ⊥ }
    ensures bad_script_names_the_first_bad_line { (line : ℕ) (kind : ScriptKind) →
        result ≡ Status.BadScript line kind →
        IfSome (I.left script.old) (λ bytes. script_of bytes
        ≡ Err (record { line = line; kind = kind })) }
    ensures a_bad_script_is_refused { (bytes : List ℕ) (bad : BadLine) →
        I.left script.old ≡ Some bytes →
        script_of bytes ≡ Err bad →
        (result ≡ Status.BadScript bad.line bad.kind) ⊎ (result ≡ Status.ReadFault)
        ⊎ (result ≡ Status.NoMemory) }
    ensures read_fault_has_cause { result ≡ Status.ReadFault →
        Rose (I.fault_count script.old) (I.fault_count script.new) }
    ensures write_fault_has_cause { result ≡ Status.WriteFault →
        Rose (O.fault_count out.old) (O.fault_count out.new) }
    ensures disk_fault_has_cause { IsDiskFault result →
        Rose (D.fault_count disk_a.old) (D.fault_count disk_a.new) }
    ensures disk_fault_names_site_a { IsDiskFault result → result ≡ Status.DiskFault SiteId.A }
    ensures no_run_touches_no_output { IsBeforeRun result → (out.new ≡ out.old)
        × (disk_a.new ≡ disk_a.old) }
    ensures a_fault_leaves_an_unfinished_log { IsRunFault result →
        HasStopped (I.left script.old) (I.left script.new) (O.held out.old) (O.held out.new)
        (D.seen disk_a.new) result }
    ensures no_memory_leaves_an_unfinished_log { result ≡ Status.NoMemory →
        IsUntouched (O.held out.old) (O.held out.new) (D.seen disk_a.old) (D.seen disk_a.new)
        ⊎ HasStopped (I.left script.old) (I.left script.new) (O.held out.old) (O.held out.new)
        (D.seen disk_a.new) result }
{
    let bytes = match read_all(alloc, script, MOST_SCRIPT_BYTES) {
        Ok(bytes) => bytes,
        Err(ReadAllFault::TooLong) => {
            return Status::BadScript {
                line: 0,
                kind: ScriptKind::Limit(Limit::Bytes),
            };
        }
        Err(ReadAllFault::Failed) => return Status::ReadFault,
        Err(ReadAllFault::NoMemory) => return Status::NoMemory,
    };
    let parsed = match parse(alloc, bytes.as_slice()) {
        Ok(parsed) => parsed,
        Err(ParseFault::Bad { line, kind }) => return Status::BadScript { line, kind },
        Err(ParseFault::NoMemory) => return Status::NoMemory,
    };
    let report = match run(rt, alloc, parsed, disk_a, disk_b) {
        Ok(report) => report,
        Err(PairFault::DiskFault(site)) => return Status::DiskFault { site },
        Err(PairFault::NoMemory) => return Status::NoMemory,
        Err(PairFault::NotEmpty { .. }) => unreachable!(),
    };
    match write_all(out, report.as_slice()) {
        Ok(()) => Status::Done,
        Err(OutFault::Failed) => Status::WriteFault,
        Err(OutFault::NoMemory) => Status::NoMemory,
    }
}

// The word `read`.
fn print_log<I: Source, O: Sink>(alloc: Global, source: &mut I, out: &mut O) -> Status
    ensures reading_meets_its_text { result ≡ Status.Done →
        HasReadLog most_log_bytes (I.left source.old) (I.left source.new) (O.held out.old)
        (O.held out.new) }
    ensures a_sound_log_is_read { (bytes : List ℕ) → I.left source.old ≡ Some bytes →
        bad_event_of bytes ≡ None →
        (Rose (I.fault_count source.old) (I.fault_count source.new) → ⊥) →
        (Rose (O.fault_count out.old) (O.fault_count out.new) → ⊥) →
        (result ≡ Status.Done) ⊎ (result ≡ Status.NoMemory) }
    ensures bad_log_names_the_first_bad_event { (position : ℕ) (field : Field) →
        result ≡ Status.BadLog position field →
        IfSome (I.left source.old) (λ bytes. bad_event_of bytes ≡ Some (position, field)) }
    ensures a_bad_log_is_refused { (bytes : List ℕ) (position : ℕ) (field : Field) →
        I.left source.old ≡ Some bytes →
        bad_event_of bytes ≡ Some (position, field) →
        (result ≡ Status.BadLog position field) ⊎ (result ≡ Status.ReadFault)
        ⊎ (result ≡ Status.WriteFault) ⊎ (result ≡ Status.NoMemory) }
    ensures ends_so { IsReadingEnd result }
    ensures read_fault_has_cause { result ≡ Status.ReadFault →
        Rose (I.fault_count source.old) (I.fault_count source.new) }
    ensures write_fault_has_cause { result ≡ Status.WriteFault →
        Rose (O.fault_count out.old) (O.fault_count out.new) }
    ensures a_bad_log_is_printed_up_to_it { (position : ℕ) (field : Field) →
        result ≡ Status.BadLog position field →
        HasMetBadEvent most_log_bytes position field (I.left source.old) (I.left source.new)
        (O.held out.old) (O.held out.new) }
    ensures a_stopped_reading_leaves_a_prefix { IsReadingFault result →
        HasReadPrefix most_log_bytes (I.left source.old) (I.left source.new) (O.held out.old)
        (O.held out.new) }
{
    match read_log(alloc, source, out) {
        Ok(()) => Status::Done,
        Err(ReadLogFault::BadLog { position, field }) => Status::BadLog { position, field },
        Err(ReadLogFault::ReadFault) => Status::ReadFault,
        Err(ReadLogFault::WriteFault) => Status::WriteFault,
        Err(ReadLogFault::NoMemory) => Status::NoMemory,
    }
}
