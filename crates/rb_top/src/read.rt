ghost use Rattle.std.specs.Prelude.{◌≡◌, ◌≤◌, ◌<◌, ◌+◌, ◌^◌, ℕ, List, [], ◌++◌, length, take, Option, IfOk, IfErr, IsErrOf, OnOk, OnErr};
ghost use Rattle.std.specs.Io.KnownBytes.{Appends, Consumes, IsAtEnd, Keeps};
ghost use Rattle.rb_base.specs.Faults.{HasCause, Rose};
ghost use Rattle.rb_read_defs.specs.Stream.{Known};
ghost use Rattle.rb_stream.specs.Decoder.{StandsFor};
ghost use Rattle.rb_top.specs.ReadLog.{most_log_bytes, title_line, step_text, HasReadLog};
ghost use Rattle.rb_top.specs.ReadLoop.{LeavesReadingFault, is_taken, IsPrintable, IsFed, HasTakenAll, HasPrintedSoFar};

use crate::fault::ReadLogFault;
use rb_base::{Failed, Field, NoMemory};
use rb_io::{Sink, Source, write_all};
use rb_print::{print_body, print_rest, print_rotation};
use rb_stream::{Decoder, Step, StreamFault};
use std::alloc::Global;

/// The most bytes of a log that are read.
const MOST_LOG_BYTES: u64 = 1073741824;

/// The size of the read buffer, in bytes.
const PIECE: usize = 262144;

/// Reads a log from the source to its end and writes its text. Each piece's steps are printed as
/// soon as the piece is read; the last line follows at the log's end. A bad event ends the reading
/// after the text of everything before it, and so does a log of more than the most bytes.
pub(crate) fn read_log<I: Source, O: Sink>(
    alloc: Global,
    source: &mut I,
    out: &mut O,
) -> Result<(), ReadLogFault>
    ensures ok { OnOk result (HasReadLog most_log_bytes (I.left source.old) (I.left source.new)
        (O.held out.old) (O.held out.new)) }
    ensures err { IfErr result (LeavesReadingFault most_log_bytes (I.left source.old)
        (I.left source.new) (O.held out.old) (O.held out.new)) }
    ensures read_fault { IsErrOf result ReadLogFault.ReadFault →
        Rose (I.fault_count source.old) (I.fault_count source.new) }
    ensures write_fault { IsErrOf result ReadLogFault.WriteFault →
        Rose (O.fault_count out.old) (O.fault_count out.new) }
{
    let mut piece = vec![in alloc; 0u8; PIECE]?;
    write_all(out, b"ndb binlog read\n")?;
    read_by(alloc, &mut piece, source, out, MOST_LOG_BYTES)
}

/// Reads and prints the log after the title, through the buffer `piece`. The log may have at most
/// `most` bytes.
fn read_by<I: Source, O: Sink>(
    alloc: Global,
    piece: &mut [u8],
    source: &mut I,
    out: &mut O,
    most: u64,
) -> Result<(), ReadLogFault>
    requires room { 0 < length piece.old }
    requires few { most < 2 ^ 63 }
    ensures ok { OnOk result ((held_old : Option (List ℕ)) →
        Appends held_old (O.held out.old) title_line →
        HasReadLog most (I.left source.old) (I.left source.new) held_old (O.held out.new)) }
    ensures err { IfErr result (λ fault. (held_old : Option (List ℕ)) →
        Appends held_old (O.held out.old) title_line →
        LeavesReadingFault most (I.left source.old) (I.left source.new) held_old
        (O.held out.new) fault) }
    ensures read_fault { IsErrOf result ReadLogFault.ReadFault →
        Rose (I.fault_count source.old) (I.fault_count source.new) }
    ensures write_fault { IsErrOf result ReadLogFault.WriteFault →
        Rose (O.fault_count out.old) (O.fault_count out.new) }
{
    let mut decoder = Decoder::new(alloc, 0);
    let mut text = Vec::new(alloc);
    let mut read = 0;
    for _ in 0..=most {
        let asked = asked(piece.len(), most - read);
        let count = read_some(source, piece, asked)?;
        if count == 0 {
            return print_end(alloc, &decoder, out);
        }
        if read == most {
            return Err(goes_on(most));
        }
        print_piece(alloc, &mut decoder, &piece[..count], read, &mut text, out)?;
        read += count as u64;
    }
    Err(goes_on(most))
}

/// Returns the fault of a log that continues past the most bytes.
fn goes_on(most: u64) -> ReadLogFault
    ensures { result ≡ ReadLogFault.BadLog most Field.Limit }
{
    ReadLogFault::BadLog {
        position: most,
        field: Field::Limit,
    }
}

/// Returns how many bytes to ask the source for: the size of the buffer or what is left to the
/// limit, whichever is less. At the limit it is 1, to see if the log continues.
fn asked(piece: usize, left: u64) -> usize
    requires { 0 < piece }
    ensures some { 0 < result }
    ensures fits { result ≤ piece }
    ensures within { 0 < left → result ≤ left }
{
    (piece as u64).min(left.max(1)) as usize
}

/// Reads at most `most` bytes into the start of a piece.
fn read_some<I: Source>(source: &mut I, piece: &mut [u8], most: usize) -> Result<usize, Failed>
    requires some { 0 < most }
    requires fits { most ≤ length piece.old }
    ensures bound { IfOk result (λ n. n ≤ most) }
    ensures bytes { IfOk result (λ n.
        Consumes (I.left source.old) (I.left source.new) (take n piece.new)) }
    ensures end { IfOk result (λ n. n ≡ 0 → IsAtEnd (I.left source.new)) }
    ensures kept { OnErr result (Keeps (I.left source.old) (I.left source.new)) }
    ensures length { length piece.new ≡ length piece.old }
    ensures cause { HasCause (I.fault_count source.old) (I.fault_count source.new) result }
{
    source.read(&mut piece[..most])
}

/// Feeds a piece to the decoder, and writes what the piece's steps print. `text` is the buffer in
/// which the lines are made. A bad event is returned after the text before it was written.
fn print_piece<O: Sink>(
    alloc: Global,
    decoder: &mut Decoder,
    piece: &[u8],
    read: u64,
    text: &mut Vec<u8>,
    out: &mut O,
) -> Result<(), ReadLogFault>
    requires fed { IsFed decoder.old read }
    requires fits { read + length piece.now < 2 ^ 64 }
    ensures ok { OnOk result ((most : ℕ) (left_old left left_new held_old : Option (List ℕ)) →
        HasPrintedSoFar most read decoder.old left_old left held_old (O.held out.old) →
        Consumes left left_new piece.now → read + length piece.now ≤ most →
        HasPrintedSoFar most (read + length piece.now) decoder.new left_old left_new held_old
        (O.held out.new)) }
    ensures err { IfErr result (λ fault.
        (most : ℕ) (left_old left left_new held_old : Option (List ℕ)) →
        HasPrintedSoFar most read decoder.old left_old left held_old (O.held out.old) →
        Consumes left left_new piece.now → read + length piece.now ≤ most →
        LeavesReadingFault most left_old left_new held_old (O.held out.new) fault) }
    ensures read_fault { IsErrOf result ReadLogFault.ReadFault → ⊥ }
    ensures write_fault { IsErrOf result ReadLogFault.WriteFault →
        Rose (O.fault_count out.old) (O.fault_count out.new) }
    ensures later { O.fault_count out.old ≤ O.fault_count out.new }
{
    decoder.feed(piece)?;
    text.clear();
    let bad = take_steps(alloc, decoder, read + piece.len() as u64, text)?;
    write_all(out, text)?;
    match bad {
        Some((position, field)) => Err(ReadLogFault::BadLog { position, field }),
        None => Ok(()),
    }
}

/// Writes the last line, at the end of a log that was fed to a decoder.
fn print_end<O: Sink>(alloc: Global, decoder: &Decoder, out: &mut O) -> Result<(), ReadLogFault>
    ensures ok { OnOk result ((most read : ℕ) (left_old left left_new held_old : Option (List ℕ)) →
        HasPrintedSoFar most read decoder.now left_old left held_old (O.held out.old) →
        Consumes left left_new [] → IsAtEnd left_new →
        HasReadLog most left_old left_new held_old (O.held out.new)) }
    ensures err { IfErr result (λ fault.
        (most read : ℕ) (left_old left left_new held_old : Option (List ℕ)) →
        HasPrintedSoFar most read decoder.now left_old left held_old (O.held out.old) →
        Consumes left left_new [] → IsAtEnd left_new →
        LeavesReadingFault most left_old left_new held_old (O.held out.new) fault) }
    ensures read_fault { IsErrOf result ReadLogFault.ReadFault → ⊥ }
    ensures write_fault { IsErrOf result ReadLogFault.WriteFault →
        Rose (O.fault_count out.old) (O.fault_count out.new) }
{
    let line = print_rest(alloc, decoder.rest())?;
    write_all(out, line.as_slice())?;
    Ok(())
}

/// Takes all steps of the bytes that a decoder was fed, and appends what they print. Returns the
/// first bad event, if there is one.
fn take_steps(
    alloc: Global,
    decoder: &mut Decoder,
    fed: u64,
    text: &mut Vec<u8>,
) -> Result<Option<(u64, Field)>, NoMemory>
    requires fed { IsFed decoder.old fed }
    ensures { IfOk result (λ bad. (bytes : List ℕ) (passed : List Known) →
        StandsFor decoder.old 0 bytes passed → length bytes ≡ fed →
        HasTakenAll decoder.new bytes passed text.old.items text.new.items bad) }
{
    for _ in 0..=fed {
        let step = match decoder.next() {
            Ok(step) => step,
            Err(StreamFault::BadEvent(position, field)) => return Ok(Some((position, field))),
            Err(StreamFault::NoMemory) => return Err(NoMemory),
        };
        if !put_step(alloc, text, step)? {
            return Ok(None);
        }
    }
    // The bytes have fewer events than bytes, so the loop has returned before.
    Ok(None)
}

/// Appends what a step prints. Returns `false` for `NeedMore`, which is no step.
#[tactic(auto, unfolding(crate::specs::ReadLog::step_text))]
fn put_step(alloc: Global, text: &mut Vec<u8>, step: Step) -> Result<bool, NoMemory>
    requires printable { IsPrintable step }
    ensures taken { IfOk result (λ taken. taken ≡ is_taken step) }
    ensures text { OnOk result (text.new.items ≡ text.old.items ++ step_text step) }
{
    match step {
        Step::Epoch(body, end) => {
            text.extend_from_slice(print_body(alloc, &body, end)?.as_slice())?;
            Ok(true)
        }
        Step::Rotate(position, name) => {
            let line = print_rotation(alloc, position, name.as_slice())?;
            text.extend_from_slice(line.as_slice())?;
            Ok(true)
        }
        Step::Format => Ok(true),
        Step::NeedMore => Ok(false),
    }
}
