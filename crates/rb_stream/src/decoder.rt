ghost use Rattle.std.specs.Prelude.{◌≡◌, ℕ, ◌≤◌, ◌<◌, ◌+◌, ◌^◌, List, ◌∷◌, length, not, if◌then◌else◌};
ghost use Rattle.rb_read_defs.specs.Stream.{Known, is_rotated};
ghost use Rattle.rb_stream.specs.Fault.{fault_at};

use crate::content::read_content;
use crate::epoch::OpenEpoch;
use crate::fault::StreamFault;
use crate::order::order_fault;
use crate::taking::take_content;
use crate::unread::Unread;
use rb_base::{CodecFault, Field, NoMemory};
use rb_codec::{HEADER_SIZE, MAGIC, read_header};
use rb_read_defs::{Content, Header, Step};
use std::alloc::Global;

/// A decoder of a binary log whose bytes come in pieces.
#[derive(Drop)]
pub struct Decoder {
    alloc: Global,
    /// The bytes that are not decoded yet.
    unread: Unread,
    /// The position of these bytes in the file.
    at: u64,
    /// Whether the magic number comes next.
    magic_due: bool,
    /// Whether the last decoded event is a rotation.
    rotated: bool,
    /// The open epoch, if one is open.
    current: Option<OpenEpoch>,
    /// The end of the last decoded event after which no epoch is open.
    counted: u64,
    /// The value of `counted` when `next` last returned anything but `NoMemory`.
    settled: u64,
    ghost fits: { at + length unread < 2 ^ 64 },
    ghost counted_after: { counted ≤ at },
    ghost settled_after: { settled ≤ at },
}

impl Decoder {
    ghost use Rattle.std.specs.Prelude.{◌++◌, [], OnOk, OnErr, IfOk, IfSome, true, false};
    ghost use Rattle.rb_read_defs.specs.Stream.{rest_after};
    ghost use Rattle.rb_stream.specs.Content.{MapsColumns};
    ghost use Rattle.rb_stream.specs.Decoder.{StandsFor, Answers, fed_to};
    ghost use Rattle.rb_stream.specs.Next.{Knows, StandsAt, IsAheadOf, AnswersAhead, PassesMagic, Meets, MeetsHeader, GoesPast};

    /// Creates a decoder that starts at `position` of a file, in bytes, and has no bytes yet. At
    /// position 0 the magic number of the file comes first. At position 4 the first event is a
    /// format description.
    pub fn new(alloc: Global, position: u64) -> Decoder
        ensures { StandsFor result position [] [] }
    {
        Decoder {
            alloc,
            unread: Unread::new(alloc),
            at: position,
            magic_due: position == 0,
            rotated: false,
            current: None,
            counted: position,
            settled: position,
        }
    }

    /// Appends the next piece of the log. If memory allocation fails, the decoder is unchanged.
    pub fn feed(&mut self, piece: &[u8]) -> Result<(), NoMemory>
        requires fits { fed_to self.old + length piece.now < 2 ^ 64 }
        ensures ok { OnOk result ((position : ℕ) (bytes : List ℕ) (passed : List Known) →
            StandsFor self.old position bytes passed →
            StandsFor self.new position (bytes ++ piece.now) passed) }
        ensures err { OnErr result ((position : ℕ) (bytes : List ℕ) (passed : List Known) →
            StandsFor self.old position bytes passed → StandsFor self.new position bytes passed) }
    {
        self.unread.push(self.alloc, piece)
    }

    /// Decodes events until one of them gives a step, and returns the step.
    ///
    /// Returns `NeedMore` if the remaining bytes end before the magic number, the next header or
    /// the next event does. Returns `BadEvent` with the position and the first wrong field of an
    /// event that breaks the grammar. Every later call returns the same fault, since the decoder
    /// stays at that event. Returns `NoMemory` if memory allocation fails; no step is lost, and the
    /// call can be repeated.
    pub fn next(&mut self) -> Result<Step, StreamFault>
        ensures { (position : ℕ) (bytes : List ℕ) (passed : List Known) →
            StandsFor self.old position bytes passed →
            Answers position bytes passed result self.new }
    {
        match self.go_on() {
            Ok(step) => {
                self.settled = self.counted;
                Ok(step)
            }
            Err(StreamFault::BadEvent(at, field)) => {
                self.settled = self.counted;
                Err(StreamFault::BadEvent(at, field))
            }
            Err(StreamFault::NoMemory) => Err(StreamFault::NoMemory),
        }
    }

    /// Returns the number of fed bytes after the last event that leaves no epoch open.
    ///
    /// BEGIN and the events within an epoch leave it open. Events that `next` decodes count when it
    /// returns, except if it returns `NoMemory`. If no event counts yet, this is the number of all
    /// fed bytes.
    pub fn rest(&self) -> u64
        ensures { (position : ℕ) (bytes : List ℕ) (passed : List Known) →
            StandsFor self.now position bytes passed → result ≡ rest_after position bytes passed }
    {
        self.at + self.unread.as_slice().len() as u64 - self.settled
    }

    /// Decodes the magic number if it comes next, and then events up to the first one that gives a
    /// step.
    fn go_on(&mut self) -> Result<Step, StreamFault>
        ensures goes { (position : ℕ) (bytes : List ℕ) (passed : List Known) →
            IsAheadOf self.old position bytes passed →
            AnswersAhead position bytes passed result self.new }
        ensures settled { self.new.settled ≡ self.old.settled }
    {
        if self.magic_due {
            return self.begin();
        }
        self.pass_events()
    }

    /// Decodes the magic number, and then events up to the first one that gives a step.
    fn begin(&mut self) -> Result<Step, StreamFault>
        requires due { self.old.magic_due ≡ true }
        ensures goes { (position : ℕ) (bytes : List ℕ) (passed : List Known) →
            IsAheadOf self.old position bytes passed →
            AnswersAhead position bytes passed result self.new }
        ensures settled { self.new.settled ≡ self.old.settled }
    {
        if !self.pass_magic()? {
            return Ok(Step::NeedMore);
        }
        self.pass_events()
    }

    /// Decodes events up to the first one that gives a step.
    fn pass_events(&mut self) -> Result<Step, StreamFault>
        requires due { self.old.magic_due ≡ false }
        ensures goes { (position : ℕ) (bytes : List ℕ) (passed : List Known) →
            IsAheadOf self.old position bytes passed →
            AnswersAhead position bytes passed result self.new }
        ensures settled { self.new.settled ≡ self.old.settled }
    {
        while let Some((header, content)) = self.next_event()? {
            match self.take(header, content)? {
                Some(step) => return Ok(step),
                None => {}
            }
        }
        Ok(Step::NeedMore)
    }

    /// Skips the magic number. Returns false if it is not complete yet.
    fn pass_magic(&mut self) -> Result<bool, StreamFault>
        requires due { self.old.magic_due ≡ true }
        ensures passed { IfOk result (λ there. there ≡ true → self.new.magic_due ≡ false) }
        ensures passes { (position : ℕ) (bytes : List ℕ) → StandsAt self.old position bytes [] →
            PassesMagic position bytes result self.new }
        ensures settled { self.new.settled ≡ self.old.settled }
    {
        let unread = self.unread.as_slice();
        if unread.len() < MAGIC.len() {
            return Ok(false);
        }
        if &unread[..4] != MAGIC.as_slice() {
            return Err(StreamFault::BadEvent(self.at, Field::Magic));
        }
        self.unread.skip(4);
        self.at += 4;
        self.magic_due = false;
        Ok(true)
    }

    /// Returns the header and the content of the next event, or `None` if it is not complete yet.
    fn next_event(&self) -> Result<Option<(Header, Content)>, StreamFault>
        ensures meets { (known : List Known) → Knows self.now known →
            Meets self.now.at self.now.unread known result }
        ensures columns { IfOk result (λ next. IfSome next (λ event. MapsColumns event.1)) }
        ensures some { IfOk result (λ next. IfSome next (λ event. 19 ≤ event.0.size)) }
        ensures whole { IfOk result (λ next.
            IfSome next (λ event. event.0.size ≤ length self.now.unread)) }
    {
        let Some(header) = self.next_header()? else {
            return Ok(None);
        };
        let unread = self.unread.as_slice();
        if unread.len() < header.size as usize {
            return Ok(None);
        }
        let payload = &unread[..header.size as usize][HEADER_SIZE..];
        match read_content(self.alloc, &self.current, self.at, header, payload) {
            Ok(content) => Ok(Some((header, content))),
            Err(fault) => Err(fault_at(self.at, fault)),
        }
    }

    /// Returns the header of the next event, or `None` if it is not complete yet.
    fn next_header(&self) -> Result<Option<Header>, StreamFault>
        ensures meets { (known : List Known) → Knows self.now known →
            MeetsHeader self.now.at self.now.unread known result }
        ensures some { IfOk result (λ next. IfSome next (λ head. 19 ≤ head.size)) }
    {
        let unread = self.unread.as_slice();
        if unread.len() < HEADER_SIZE {
            return Ok(None);
        }
        match read_header(unread, self.at) {
            Ok(header) => match order_fault(self.rotated, self.current.is_some(), self.at, header) {
                Some(field) => Err(StreamFault::BadEvent(self.at, field)),
                None => Ok(Some(header)),
            },
            Err(CodecFault::Short(_)) => Ok(None),
            Err(CodecFault::BadField(_, field)) => Err(StreamFault::BadEvent(self.at, field)),
            Err(CodecFault::NoMemory) => Err(StreamFault::NoMemory),
        }
    }

    /// Takes the next event, which has this header and content, and returns its step if it gives
    /// one.
    fn take(&mut self, header: Header, content: Content) -> Result<Option<Step>, StreamFault>
        requires columns { MapsColumns content }
        requires some { 19 ≤ header.size }
        requires whole { header.size ≤ length self.old.unread }
        ensures goes { (known : List Known) → Knows self.old known →
            GoesPast known header content result self.old self.new }
        ensures settled { self.new.settled ≡ self.old.settled }
        ensures due { self.new.magic_due ≡ self.old.magic_due }
        ensures shorter { OnOk result (length self.new.unread < length self.old.unread) }
    {
        let end = self.at + u64::from(header.size);
        let rotates = rotates(&content);
        let step = take_content(
            self.alloc,
            &mut self.current,
            self.at,
            end,
            header.server,
            content,
        )?;
        self.rotated = rotates;
        self.unread.skip(header.size as usize);
        self.at = end;
        self.counted = counted_after(self.current.is_some(), end, self.counted);
        Ok(step)
    }
}

/// Returns whether an event with this content is a rotation.
fn rotates(content: &Content) -> bool
    ensures { (end server : ℕ) (known : List Known) →
        result ≡ is_rotated (record { end = end; server = server; says = content.now } ∷ known) }
{
    matches!(content, Content::Rotates(_))
}

/// Returns the new `counted` after an event that ends at `end`: `end` itself if no epoch is open
/// after the event, and otherwise the old value.
fn counted_after(is_inside: bool, end: u64, counted: u64) -> u64
    ensures { result ≡ (if not is_inside then end else counted) }
{
    if is_inside { counted } else { end }
}

/// Returns the fault of the event at this position, given the fault of reading a part of it.
fn fault_at(at: u64, fault: CodecFault) -> StreamFault
    ensures { result ≡ fault_at at fault }
{
    match fault {
        CodecFault::Short(_) => StreamFault::BadEvent(at, Field::EventSize),
        CodecFault::BadField(_, field) => StreamFault::BadEvent(at, field),
        CodecFault::NoMemory => StreamFault::NoMemory,
    }
}
