ghost use Rattle.std.specs.Prelude.{◌≡◌, ◌<◌, ◌≤◌, ◌==◌, ◌&&◌, ℕ, if◌then◌else◌, [], ◌∷◌, IfOk, OnOk, OnErr, IsSome, Option, Some, None, is_none, nat_le};
ghost use Rattle.std.specs.Option.{option_or, option_and_then, option_copied};
ghost use Rattle.std.specs.Ordering.{nat_cmp};
ghost use Rattle.std.specs.BTreeMap as tree;
ghost use Rattle.rb_base.specs.declared.message.Message.TheVariants.{Part, Done};
ghost use Rattle.rb_message_defs.specs.Message.{bucket_in};
ghost use Rattle.rb_message_defs.specs.Received.{Fed, AreChained, answer_to, assembled_of, taken_from, missing_of};
ghost use Rattle.rb_message_defs.specs.declared.answers.Received.TheVariants as answers;

use crate::epoch::GatheredEpoch;
use rb_base::{Change, Epoch, Message, NoMemory};
use rb_message_defs::{Assembled, Missing, Received};
use std::alloc::Global;
use std::collections::BTreeMap;

/// The event buffer of the injector.
#[derive(Drop)]
pub struct EventBuffer {
    alloc: Global,
    buckets: u32,
    last: Epoch,
    // The epoch after each epoch, as a Done named it, from the last taken one on.
    following: BTreeMap<u64, Epoch>,
    // What was received of each epoch after the last taken one.
    epochs: BTreeMap<u64, GatheredEpoch>,
}

// Returns what a message of an epoch that was not taken is: `Kept` if it is the first for its
// place, otherwise `Known`.
fn kept_or_known(first: bool) -> Received
    ensures { result ≡ (if first then answers.Kept else answers.Known) }
{
    if first {
        Received::Kept
    } else {
        Received::Known
    }
}

impl EventBuffer {
    ghost use Rattle.rb_evbuf.specs.Buffer.{StandsFor, buckets_of, last_of, place_of, count_of, following_of, AreSound};

    /// Returns an event buffer for `buckets` buckets that received nothing. `last` counts as the
    /// last taken epoch.
    pub fn new(alloc: Global, buckets: u32, last: Epoch) -> Result<EventBuffer, NoMemory>
        ensures stands { IfOk result (λ buffer.
            StandsFor buffer (record { buckets = buckets; last = last.0; received = [] })) }
        ensures buckets { IfOk result (λ buffer. buckets_of buffer ≡ buckets) }
    {
        Ok(EventBuffer {
            alloc,
            buckets,
            last,
            following: BTreeMap::new(alloc),
            epochs: BTreeMap::new(alloc),
        })
    }

    /// Receives a message, and returns what it is to the buffer. If memory allocation fails,
    /// nothing is received.
    pub fn receive(&mut self, message: Message) -> Result<Received, NoMemory>
        requires bucket { bucket_in message < buckets_of self.old }
        ensures answer { IfOk result (λ answer. (fed : Fed) → StandsFor self.old fed →
            answer ≡ answer_to fed message) }
        ensures kept { OnOk result ((fed : Fed) → StandsFor self.old fed →
            StandsFor self.new (record fed { received = message ∷ fed.received })) }
        ensures memory { OnErr result ((fed : Fed) → StandsFor self.old fed →
            StandsFor self.new fed) }
        ensures buckets { buckets_of self.new ≡ buckets_of self.old }
    {
        match message {
            Message::Part {
                bucket,
                epoch,
                place,
                change,
            } => self.receive_part(bucket, epoch, place, change),
            Message::Done {
                bucket,
                epoch,
                prev,
                count,
            } => self.receive_done(bucket, epoch, prev, count),
        }
    }

    /// Takes the next epoch, if it is whole. Allocates nothing. The contract speaks of chained
    /// messages (`AreChained`), as those of one journal are.
    pub fn take_epoch(&mut self) -> Option<Assembled>
        ensures answer { (fed : Fed) → StandsFor self.old fed → AreChained fed.received →
            result ≡ assembled_of fed }
        ensures taken { (fed : Fed) → StandsFor self.old fed → AreChained fed.received →
            StandsFor self.new (taken_from fed) }
        ensures buckets { buckets_of self.new ≡ buckets_of self.old }
    {
        if self.missing().is_some() {
            return None;
        }
        let epoch = self.following.remove(&self.last.0)?;
        let gathered = self.epochs.remove(&epoch.0)?;
        let prev = self.last;
        self.last = epoch;
        Some(Assembled {
            epoch,
            prev,
            parts: gathered.into_parts(),
        })
    }

    /// Returns the first thing that is missing of the next epoch; `None` if it is whole. Allocates
    /// nothing. The contract speaks of chained messages (`AreChained`).
    pub fn missing(&self) -> Option<Missing>
        ensures { (fed : Fed) → StandsFor self.now fed → AreChained fed.received →
            result ≡ missing_of fed }
    {
        match self.next_gathered() {
            Some(gathered) => gathered.missing(self.buckets),
            None => Some(Missing {
                bucket: 0,
                place: None,
            }),
        }
    }

    /// Returns the last taken epoch, or the one with which the buffer began.
    pub fn last(&self) -> Epoch
        ensures { result.0 ≡ last_of self.now }
    {
        self.last
    }

    // Returns what was received of the next epoch, if the epoch is known and something was
    // received.
    fn next_gathered(&self) -> Option<&GatheredEpoch>
        ensures { option_copied result
            ≡ option_and_then (tree.get nat_cmp self.now.epochs)
            (following_of self.now self.now.last.0) }
    {
        match self.following.get(&self.last.0) {
            Some(next) => self.epochs.get(&next.0),
            None => None,
        }
    }

    // Returns whether an epoch is at or below the last taken one.
    fn is_taken(&self, epoch: Epoch) -> bool
        ensures { result ≡ nat_le epoch.0 self.now.last.0 }
    {
        epoch.0 <= self.last.0
    }

    // Receives a change.
    fn receive_part(
        &mut self,
        bucket: u32,
        epoch: Epoch,
        place: u32,
        change: Change,
    ) -> Result<Received, NoMemory>
        requires bucket { bucket < self.old.buckets }
        ensures answer { IfOk result (λ answer. (fed : Fed) → StandsFor self.old fed →
            answer ≡ answer_to fed (Part bucket epoch place change)) }
        ensures kept { OnOk result ((fed : Fed) → StandsFor self.old fed →
            StandsFor self.new (record fed
            { received = Part bucket epoch place change ∷ fed.received })) }
        ensures memory { OnErr result ((fed : Fed) → StandsFor self.old fed →
            StandsFor self.new fed) }
        ensures buckets { self.new.buckets ≡ self.old.buckets }
    {
        if self.is_taken(epoch) {
            return Ok(Received::Old);
        }
        self.enter(epoch.0)?;
        let first = self.add(bucket, epoch.0, place, change)?;
        Ok(kept_or_known(first))
    }

    // Receives a Done. Its order of epochs is kept even if the bucket's Done is known.
    fn receive_done(
        &mut self,
        bucket: u32,
        epoch: Epoch,
        prev: Epoch,
        count: u32,
    ) -> Result<Received, NoMemory>
        requires bucket { bucket < self.old.buckets }
        ensures answer { IfOk result (λ answer. (fed : Fed) → StandsFor self.old fed →
            answer ≡ answer_to fed (Done bucket epoch prev count)) }
        ensures kept { OnOk result ((fed : Fed) → StandsFor self.old fed →
            StandsFor self.new (record fed
            { received = Done bucket epoch prev count ∷ fed.received })) }
        ensures memory { OnErr result ((fed : Fed) → StandsFor self.old fed →
            StandsFor self.new fed) }
        ensures buckets { self.new.buckets ≡ self.old.buckets }
    {
        if self.is_taken(epoch) {
            return Ok(Received::Old);
        }
        self.enter(epoch.0)?;
        self.follow(prev, epoch)?;
        let first = self.note_done(bucket, epoch.0, count);
        Ok(kept_or_known(first))
    }

    // Makes room for what is received of an epoch.
    fn enter(&mut self, epoch: u64) -> Result<(), NoMemory>
        ensures there { OnOk result (IsSome (tree.get nat_cmp self.new.epochs epoch)) }
        ensures places { (e b p : ℕ) → place_of self.new e b p ≡ place_of self.old e b p }
        ensures counts { (e b : ℕ) → count_of self.new e b ≡ count_of self.old e b }
        ensures sound { AreSound self.old → AreSound self.new }
        ensures following { self.new.following ≡ self.old.following }
        ensures last { self.new.last ≡ self.old.last }
        ensures buckets { self.new.buckets ≡ self.old.buckets }
    {
        if !self.epochs.contains_key(&epoch) {
            let gathered = GatheredEpoch::new(self.alloc, self.buckets)?;
            self.epochs.insert(epoch, gathered)?;
        }
        Ok(())
    }

    // Keeps a change of an epoch that has room. Returns whether it is the first for its place.
    fn add(&mut self, bucket: u32, epoch: u64, place: u32, change: Change) -> Result<bool, NoMemory>
        requires there { IsSome (tree.get nat_cmp self.old.epochs epoch) }
        ensures first { IfOk result (λ first. AreSound self.old → bucket < self.old.buckets →
            first ≡ is_none (place_of self.old epoch bucket place)) }
        ensures kept { OnOk result (AreSound self.old → bucket < self.old.buckets → (e b p : ℕ) →
            place_of self.new e b p ≡ option_or (place_of self.old e b p)
            (if (epoch == e) && (bucket == b) && (place == p) then Some change else None)) }
        ensures memory { OnErr result ((e b p : ℕ) →
            place_of self.new e b p ≡ place_of self.old e b p) }
        ensures counts { (e b : ℕ) → count_of self.new e b ≡ count_of self.old e b }
        ensures sound { AreSound self.old → AreSound self.new }
        ensures following { self.new.following ≡ self.old.following }
        ensures last { self.new.last ≡ self.old.last }
        ensures buckets { self.new.buckets ≡ self.old.buckets }
    {
        match self.epochs.get_mut(&epoch) {
            Some(gathered) => {
                let first = gathered.add(bucket, place, change)?;
                Ok(first)
            }
            None => Ok(false),
        }
    }

    // Keeps the count of a bucket in an epoch that has room. Returns whether it is the first.
    fn note_done(&mut self, bucket: u32, epoch: u64, count: u32) -> bool
        requires there { IsSome (tree.get nat_cmp self.old.epochs epoch) }
        ensures first { AreSound self.old → bucket < self.old.buckets →
            result ≡ is_none (count_of self.old epoch bucket) }
        ensures kept { AreSound self.old → bucket < self.old.buckets → (e b : ℕ) →
            count_of self.new e b ≡ option_or (count_of self.old e b)
            (if (epoch == e) && (bucket == b) then Some count else None) }
        ensures places { (e b p : ℕ) → place_of self.new e b p ≡ place_of self.old e b p }
        ensures sound { AreSound self.old → AreSound self.new }
        ensures following { self.new.following ≡ self.old.following }
        ensures last { self.new.last ≡ self.old.last }
        ensures buckets { self.new.buckets ≡ self.old.buckets }
    {
        match self.epochs.get_mut(&epoch) {
            Some(gathered) => gathered.note_done(bucket, count),
            None => false,
        }
    }

    // Keeps which epoch follows another, unless that one was taken already.
    fn follow(&mut self, prev: Epoch, epoch: Epoch) -> Result<(), NoMemory>
        ensures kept { OnOk result ((e : ℕ) → self.old.last.0 ≤ e →
            following_of self.new e ≡
            (if prev.0 == e then Some epoch.0 else following_of self.old e)) }
        ensures memory { OnErr result ((e : ℕ) →
            following_of self.new e ≡ following_of self.old e) }
        ensures epochs { self.new.epochs ≡ self.old.epochs }
        ensures last { self.new.last ≡ self.old.last }
        ensures buckets { self.new.buckets ≡ self.old.buckets }
    {
        if self.last.0 <= prev.0 {
            self.following.insert(prev.0, epoch)?;
        }
        Ok(())
    }
}
