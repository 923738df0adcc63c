ghost use Rattle.std.specs.Prelude.{◌≡◌, ◌+◌, ◌<◌, ◌≤◌, ◌==◌, ◌&&◌, ℕ, if◌then◌else◌, length, IfOk, OnOk, OnErr, Option, Some, None, is_none, is_some};
ghost use Rattle.std.specs.Option.{option_or};

use crate::gathered::Gathered;
use rb_base::{Change, Items, NoMemory, Part, Parts};
use rb_message_defs::Missing;
use std::alloc::Global;

/// What was received of one epoch.
#[derive(Drop)]
pub struct GatheredEpoch {
    // What was received, by bucket.
    buckets: Vec<Gathered>,
    // One empty part for each bucket, so that taking the epoch allocates nothing.
    parts: Vec<Part>,
}

impl GatheredEpoch {
    ghost use Rattle.rb_evbuf.specs.Gathered.{missing_under};
    ghost use Rattle.rb_evbuf.specs.Epoch.{place_at, count_at, IsSound, missing_in, parts_in};

    /// Returns the state of an epoch of `buckets` buckets of which nothing was received.
    pub fn new(alloc: Global, buckets: u32) -> Result<Self, NoMemory>
        ensures sound { IfOk result (λ epoch. IsSound epoch buckets) }
        ensures places { IfOk result (λ epoch. (bucket place : ℕ) →
            place_at epoch bucket place ≡ None) }
        ensures counts { IfOk result (λ epoch. (bucket : ℕ) → count_at epoch bucket ≡ None) }
    {
        let mut gathered = Vec::new(alloc);
        let mut parts = Vec::new(alloc);
        for bucket in 0..buckets {
            gathered.push(Gathered::new(alloc))?;
            parts.push(Items::new(alloc))?;
        }
        Ok(GatheredEpoch {
            buckets: gathered,
            parts,
        })
    }

    /// Keeps a change of a bucket. Returns whether it is the first for its place.
    pub fn add(&mut self, bucket: u32, place: u32, change: Change) -> Result<bool, NoMemory>
        ensures first { IfOk result (λ first. bucket < length self.old.buckets.items →
            first ≡ is_none (place_at self.old bucket place)) }
        ensures kept { OnOk result (bucket < length self.old.buckets.items →
            (b p : ℕ) → place_at self.new b p
            ≡ option_or (place_at self.old b p)
            (if (bucket == b) && (place == p) then Some change else None)) }
        ensures memory { OnErr result ((b p : ℕ) → place_at self.new b p ≡ place_at self.old b p) }
        ensures counts { (b : ℕ) → count_at self.new b ≡ count_at self.old b }
        ensures sound { (buckets : ℕ) → IsSound self.old buckets → IsSound self.new buckets }
    {
        match self.buckets.get_mut(bucket as usize) {
            Some(gathered) => gathered.add(place, change),
            None => Ok(false),
        }
    }

    /// Keeps the count of a bucket. Returns whether it is the first.
    pub fn note_done(&mut self, bucket: u32, count: u32) -> bool
        ensures first { bucket < length self.old.buckets.items →
            result ≡ is_none (count_at self.old bucket) }
        ensures kept { bucket < length self.old.buckets.items → (b : ℕ) →
            count_at self.new b ≡ option_or (count_at self.old b)
            (if bucket == b then Some count else None) }
        ensures places { (b p : ℕ) → place_at self.new b p ≡ place_at self.old b p }
        ensures sound { (buckets : ℕ) → IsSound self.old buckets → IsSound self.new buckets }
    {
        match self.buckets.get_mut(bucket as usize) {
            Some(gathered) => gathered.note_done(count),
            None => false,
        }
    }

    /// Returns the first thing that is missing, the lowest bucket's first.
    pub fn missing(&self, buckets: u32) -> Option<Missing>
        ensures { IsSound self.now buckets → result ≡ missing_in self.now buckets }
    {
        for bucket in 0..buckets {
            let missing = self.missing_of(bucket);
            if missing.is_some() {
                return missing;
            }
        }
        None
    }

    // Returns the first thing that is missing of a bucket.
    fn missing_of(&self, bucket: u32) -> Option<Missing>
        ensures { (buckets : ℕ) → IsSound self.now buckets → bucket < buckets →
            result ≡ missing_under bucket (place_at self.now bucket) (count_at self.now bucket) }
    {
        match self.buckets.get(bucket as usize) {
            Some(gathered) => gathered.missing(bucket),
            None => None,
        }
    }

    /// Returns the parts of an epoch that is whole. Allocates nothing.
    pub fn into_parts(self) -> Parts
        ensures { (buckets : ℕ) → IsSound self buckets → missing_in self buckets ≡ None →
            result ≡ parts_in self buckets }
    {
        let mut gathered = self.buckets;
        let mut parts = self.parts;
        while let Some(last) = gathered.pop() {
            if let Some(part) = parts.get_mut(gathered.len()) {
                *part = last.into_part();
            }
        }
        Items::from_vec(parts)
    }
}
