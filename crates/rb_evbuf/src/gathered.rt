ghost use Rattle.std.specs.Prelude.{◌≡◌, ◌+◌, ◌≤◌, ℕ, IfOk, OnOk, OnErr, Option, Some, None, is_none, is_some};
ghost use Rattle.std.specs.Vec.{vec_len, vec_capacity};
ghost use Rattle.std.specs.BTreeMap.{btree_map_len};
ghost use Rattle.std.specs.Option.{option_or};

use rb_base::{Change, Items, NoMemory, Part};
use rb_message_defs::Missing;
use std::alloc::Global;
use std::collections::BTreeMap;

/// What was received of one bucket in one epoch.
#[derive(Drop)]
pub struct Gathered {
    // The changes of the places from 0 on, up to the first gap.
    front: Vec<Change>,
    // The changes of later places, by place. The place of the first gap is not among them.
    ahead: BTreeMap<u64, Change>,
    // The number of places, once the bucket's Done named it.
    count: Option<u32>,
}

impl Gathered {
    ghost use Rattle.rb_evbuf.specs.Gathered.{place_in, with_place, IsGapless, IsBlank, missing_under, part_under};

    /// Returns the state of a bucket of which nothing was received.
    pub fn new(alloc: Global) -> Self
        ensures { IsBlank result }
    {
        Gathered {
            front: Vec::new(alloc),
            ahead: BTreeMap::new(alloc),
            count: None,
        }
    }

    /// Keeps a change. Returns whether it is the first for its place.
    pub fn add(&mut self, place: u32, change: Change) -> Result<bool, NoMemory>
        ensures first { IfOk result (λ first. first ≡ is_none (place_in self.old place)) }
        ensures kept { OnOk result ((other : ℕ) →
            place_in self.new other ≡ with_place place change (place_in self.old) other) }
        ensures memory { OnErr result ((other : ℕ) →
            place_in self.new other ≡ place_in self.old other) }
        ensures gapless { IsGapless self.old → IsGapless self.new }
        ensures count { self.new.count ≡ self.old.count }
    {
        if self.has(place) {
            return Ok(false);
        }
        // All room is reserved first, so that a move from `ahead` never allocates.
        self.front.reserve(self.ahead.len() + 1)?;
        let place = u64::from(place);
        if place == self.front.len() as u64 {
            self.front.push(change)?;
            self.close_gap()?;
        } else {
            self.ahead.insert(place, change)?;
        }
        Ok(true)
    }

    /// Keeps the count. Returns whether it is the first.
    pub fn note_done(&mut self, count: u32) -> bool
        ensures first { result ≡ is_none self.old.count }
        ensures kept { self.new.count ≡ option_or self.old.count (Some count) }
        ensures places { (place : ℕ) → place_in self.new place ≡ place_in self.old place }
        ensures gapless { IsGapless self.old → IsGapless self.new }
    {
        if self.count.is_some() {
            return false;
        }
        self.count = Some(count);
        true
    }

    /// Returns the first thing that is missing, as that of the bucket with this number.
    pub fn missing(&self, bucket: u32) -> Option<Missing>
        ensures { IsGapless self.now →
            result ≡ missing_under bucket (place_in self.now) self.now.count }
    {
        match self.count {
            None => Some(Missing {
                bucket,
                place: None,
            }),
            Some(count) => {
                let places = self.front.len();
                if places < count as usize {
                    Some(Missing {
                        bucket,
                        place: Some(places as u32),
                    })
                } else {
                    None
                }
            }
        }
    }

    /// Returns the part of a bucket that is whole.
    pub fn into_part(self) -> Part
        ensures { IsGapless self → missing_under 0 (place_in self) self.count ≡ None →
            result ≡ part_under (place_in self) self.count }
    {
        let mut part = self.front;
        part.truncate(self.count.unwrap_or(0) as usize);
        Items::from_vec(part)
    }

    // Returns whether the change of a place was received.
    fn has(&self, place: u32) -> bool
        ensures { result ≡ is_some (place_in self.now place) }
    {
        (place as usize) < self.front.len() || self.ahead.contains_key(&u64::from(place))
    }

    // Moves the changes that follow the first gap's end into `front`. Allocates nothing if `front`
    // has room for all that is ahead.
    fn close_gap(&mut self) -> Result<(), NoMemory>
        requires room { vec_len self.old.front + btree_map_len self.old.ahead ≤ vec_capacity
            self.old.front }
        ensures never { OnErr result ⊥ }
        ensures same { (other : ℕ) → place_in self.new other ≡ place_in self.old other }
        ensures gapless { IsGapless self.new }
        ensures count { self.new.count ≡ self.old.count }
    {
        while let Some(change) = self.ahead.remove(&(self.front.len() as u64)) {
            self.front.push(change)?;
        }
        Ok(())
    }
}
