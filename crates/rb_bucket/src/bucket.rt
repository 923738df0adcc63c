ghost use Rattle.std.specs.Prelude.{◌≡◌, ◌+◌, ◌-◌, ◌^◌, ◌<◌, ◌≤◌, ◌==◌, nat_le, nat_lt, ℕ, map, filter, if◌then◌else◌, length, [], ◌∷◌, ◌++◌, IfOk, OnOk, OnErr, IsSome, Some, None};
ghost use Rattle.std.specs.Ordering.{nat_cmp};
ghost use Rattle.std.specs.BTreeMap as tree;
ghost use Rattle.rb_bucket.specs.Bucket.{changes_in};

use crate::forget::{forget_closes, forget_in_all};
use crate::resend::{changes_of, push_closed, push_parts};
use rb_base::{Change, Changes, Epoch, Messages, NoMemory};
use std::alloc::Global;
use std::collections::{BTreeMap, VecDeque};

// A closed epoch, and the one closed before it.
#[derive(Clone, Copy)]
pub(crate) struct Close {
    pub(crate) epoch: Epoch,
    pub(crate) prev: Epoch,
}

/// The buffer of one data node, for the buckets of its group.
#[derive(Drop)]
pub struct BucketBuffer {
    alloc: Global,
    // The lowest bucket of the group.
    first: u32,
    // The changes by bucket, the lowest first, and by epoch.
    buckets: Vec<BTreeMap<u64, Changes>>,
    // The closed epochs, the oldest first.
    closes: VecDeque<Close>,
    // The open epoch, once it has a change.
    open_epoch: Option<Epoch>,
    since: Epoch,
}

impl BucketBuffer {
    ghost use Rattle.rb_bucket.specs.Bucket.{changes_kept, closes_kept, since_of, IsBucketOf, open_of, with_change, Rising, messages_kept};

    /// Returns an empty buffer of the buckets `first` to `first + buckets - 1` that buffers from
    /// the epoch `since` on.
    pub fn new(
        alloc: Global,
        first: u32,
        buckets: u32,
        since: Epoch,
    ) -> Result<BucketBuffer, NoMemory>
        requires fits { first + buckets ≤ 2 ^ 32 }
        ensures empty { IfOk result (λ buffer. (epoch bucket : ℕ) →
            changes_kept buffer epoch bucket ≡ []) }
        ensures closes { IfOk result (λ buffer. closes_kept buffer ≡ []) }
        ensures opened { IfOk result (λ buffer. open_of buffer ≡ None) }
        ensures since { IfOk result (λ buffer. since_of buffer ≡ since.0) }
        ensures buckets { IfOk result (λ buffer. (bucket : ℕ) → first ≤ bucket →
            bucket < first + buckets → IsBucketOf buffer bucket) }
    {
        let mut kept = Vec::new(alloc);
        for _ in 0..buckets {
            kept.push(BTreeMap::new(alloc))?;
        }
        Ok(BucketBuffer {
            alloc,
            first,
            buckets: kept,
            closes: VecDeque::new(alloc),
            open_epoch: None,
            since,
        })
    }

    /// Buffers a change of a bucket in the open epoch, `epoch`. Returns its place, which counts the
    /// bucket's changes in the epoch from 0. If memory allocation fails, nothing is buffered.
    pub fn add(&mut self, bucket: u32, epoch: Epoch, change: Change) -> Result<u32, NoMemory>
        requires bucket { IsBucketOf self.old bucket }
        requires room { length (changes_kept self.old epoch.0 bucket) < 2 ^ 32 - 1 }
        ensures place { IfOk result (λ place. place
            ≡ length (changes_kept self.old epoch.0 bucket)) }
        ensures kept { OnOk result ((e b : ℕ) →
            changes_kept self.new e b
            ≡ with_change epoch.0 bucket change (changes_kept self.old) e b) }
        ensures opened { OnOk result (open_of self.new ≡ Some epoch.0) }
        ensures memory { OnErr result (((e b : ℕ) →
            changes_kept self.new e b ≡ changes_kept self.old e b)
            × (open_of self.new ≡ open_of self.old)) }
        ensures closes { closes_kept self.new ≡ closes_kept self.old }
        ensures since { since_of self.new ≡ since_of self.old }
        ensures buckets { (b : ℕ) → IsBucketOf self.old b → IsBucketOf self.new b }
    {
        let alloc = self.alloc;
        let kept = &mut self.buckets[(bucket - self.first) as usize];
        enter(alloc, kept, epoch.0)?;
        let place = append(kept, epoch.0, change)?;
        self.open_epoch = Some(epoch);
        Ok(place)
    }

    /// Records the close of the open epoch, `epoch`, with the epoch closed before it, or 0. If
    /// memory allocation fails, nothing is recorded.
    pub fn close(&mut self, epoch: Epoch, prev: Epoch) -> Result<(), NoMemory>
        ensures ok { OnOk result (closes_kept self.new ≡ closes_kept self.old
            ++ (epoch.0, prev.0) ∷ []) }
        ensures opened { OnOk result (open_of self.new ≡ None) }
        ensures memory { OnErr result ((closes_kept self.new ≡ closes_kept self.old)
            × (open_of self.new ≡ open_of self.old)) }
        ensures kept { (e b : ℕ) → changes_kept self.new e b ≡ changes_kept self.old e b }
        ensures since { since_of self.new ≡ since_of self.old }
        ensures buckets { (b : ℕ) → IsBucketOf self.old b → IsBucketOf self.new b }
    {
        self.closes.push_back(Close { epoch, prev })?;
        self.open_epoch = None;
        Ok(())
    }

    /// Returns how many changes it holds of a bucket in an epoch.
    pub fn count(&self, bucket: u32, epoch: Epoch) -> u32
        requires bucket { IsBucketOf self.now bucket }
        requires fits { length (changes_kept self.now epoch.0 bucket) < 2 ^ 32 }
        ensures { result ≡ length (changes_kept self.now epoch.0 bucket) }
    {
        let epochs = &self.buckets[(bucket - self.first) as usize];
        changes_of(epochs, epoch.0).len() as u32
    }

    /// Releases all changes and closes of epochs up to this one. Allocates nothing. The closed
    /// epochs must rise.
    pub fn release(&mut self, through: Epoch)
        requires rising { (top : ℕ) × Rising top (map (λ close. close.0) (closes_kept self.old)) }
        ensures kept { (e b : ℕ) → changes_kept self.new e b
            ≡ (if nat_le e through.0 then [] else changes_kept self.old e b) }
        ensures closes { closes_kept self.new
            ≡ filter (λ close. nat_lt through.0 close.0) (closes_kept self.old) }
        ensures opened { open_of self.new ≡ open_of self.old }
        ensures since { since_of self.new ≡ since_of self.old }
        ensures buckets { (b : ℕ) → IsBucketOf self.old b → IsBucketOf self.new b }
    {
        forget_in_all(&mut self.buckets, through.0);
        forget_closes(&mut self.closes, through.0);
    }

    /// Returns the messages of a bucket that it holds, in the order of a resend: for each closed
    /// epoch, the oldest first, the Parts and then the Done; last the Parts of the open epoch.
    pub fn messages(&self, bucket: u32) -> Result<Messages, NoMemory>
        requires bucket { IsBucketOf self.now bucket }
        requires fits { (e : ℕ) → length (changes_kept self.now e bucket) < 2 ^ 32 }
        ensures { IfOk result (λ messages. messages ≡ messages_kept self.now bucket) }
    {
        let alloc = self.alloc;
        let epochs = &self.buckets[(bucket - self.first) as usize];
        let mut messages = Messages::new(alloc);
        for index in 0..self.closes.len() {
            let close = self.closes[index];
            let changes = changes_of(epochs, close.epoch.0);
            push_closed(alloc, &mut messages, bucket, close, changes)?;
        }
        let Some(epoch) = self.open_epoch else {
            return Ok(messages);
        };
        let changes = changes_of(epochs, epoch.0);
        push_parts(alloc, &mut messages, bucket, epoch, changes)?;
        Ok(messages)
    }

    /// Returns the first epoch that it buffers.
    pub fn since(&self) -> Epoch
        ensures { result.0 ≡ since_of self.now }
    {
        self.since
    }
}

// Makes a list for the changes of an epoch, if there is none.
fn enter(alloc: Global, epochs: &mut BTreeMap<u64, Changes>, epoch: u64) -> Result<(), NoMemory>
    ensures there { OnOk result (IsSome (tree.get nat_cmp epochs.new epoch)) }
    ensures same { (e : ℕ) → changes_in epochs.new e ≡ changes_in epochs.old e }
{
    if !epochs.contains_key(&epoch) {
        epochs.insert(epoch, Changes::new(alloc))?;
    }
    Ok(())
}

// Appends a change to the list of an epoch, and returns its place.
fn append(epochs: &mut BTreeMap<u64, Changes>, epoch: u64, change: Change) -> Result<u32, NoMemory>
    requires there { IsSome (tree.get nat_cmp epochs.old epoch) }
    requires room { length (changes_in epochs.old epoch) < 2 ^ 32 - 1 }
    ensures place { IfOk result (λ place. place ≡ length (changes_in epochs.old epoch)) }
    ensures kept { OnOk result ((e : ℕ) →
        changes_in epochs.new e ≡ (if epoch == e then changes_in epochs.old e
        ++ change ∷ [] else changes_in epochs.old e)) }
    ensures memory { OnErr result ((e : ℕ) → changes_in epochs.new e ≡ changes_in epochs.old e) }
{
    match epochs.get_mut(&epoch) {
        Some(changes) => {
            let place = changes.as_slice().len() as u32;
            changes.push(change)?;
            Ok(place)
        }
        None => Ok(0),
    }
}
