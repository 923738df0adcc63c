ghost use Rattle.std.specs.Prelude.{◌≡◌, ◌<◌, nat_le, nat_lt, ℕ, map, filter, true, false, if◌then◌else◌, length, []};
ghost use Rattle.std.specs.BTreeMap.{btree_map_len};
ghost use Rattle.std.specs.VecDeque.{deque_len};
ghost use Rattle.rb_bucket.specs.Bucket.{changes_in, changes_at, close_pairs, Rising};

use crate::bucket::Close;
use rb_base::Changes;
use std::collections::{BTreeMap, VecDeque};

/// Releases each bucket's changes of all epochs up to this one.
pub fn forget_in_all(buckets: &mut Vec<BTreeMap<u64, Changes>>, through: u64)
    ensures kept { (place e : ℕ) →
        changes_at buckets.new.items place e
        ≡ (if nat_le e through then [] else changes_at buckets.old.items place e) }
    ensures count { length buckets.new.items ≡ length buckets.old.items }
{
    for index in 0..buckets.len() {
        forget_epochs(&mut buckets[index], through);
    }
}

// Releases the changes of all epochs up to this one.
fn forget_epochs(epochs: &mut BTreeMap<u64, Changes>, through: u64)
    ensures { (e : ℕ) → changes_in epochs.new e
        ≡ (if nat_le e through then [] else changes_in epochs.old e) }
{
    while forget_first_epoch(epochs, through) {}
}

// Releases the first epoch if it is at most this one. Returns whether it was.
fn forget_first_epoch(epochs: &mut BTreeMap<u64, Changes>, through: u64) -> bool
    ensures kept { (e : ℕ) → nat_le e through ≡ false →
        changes_in epochs.new e ≡ changes_in epochs.old e }
    ensures none { result ≡ false → (e : ℕ) → nat_le e through ≡ true →
        changes_in epochs.new e ≡ [] }
    ensures fewer { result ≡ true → btree_map_len epochs.new < btree_map_len epochs.old }
{
    match epochs.first_key_value() {
        Some((epoch, _)) if *epoch <= through => {}
        _ => return false,
    }
    epochs.pop_first();
    true
}

/// Releases the closes of all epochs up to this one. Closed epochs rise, so these come first.
pub fn forget_closes(closes: &mut VecDeque<Close>, through: u64)
    requires rising { (top : ℕ) × Rising top
        (map (λ close. close.0) (close_pairs closes.old.items)) }
    ensures later { close_pairs closes.new.items
        ≡ filter (λ close. nat_lt through close.0) (close_pairs closes.old.items) }
{
    while forget_first_close(closes, through) {}
}

// Releases the first close if its epoch is at most this one. Returns whether it was.
fn forget_first_close(closes: &mut VecDeque<Close>, through: u64) -> bool
    requires rising { (top : ℕ) × Rising top
        (map (λ close. close.0) (close_pairs closes.old.items)) }
    ensures rising { (top : ℕ) × Rising top
        (map (λ close. close.0) (close_pairs closes.new.items)) }
    ensures same { filter (λ close. nat_lt through close.0) (close_pairs closes.new.items)
        ≡ filter (λ close. nat_lt through close.0) (close_pairs closes.old.items) }
    ensures none { result ≡ false →
        close_pairs closes.new.items
        ≡ filter (λ close. nat_lt through close.0) (close_pairs closes.old.items) }
    ensures fewer { result ≡ true → deque_len closes.new < deque_len closes.old }
{
    match closes.front() {
        Some(close) if close.epoch.0 <= through => {}
        _ => return false,
    }
    closes.pop_front();
    true
}
