ghost use Rattle.std.specs.Prelude.{◌≡◌, ◌≤◌, ◌<◌, ℕ, Option, length, OnOk};
ghost use Rattle.rb_group.specs.Kept.{Kept, HoldsNode, with_part, only_closed, with_acknowledged};
ghost use Rattle.rb_group.specs.Group.{IsOrdered};
ghost use Rattle.rb_group.specs.Nodes.{AllHold, CanAdd, CanAddOne, CanRelease, CanReleaseOne};

use rb_base::{Change, Epoch, NoMemory};
use rb_bucket::BucketBuffer;
use std::alloc::Global;

/// Adds a change of a bucket to the buffer of each node that buffers the open epoch. If memory
/// allocation fails, some buffers may have it.
pub fn add_to_all(
    alloc: Global,
    buffers: &mut Vec<Option<BucketBuffer>>,
    bucket: u32,
    epoch: Epoch,
    change: &Change,
) -> Result<(), NoMemory>
    requires room { CanAdd buffers.old.items epoch.0 bucket }
    ensures kept { OnOk result ((kept : Kept) → AllHold buffers.old.items kept →
        kept.opened ≡ epoch.0 → IsOrdered kept →
        AllHold buffers.new.items (with_part bucket change.now kept)) }
    ensures count { OnOk result (length buffers.new.items ≡ length buffers.old.items) }
{
    for index in 0..buffers.len() {
        add_to_one(alloc, &mut buffers[index], bucket, epoch, change)?;
    }
    Ok(())
}

// Adds a change to a node's buffer, if the node is up and buffers the open epoch.
fn add_to_one(
    alloc: Global,
    buffer: &mut Option<BucketBuffer>,
    bucket: u32,
    epoch: Epoch,
    change: &Change,
) -> Result<(), NoMemory>
    requires room { CanAddOne buffer.old epoch.0 bucket }
    ensures { OnOk result ((kept : Kept) → (since : Option ℕ) → HoldsNode buffer.old since kept →
        kept.opened ≡ epoch.0 → IsOrdered kept →
        HoldsNode buffer.new since (with_part bucket change.now kept)) }
{
    if let Some(held) = buffer {
        if held.since().0 <= epoch.0 {
            let copy = change.copy(alloc)?;
            held.add(bucket, epoch, copy)?;
        }
    }
    Ok(())
}

/// Records the close of the open epoch at each node that buffers it. If memory allocation fails,
/// some nodes may have recorded it.
pub fn close_in_all(
    buffers: &mut Vec<Option<BucketBuffer>>,
    epoch: Epoch,
    prev: Epoch,
) -> Result<(), NoMemory>
    ensures kept { OnOk result ((kept : Kept) → (next : ℕ) → AllHold buffers.old.items kept →
        kept.opened ≡ epoch.0 → IsOrdered kept → kept.opened < next →
        AllHold buffers.new.items (only_closed prev.0 next kept)) }
    ensures count { OnOk result (length buffers.new.items ≡ length buffers.old.items) }
{
    for index in 0..buffers.len() {
        close_in_one(&mut buffers[index], epoch, prev)?;
    }
    Ok(())
}

// Records the close of the open epoch at a node, if it is up and buffers the epoch.
fn close_in_one(
    buffer: &mut Option<BucketBuffer>,
    epoch: Epoch,
    prev: Epoch,
) -> Result<(), NoMemory>
    ensures { OnOk result ((kept : Kept) → (since : Option ℕ) → (next : ℕ) →
        HoldsNode buffer.old since kept → kept.opened ≡ epoch.0 → IsOrdered kept →
        kept.opened < next → HoldsNode buffer.new since (only_closed prev.0 next kept)) }
{
    if let Some(held) = buffer {
        if held.since().0 <= epoch.0 {
            held.close(epoch, prev)?;
        }
    }
    Ok(())
}

/// Releases what is acknowledged in each node's buffer.
pub fn release_in_all(buffers: &mut Vec<Option<BucketBuffer>>, through: Epoch)
    requires ready { CanRelease buffers.old.items }
    ensures kept { (kept : Kept) → AllHold buffers.old.items kept →
        AllHold buffers.new.items (with_acknowledged through.0 kept) }
    ensures count { length buffers.new.items ≡ length buffers.old.items }
{
    for index in 0..buffers.len() {
        release_in_one(&mut buffers[index], through);
    }
}

// Releases what is acknowledged in a node's buffer.
fn release_in_one(buffer: &mut Option<BucketBuffer>, through: Epoch)
    requires ready { CanReleaseOne buffer.old }
    ensures { (kept : Kept) → (since : Option ℕ) → HoldsNode buffer.old since kept →
        HoldsNode buffer.new since (with_acknowledged through.0 kept) }
{
    if let Some(held) = buffer {
        held.release(through);
    }
}
