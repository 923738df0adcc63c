ghost use Rattle.std.specs.Prelude.{◌≡◌, ◌^◌, ◌<◌, length, [], ◌∷◌, ◌++◌, OnOk};
ghost use Rattle.rb_base.specs.declared.message.Message.TheVariants.{Part, Done};
ghost use Rattle.rb_bucket.specs.Bucket.{changes_in, parts_of};

use crate::bucket::Close;
use rb_base::{Change, Changes, Epoch, Message, Messages, NoMemory};
use std::alloc::Global;
use std::collections::BTreeMap;

/// Returns the changes of an epoch, in order.
pub fn changes_of(epochs: &BTreeMap<u64, Changes>, epoch: u64) -> &[Change]
    ensures { result.now ≡ changes_in epochs.now epoch }
{
    match epochs.get(&epoch) {
        Some(changes) => changes.as_slice(),
        None => &[],
    }
}

/// Appends the messages of a bucket in a closed epoch: a Part for each of its changes, and its
/// Done.
pub fn push_closed(
    alloc: Global,
    messages: &mut Messages,
    bucket: u32,
    close: Close,
    changes: &[Change],
) -> Result<(), NoMemory>
    requires { length changes.now < 2 ^ 32 }
    ensures { OnOk result (messages.new ≡ messages.old
        ++ (parts_of bucket close.epoch changes.now
        ++ Done bucket close.epoch close.prev (length changes.now) ∷ [])) }
{
    push_parts(alloc, messages, bucket, close.epoch, changes)?;
    messages.push(Message::Done {
        bucket,
        epoch: close.epoch,
        prev: close.prev,
        count: changes.len() as u32,
    })?;
    Ok(())
}

/// Appends a Part for each of a bucket's changes in an epoch.
pub fn push_parts(
    alloc: Global,
    messages: &mut Messages,
    bucket: u32,
    epoch: Epoch,
    changes: &[Change],
) -> Result<(), NoMemory>
    requires { length changes.now < 2 ^ 32 }
    ensures { OnOk result (messages.new ≡ messages.old ++ parts_of bucket epoch changes.now) }
{
    for (place, change) in changes.iter().enumerate() {
        messages.push(Message::Part {
            bucket,
            epoch,
            place: place as u32,
            change: change.copy(alloc)?,
        })?;
    }
    Ok(())
}
