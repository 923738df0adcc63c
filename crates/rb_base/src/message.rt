ghost use Rattle.std.specs.Prelude.{◌≡◌, IfOk};

use crate::change::Change;
use crate::epoch::Epoch;
use crate::list::Items;
use crate::memory::NoMemory;
use std::alloc::Global;

/// A message from a data node to the injector's event buffer.
#[derive(Debug, Drop)]
pub enum Message {
    /// One change of a bucket. `place` counts the bucket's changes in the epoch, from 0.
    Part {
        bucket: u32,
        epoch: Epoch,
        place: u32,
        change: Change,
    },
    /// The end of an epoch in a bucket: the number of the bucket's changes, and the epoch that was
    /// closed before this one, or 0.
    Done {
        bucket: u32,
        epoch: Epoch,
        prev: Epoch,
        count: u32,
    },
}

pub type Messages = Items<Message>;

impl Message {
    /// Returns an equal message.
    pub fn copy(&self, alloc: Global) -> Result<Message, NoMemory>
        ensures { IfOk result (λ copy. copy ≡ self.now) }
    {
        Ok(match self {
            Message::Part {
                bucket,
                epoch,
                place,
                change,
            } => Message::Part {
                bucket: *bucket,
                epoch: *epoch,
                place: *place,
                change: change.copy(alloc)?,
            },
            Message::Done {
                bucket,
                epoch,
                prev,
                count,
            } => Message::Done {
                bucket: *bucket,
                epoch: *epoch,
                prev: *prev,
                count: *count,
            },
        })
    }
}

/// A message with the node that sent it.
#[derive(Debug, Drop)]
pub struct Sent {
    pub sender: u32,
    pub message: Message,
}

pub type SentList = Items<Sent>;
