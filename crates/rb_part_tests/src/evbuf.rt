ghost use Rattle.std.specs.Prelude.{◌≡◌};
ghost use Rattle.rb_message_defs.specs.Message.{bucket_in};

use rb_base::{Change, Epoch, Kind, Message, NoMemory};
use rb_evbuf::{Assembled, EventBuffer, Missing, Received};
use std::alloc::Global;
use std::test::Fail;

fn moves<T: Send>() {}

#[test]
fn a_buffer_goes_to_another_thread() {
    moves::<EventBuffer>();
}

// The insert of a row of this key.
fn part(bucket: u32, epoch: u64, place: u32, key: u64) -> Message
    ensures { bucket_in result ≡ bucket }
{
    Message::Part {
        bucket,
        epoch: Epoch(epoch),
        place,
        change: Change {
            table: 1,
            key,
            kind: Kind::Insert,
            before: None,
            after: None,
            author: 1,
            transid: 1,
        },
    }
}

fn done(bucket: u32, epoch: u64, prev: u64, count: u32) -> Message
    ensures { bucket_in result ≡ bucket }
{
    Message::Done {
        bucket,
        epoch: Epoch(epoch),
        prev: Epoch(prev),
        count,
    }
}

// The key of a change of an assembled epoch.
fn key_at(assembled: &Assembled, bucket: usize, place: usize) -> Option<u64> {
    let part = assembled.parts.as_slice().get(bucket)?;
    let change = part.as_slice().get(place)?;
    Some(change.key)
}

// Two places of bucket 0 in the wrong order, one of them twice, and none of bucket 1.
#[test]
fn an_epoch_is_put_together(rt: HostRuntime) -> Result<(), Fail> {
    let mut buffer = EventBuffer::new(rt.alloc(), 2, Epoch(7))?;
    assert_eq!(rt;
        buffer.missing(),
        Some(Missing {
            bucket: 0,
            place: None
        })
    );
    assert_eq!(rt; buffer.receive(done(0, 9, 7, 2)), Ok(Received::Kept));
    assert_eq!(rt; buffer.receive(part(0, 9, 1, 51)), Ok(Received::Kept));
    assert_eq!(rt;
        buffer.missing(),
        Some(Missing {
            bucket: 0,
            place: Some(0)
        })
    );
    assert_eq!(rt; buffer.receive(part(0, 9, 0, 50)), Ok(Received::Kept));
    assert_eq!(rt; buffer.receive(part(0, 9, 1, 99)), Ok(Received::Known));
    assert_eq!(rt;
        buffer.missing(),
        Some(Missing {
            bucket: 1,
            place: None
        })
    );
    assert!(rt; buffer.take_epoch().is_none());
    assert_eq!(rt; buffer.receive(done(1, 9, 7, 0)), Ok(Received::Kept));
    assert_eq!(rt; buffer.missing(), None);
    let assembled = buffer.take_epoch().ok_or("the epoch is whole")?;
    assert_eq!(rt; (assembled.epoch, assembled.prev), (Epoch(9), Epoch(7)));
    assert_eq!(rt; assembled.parts.as_slice().len(), 2);
    assert_eq!(rt; key_at(&assembled, 0, 0), Some(50));
    assert_eq!(rt; key_at(&assembled, 0, 1), Some(51));
    assert_eq!(rt; key_at(&assembled, 0, 2), None);
    assert_eq!(rt; key_at(&assembled, 1, 0), None);
    assert_eq!(rt; buffer.receive(done(1, 9, 7, 0)), Ok(Received::Old));
    Ok(())
}

// Returns the keys of an epoch of one change, as the buffer that received it assembles it.
fn taken_key(alloc: Global, key: u64) -> Result<Option<u64>, NoMemory> {
    let mut buffer = EventBuffer::new(alloc, 1, Epoch(0))?;
    buffer.receive(part(0, 1, 0, key))?;
    buffer.receive(done(0, 1, 0, 1))?;
    match buffer.take_epoch() {
        Some(assembled) => Ok(key_at(&assembled, 0, 0)),
        None => Ok(None),
    }
}

// A buffer that received another change on the way assembles that one.
#[test]
fn doctored_part(rt: HostRuntime) {
    assert_eq!(rt; taken_key(rt.alloc(), 5), Ok(Some(5)));
    assert_eq!(rt; taken_key(rt.alloc(), 6), Ok(Some(6)));
}
