use rb_base::{Change, Epoch, Kind, Message};
use rb_bucket::BucketBuffer;
use std::test::Fail;

fn moves<T: Send>() {}

#[test]
fn a_buffer_goes_to_another_thread() {
    moves::<BucketBuffer>();
}

// The insert of a row of this key.
fn insert(key: u64) -> Change {
    Change {
        table: 1,
        key,
        kind: Kind::Insert,
        before: None,
        after: None,
        author: 1,
        transid: 1,
    }
}

// The bucket, epoch, place and key of a Part.
fn part_of(message: Option<&Message>) -> Option<(u32, Epoch, u32, u64)> {
    match message? {
        Message::Part {
            bucket,
            epoch,
            place,
            change,
        } => Some((*bucket, *epoch, *place, change.key)),
        Message::Done { .. } => None,
    }
}

// The bucket, epoch, the epoch before and the count of a Done.
fn done_of(message: Option<&Message>) -> Option<(u32, Epoch, Epoch, u32)> {
    match message? {
        Message::Done {
            bucket,
            epoch,
            prev,
            count,
        } => Some((*bucket, *epoch, *prev, *count)),
        Message::Part { .. } => None,
    }
}

// Two changes of bucket 3, in a buffer of the buckets 2 and 3.
#[test]
fn places_count_a_bucket_in_an_epoch(rt: HostRuntime) -> Result<(), Fail> {
    let mut buffer = BucketBuffer::new(rt.alloc(), 2, 2, Epoch(7))?;
    assert_eq!(rt; buffer.since(), Epoch(7));
    let first = buffer.add(3, Epoch(7), insert(5))?;
    let second = buffer.add(3, Epoch(7), insert(6))?;
    assert_eq!(rt; (first, second), (0, 1));
    Ok(())
}

#[test]
fn a_change_is_counted(rt: HostRuntime) -> Result<(), Fail> {
    let mut buffer = BucketBuffer::new(rt.alloc(), 2, 2, Epoch(7))?;
    buffer.add(3, Epoch(7), insert(5))?;
    assert_eq!(rt; buffer.count(3, Epoch(7)), 1);
    Ok(())
}

#[test]
fn an_epoch_closes(rt: HostRuntime) -> Result<(), Fail> {
    let mut buffer = BucketBuffer::new(rt.alloc(), 2, 2, Epoch(7))?;
    assert_eq!(rt; buffer.close(Epoch(7), Epoch(4)), Ok(()));
    Ok(())
}

// A change of bucket 3 in the closed epoch 7.
#[test]
fn a_bucket_is_sent_again(rt: HostRuntime) -> Result<(), Fail> {
    let mut buffer = BucketBuffer::new(rt.alloc(), 2, 2, Epoch(7))?;
    buffer.add(3, Epoch(7), insert(5))?;
    buffer.close(Epoch(7), Epoch(4))?;
    let messages = buffer.messages(3)?;
    let messages = messages.as_slice();
    assert_eq!(rt; messages.len(), 2);
    assert_eq!(rt; part_of(messages.first()), Some((3, Epoch(7), 0, 5)));
    assert_eq!(rt; done_of(messages.last()), Some((3, Epoch(7), Epoch(4), 1)));
    Ok(())
}

// Epoch 7 is closed, and a change of epoch 8 is buffered before it is released.
#[test]
fn a_released_epoch_is_gone(rt: HostRuntime) -> Result<(), Fail> {
    let mut buffer = BucketBuffer::new(rt.alloc(), 2, 2, Epoch(7))?;
    buffer.add(3, Epoch(7), insert(5))?;
    buffer.close(Epoch(7), Epoch(4))?;
    buffer.add(3, Epoch(8), insert(6))?;
    buffer.release(Epoch(7));
    let messages = buffer.messages(3)?;
    let messages = messages.as_slice();
    assert_eq!(rt; messages.len(), 1);
    assert_eq!(rt; part_of(messages.first()), Some((3, Epoch(8), 0, 6)));
    Ok(())
}
