use rb_base::{Change, Epoch, Kind, Message, Sent};
use rb_group::{FailOutcome, Group, GroupFault};
use std::test::Fail;

fn moves<T: Send>() {}

#[test]
fn a_group_goes_to_another_thread() {
    moves::<Group>();
}

// The sender, bucket, epoch and place of a change that is sent, with its key.
fn part_of(sent: Option<&Sent>) -> Option<(u32, u32, Epoch, u32, u64)> {
    let sent = sent?;
    match &sent.message {
        Message::Part {
            bucket,
            epoch,
            place,
            change,
        } => Some((sent.sender, *bucket, *epoch, *place, change.key)),
        Message::Done { .. } => None,
    }
}

// The sender, bucket, epoch, the epoch before and the count of a Done.
fn done_of(sent: Option<&Sent>) -> Option<(u32, u32, Epoch, Epoch, u32)> {
    let sent = sent?;
    match &sent.message {
        Message::Done {
            bucket,
            epoch,
            prev,
            count,
        } => Some((sent.sender, *bucket, *epoch, *prev, *count)),
        Message::Part { .. } => None,
    }
}

// The insert of a row of this key.
fn insert(key: u64) -> Change {
    Change {
        table: 1,
        key,
        kind: Kind::Insert,
        before: None,
        after: None,
        author: 1,
        transid: 1,
    }
}

// A change of bucket 3 at the nodes 2 and 3.
#[test]
fn a_commit_sends_a_change(rt: HostRuntime) -> Result<(), Fail> {
    let group = Group::new(rt.alloc(), 2, 2, Epoch(7))?;
    assert_eq!(rt; group.owner(3), Some(3));
    assert!(rt; group.covers(3));
    assert_eq!(rt; group.needed(), Epoch(7));
    let (_group, sent) = group.commit_part(3, &insert(5))?;
    assert_eq!(rt; part_of(Some(&sent)), Some((3, 3, Epoch(7), 0, 5)));
    Ok(())
}

// An epoch without changes.
#[test]
fn a_close_sends_each_done(rt: HostRuntime) -> Result<(), Fail> {
    let group = Group::new(rt.alloc(), 2, 2, Epoch(7))?;
    let (_group, sent) = group.close(Epoch(4), Epoch(8))?;
    let dones = sent.as_slice();
    assert_eq!(rt; dones.len(), 2);
    assert_eq!(rt; done_of(dones.first()), Some((2, 2, Epoch(7), Epoch(4), 0)));
    assert_eq!(rt; done_of(dones.last()), Some((3, 3, Epoch(7), Epoch(4), 0)));
    Ok(())
}

// Node 2 fails after a change of bucket 2, and node 3 resends it.
#[test]
fn the_next_node_takes_over(rt: HostRuntime) -> Result<(), Fail> {
    let group = Group::new(rt.alloc(), 2, 2, Epoch(7))?;
    let (mut group, _sent) = group.commit_part(2, &insert(5))?;
    match group.fail(2) {
        Ok(FailOutcome::Takeover(count, sent)) => {
            assert_eq!(rt; count, 1);
            assert_eq!(rt; sent.as_slice().len(), 1);
            assert_eq!(rt;
                part_of(sent.as_slice().first()),
                Some((3, 2, Epoch(7), 0, 5))
            );
        }
        _ => assert!(rt; false),
    }
    Ok(())
}

// A group of node 2 alone.
#[test]
fn the_last_node_is_a_loss(rt: HostRuntime) -> Result<(), Fail> {
    let mut group = Group::new(rt.alloc(), 2, 1, Epoch(7))?;
    match group.fail(2) {
        Ok(FailOutcome::Lost { group: lost, epoch }) => {
            assert_eq!(rt; (lost, epoch), (2, Epoch(7)));
            assert_eq!(rt; group.restart(2), Ok(Epoch(8)));
        }
        _ => assert!(rt; false),
    }
    Ok(())
}

#[test]
fn a_node_that_is_up_does_not_start(rt: HostRuntime) -> Result<(), Fail> {
    let mut group = Group::new(rt.alloc(), 2, 2, Epoch(7))?;
    assert_eq!(rt; group.restart(3), Err(GroupFault::NodeUp(3)));
    Ok(())
}

// A change of bucket 3 in the open epoch.
#[test]
fn owners_send_again(rt: HostRuntime) -> Result<(), Fail> {
    let group = Group::new(rt.alloc(), 2, 2, Epoch(7))?;
    let (group, _sent) = group.commit_part(3, &insert(5))?;
    let again = group.resend()?;
    assert_eq!(rt; again.as_slice().len(), 1);
    assert_eq!(rt;
        part_of(again.as_slice().first()),
        Some((3, 3, Epoch(7), 0, 5))
    );
    Ok(())
}

// Epoch 7 is closed, and then acknowledged.
#[test]
fn an_acknowledged_epoch_is_not_needed(rt: HostRuntime) -> Result<(), Fail> {
    let group = Group::new(rt.alloc(), 2, 2, Epoch(7))?;
    let (mut group, _sent) = group.close(Epoch(4), Epoch(8))?;
    assert_eq!(rt; group.needed(), Epoch(7));
    group.acknowledge(Epoch(7));
    assert_eq!(rt; group.needed(), Epoch(8));
    Ok(())
}
