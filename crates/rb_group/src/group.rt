ghost use Rattle.std.specs.Prelude.{◌≡◌, ◌+◌, ◌<◌, ◌≤◌, ◌^◌, ◌==◌, ◌-◌, [], true, if◌then◌else◌, ◌++◌, map, not, length, IfOk, IfErr, OnOk, Some, None, is_some};
ghost use Rattle.std.specs.List.{flat_map, find};
ghost use Rattle.std.specs.Option.{option_map};
ghost use Rattle.rb_group.specs.Kept.{Kept, new_group, with_part, with_close, only_closed, with_since, with_acknowledged, is_after, since_in, owner_in, covers_in, needed_in, successor_in, sent_at_close, sent_at_resend};

use crate::answers::{FailOutcome, GroupFault};
use crate::closed::forget_closed;
use crate::nodes::{add_to_all, close_in_all, release_in_all};
use crate::sending::{moved, push_from};
use rb_base::{Change, Epoch, Items, Message, NoMemory, Sent, SentList};
use rb_bucket::BucketBuffer;
use std::alloc::Global;
use std::collections::VecDeque;

/// The data nodes of a group, with their buffers.
#[derive(Drop)]
pub struct Group {
    alloc: Global,
    // The lowest bucket, which is also the lowest node.
    first: u32,
    opened: Epoch,
    // The last acknowledged epoch, if any is.
    acknowledged: Option<Epoch>,
    // The node that sends for a bucket, by bucket.
    owners: Vec<u32>,
    // By node, the lowest first; `None` for a node that is down.
    buffers: Vec<Option<BucketBuffer>>,
    // The closed epochs after the acknowledged ones, the oldest first.
    closed: VecDeque<Epoch>,
}

impl Group {
    ghost use Rattle.rb_group.specs.Group.{Keeps, IsNumberOf, CanCommit, CanClose, CanResend, CanFail, CanRestart, CanAcknowledge, acknowledged_of, part_sent, FailsTo, FailFault, RestartFault};
    ghost use Rattle.rb_group.specs.Nodes.{IsIn, KeepsSome, HasCountableBuffers, CanCount, CanSend, CanSeek, CanTakeOver, numbers_from, others_of, owner_after, numbers_in, buffer_of, needed_of, covers_of, owner_of, count_of, again_of, returns_of, returned_of, done_of, taken_of, owned_of};

    /// Returns a group of the nodes `first` to `first + nodes - 1`, with the buckets of the same
    /// numbers. `opened` is its open epoch. All nodes are up, and each owns the bucket of its
    /// number.
    pub fn new(alloc: Global, first: u32, nodes: u32, opened: Epoch) -> Result<Group, NoMemory>
        requires some { 1 ≤ nodes }
        requires fits { first + nodes ≤ 2 ^ 32 }
        ensures keeps { IfOk result (λ group. Keeps group (new_group first nodes opened.0)) }
    {
        let mut owners = Vec::new(alloc);
        let mut buffers = Vec::new(alloc);
        for index in 0..nodes {
            owners.push(first + index)?;
            buffers.push(Some(BucketBuffer::new(alloc, first, nodes, opened)?))?;
        }
        Ok(Group {
            alloc,
            first,
            opened,
            acknowledged: None,
            owners,
            buffers,
            closed: VecDeque::new(alloc),
        })
    }

    /// Returns the needed epoch: the oldest epoch whose messages may have to be resent. It is the
    /// open one if every closed epoch is acknowledged.
    pub fn needed(&self) -> Epoch
        ensures { (kept : Kept) → Keeps self.now kept → result.0 ≡ needed_in kept }
    {
        self.first_needed()
    }

    /// Returns whether a node is up and has everything that is unacknowledged.
    pub fn covers(&self, node: u32) -> bool
        requires number { (kept : Kept) × Keeps self.now kept × IsNumberOf kept node }
        ensures { (kept : Kept) → Keeps self.now kept → result ≡ covers_in kept node }
    {
        self.is_covering(node)
    }

    /// Returns the node that sends for a bucket, if it is up.
    pub fn owner(&self, bucket: u32) -> Option<u32>
        requires bucket { (kept : Kept) × Keeps self.now kept × IsNumberOf kept bucket }
        ensures { (kept : Kept) → Keeps self.now kept →
            result ≡ (if is_some (since_in kept (owner_in kept bucket)) then Some
            (owner_in kept bucket) else None) }
    {
        let owner = self.owner_number(bucket);
        if self.is_up(owner) {
            return Some(owner);
        }
        None
    }

    /// Commits a change of a bucket in the open epoch: each node that buffers the epoch gets the
    /// change. Returns the group, and what the bucket's owner sends. If memory allocation fails,
    /// the group is gone.
    pub fn commit_part(self, bucket: u32, change: &Change) -> Result<(Group, Sent), NoMemory>
        requires ready { CanCommit self bucket }
        ensures kept { IfOk result (λ pair. (kept : Kept) → Keeps self kept →
            Keeps pair.0 (with_part bucket change.now kept)) }
        ensures sent { IfOk result (λ pair. (kept : Kept) → Keeps self kept →
            pair.1 ≡ part_sent kept bucket change.now) }
    {
        let mut group = self;
        let alloc = group.alloc;
        let sender = group.owner_number(bucket);
        let place = group.count(sender, bucket);
        let epoch = group.opened;
        let copy = change.copy(alloc)?;
        add_to_all(alloc, &mut group.buffers, bucket, epoch, change)?;
        let message = Message::Part {
            bucket,
            epoch,
            place,
            change: copy,
        };
        Ok((group, Sent { sender, message }))
    }

    /// Closes the open epoch and opens `next`; `prev` is the epoch closed before it. Each node that
    /// buffers the epoch records the close. Returns the group, and what is sent: the owners' Dones
    /// of the buckets, the lowest bucket first, then the resends of the home nodes that get their
    /// buckets back. If memory allocation fails, the group is gone.
    pub fn close(self, prev: Epoch, next: Epoch) -> Result<(Group, SentList), NoMemory>
        requires ready { CanClose self next.0 }
        ensures kept { IfOk result (λ pair. (kept : Kept) → Keeps self kept →
            Keeps pair.0 (with_close prev.0 next.0 kept)) }
        ensures sent { IfOk result (λ pair. (kept : Kept) → Keeps self kept →
            pair.1 ≡ sent_at_close prev.0 next.0 kept) }
    {
        let mut group = self;
        let mut sent = group.dones(prev)?;
        group.close_nodes(prev, next)?;
        group.push_returned(&mut sent)?;
        let owners = group.owners_after()?;
        group.owners = owners;
        Ok((group, Items::from_vec(sent)))
    }

    /// Fails a node. Its buffer is gone, and the next node that covers takes over its buckets and
    /// resends them. If none covers, the group is lost.
    pub fn fail(&mut self, node: u32) -> Result<FailOutcome, GroupFault>
        requires ready { CanFail self.old node }
        ensures failed { IfOk result (λ outcome. (kept : Kept) → Keeps self.old kept →
            FailsTo kept node outcome self.new) }
        ensures up { OnOk result ((kept : Kept) → Keeps self.old kept →
            is_some (since_in kept node) ≡ true) }
        ensures refused { IfErr result (λ fault. (kept : Kept) → Keeps self.old kept →
            Keeps self.new kept × FailFault kept node fault) }
    {
        if !self.is_up(node) {
            return Err(GroupFault::NodeDown(node));
        }
        match self.successor(node) {
            Some(successor) => {
                let outcome = self.take_over(node, successor)?;
                Ok(outcome)
            }
            None => Ok(self.lose(node)),
        }
    }

    /// Has every owner resend what is unacknowledged of its buckets, the lowest bucket first.
    pub fn resend(&self) -> Result<SentList, NoMemory>
        requires ready { CanResend self.now }
        ensures { IfOk result (λ sent. (kept : Kept) → Keeps self.now kept →
            sent ≡ sent_at_resend kept) }
    {
        let sent = self.again()?;
        Ok(Items::from_vec(sent))
    }

    /// Acknowledges all epochs up to this one: what was buffered of them is released. An earlier
    /// epoch than the last acknowledged one changes nothing. Allocates nothing.
    pub fn acknowledge(&mut self, through: Epoch)
        requires ready { CanAcknowledge self.old through.0 }
        ensures { (kept : Kept) → Keeps self.old kept →
            Keeps self.new (with_acknowledged through.0 kept) }
    {
        if self.is_acknowledged(through) {
            return;
        }
        release_in_all(&mut self.buffers, through);
        forget_closed(&mut self.closed, through.0);
        self.acknowledged = Some(through);
    }

    /// Restarts a node that is down, with an empty buffer. Returns the first epoch that it buffers,
    /// the one after the open epoch.
    pub fn restart(&mut self, node: u32) -> Result<Epoch, GroupFault>
        requires ready { CanRestart self.old node }
        ensures restarted { IfOk result (λ since. (kept : Kept) → Keeps self.old kept →
            (since.0 ≡ kept.opened + 1) × (since_in kept node ≡ None)
            × Keeps self.new (with_since node (Some (kept.opened + 1)) kept)) }
        ensures refused { IfErr result (λ fault. (kept : Kept) → Keeps self.old kept →
            Keeps self.new kept × RestartFault kept node fault) }
    {
        if self.is_up(node) {
            return Err(GroupFault::NodeUp(node));
        }
        let since = Epoch(self.opened.0 + 1);
        let nodes = self.buffers.len() as u32;
        let buffer = BucketBuffer::new(self.alloc, self.first, nodes, since)?;
        self.buffers[(node - self.first) as usize] = Some(buffer);
        Ok(since)
    }

    // Returns whether an epoch is acknowledged.
    fn is_acknowledged(&self, epoch: Epoch) -> bool
        ensures { result ≡ not (is_after (acknowledged_of self.now) epoch.0) }
    {
        match self.acknowledged {
            Some(last) => epoch.0 <= last.0,
            None => false,
        }
    }

    // Returns the needed epoch.
    fn first_needed(&self) -> Epoch
        ensures { result.0 ≡ needed_of self.now }
    {
        match self.closed.front() {
            Some(epoch) => *epoch,
            None => self.opened,
        }
    }

    // Returns the buffer of a node that is up.
    fn buffer(&self, node: u32) -> Option<&BucketBuffer>
        requires number { IsIn self.now node }
        ensures { option_map (λ buffer. buffer.now) result ≡ buffer_of self.now node }
    {
        self.buffers[(node - self.first) as usize].as_ref()
    }

    // Returns whether a node is up.
    fn is_up(&self, node: u32) -> bool
        requires number { IsIn self.now node }
        ensures { result ≡ is_some (buffer_of self.now node) }
    {
        self.buffer(node).is_some()
    }

    // Returns whether a node covers.
    fn is_covering(&self, node: u32) -> bool
        requires number { IsIn self.now node }
        ensures { result ≡ covers_of self.now node }
    {
        match self.buffer(node) {
            Some(buffer) => buffer.since().0 <= self.first_needed().0,
            None => false,
        }
    }

    // Returns the owner of a bucket, whether it is up or down.
    fn owner_number(&self, bucket: u32) -> u32
        requires number { IsIn self.now bucket }
        ensures { result ≡ owner_of self.now bucket }
    {
        self.owners[(bucket - self.first) as usize]
    }

    // Returns how many changes a node holds of a bucket in the open epoch.
    fn count(&self, node: u32, bucket: u32) -> u32
        requires ready { CanCount self.now node bucket }
        ensures { result ≡ count_of self.now node bucket }
    {
        match self.buffer(node) {
            Some(buffer) => buffer.count(bucket, self.opened),
            None => 0,
        }
    }

    // Appends what a node resends of a bucket.
    fn push_again(&self, sent: &mut Vec<Sent>, sender: u32, bucket: u32) -> Result<(), NoMemory>
        requires ready { CanSend self.now sender bucket }
        ensures { OnOk result (sent.new.items ≡ sent.old.items ++ again_of self.now sender bucket) }
    {
        if let Some(buffer) = self.buffer(sender) {
            let messages = buffer.messages(bucket)?;
            push_from(sent, sender, messages)?;
        }
        Ok(())
    }

    // Returns what every owner resends.
    fn again(&self) -> Result<Vec<Sent>, NoMemory>
        requires ready { HasCountableBuffers self.now }
        ensures { IfOk result (λ sent. sent.items
            ≡ flat_map (λ bucket. again_of self.now (owner_of self.now bucket) bucket)
            (numbers_in self.now)) }
    {
        let mut sent = Vec::new(self.alloc);
        for index in 0..self.owners.len() {
            let bucket = self.first + index as u32;
            let owner = self.owner_number(bucket);
            self.push_again(&mut sent, owner, bucket)?;
        }
        Ok(sent)
    }

    // Returns the Done of each bucket in the open epoch; `prev` is the epoch closed before it.
    fn dones(&self, prev: Epoch) -> Result<Vec<Sent>, NoMemory>
        requires ready { HasCountableBuffers self.now }
        ensures { IfOk result (λ sent. sent.items
            ≡ map (done_of self.now prev) (numbers_in self.now)) }
    {
        let mut sent = Vec::new(self.alloc);
        for index in 0..self.owners.len() {
            let bucket = self.first + index as u32;
            let sender = self.owner_number(bucket);
            let message = Message::Done {
                bucket,
                epoch: self.opened,
                prev,
                count: self.count(sender, bucket),
            };
            sent.push(Sent { sender, message })?;
        }
        Ok(sent)
    }

    // Records the close of the open epoch at each node that buffers it, and opens the next one.
    fn close_nodes(&mut self, prev: Epoch, next: Epoch) -> Result<(), NoMemory>
        ensures { OnOk result ((kept : Kept) → Keeps self.old kept → kept.opened < next.0 →
            Keeps self.new (only_closed prev.0 next.0 kept)) }
    {
        close_in_all(&mut self.buffers, self.opened, prev)?;
        self.closed.push_back(self.opened)?;
        self.opened = next;
        Ok(())
    }

    // Returns whether a bucket returns to its home node.
    fn returns(&self, bucket: u32) -> bool
        requires number { IsIn self.now bucket }
        ensures { result ≡ returns_of self.now bucket }
    {
        if self.owner_number(bucket) == bucket {
            return false;
        }
        self.is_covering(bucket)
    }

    // Returns the owner of a bucket after a close.
    fn next_owner(&self, bucket: u32) -> u32
        requires number { IsIn self.now bucket }
        ensures { result ≡ owner_after self.now bucket }
    {
        if self.returns(bucket) {
            return bucket;
        }
        self.owner_number(bucket)
    }

    // Appends what the home node of a bucket resends, if it gets the bucket back.
    fn push_if_returned(&self, sent: &mut Vec<Sent>, bucket: u32) -> Result<(), NoMemory>
        requires ready { CanSend self.now bucket bucket }
        ensures { OnOk result (sent.new.items ≡ sent.old.items
            ++ (if returns_of self.now bucket then again_of self.now bucket bucket else [])) }
    {
        if self.returns(bucket) {
            self.push_again(sent, bucket, bucket)?;
        }
        Ok(())
    }

    // Appends what the home nodes resend that get their buckets back.
    fn push_returned(&self, sent: &mut Vec<Sent>) -> Result<(), NoMemory>
        requires ready { HasCountableBuffers self.now }
        ensures { OnOk result (sent.new.items ≡ sent.old.items ++ returned_of self.now) }
    {
        for index in 0..self.owners.len() {
            self.push_if_returned(sent, self.first + index as u32)?;
        }
        Ok(())
    }

    // Returns the owners after a close.
    fn owners_after(&self) -> Result<Vec<u32>, NoMemory>
        requires ready { KeepsSome self.now }
        ensures { IfOk result (λ owners. owners.items
            ≡ map (owner_after self.now) (numbers_in self.now)) }
    {
        let mut owners = Vec::new(self.alloc);
        for index in 0..self.owners.len() {
            let owner = self.next_owner(self.first + index as u32);
            owners.push(owner)?;
        }
        Ok(owners)
    }

    // Returns the first node that covers, from place `from` to before place `until`.
    fn covering(&self, from: usize, until: usize) -> Option<u32>
        requires ready { CanSeek self.now from until }
        ensures { result ≡ find (covers_of self.now)
            (numbers_from (self.now.first + from) (until - from)) }
    {
        for index in from..until {
            let node = self.first + index as u32;
            if self.is_covering(node) {
                return Some(node);
            }
        }
        None
    }

    // Returns the next node after this one, in cyclic order, that covers.
    fn successor(&self, node: u32) -> Option<u32>
        requires ready { CanFail self.now node }
        ensures { result ≡ find (covers_of self.now) (others_of self.now node) }
    {
        let index = (node - self.first) as usize;
        match self.covering(index + 1, self.owners.len()) {
            Some(successor) => Some(successor),
            None => self.covering(0, index),
        }
    }

    // Returns how many buckets a node owns.
    fn owned_count(&self, node: u32) -> u32
        requires ready { KeepsSome self.now }
        ensures { result ≡ length (owned_of self.now node) }
    {
        let mut count = 0;
        for index in 0..self.owners.len() {
            if self.owner_number(self.first + index as u32) == node {
                count += 1;
            }
        }
        count
    }

    // Appends what a successor resends of a bucket, if the failed node owned it.
    fn push_if_owned(
        &self,
        sent: &mut Vec<Sent>,
        node: u32,
        successor: u32,
        bucket: u32,
    ) -> Result<(), NoMemory>
        requires ready { CanSend self.now successor bucket }
        ensures { OnOk result (sent.new.items ≡ sent.old.items
            ++ (if owner_of self.now bucket == node then again_of self.now successor bucket else
            [])) }
    {
        if self.owner_number(bucket) == node {
            self.push_again(sent, successor, bucket)?;
        }
        Ok(())
    }

    // Returns what a successor resends.
    fn taken(&self, node: u32, successor: u32) -> Result<Vec<Sent>, NoMemory>
        requires ready { CanTakeOver self.now node successor }
        ensures { IfOk result (λ sent. sent.items ≡ taken_of self.now node successor) }
    {
        let mut sent = Vec::new(self.alloc);
        for index in 0..self.owners.len() {
            let bucket = self.first + index as u32;
            self.push_if_owned(&mut sent, node, successor, bucket)?;
        }
        Ok(sent)
    }

    // Returns the owners after a node's buckets go to another node.
    fn owners_moved(&self, node: u32, successor: u32) -> Result<Vec<u32>, NoMemory>
        ensures { IfOk result (λ owners. owners.items
            ≡ map (λ owner. if owner == node then successor else owner) self.now.owners.items) }
    {
        let mut owners = Vec::new(self.alloc);
        for index in 0..self.owners.len() {
            owners.push(moved(self.owners[index], node, successor))?;
        }
        Ok(owners)
    }

    // Takes a node down; its successor takes over its buckets.
    fn take_over(&mut self, node: u32, successor: u32) -> Result<FailOutcome, NoMemory>
        requires ready { CanTakeOver self.old node successor }
        ensures taken { IfOk result (λ outcome. (kept : Kept) → Keeps self.old kept →
            FailsTo kept node outcome self.new) }
        ensures refused { IfErr result (λ fault. self.new ≡ self.old) }
    {
        let sent = self.taken(node, successor)?;
        let owners = self.owners_moved(node, successor)?;
        let count = self.owned_count(node);
        self.buffers[(node - self.first) as usize] = None;
        self.owners = owners;
        Ok(FailOutcome::Takeover(count, Items::from_vec(sent)))
    }

    // Takes a node down that has no successor.
    fn lose(&mut self, node: u32) -> FailOutcome
        requires ready { CanFail self.old node }
        ensures { (kept : Kept) → Keeps self.old kept → successor_in kept node ≡ None →
            FailsTo kept node result self.new }
    {
        let epoch = self.first_needed();
        let group = (self.first as usize / self.buffers.len()) as u32;
        self.buffers[(node - self.first) as usize] = None;
        FailOutcome::Lost { group, epoch }
    }
}
