ghost use Rattle.std.specs.Prelude.{◌≡◌, ◌≤◌, ◌<◌, ◌+◌, ◌*◌, ◌^◌, ◌++◌, ◌∷◌, [], ℕ, max, length, true, false, IfOk, IfErr, OnOk};
ghost use Rattle.rb_journal_defs.specs.Clock.{first_epoch};
ghost use Rattle.rb_message_defs.specs.Message.{part_message, sent_by};
ghost use Rattle.rb_message_defs.specs.Nodes.{nodes_at_first, node_at, owner_in, with_restart};
ghost use Rattle.rb_nodes.specs.Nodes.{Buffered, nothing_done, HasNodes, SameGroups, with_changes, with_close, with_acknowledged, with_members, GroupHolds, HoldsNodes, CanCommit, CanCloseAll, CanResend, CanFail, CanRestart, CanAcknowledge, FailsTo, FailFault, RestartFault, sent_at_close, sent_at_resend};

use rb_base::{Change, Epoch, NoMemory, Sent, SentList, bucket_of};
use rb_group::{FailOutcome, Group, GroupFault};
use std::alloc::Global;

/// The node groups of a site.
#[derive(Drop)]
pub(crate) struct Nodes {
    alloc: Global,
    groups: Vec<Group>,
    // Nodes in each group; a group has as many buckets.
    replicas: u32,
    // Buckets of all groups.
    buckets: u32,
}

impl Nodes {
    /// Returns `groups` groups of `replicas` nodes each, which have buffered nothing.
    pub(crate) fn new(
        alloc: Global,
        groups: u32,
        replicas: u32,
        opened: Epoch,
    ) -> Result<Nodes, NoMemory>
        requires some { 1 ≤ replicas }
        requires fits { groups * replicas < 2 ^ 32 }
        requires opened { opened.0 ≡ first_epoch }
        ensures holds { IfOk result (λ nodes.
            HoldsNodes nodes (groups * replicas)
            (nothing_done opened.0 (nodes_at_first groups replicas))) }
        ensures nodes { IfOk result (HasNodes groups replicas) }
    {
        let mut all = Vec::new(alloc);
        for number in 0..groups {
            let mut group = Group::new(alloc, number * replicas, replicas, opened)?;
            // 0 means that no epoch is acknowledged: all epochs of a site are above it.
            group.acknowledge(Epoch(0));
            all.push(group)?;
        }
        Ok(Nodes {
            alloc,
            groups: all,
            replicas,
            buckets: groups * replicas,
        })
    }

    /// Commits a change of the open epoch. The nodes of its bucket's group that buffer this epoch
    /// keep it. Returns the nodes, and the message that the bucket's owner sends. If memory
    /// allocation fails, the nodes are gone.
    pub(crate) fn commit(self, change: &Change) -> Result<(Nodes, Sent), NoMemory>
        requires room { CanCommit self }
        ensures holds { IfOk result (λ pair. (buckets : ℕ) (site : Buffered) →
            HoldsNodes self buckets site →
            HoldsNodes pair.0 buckets (with_changes (change.now ∷ []) site)) }
        ensures sent { IfOk result (λ pair. (buckets : ℕ) (site : Buffered) →
            HoldsNodes self buckets site →
            pair.1 ≡ sent_by (owner_in site.members)
            (part_message buckets site.opened (site.changes site.opened) change.now)) }
        ensures nodes { IfOk result (λ pair. SameGroups self pair.0) }
    {
        let mut nodes = self;
        let bucket = bucket_of(change.table, change.key, nodes.buckets);
        let number = (bucket / nodes.replicas) as usize;
        let group = nodes.groups.remove(number);
        let (group, sent) = group.commit_part(bucket, change)?;
        nodes.groups.insert(number, group)?;
        Ok((nodes, sent))
    }

    /// Closes the open epoch and opens `next`; `prev` is the epoch closed before it. Every node
    /// that buffers the epoch records the close. Returns the nodes, and what the owners send, group
    /// 0 first. If memory allocation fails, the nodes are gone.
    pub(crate) fn close(self, prev: Epoch, next: Epoch) -> Result<(Nodes, Vec<Sent>), NoMemory>
        requires room { CanCloseAll self next.0 }
        ensures holds { IfOk result (λ pair. (buckets : ℕ) (site : Buffered) →
            HoldsNodes self buckets site →
            HoldsNodes pair.0 buckets (with_close prev.0 next.0 site)) }
        ensures sent { IfOk result (λ pair. (buckets : ℕ) (site : Buffered) →
            HoldsNodes self buckets site →
            pair.1.items ≡ sent_at_close buckets site prev.0 next.0 (length self.groups.items)) }
        ensures nodes { IfOk result (λ pair. SameGroups self pair.0) }
    {
        let alloc = self.alloc;
        let mut groups = Vec::new(alloc);
        let mut sent = Vec::new(alloc);
        for group in self.groups {
            let (group, messages) = group.close(prev, next)?;
            append(&mut sent, messages)?;
            groups.push(group)?;
        }
        let nodes = Nodes {
            alloc,
            groups,
            replicas: self.replicas,
            buckets: self.buckets,
        };
        Ok((nodes, sent))
    }

    /// Fails a node. Its successor resends what is unacknowledged of its buckets, or the group is
    /// lost.
    pub(crate) fn fail(&mut self, node: u32) -> Result<FailOutcome, GroupFault>
        requires ready { CanFail self.old node }
        ensures failed { IfOk result (λ outcome. (buckets : ℕ) (site : Buffered) (sent : ℕ) →
            HoldsNodes self.old buckets site →
            ((node_at site.members node).up ≡ true)
            × FailsTo buckets site node sent outcome self.new) }
        ensures refused { IfErr result (λ fault. (buckets : ℕ) (site : Buffered) →
            HoldsNodes self.old buckets site → HoldsNodes self.new buckets site
            × FailFault site node fault) }
        ensures nodes { SameGroups self.old self.new }
    {
        self.groups[(node / self.replicas) as usize].fail(node)
    }

    /// Restarts a node, and returns the first epoch that it buffers.
    pub(crate) fn restart(&mut self, node: u32) -> Result<Epoch, GroupFault>
        requires ready { CanRestart self.old node }
        ensures restarted { IfOk result (λ since. (buckets : ℕ) (site : Buffered) →
            HoldsNodes self.old buckets site →
            (since.0 ≡ site.opened + 1) × ((node_at site.members node).up ≡ false)
            × HoldsNodes self.new buckets
            (with_members (with_restart node site.opened site.members) site)) }
        ensures refused { IfErr result (λ fault. (buckets : ℕ) (site : Buffered) →
            HoldsNodes self.old buckets site → HoldsNodes self.new buckets site
            × RestartFault site node fault) }
        ensures nodes { SameGroups self.old self.new }
    {
        self.groups[(node / self.replicas) as usize].restart(node)
    }

    /// Returns what the owners resend, group 0 first.
    pub(crate) fn resend(&self) -> Result<Vec<Sent>, NoMemory>
        requires ready { CanResend self.now }
        ensures { IfOk result (λ sent. (buckets : ℕ) (site : Buffered) →
            HoldsNodes self.now buckets site →
            sent.items ≡ sent_at_resend buckets site (length self.now.groups.items)) }
    {
        let mut sent = Vec::new(self.alloc);
        for group in &self.groups {
            append(&mut sent, group.resend()?)?;
        }
        Ok(sent)
    }

    /// Acknowledges all epochs up to this one. An earlier epoch than the last acknowledged one
    /// changes nothing.
    pub(crate) fn acknowledge(&mut self, through: Epoch)
        requires ready { CanAcknowledge self.old through.0 }
        ensures holds { (buckets : ℕ) (site : Buffered) → HoldsNodes self.old buckets site →
            HoldsNodes self.new buckets (with_acknowledged (max site.acknowledged through.0) site) }
        ensures nodes { SameGroups self.old self.new }
    {
        for index in 0..self.groups.len() {
            self.groups[index].acknowledge(through);
        }
    }

    /// Returns the number of all buckets.
    pub(crate) fn buckets(&self) -> u32
        ensures { result ≡ self.now.buckets }
    {
        self.buckets
    }

    /// Returns group `number`, counted from 0.
    pub(crate) fn group(&self, number: u32) -> &Group
        requires number { number < length self.now.groups.items }
        ensures { (buckets : ℕ) (site : Buffered) → HoldsNodes self.now buckets site →
            GroupHolds buckets site number result.now }
    {
        &self.groups[number as usize]
    }
}

// Appends messages.
fn append(sent: &mut Vec<Sent>, messages: SentList) -> Result<(), NoMemory>
    ensures { OnOk result (sent.new.items ≡ sent.old.items ++ messages) }
{
    for message in messages.into_vec() {
        sent.push(message)?;
    }
    Ok(())
}
