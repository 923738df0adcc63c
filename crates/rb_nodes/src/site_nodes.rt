ghost use Rattle.std.specs.Prelude.{◌≡◌, ◌*◌, ◌+◌, ◌<◌, ◌≤◌, ◌^◌, ℕ, Some, true, false, IfOk, IfErr, OnOk};
ghost use Rattle.std.specs.List.{slice_get};
ghost use Rattle.std.specs.Option.{option_map};
ghost use Rattle.rb_journal_defs.specs.Clock.{first_epoch};
ghost use Rattle.rb_journal_defs.specs.Transaction.{first_of};
ghost use Rattle.rb_message_defs.specs.Nodes.{node_at};
ghost use Rattle.rb_nodes.specs.Nodes.{GroupHolds, RestartFault};
ghost use Rattle.rb_nodes.specs.Net.{Net, HoldsNet, HasGroups, SameSize, waiting_in, buckets_in, groups_in, count_in, lost_in, new_net, committed_net, closed_net, failed_net, failure_of, restarted_net, resent_net, delivered_net, acknowledged_net, CanCommit, CanClose, CanFail, CanRestart, CanResend, CanAcknowledge, RefusesFailure};

use crate::answers::NodeFailure;
use crate::nodes::Nodes;
use crate::outbox::Outbox;
use crate::sending::{send_all, send_parts};
use rb_base::{Change, Epoch, Message, NoMemory};
use rb_group::{FailOutcome, Group, GroupFault};
use std::alloc::Global;

/// The data nodes of a site, and all messages that they sent.
#[derive(Drop)]
pub struct SiteNodes {
    nodes: Nodes,
    outbox: Outbox,
    // The lost group, with the epoch that was needed when it was lost.
    lost: Option<(u32, Epoch)>,
}

impl SiteNodes {
    /// Returns `groups` groups of `replicas` nodes each, which have buffered and sent nothing.
    /// `opened` is the open epoch.
    pub fn new(
        alloc: Global,
        groups: u32,
        replicas: u32,
        opened: Epoch,
    ) -> Result<SiteNodes, NoMemory>
        requires some { 1 ≤ replicas }
        requires fits { groups * replicas < 2 ^ 32 }
        requires opened { opened.0 ≡ first_epoch }
        ensures holds { IfOk result (λ nodes.
            HoldsNet nodes (groups * replicas) (new_net groups replicas opened.0)) }
        ensures size { IfOk result (HasGroups groups replicas) }
    {
        let nodes = Nodes::new(alloc, groups, replicas, opened)?;
        let outbox = Outbox::new(alloc, groups * replicas)?;
        Ok(SiteNodes {
            nodes,
            outbox,
            lost: None,
        })
    }

    /// Commits changes of the open epoch. The nodes of a change's group that buffer this epoch keep
    /// it, and the bucket's owner sends it. If memory allocation fails, the nodes are gone.
    pub fn commit(self, changes: &[Change]) -> Result<SiteNodes, NoMemory>
        requires room { CanCommit self changes.now }
        ensures holds { IfOk result (λ after. (buckets : ℕ) (net : Net) →
            HoldsNet self buckets net →
            HoldsNet after buckets (committed_net buckets changes.now net)) }
        ensures size { IfOk result (SameSize self) }
    {
        let mut all = self;
        let nodes = send_parts(all.nodes, &mut all.outbox, changes)?;
        Ok(SiteNodes { nodes, ..all })
    }

    /// Closes the open epoch and opens `next`; `prev` is the epoch closed before it. Every node
    /// that buffers the epoch records the close, the owners send their Dones, and home nodes that
    /// get their buckets back resend them. If memory allocation fails, the nodes are gone.
    pub fn close(self, prev: Epoch, next: Epoch) -> Result<SiteNodes, NoMemory>
        requires room { CanClose self next.0 }
        ensures holds { IfOk result (λ after. (buckets : ℕ) (net : Net) →
            HoldsNet self buckets net →
            HoldsNet after buckets (closed_net buckets prev.0 next.0 net)) }
        ensures size { IfOk result (SameSize self) }
    {
        let mut all = self;
        let (nodes, messages) = all.nodes.close(prev, next)?;
        send_all(&mut all.outbox, messages)?;
        Ok(SiteNodes { nodes, ..all })
    }

    /// Fails a node. Its successor takes over its buckets and resends what is unacknowledged of
    /// them, or the group is lost. `NodeDown` leaves the nodes unchanged. After `NoMemory` the
    /// nodes must not be used.
    pub fn fail(&mut self, node: u32) -> Result<NodeFailure, GroupFault>
        requires ready { CanFail self.old node }
        ensures failed { IfOk result (λ failure. (buckets : ℕ) (net : Net) →
            HoldsNet self.old buckets net →
            ((node_at net.buffered.members node).up ≡ true) × (failure ≡ failure_of node net)
            × HoldsNet self.new buckets (failed_net buckets node net)) }
        ensures refused { IfErr result (λ fault. (buckets : ℕ) (net : Net) →
            HoldsNet self.old buckets net → RefusesFailure node buckets net self.new fault) }
        ensures size { SameSize self.old self.new }
    {
        match self.nodes.fail(node) {
            Ok(FailOutcome::Takeover(count, messages)) => {
                self.outbox.node_failed(node);
                send_all(&mut self.outbox, messages.into_vec())?;
                Ok(NodeFailure::Takeover(count))
            }
            Ok(FailOutcome::Lost { group, epoch }) => {
                self.outbox.node_failed(node);
                self.lost = Some((group, epoch));
                Ok(NodeFailure::Lost { group, epoch })
            }
            Err(fault) => Err(fault),
        }
    }

    /// Restarts a node, and returns the first epoch that it buffers. An error leaves the nodes
    /// unchanged.
    pub fn restart(&mut self, node: u32) -> Result<Epoch, GroupFault>
        requires ready { CanRestart self.old node }
        ensures restarted { IfOk result (λ since. (buckets : ℕ) (net : Net) →
            HoldsNet self.old buckets net →
            (since.0 ≡ net.buffered.opened + 1)
            × ((node_at net.buffered.members node).up ≡ false)
            × HoldsNet self.new buckets (restarted_net node net)) }
        ensures refused { IfErr result (λ fault. (buckets : ℕ) (net : Net) →
            HoldsNet self.old buckets net → HoldsNet self.new buckets net
            × RestartFault net.buffered node fault) }
        ensures size { SameSize self.old self.new }
    {
        self.nodes.restart(node)
    }

    /// Has every owner resend what is unacknowledged of its buckets. After an `Err` the nodes must
    /// not be used.
    pub fn resend(&mut self) -> Result<(), NoMemory>
        requires ready { CanResend self.old }
        ensures holds { OnOk result ((buckets : ℕ) (net : Net) → HoldsNet self.old buckets net →
            HoldsNet self.new buckets (resent_net buckets net)) }
        ensures size { SameSize self.old self.new }
    {
        let messages = self.nodes.resend()?;
        send_all(&mut self.outbox, messages)?;
        Ok(())
    }

    /// Acknowledges all epochs up to this one: what is buffered of them is released. An earlier
    /// epoch than the last acknowledged one changes nothing. Allocates nothing.
    pub fn acknowledge(&mut self, through: Epoch)
        requires ready { CanAcknowledge self.old through.0 }
        ensures holds { (buckets : ℕ) (net : Net) → HoldsNet self.old buckets net →
            HoldsNet self.new buckets (acknowledged_net through.0 net) }
        ensures size { SameSize self.old self.new }
    {
        self.nodes.acknowledge(through);
    }

    /// Returns a copy of the message at a place, and marks it as delivered. After an `Err` the
    /// nodes must not be used.
    pub fn deliver(&mut self, place: u64) -> Result<Message, NoMemory>
        requires place { place < count_in self.old }
        ensures message { IfOk result (λ message. (buckets : ℕ) (net : Net) →
            HoldsNet self.old buckets net →
            option_map (λ sent. sent.message) (slice_get net.sent place) ≡ Some message) }
        ensures delivered { OnOk result ((buckets : ℕ) (net : Net) →
            HoldsNet self.old buckets net →
            HoldsNet self.new buckets (delivered_net place net)) }
        ensures size { SameSize self.old self.new }
    {
        self.outbox.deliver(place)
    }

    /// Returns the first place whose message was never delivered and whose sender has not failed
    /// since. What it drops to find the place changes nothing that the nodes represent.
    pub fn first_waiting(&mut self) -> Option<u64>
        ensures first { (buckets : ℕ) (net : Net) → HoldsNet self.old buckets net →
            result ≡ first_of (waiting_in net) }
        ensures holds { (buckets : ℕ) (net : Net) → HoldsNet self.old buckets net →
            HoldsNet self.new buckets net }
        ensures size { SameSize self.old self.new }
    {
        self.outbox.first_waiting()
    }

    /// Returns how many messages were sent. Allocates nothing.
    pub fn sent_len(&self) -> u64
        ensures { result ≡ count_in self.now }
    {
        self.outbox.len()
    }

    /// Returns the number of all buckets. Allocates nothing.
    pub fn buckets(&self) -> u32
        ensures { result ≡ buckets_in self.now }
    {
        self.nodes.buckets()
    }

    /// Returns group `number`, counted from 0. Allocates nothing.
    pub fn group(&self, number: u32) -> &Group
        requires number { number < groups_in self.now }
        ensures { (buckets : ℕ) (net : Net) → HoldsNet self.now buckets net →
            GroupHolds buckets net.buffered number result.now }
    {
        self.nodes.group(number)
    }

    /// Returns the lost group with the epoch that was needed when it was lost; `None` if no group
    /// is lost. Allocates nothing.
    pub fn lost(&self) -> Option<(u32, Epoch)>
        ensures { result ≡ lost_in self.now }
    {
        self.lost
    }
}
