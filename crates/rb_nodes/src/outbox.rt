ghost use Rattle.std.specs.Prelude.{◌≡◌, ◌<◌, ◌≤◌, ◌==◌, ◌++◌, ◌∷◌, [], ℕ, List, length, option_map, Some, IfOk, OnOk, if◌then◌else◌};
ghost use Rattle.std.specs.List.{slice_get};
ghost use Rattle.rb_base.specs.declared.message.Sent.{Sent};
ghost use Rattle.rb_journal_defs.specs.Transaction.{first_of};
ghost use Rattle.rb_message_defs.specs.Nodes.{is_gone, waiting_places};
ghost use Rattle.rb_nodes.specs.Outbox.{HoldsSent, count_in};

use rb_base::{Message, NoMemory, Sent};
use std::alloc::Global;
use std::collections::BTreeSet;

/// All messages that a site's nodes ever sent, in order; the places of those never delivered,
/// except some whose sender has failed since; and for each node how many messages had been sent
/// when it last failed, 0 if it never did.
#[derive(Drop)]
pub(crate) struct Outbox {
    alloc: Global,
    sent: Vec<Sent>,
    waiting: BTreeSet<u64>,
    failed: Vec<u64>,
}

impl Outbox {
    /// Returns an outbox of `nodes` nodes, in which nothing was sent.
    pub(crate) fn new(alloc: Global, nodes: u32) -> Result<Outbox, NoMemory>
        ensures { IfOk result (λ outbox. HoldsSent outbox [] [] (λ node. 0)
            × (length outbox.failed.items ≡ nodes)) }
    {
        let failed = vec![in alloc; 0u64; nodes as usize]?;
        Ok(Outbox {
            alloc,
            sent: Vec::new(alloc),
            waiting: BTreeSet::new(alloc),
            failed,
        })
    }

    /// Returns how many messages were sent.
    pub(crate) fn len(&self) -> u64
        ensures { result ≡ count_in self.now }
    {
        self.sent.len() as u64
    }

    /// Sends a message. After an `Err` the outbox must not be used.
    pub(crate) fn send(&mut self, message: Sent) -> Result<(), NoMemory>
        requires sender { message.sender < length self.old.failed.items }
        ensures sent { OnOk result ((sent : List Sent) (delivered : List ℕ) (failed_at : ℕ → ℕ) →
            HoldsSent self.old sent delivered failed_at →
            HoldsSent self.new (sent ++ message ∷ []) delivered failed_at) }
        ensures nodes { length self.new.failed.items ≡ length self.old.failed.items }
    {
        self.waiting.insert(self.sent.len() as u64)?;
        self.sent.push(message)?;
        Ok(())
    }

    /// Returns the first place whose message was never delivered and whose sender has not failed
    /// since. Drops the places of failed senders that come before it.
    pub(crate) fn first_waiting(&mut self) -> Option<u64>
        ensures first { (sent : List Sent) (delivered : List ℕ) (failed_at : ℕ → ℕ) →
            HoldsSent self.old sent delivered failed_at →
            result ≡ first_of (waiting_places failed_at sent delivered) }
        ensures holds { (sent : List Sent) (delivered : List ℕ) (failed_at : ℕ → ℕ) →
            HoldsSent self.old sent delivered failed_at →
            HoldsSent self.new sent delivered failed_at }
        ensures sent { self.new.sent ≡ self.old.sent }
        ensures failed { self.new.failed ≡ self.old.failed }
    {
        while let Some(place) = self.waiting.first().copied() {
            if !self.is_gone(place) {
                return Some(place);
            }
            self.waiting.remove(&place);
        }
        None
    }

    // Returns whether the sender of the message at a place has failed since.
    fn is_gone(&self, place: u64) -> bool
        ensures { (sent : List Sent) (delivered : List ℕ) (failed_at : ℕ → ℕ) →
            HoldsSent self.now sent delivered failed_at →
            result ≡ is_gone failed_at sent place }
    {
        let Some(message) = self.sent.get(place as usize) else {
            return false;
        };
        let Some(failed) = self.failed.get(message.sender as usize) else {
            return false;
        };
        place < *failed
    }

    /// Returns a copy of the message at a place, and marks it as delivered. After an `Err` the
    /// outbox must not be used.
    pub(crate) fn deliver(&mut self, place: u64) -> Result<Message, NoMemory>
        requires place { place < count_in self.old }
        ensures message { IfOk result (λ message.
            (sent : List Sent) (delivered : List ℕ) (failed_at : ℕ → ℕ) →
            HoldsSent self.old sent delivered failed_at →
            option_map (λ sent. sent.message) (slice_get sent place) ≡ Some message) }
        ensures delivered { OnOk result ((sent : List Sent) (delivered : List ℕ) (failed_at : ℕ →
            ℕ) → HoldsSent self.old sent delivered failed_at →
            HoldsSent self.new sent (place ∷ delivered) failed_at) }
        ensures nodes { length self.new.failed.items ≡ length self.old.failed.items }
    {
        self.waiting.remove(&place);
        self.sent[place as usize].message.copy(self.alloc)
    }

    /// Records that a node failed: `first_waiting` no longer returns what it has sent so far.
    pub(crate) fn node_failed(&mut self, node: u32)
        requires node { node < length self.old.failed.items }
        ensures failed { (sent : List Sent) (delivered : List ℕ) (failed_at : ℕ → ℕ) →
            HoldsSent self.old sent delivered failed_at →
            HoldsSent self.new sent delivered
            (λ other. if other == node then length sent else failed_at other) }
        ensures nodes { length self.new.failed.items ≡ length self.old.failed.items }
    {
        self.failed[node as usize] = self.sent.len() as u64;
    }
}
