ghost use Rattle.std.specs.Prelude.{◌≡◌, ◌++◌, ◌<◌, ℕ, List, length, map, IfOk, OnOk};
ghost use Rattle.std.specs.List.{AllByRecursion};
ghost use Rattle.rb_base.specs.declared.message.Sent.{Sent};
ghost use Rattle.rb_message_defs.specs.Message.{parts_sent, sent_by};
ghost use Rattle.rb_message_defs.specs.Nodes.{owner_in};
ghost use Rattle.rb_nodes.specs.Nodes.{Buffered, with_changes, HoldsNodes, SameGroups, CanSend};
ghost use Rattle.rb_nodes.specs.Outbox.{HoldsSent, nodes_in, OwnersIn};

use crate::nodes::Nodes;
use crate::outbox::Outbox;
use rb_base::{Change, NoMemory, Sent};

/// Sends the changes of a transaction. The nodes of a change's group that buffer the open epoch
/// keep it, and the bucket's owner sends it. After an `Err` the outbox must not be used.
pub(crate) fn send_parts(
    nodes: Nodes,
    outbox: &mut Outbox,
    changes: &[Change],
) -> Result<Nodes, NoMemory>
    requires room { CanSend nodes changes.now }
    requires owners { OwnersIn nodes outbox.old }
    ensures holds { IfOk result (λ after. (buckets : ℕ) (site : Buffered) →
        HoldsNodes nodes buckets site → HoldsNodes after buckets (with_changes changes.now site)) }
    ensures sent { IfOk result (λ after.
        (buckets : ℕ) (site : Buffered) (sent : List Sent) (delivered : List ℕ) (failed_at : ℕ →
        ℕ) → HoldsNodes nodes buckets site → HoldsSent outbox.old sent delivered failed_at →
        HoldsSent outbox.new (sent ++ map (sent_by (owner_in site.members))
        (parts_sent buckets site.opened (site.changes site.opened) changes.now)) delivered
        failed_at) }
    ensures senders { OnOk result (nodes_in outbox.new ≡ nodes_in outbox.old) }
    ensures nodes { IfOk result (λ after. SameGroups nodes after) }
{
    let mut nodes = nodes;
    for change in changes {
        let (after, message) = nodes.commit(change)?;
        nodes = after;
        outbox.send(message)?;
    }
    Ok(nodes)
}

/// Sends messages, in order.
pub(crate) fn send_all(outbox: &mut Outbox, messages: Vec<Sent>) -> Result<(), NoMemory>
    requires senders { AllByRecursion
        (λ message. message.sender < nodes_in outbox.old) messages.items }
    ensures sent { OnOk result ((sent : List Sent) (delivered : List ℕ) (failed_at : ℕ → ℕ) →
        HoldsSent outbox.old sent delivered failed_at →
        HoldsSent outbox.new (sent ++ messages.items) delivered failed_at) }
    ensures nodes { OnOk result (nodes_in outbox.new ≡ nodes_in outbox.old) }
{
    for message in messages {
        outbox.send(message)?;
    }
    Ok(())
}
