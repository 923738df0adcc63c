ghost use Rattle.std.specs.Prelude.{◌≡◌, ◌==◌, ◌++◌, if◌then◌else◌, OnOk};
ghost use Rattle.rb_message_defs.specs.Nodes.{sent_from};

use rb_base::{Messages, NoMemory, Sent};

/// Appends these messages, as sent by a node.
pub fn push_from(sent: &mut Vec<Sent>, sender: u32, messages: Messages) -> Result<(), NoMemory>
    ensures { OnOk result (sent.new.items ≡ sent.old.items ++ sent_from sender messages) }
{
    for message in messages.into_vec() {
        sent.push(Sent { sender, message })?;
    }
    Ok(())
}

/// Returns the owner after a takeover: the successor for the failed node, and each other node
/// unchanged.
pub fn moved(owner: u32, node: u32, successor: u32) -> u32
    ensures { result ≡ (if owner == node then successor else owner) }
{
    if owner == node { successor } else { owner }
}
