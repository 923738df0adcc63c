//! The data nodes of one group. All nodes that are up buffer what is done in the group's buckets,
//! each since it started, so that any of them can take over from another. One node, the bucket's
//! owner, sends it.
//!
//! A group represents what was done in it, and which of its nodes are up (`Keeps`). A commit adds a
//! change to each buffer, a close adds a closed epoch, and acknowledged epochs are released. What
//! is sent is read from the buffer of a node that covers, which holds everything that is
//! unacknowledged.
#![tactic(auto)]

mod answers;
mod closed;
mod group;
pub mod law;
mod nodes;
mod sending;

pub use answers::{FailOutcome, GroupFault};
pub use group::Group;
