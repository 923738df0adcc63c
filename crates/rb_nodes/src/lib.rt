//! All data nodes of a site, in groups, with the messages that they sent.
//!
//! [`SiteNodes`] represents what was done at a site's nodes and what they sent (`HoldsNet`). Each
//! method is a step: whatever the nodes represented, they now represent the result of the step. The
//! crate uses one [`rb_group::Group`] for each group; the cluster uses it.
#![tactic(auto)]

mod answers;
mod nodes;
mod outbox;
mod sending;
mod site_nodes;

pub use answers::NodeFailure;
pub use site_nodes::SiteNodes;
