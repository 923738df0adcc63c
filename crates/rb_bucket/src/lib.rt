//! One data node's buffer: the changes of its group's buckets, by bucket and epoch, and the closed
//! epochs.
//!
//! A buffer holds a list of changes for each bucket and epoch (`changes_kept`), the closed epochs
//! (`closes_kept`), and the open epoch if it has a change (`open_of`). Each call says how these
//! change. They give the messages of a bucket that are resent (`messages_kept`).
#![tactic(auto)]

mod bucket;
mod forget;
mod resend;

pub use bucket::BucketBuffer;
