//! One cluster: its tables, its clock, its data nodes, its event buffer, and the injector with its
//! log.
//!
//! A [`Cluster`] represents a point of a run (`IsCluster`). [`Cluster::step`] plays one event:
//! whatever point the cluster represented, it now represents the point after the event, and the
//! outcome is the event's. If the log device fails during an event, a [`StoppedCluster`] is left.
//!
//! A cluster has three parts, and an event changes only those that it needs: the books (tables and
//! clock), the nodes, and the log (event buffer and injector). A stopped cluster is the first two.
//! The crate uses the parts of a cluster, the injector with the log device, and the definitions of
//! journal, messages and run; a site uses it.
#![tactic(auto)]

mod books;
mod cluster;
mod halt;
pub mod law;
mod log;
mod mapping;
mod rows;
mod stopped;
mod tally;

pub use cluster::Cluster;
pub use halt::Halt;
pub use rb_inject::InjectFault;
pub use rb_play_defs::SiteEvent;
pub use stopped::StoppedCluster;
