//! The meaning of a script: what its events do at a site, one by one, their outcomes, the bodies
//! that are logged, and the report of the run.
//!
//! The definitions are in `specs/`, over those of the journal, the messages, the log and the texts;
//! laws about them are in `proofs/`. The steps of cluster, site and pair and the top call cite
//! them.
#![tactic(auto)]

mod event;
pub mod law;

pub use event::SiteEvent;
