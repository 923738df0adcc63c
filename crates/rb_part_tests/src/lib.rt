//! Tests of the log on its device and of the parts of a cluster: each public call once on its happy
//! path, and each generic at a concrete type.
//!
//! The tests stand in a crate of their own, since a crate with tests is proved twice. Nothing uses
//! it.
#![tactic(auto)]

#[cfg(test)]
mod binlog;
#[cfg(test)]
mod bucket;
#[cfg(test)]
mod commit;
#[cfg(test)]
mod evbuf;
#[cfg(test)]
mod group;
#[cfg(test)]
mod index;
#[cfg(test)]
mod inject;
#[cfg(test)]
mod store;
