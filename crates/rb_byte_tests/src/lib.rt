//! Tests of values, edges, bytes and texts: each public call once on its happy path, and outside
//! vectors.
//!
//! The tests stand in a crate of their own, since a crate with tests is proved twice. Nothing uses
//! it.
#![tactic(auto)]

#[cfg(test)]
mod base;
#[cfg(test)]
mod codec;
#[cfg(test)]
mod disk;
#[cfg(test)]
mod etx;
#[cfg(test)]
mod print;
#[cfg(test)]
mod reference;
#[cfg(test)]
mod rows;
#[cfg(test)]
mod script;
#[cfg(test)]
mod source_and_sink;
#[cfg(test)]
mod stream;
