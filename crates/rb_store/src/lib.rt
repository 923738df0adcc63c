//! The tables of a site: finite maps from keys to rows, with room reserved for changes to come.
//!
//! Room is reserved first. Of the calls that make or use room, only [`Tables::reserve`] can run out
//! of memory, and it changes no row. Each [`Tables::put`] or [`Tables::remove`] then uses one place
//! of its key's room, and cannot fail. So a transaction reserves room for all its changes before it
//! changes a row.
#![tactic(auto)]

mod table;
mod tables;

pub use table::Held;
pub use tables::Tables;
