//! How a site accepts a client's transaction: the clock that gives its epoch and its number, and
//! the check that judges it whole and returns its changes.
//!
//! Nothing here changes a site. [`prepare`] returns all changes of a transaction, or the first
//! reason to refuse it; [`Clock`] gives the epoch that they belong to. The crate uses the
//! tables, and the cluster uses it.
#![tactic(auto)]

mod clock;
mod fault;
mod transaction;

pub use clock::Clock;
pub use fault::TxFault;
pub use transaction::prepare;
