//! A pair of sites over their log devices. [`Pair::step`] plays one event of a script: the events
//! of the sites that it consists of, in order.
//!
//! A [`Pair`] represents both sites at a point of a run (`IsPair`). Site B has no event yet: it
//! stays at its start, and its device is only looked at. A fault of a device ends the pair. The
//! crate uses the site and the definitions of a run; the top call uses it.
#![tactic(auto)]

mod acting;
mod action;
mod fault;
mod held;
mod pair;

pub use fault::PairFault;
pub use held::{HeldFile, first_held};
pub use pair::Pair;
