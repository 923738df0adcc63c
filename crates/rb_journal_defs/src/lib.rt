//! The journal of a site, which lists what the site did, and what follows from it: rows, closed
//! epochs, the parts of buckets, and the bodies of epochs.
//!
//! The definitions are in `specs/`, and laws about them in `proofs/`. A journal lists its newest
//! entry first; bodies and epochs, which are written as bytes, come oldest first. The code keeps no
//! journal: each of its structures represents one of these definitions.
#![tactic(auto)]
