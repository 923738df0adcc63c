//! Tests of a site: what its readers show after an epoch, where its log may begin, and that it can
//! be moved to another thread.
//!
//! Whole runs are cases of `rb_cases`; these tests show what no report says. They have a crate of
//! their own, since a crate with tests is proved twice. Nothing uses it.
#![tactic(auto)]

#[cfg(test)]
mod site;
