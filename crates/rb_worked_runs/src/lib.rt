//! Worked runs: whole scripts with their reports, written by hand, which the checker computes from
//! the definitions.
//!
//! Each function here has an empty body. Its contract says that the report of a script is this one,
//! line by line. A definition that is changed by mistake is refused here, and not by a proof that
//! repeats the definition's text.
#![tactic(auto)]

pub mod worked;
