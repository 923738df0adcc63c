//! The printer. It makes the texts of a run's report and of a log that is read, piece by piece.
//!
//! The contract of each call says that its text is the one that the definitions give. A report has
//! a line for each event, then the lines of the log: its counts, and a line for each row of its
//! index. Then it has the lines of each table. The text of a log has the lines of an epoch, of a
//! rotation, and of the log's end. A law in `proofs/` says that the report is its title, these
//! pieces in order, and its end. The program collects and writes the pieces.
#![tactic(auto)]

mod body;
mod lines;
mod outcome;
mod put;
mod value;

pub use body::{print_body, print_rest, print_rotation};
pub use lines::{print_log, print_outcome, print_table};
