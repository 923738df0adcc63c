//! The binary log as it is read: which bytes are events, the content of each event, and the steps
//! that a whole log gives.
//!
//! The definitions are in `specs/`, and laws about them in `proofs/`. A reader accepts everything
//! that this program writes, and wider forms too. The definitions state what it accepts field by
//! field, in the order of the bytes. The types here are the results of readers.
#![tactic(auto)]

mod answers;
pub mod law;
mod worked;

pub use answers::{Content, Header, QueryText, RotateTo, StatusRow, StatusRows, Step};
pub use worked::{
    a_commit, a_rotation, a_skipped_event, an_epoch_cut_short, changed_bytes, changed_heads,
    changed_status, events_out_of_place, judged_by_the_header, rows_of_other_forms,
    rows_of_other_servers, the_first_path_read, wider_epochs, wrong_sizes,
};
