//! What a log device holds of a site's log: the binlog in files 1 and following, the index in file
//! 0, and what recovery may find of both after a call was cut off.
//!
//! The definitions are in `specs/`, over those of the log. They mention no code: the binlog files,
//! the index and the injector represent them, and the cluster, the pair and the top call state by
//! them what a device holds. The functions of [`worked`] compute the definitions of the index on
//! the worked example: each has an empty body, and its contract states the result.
#![tactic(auto)]

mod worked;

pub use worked::{an_index_of_one_row, an_open_last_gate, no_byte_after_the_record};
