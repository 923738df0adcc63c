//! The payloads of rows events of the binary log, read and written: the changes of a table, and the
//! rows of the apply-status table. No other crate knows the form of a row image; the bytes of a
//! single value are those of `rb_codec`'s module `column`.
//!
//! Two contracts hold throughout. A reader returns exactly the result that the definitions of
//! reading give for its bytes, or `NoMemory`. The result is the value, or the first field that is
//! missing or wrong, with its place. A writer appends exactly the bytes that the definitions of the
//! log give; if memory allocation fails, it leaves the output unchanged.
//!
//! It uses the values, those definitions, with the laws that a written payload is read back, and
//! the fields of an event. The writers of epochs and the readers of whole files use it.
#![tactic(auto)]

mod read;
mod write;

pub use read::{read_rows, read_status};
pub use write::{size_of_rows, size_of_status, write_rows, write_status};
