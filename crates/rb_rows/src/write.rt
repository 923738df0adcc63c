//! Writes the payloads of rows events, and computes their lengths, which the header before a
//! payload needs.

mod head;
mod image;
mod rows;
mod size;
mod status;

pub use rows::write_rows;
pub use size::{size_of_rows, size_of_status};
pub use status::write_status;
