//! Reads the payloads of rows events.

mod head;
mod image;
mod rows;
mod status;
mod value;

pub use rows::read_rows;
pub use status::read_status;
