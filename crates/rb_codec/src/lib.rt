//! The events of the binary log that every epoch and every file needs, read and written: the
//! header, the format description, BEGIN and other queries, rotations, the end of a transaction,
//! and table maps. Also the names of files, and the bytes of columns and values ([`column`]).
//!
//! Two contracts hold throughout. A writer appends exactly the bytes that the definitions of the
//! log give for its event at that position; if memory allocation fails, it leaves the output
//! unchanged. A reader returns exactly the result that the definitions of reading give for its
//! bytes: the value, or the first field that is missing or wrong, with its place. A reader whose
//! value contains a list may return `NoMemory` instead.
//!
//! It uses the values and the definitions of the log, with the laws that a written event is read
//! back. The writers of epochs and files, the decoder and the readers of rows use it; the readers
//! of rows read field by field with [`Fields`].
#![tactic(auto)]

mod bitmap;
pub mod column;
mod event;
mod event_types;
mod fields;
mod fixed;
mod header;
mod mapped;
mod name;
mod read;
mod table_map;

pub use bitmap::{all_clear, all_set};
pub use event::write_event;
pub use event_types::{
    DELETE_ROWS_EVENT, FORMAT_DESCRIPTION_EVENT, HEADER_SIZE, MAGIC, QUERY_EVENT, ROTATE_EVENT,
    TABLE_MAP_EVENT, UPDATE_ROWS_EVENT, WRITE_ROWS_EVENT, XID_EVENT, is_known,
};
pub use fields::{Fields, check};
pub use fixed::{write_format, write_query, write_rotate, write_xid};
pub use header::write_header;
pub use mapped::{is_status, read_table_map};
pub use name::file_name;
pub use rb_read_defs::{Header, QueryText, RotateTo};
pub use read::{read_format, read_header, read_query, read_rotate, read_xid};
pub use table_map::write_table_map;
