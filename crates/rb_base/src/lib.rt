//! The values that all crates of Sextantnut share: sites, epochs, rows, changes, messages, log
//! bodies, scripts and outcomes, as plain data, and lists of them.
//!
//! Every list type is the generic type [`Items`], which contracts see as a list. Every other type
//! is a struct or an enum with public fields, which contracts see field by field. The crate uses
//! only std and `byteorder`, and every other crate uses it.
#![tactic(auto)]

mod body;
mod bucket;
mod change;
mod epoch;
mod faults;
mod length;
mod list;
mod memory;
mod message;
mod outcome;
mod row;
mod schema;
mod script;
mod site;

pub use body::{Bodies, EpochBody, IndexRow, IndexRows, Part, Parts};
pub use bucket::bucket_of;
pub use change::{Cause, Change, Changes, ExceptionRow, ExceptionRows, Kind};
pub use epoch::{Epoch, FIRST_EPOCH};
pub use faults::{CodecFault, Failed, Field, LengthRead, OutFault};
pub use length::{read_length, write_length};
pub use list::{Bytes, Items, Names, Numbers};
pub use memory::NoMemory;
pub use message::{Message, Messages, Sent, SentList};
pub use outcome::{Listed, ListedEvents, Outcome};
pub use row::{Row, Rows, Value, Values};
pub use schema::{Column, Columns, Mapped, MappedTables, Schema, Schemas};
pub use script::{ClientOp, ClientOps, Event, Mode, Op, Setup, SiteSetup};
pub use site::SiteId;
