use rb_base::{Bytes, Changes, Epoch, EpochBody, Items, Mapped};

/// The header of an event, which is its first 19 bytes. The timestamp is not a field here: writers
/// write 0, and readers ignore it.
#[derive(Clone, Copy, Debug, PartialEq, Eq)]
pub struct Header {
    /// The event's type code.
    pub kind: u8,
    /// The server id of the site that wrote the event.
    pub server: u32,
    /// The length of the whole event in bytes, including this header.
    pub size: u32,
    /// The position after the event, in bytes from the start of the file, or 0.
    pub end: u32,
    pub flags: u16,
}

/// The text of a QUERY event.
#[derive(Clone, Copy, Debug, PartialEq, Eq)]
pub enum QueryText {
    Begin,
    Commit,
}

/// The place at which the log continues after a ROTATE event.
#[derive(Debug, Drop)]
pub struct RotateTo {
    /// The position in bytes from the start of the next file.
    pub position: u64,
    /// The name of the next file.
    pub name: Bytes,
}

/// A row of `mysql.ndb_apply_status`: a server, and an epoch of that server.
#[derive(Clone, Copy, Debug, PartialEq, Eq)]
pub struct StatusRow {
    pub server: u32,
    pub epoch: Epoch,
}

pub type StatusRows = Items<StatusRow>;

/// The content of an event, by its type.
#[derive(Debug, Drop)]
pub enum Content {
    /// FORMAT_DESCRIPTION of a format that can be read.
    Formats,
    /// QUERY `BEGIN`: an epoch begins.
    Begins,
    /// XID, or QUERY `COMMIT`: the epoch ends.
    Ends,
    /// ROTATE: the log continues in another file.
    Rotates(RotateTo),
    /// TABLE_MAP: the table that its id means from here on.
    Maps(Mapped),
    /// WRITE_ROWS, UPDATE_ROWS or DELETE_ROWS of a data table.
    Changes(Changes),
    /// WRITE_ROWS of the apply-status table.
    Statuses(StatusRows),
    /// An event of an unknown type whose flags allow a reader to skip it.
    Skipped,
}

/// A step of a decoder.
#[derive(Debug, Drop)]
pub enum Step {
    /// A whole epoch, and the position after it.
    Epoch(EpochBody, u64),
    /// A rotate event: the position in the next file, and that file's name.
    Rotate(u64, Bytes),
    /// A format description event.
    Format,
    /// The next event, or the magic number of the file, is not complete; more bytes are needed.
    NeedMore,
}
