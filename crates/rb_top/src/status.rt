use rb_base::{Field, SiteId};
use rb_script::ScriptKind;

/// How a call of the program ended.
#[derive(Clone, Copy, Debug, PartialEq, Eq)]
pub enum Status {
    /// The input was read to its end, and the whole text was written: the report of a script or the
    /// text of a log.
    Done,
    /// The words are outside the grammar. Nothing was read, written or changed.
    Usage,
    /// A run needs empty devices, and this file has `length` bytes. It is the lowest file that is
    /// not empty, site A's device first. Nothing was read, written or changed.
    NotEmpty {
        site: SiteId,
        file: u32,
        length: u64,
    },
    /// The script is not legal: its first bad line, or 0 for the whole script, and why it is
    /// refused. Nothing was written.
    BadScript {
        line: u32,
        kind: ScriptKind,
    },
    /// The log has a bad event: the position of the first one, in bytes from the log's start, and
    /// its first wrong field. `Limit` says that the log continues at this position, past the most
    /// bytes that are read. The text of everything before it was written.
    BadLog {
        position: u64,
        field: Field,
    },
    /// The source failed. `run` has written nothing; `read` has written a prefix of the text of
    /// what was read.
    ReadFault,
    /// The sink failed. A prefix of the text was written. The log of a script is whole on its
    /// device.
    WriteFault,
    /// This site's log device failed. It has an image of the log of some of the script's first
    /// epochs, which recovery opens. Nothing was printed.
    DiskFault {
        site: SiteId,
    },
    /// Memory ran out.
    NoMemory,
}
