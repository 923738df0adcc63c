use rb_base::{NoMemory, OutFault};
use std::alloc::{AllocError, AllocFailed};
use std::{fmt, io};

/// Why a case was not played.
#[derive(Debug, Drop)]
pub(crate) enum Fault {
    /// The line of this number is bad. The number is 0 if it is not known.
    Bad { line: usize, why: &'static str },
    /// A file could not be read.
    Unread(io::Error),
    NoMemory,
}

/// Returns the fault of a line whose number is not known yet.
pub(crate) fn bad<T>(why: &'static str) -> Result<T, Fault> {
    Err(Fault::Bad { line: 0, why })
}

impl Fault {
    /// Returns the fault with the number of its line.
    pub(crate) fn at(self, line: usize) -> Fault {
        match self {
            Fault::Bad { line: _, why } => Fault::Bad { line, why },
            other => other,
        }
    }
}

impl fmt::Display for Fault {
    fn fmt<W: fmt::Write>(&self, f: &mut fmt::Formatter<W>) -> fmt::Result {
        match self {
            Fault::Bad { line: 0, why } => write!(f, "{why}"),
            Fault::Bad { line, why } => write!(f, "line {line}: {why}"),
            Fault::Unread(error) => write!(f, "{error}"),
            Fault::NoMemory => write!(f, "out of memory"),
        }
    }
}

impl From<io::Error> for Fault {
    fn from(error: io::Error) -> Self {
        Fault::Unread(error)
    }
}

impl From<NoMemory> for Fault {
    fn from(_: NoMemory) -> Self {
        Fault::NoMemory
    }
}

impl From<OutFault> for Fault {
    fn from(_: OutFault) -> Self {
        Fault::NoMemory
    }
}

impl From<AllocError> for Fault {
    fn from(_: AllocError) -> Self {
        Fault::NoMemory
    }
}

impl<T: Drop> From<AllocFailed<T>> for Fault {
    fn from(_: AllocFailed<T>) -> Self {
        Fault::NoMemory
    }
}
