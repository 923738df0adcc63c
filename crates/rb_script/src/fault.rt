ghost use Rattle.std.specs.Prelude.{◌≡◌};
ghost use Rattle.rb_script.specs.declared.fault.ParseFault.TheVariants.{NoMemory as OutOfMemory};

use rb_base::NoMemory;
use rb_text_defs::ScriptKind;
use std::alloc::{AllocError, AllocFailed};

/// Why a script was not parsed.
#[derive(Clone, Copy, Debug, PartialEq, Eq)]
pub enum ParseFault {
    /// The first bad line, counted from 1, and why it is refused. Line 0 is the script as a whole.
    Bad { line: u32, kind: ScriptKind },
    /// Memory ran out for the script, or for the words of a line.
    NoMemory,
}

impl From<NoMemory> for ParseFault {
    ghost from_gives = { λ _ e. e ≡ OutOfMemory };

    fn from(_: NoMemory) -> Self {
        ParseFault::NoMemory
    }
}

impl From<AllocError> for ParseFault {
    ghost from_gives = { λ _ e. e ≡ OutOfMemory };

    fn from(_: AllocError) -> Self {
        ParseFault::NoMemory
    }
}

impl<T: Drop> From<AllocFailed<T>> for ParseFault {
    ghost from_gives = { λ _ e. e ≡ OutOfMemory };

    fn from(_: AllocFailed<T>) -> Self {
        ParseFault::NoMemory
    }
}
