ghost use Rattle.std.specs.Prelude.{◌≡◌, ◌+◌, ◌^◌, ◌<◌, ◌++◌, length, OnOk, OnErr};
ghost use Rattle.rb_log_defs.specs.Event.{event_bytes};

use crate::event_types::HEADER_SIZE;
use crate::header::header_array;
use rb_base::NoMemory;
use rb_read_defs::Header;
use std::alloc::Global;

/// Appends an event of the type `kind` that starts at `start`, in bytes from the start of the file:
/// its header, with flags 0, and its payload. If memory allocation fails, `out` is unchanged.
#[tactic(auto, unfolding(rb_log_defs::specs::Event::event_bytes))]
pub fn write_event(
    _alloc: Global,
    out: &mut Vec<u8>,
    kind: u8,
    server: u32,
    start: u32,
    payload: &[u8],
) -> Result<(), NoMemory>
    requires { start + (19 + length payload.now) < 2 ^ 32 }
    ensures ok { OnOk result (out.new.items ≡ out.old.items
        ++ event_bytes kind server payload.now start) }
    ensures size { OnOk result (length out.new.items
        ≡ length out.old.items + (19 + length payload.now)) }
    ensures err { OnErr result (out.new.items ≡ out.old.items) }
{
    let size = HEADER_SIZE as u32 + payload.len() as u32;
    let header = Header {
        kind,
        server,
        size,
        end: start + size,
        flags: 0,
    };
    out.reserve(HEADER_SIZE + payload.len())?;
    out.extend_from_slice(&header_array(&header))?;
    out.extend_from_slice(payload)?;
    Ok(())
}
