ghost use Rattle.std.specs.Prelude.{◌≡◌, ◌++◌, OnOk, OnErr};
ghost use Rattle.rb_log_defs.specs.Event.{header_bytes};

use crate::event_types::HEADER_SIZE;
use byteorder::{ByteOrder, LittleEndian};
use rb_base::NoMemory;
use rb_read_defs::Header;
use std::alloc::Global;

/// Appends a header, which has 19 bytes. If memory allocation fails, `out` is unchanged.
pub fn write_header(_alloc: Global, out: &mut Vec<u8>, header: &Header) -> Result<(), NoMemory>
    ensures ok { OnOk result (out.new.items ≡ out.old.items
        ++ header_bytes header.now.kind header.now.server header.now.size header.now.end
        header.now.flags) }
    ensures err { OnErr result (out.new.items ≡ out.old.items) }
{
    out.extend_from_slice(&header_array(header))?;
    Ok(())
}

/// Returns the bytes of a header.
#[tactic(auto, unfolding(rb_log_defs::specs::Event::header_bytes))]
pub(crate) fn header_array(header: &Header) -> [u8; HEADER_SIZE]
    ensures { result ≡ header_bytes header.now.kind header.now.server header.now.size header.now.end
        header.now.flags }
{
    let mut bytes = [0u8; HEADER_SIZE];
    bytes[4] = header.kind;
    LittleEndian::write_u32(&mut bytes[5..], header.server);
    LittleEndian::write_u32(&mut bytes[9..], header.size);
    LittleEndian::write_u32(&mut bytes[13..], header.end);
    LittleEndian::write_u16(&mut bytes[17..], header.flags);
    bytes
}
