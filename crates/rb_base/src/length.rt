ghost use Rattle.std.specs.Prelude.{◌≡◌, ◌≤◌, ◌++◌, length, OnOk, OnErr};
ghost use Rattle.rb_base.specs.Length.{length_bytes, length_read, width_after};

use crate::faults::LengthRead;
use crate::memory::NoMemory;
use byteorder::{ByteOrder, LittleEndian};
use std::alloc::Global;

/// Appends `number` as a length-encoded integer of the MySQL protocol, in the shortest of its
/// forms: 1, 3, 4 or 9 bytes. If memory allocation fails, `out` is unchanged.
#[tactic(auto, unfolding(crate::specs::Length::length_bytes))]
pub fn write_length(_alloc: Global, out: &mut Vec<u8>, number: u64) -> Result<(), NoMemory>
    ensures ok { OnOk result (out.new.items ≡ out.old.items ++ length_bytes number) }
    ensures err { OnErr result (out.new.items ≡ out.old.items) }
{
    if number < 251 {
        out.push(number as u8)?;
    } else if number < 65536 {
        let mut bytes = [252u8, 0, 0];
        LittleEndian::write_u16(&mut bytes[1..], number as u16);
        out.extend_from_slice(&bytes)?;
    } else if number < 16777216 {
        let mut bytes = [253u8, 0, 0, 0];
        LittleEndian::write_u24(&mut bytes[1..], number as u32);
        out.extend_from_slice(&bytes)?;
    } else {
        let mut bytes = [254u8, 0, 0, 0, 0, 0, 0, 0, 0];
        LittleEndian::write_u64(&mut bytes[1..], number);
        out.extend_from_slice(&bytes)?;
    }
    Ok(())
}

/// Reads the length-encoded integer of the MySQL protocol that starts at `at`, in the shortest form
/// or a longer one.
///
/// Returns the number and the place after it. Returns `Short` if `bytes` ends before the number
/// does, and `Wrong` if the first byte is `fb` or `ff`, which begin no number.
#[tactic(auto, unfolding(crate::specs::Length::length_read))]
pub fn read_length(bytes: &[u8], at: usize) -> LengthRead
    requires { at ≤ length bytes.now }
    ensures { result ≡ length_read bytes.now at }
{
    let Some(&first) = bytes.get(at) else {
        return LengthRead::Short;
    };
    if first == 251 || first == 255 {
        return LengthRead::Wrong;
    }
    if first < 251 {
        return LengthRead::Number(first as u64, at + 1);
    }
    let width = width_after(first);
    let start = at + 1;
    if bytes.len() - start < width {
        return LengthRead::Short;
    }
    LengthRead::Number(
        LittleEndian::read_uint(&bytes[start..], width),
        start + width,
    )
}

/// Returns how many bytes of the number follow its first byte, if that is `fc`, `fd` or `fe`.
fn width_after(first: u8) -> usize
    ensures { result ≡ width_after first }
{
    match first {
        252 => 2,
        253 => 3,
        _ => 8,
    }
}
