//! Bytes in hexadecimal digits, as a case and a part write them.

use crate::fault::{Fault, bad};
use crate::parts::{Part, part_of};

/// Appends or changes the bytes that a line says. It has pairs of digits, with blanks between them;
/// or `part NAME`; or `change PLACE BYTE`, which changes a byte that the section has so far. A `#`
/// begins a comment.
pub(crate) fn spell_hex_line(bytes: &mut Vec<u8>, parts: &[Part], line: &str) -> Result<(), Fault> {
    let line = match line.split_once('#') {
        Some((before, _)) => before.trim(),
        None => line.trim(),
    };
    if let Some(name) = line.strip_prefix("part ") {
        let Some(part) = part_of(parts, name) else {
            return bad("there is no such part");
        };
        bytes.extend_from_slice(part)?;
        return Ok(());
    }
    match line.strip_prefix("change ") {
        Some(change) => change_byte(bytes, change),
        None => spell_digits(bytes, line),
    }
}

// Changes the byte at a place, which counts from 0, to the byte that two digits spell.
fn change_byte(bytes: &mut Vec<u8>, change: &str) -> Result<(), Fault> {
    let Some((place, byte)) = change.split_once(' ') else {
        return bad("change wants a place and a byte");
    };
    let (Ok(place), Ok(byte)) = (place.parse::<usize>(), u8::from_str_radix(byte, 16)) else {
        return bad("change wants a place and a byte");
    };
    match bytes.get_mut(place) {
        Some(changed) => {
            *changed = byte;
            Ok(())
        }
        None => bad("there is no byte at this place"),
    }
}

// Appends the bytes that pairs of digits spell.
fn spell_digits(bytes: &mut Vec<u8>, line: &str) -> Result<(), Fault> {
    let mut high = None;
    for letter in line.bytes() {
        if letter == b' ' {
            continue;
        }
        let Some(digit) = digit_of(letter) else {
            return bad("this is no hexadecimal digit");
        };
        high = match high {
            None => Some(digit),
            Some(high) => {
                bytes.push((high << 4) | digit)?;
                None
            }
        };
    }
    match high {
        None => Ok(()),
        Some(_) => bad("a digit stands alone"),
    }
}

/// Returns the number that a hexadecimal digit spells.
pub(crate) fn digit_of(letter: u8) -> Option<u8> {
    match letter {
        b'0'..=b'9' => Some(letter - b'0'),
        b'a'..=b'f' => Some(letter - b'a' + 10),
        _ => None,
    }
}
