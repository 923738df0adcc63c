//! Bytes that several cases share. Each has a file in the folder `parts`.

use crate::fault::Fault;
use crate::hex::spell_hex_line;
use std::alloc::Global;
use std::fs;
use std::rt::Files;

/// Bytes with a name.
#[derive(Drop)]
pub(crate) struct Part {
    name: String,
    bytes: Vec<u8>,
}

/// Reads the parts of these names.
pub(crate) fn read_parts<R: Files + AllocGlobal>(
    rt: &R,
    names: &[String],
) -> Result<Vec<Part>, Fault> {
    let mut parts = Vec::new(rt.alloc());
    for name in names {
        let path = format!(in rt.alloc(); "parts/{name}")?;
        let text = fs::read_to_string(rt, path.as_str())?;
        let part = Part {
            name: name.clone()?,
            bytes: bytes_of(rt.alloc(), text.as_str())?,
        };
        parts.push(part)?;
    }
    Ok(parts)
}

// Returns the bytes that a part's text spells.
fn bytes_of(alloc: Global, text: &str) -> Result<Vec<u8>, Fault> {
    let mut bytes = Vec::new(alloc);
    for (index, line) in text.lines().enumerate() {
        if let Err(fault) = spell_hex_line(&mut bytes, &[], line) {
            return Err(fault.at(index.saturating_add(1)));
        }
    }
    Ok(bytes)
}

/// Returns the bytes of the part of this name.
pub(crate) fn part_of<'a>(parts: &'a [Part], name: &str) -> Option<&'a [u8]> {
    for part in parts {
        if part.name.as_str() == name {
            return Some(&part.bytes);
        }
    }
    None
}
