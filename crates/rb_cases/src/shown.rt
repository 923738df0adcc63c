//! Bytes as a message shows them.

use crate::fault::Fault;
use std::alloc::Global;

/// How many bytes of a line a message shows at most.
const MOST_LETTERS: usize = 100;

/// How many bytes of a file a message shows at most.
const MOST_BYTES: usize = 16;

/// Returns the number of the line that this place is in, from 1 on.
pub(crate) fn line_number(text: &[u8], place: usize) -> usize {
    let mut number = 1usize;
    for byte in text.iter().take(place) {
        if *byte == b'\n' {
            number = number.saturating_add(1);
        }
    }
    number
}

/// Returns the line that this place is in. A byte that is not printable is shown as `\x` and
/// two digits.
pub(crate) fn shown_line(alloc: Global, text: &[u8], place: usize) -> Result<String, Fault> {
    let mut shown = String::new(alloc);
    for byte in line_at(text, place).iter().take(MOST_LETTERS) {
        let byte = *byte;
        if byte == b'\n' {
            break;
        }
        if matches!(byte, b' '..=b'~') {
            shown.push(char::from(byte))?;
        } else {
            shown.push_str(format!(in alloc; "\\x{byte:02x}")?.as_str())?;
        }
    }
    Ok(shown)
}

// Returns the text from the start of the line that this place is in.
fn line_at(text: &[u8], place: usize) -> &[u8] {
    let mut start = 0;
    for (index, byte) in text.iter().take(place).enumerate() {
        if *byte == b'\n' {
            start = index.saturating_add(1);
        }
    }
    text.get(start..).unwrap_or(&[])
}

/// Returns the bytes from this place on in hexadecimal digits, or `nothing` if there are none.
pub(crate) fn shown_bytes(alloc: Global, bytes: &[u8], place: usize) -> Result<String, Fault> {
    let mut shown = String::new(alloc);
    for byte in bytes.iter().skip(place).take(MOST_BYTES) {
        let byte = *byte;
        shown.push_str(format!(in alloc; "{byte:02x}")?.as_str())?;
    }
    if shown.is_empty() {
        shown.push_str("nothing")?;
    }
    Ok(shown)
}
