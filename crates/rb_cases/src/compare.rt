use crate::case::{Case, Device, File, Left};
use crate::fault::Fault;
use crate::play::Played;
use crate::shown::{line_number, shown_bytes, shown_line};
use rb_disk::{FailingDisk, LogDisk};
use rb_ending::print_status;
use rb_io::SteadySink;
use rb_top::Status;
use std::alloc::Global;

/// Returns the first difference between what a case wants and what came, or `None` if there is
/// none.
pub(crate) fn first_difference(
    alloc: Global,
    case: &Case,
    played: &Played,
) -> Result<Option<String>, Fault> {
    let status = status_text(alloc, played.status)?;
    if status.as_slice() != case.status.as_bytes() {
        return difference_of_texts(alloc, "status", case.status.as_bytes(), &status);
    }
    if case.output.as_slice() != played.sink.bytes() {
        return difference_of_texts(alloc, "output", &case.output, played.sink.bytes());
    }
    if let Some(found) = difference_of_disk(alloc, "file A", &case.disk_a, &played.disk_a)? {
        return Ok(Some(found));
    }
    if let Some(found) = difference_of_disk(alloc, "file B", &case.disk_b, &played.disk_b)? {
        return Ok(Some(found));
    }
    difference_of_left(alloc, case, played.source.given())
}

// Returns a status as a case spells it: `done`, `usage`, or the line that a shell sees.
fn status_text(alloc: Global, status: Status) -> Result<Vec<u8>, Fault> {
    match status {
        Status::Done => return Ok(Vec::from_slice(alloc, b"done")?),
        Status::Usage => return Ok(Vec::from_slice(alloc, b"usage")?),
        _ => {}
    }
    let mut sink = SteadySink::new(alloc);
    print_status(alloc, &mut sink, status)?;
    let line = sink.bytes();
    Ok(Vec::from_slice(alloc, line.strip_suffix(b"\n").unwrap_or(line))?)
}

// Returns the difference of what the source has left, in bytes.
fn difference_of_left(alloc: Global, case: &Case, given: usize) -> Result<Option<String>, Fault> {
    let left = case.input.len().saturating_sub(given);
    let wanted = match case.left {
        Left::All => case.input.len(),
        Left::Bytes(count) => count,
    };
    if left == wanted {
        return Ok(None);
    }
    let text = format!(in alloc; "left: wanted {wanted} bytes, came {left}")?;
    Ok(Some(text))
}

// Returns the first difference of a device's files.
fn difference_of_disk(
    alloc: Global,
    what: &str,
    device: &Device,
    disk: &FailingDisk,
) -> Result<Option<String>, Fault> {
    for file in &device.files {
        let came = disk.file(file.number);
        if file.bytes.as_slice() != came {
            return difference_of_bytes(alloc, what, file.number, &file.bytes, came);
        }
    }
    difference_of_others(alloc, what, device, disk)
}

// Returns the difference of the first file with bytes that the case does not name.
fn difference_of_others(
    alloc: Global,
    what: &str,
    device: &Device,
    disk: &FailingDisk,
) -> Result<Option<String>, Fault> {
    for number in 0..disk.files() {
        let came = disk.file(number);
        if !came.is_empty() && !is_named(&device.files, number) {
            return difference_of_bytes(alloc, what, number, b"", came);
        }
    }
    Ok(None)
}

// Returns whether a file of this number is among these.
fn is_named(files: &[File], number: u32) -> bool {
    for file in files {
        if file.number == number {
            return true;
        }
    }
    false
}

// Says in which line two texts differ first.
fn difference_of_texts(
    alloc: Global,
    what: &str,
    wanted: &[u8],
    came: &[u8],
) -> Result<Option<String>, Fault> {
    let place = first_difference_of(wanted, came);
    let line = line_number(wanted, place);
    let expected = shown_line(alloc, wanted, place)?;
    let found = shown_line(alloc, came, place)?;
    let text = format!(in alloc; "{what} line {line}: wanted \"{expected}\", came \"{found}\"")?;
    Ok(Some(text))
}

// Says at which byte a file differs first.
fn difference_of_bytes(
    alloc: Global,
    what: &str,
    number: u32,
    wanted: &[u8],
    came: &[u8],
) -> Result<Option<String>, Fault> {
    let place = first_difference_of(wanted, came);
    let expected = shown_bytes(alloc, wanted, place)?;
    let found = shown_bytes(alloc, came, place)?;
    let lengths = format!(in alloc; "wanted {} bytes, came {}", wanted.len(), came.len())?;
    let text = format!(in alloc;
        "{what} {number}: {lengths}; from byte {place} on wanted {expected}, came {found}"
    )?;
    Ok(Some(text))
}

// Returns how many bytes two byte strings have in common at their start.
fn first_difference_of(wanted: &[u8], came: &[u8]) -> usize {
    let mut place = 0usize;
    for (expected, found) in wanted.iter().zip(came) {
        if expected != found {
            break;
        }
        place = place.saturating_add(1);
    }
    place
}
