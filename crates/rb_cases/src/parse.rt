use crate::case::{Case, append};
use crate::fault::{Fault, bad};
use crate::hex::spell_hex_line;
use crate::objects::{left_of, take_failing, take_stream_line};
use crate::parts::Part;
use crate::section::{Heading, Target, heading_of};
use crate::spell::{repeat, spell_line};
use rb_base::Bytes;
use std::alloc::Global;

/// A section that is being read.
#[derive(Drop)]
struct Section {
    heading: Heading,
    /// The bytes of its lines.
    bytes: Vec<u8>,
    /// How many empty lines follow them so far. They count only if another line of the section
    /// comes.
    empty_lines: u64,
}

/// Reads a case from its text.
pub(crate) fn parse(alloc: Global, parts: &[Part], text: &str) -> Result<Case, Fault> {
    let mut case = Case::new(alloc);
    let mut section = None;
    for (index, line) in text.lines().enumerate() {
        match take_line(alloc, parts, &mut case, section, line) {
            Ok(after) => section = after,
            Err(fault) => return Err(fault.at(index.saturating_add(1))),
        }
    }
    end_section(alloc, &mut case, section)?;
    Ok(case)
}

// Takes a line. Returns the section after it.
fn take_line(
    alloc: Global,
    parts: &[Part],
    case: &mut Case,
    section: Option<Section>,
    line: &str,
) -> Result<Option<Section>, Fault> {
    if let Some(heading) = line.strip_prefix('[') {
        end_section(alloc, case, section)?;
        return begin_section(alloc, heading);
    }
    match section {
        None => take_comment(line),
        Some(mut section) => {
            if line.is_empty() {
                section.empty_lines = section.empty_lines.saturating_add(1);
            } else {
                repeat(&mut section.bytes, b"\n", section.empty_lines)?;
                section.empty_lines = 0;
                take_section_line(alloc, parts, case, &mut section, line)?;
            }
            Ok(Some(section))
        }
    }
}

// Begins the section of this heading, which is without its first bracket.
fn begin_section(alloc: Global, heading: &str) -> Result<Option<Section>, Fault> {
    let Some(heading) = heading.strip_suffix(']') else {
        return bad("a section's heading ends with a bracket");
    };
    match heading_of(heading) {
        Some(heading) => Ok(Some(Section {
            heading,
            bytes: Vec::new(alloc),
            empty_lines: 0,
        })),
        None => bad("there is no such section"),
    }
}

// Takes a line before the first section.
fn take_comment(line: &str) -> Result<Option<Section>, Fault> {
    if line.is_empty() || line.starts_with('#') {
        return Ok(None);
    }
    bad("a line before the first section begins with #")
}

// Takes a line of a section. Bytes are kept until the section ends.
fn take_section_line(
    alloc: Global,
    parts: &[Part],
    case: &mut Case,
    section: &mut Section,
    line: &str,
) -> Result<(), Fault> {
    match section.heading.target {
        Target::Words => take_word(alloc, &mut case.words, line),
        Target::Source => take_stream_line(&mut case.source, line),
        Target::Sink => take_stream_line(&mut case.sink, line),
        Target::Disk(site) => take_failing(&mut case.disk_mut(site).failing, line),
        Target::Left => {
            case.left = left_of(line)?;
            Ok(())
        }
        Target::Status => {
            case.status = String::from_str(alloc, line)?;
            Ok(())
        }
        Target::Input | Target::Output | Target::Held(..) | Target::File(..) => {
            if section.heading.is_hex {
                return spell_hex_line(&mut section.bytes, parts, line);
            }
            spell_line(alloc, &mut section.bytes, line)
        }
    }
}

// Takes a line of the words: each is one word.
fn take_word(alloc: Global, words: &mut Vec<Bytes>, line: &str) -> Result<(), Fault> {
    let mut word = Vec::new(alloc);
    spell_line(alloc, &mut word, line)?;
    if word.last() == Some(&b'\n') {
        let _ = word.pop();
    }
    words.push(Bytes::from_vec(word))?;
    Ok(())
}

// Puts the bytes of a section where they belong.
fn end_section(alloc: Global, case: &mut Case, section: Option<Section>) -> Result<(), Fault> {
    let Some(section) = section else {
        return Ok(());
    };
    let mut bytes = Vec::new(alloc);
    repeat(&mut bytes, &section.bytes, section.heading.times)?;
    bytes.truncate(section.heading.first);
    match section.heading.target {
        Target::Input => case.input.extend_from_slice(&bytes)?,
        Target::Output => case.output.extend_from_slice(&bytes)?,
        Target::Held(site, file) => append(alloc, &mut case.disk_mut(site).held, file, &bytes)?,
        Target::File(site, file) => append(alloc, &mut case.disk_mut(site).files, file, &bytes)?,
        Target::Words | Target::Source | Target::Sink => {}
        Target::Disk(_) | Target::Status | Target::Left => {}
    }
    Ok(())
}
