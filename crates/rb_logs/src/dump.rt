ghost use Rattle.std.specs.Prelude.{◌≡◌, ◌<◌, ◌*◌, ◌++◌, length, take, drop, IfOk, OnOk};
ghost use Rattle.rb_text_defs.specs.Report.{letter_of};
ghost use Rattle.rb_logs.specs.Dump.{bytes_line, bytes_text, dump_text, file_text, heading as heading_of, log_name as name_in_log, offset_text, site_text};

use byteorder::{BigEndian, ByteOrder};
use rb_base::{Bytes, NoMemory, SiteId};
use rb_codec::file_name;
use rb_disk::{LogDisk, MemoryDisk};
use std::alloc::Global;

/// The most bytes that a line shows.
const LINE_SIZE: usize = 32;

/// Returns the files of both sites as text, site A's first: for each file that is not empty its
/// name and length, and its bytes in hexadecimal. The only error is `NoMemory`.
pub(crate) fn dump(
    alloc: Global,
    disk_a: &MemoryDisk,
    disk_b: &MemoryDisk,
) -> Result<Bytes, NoMemory>
    ensures { IfOk result (λ text. text ≡ dump_text disk_a.now disk_b.now) }
{
    let mut text = Vec::new(alloc);
    put_site(alloc, &mut text, SiteId::A, disk_a)?;
    put_site(alloc, &mut text, SiteId::B, disk_b)?;
    Ok(Bytes::from_vec(text))
}

// Appends the files of a site, file 0 first.
#[tactic(auto, using(crate::proofs::TextLaws::number_put))]
fn put_site(
    alloc: Global,
    text: &mut Vec<u8>,
    site: SiteId,
    disk: &MemoryDisk,
) -> Result<(), NoMemory>
    ensures { OnOk result (text.new.items ≡ text.old.items ++ site_text site disk.now) }
{
    for number in 0..disk.files() {
        put_file(alloc, text, site, number, disk.file(number))?;
    }
    Ok(())
}

// Appends a file; nothing for an empty one.
fn put_file(
    alloc: Global,
    text: &mut Vec<u8>,
    site: SiteId,
    number: u32,
    bytes: &[u8],
) -> Result<(), NoMemory>
    ensures { OnOk result (text.new.items ≡ text.old.items ++ file_text site number bytes.now) }
{
    if bytes.is_empty() {
        return Ok(());
    }
    put_heading(alloc, text, site, number, bytes.len())?;
    put_bytes(alloc, text, bytes)?;
    Ok(())
}

// Appends the line above a file's bytes.
fn put_heading(
    alloc: Global,
    text: &mut Vec<u8>,
    site: SiteId,
    number: u32,
    size: usize,
) -> Result<(), NoMemory>
    ensures { OnOk result (text.new.items ≡ text.old.items ++ heading_of site number size) }
{
    text.extend_from_slice(b"file ")?;
    text.extend_from_slice(letter(site))?;
    text.extend_from_slice(b" ")?;
    text.extend_from_slice(number.to_string(alloc)?.as_bytes())?;
    text.extend_from_slice(b" name=")?;
    put_name(alloc, text, site, number)?;
    text.extend_from_slice(b" length=")?;
    text.extend_from_slice(size.to_string(alloc)?.as_bytes())?;
    text.push(b'\n')?;
    Ok(())
}

// Returns the letter of a site.
fn letter(site: SiteId) -> &'static [u8]
    ensures { result.now ≡ letter_of site }
{
    match site {
        SiteId::A => b"A",
        SiteId::B => b"B",
    }
}

// Appends the name of a file.
fn put_name(alloc: Global, text: &mut Vec<u8>, site: SiteId, number: u32) -> Result<(), NoMemory>
    ensures { OnOk result (text.new.items ≡ text.old.items ++ name_in_log site number) }
{
    if number == 0 {
        text.extend_from_slice(b"ndb_binlog_index")?;
        return Ok(());
    }
    text.extend_from_slice(&file_name(alloc, site, number)?)?;
    Ok(())
}

// Appends the bytes, in lines.
#[tactic(auto, using(crate::proofs::TextLaws::number_put))]
fn put_bytes(alloc: Global, text: &mut Vec<u8>, bytes: &[u8]) -> Result<(), NoMemory>
    ensures { OnOk result (text.new.items ≡ text.old.items ++ bytes_text bytes.now) }
{
    for number in 0..bytes.len().div_ceil(LINE_SIZE) {
        put_line(alloc, text, bytes, number)?;
    }
    Ok(())
}

// Appends line `number`: its offset, and the bytes from there on.
#[tactic(auto, using(crate::proofs::TextLaws::line_put))]
fn put_line(alloc: Global, text: &mut Vec<u8>, bytes: &[u8], number: usize) -> Result<(), NoMemory>
    requires { number * 32 < length bytes.now }
    ensures { OnOk result (text.new.items ≡ text.old.items ++ bytes_line bytes.now number) }
{
    put_offset(alloc, text, (number * LINE_SIZE) as u64)?;
    text.push(b' ')?;
    text.extend_from_slice(hex::encode(alloc, shown(bytes, number))?.as_bytes())?;
    text.push(b'\n')?;
    Ok(())
}

// Returns the bytes of line `number`.
fn shown(bytes: &[u8], number: usize) -> &[u8]
    requires { number * 32 < length bytes.now }
    ensures { result.now ≡ take 32 (drop (number * 32) bytes.now) }
{
    let rest = &bytes[number * LINE_SIZE..];
    &rest[..LINE_SIZE.min(rest.len())]
}

// Appends an offset as eight hexadecimal digits.
fn put_offset(alloc: Global, text: &mut Vec<u8>, offset: u64) -> Result<(), NoMemory>
    ensures { OnOk result (text.new.items ≡ text.old.items ++ offset_text offset) }
{
    let mut bytes = [0u8; 8];
    BigEndian::write_u64(&mut bytes, offset);
    text.extend_from_slice(hex::encode(alloc, &bytes[4..])?.as_bytes())?;
    Ok(())
}
