ghost use Rattle.std.specs.Prelude.{◌≡◌, ◌++◌, IfOk, IsErrOf, OnOk, OnErr};
ghost use Rattle.std.specs.Io.KnownBytes.{Appends};
ghost use Rattle.rb_base.specs.Faults.{Rose};
ghost use Rattle.rb_io.specs.Prefix.{GrowsByPrefix};
ghost use Rattle.rb_ending.specs.Ending.{exit_number_of, fault_line_of, usage_line, name_of_field, name_of_limit, kind_of, not_empty_line, bad_log_line, bad_script_line};
ghost use Rattle.rb_text_defs.specs.Report.{letter_of};

use rb_base::{Bytes, Field, NoMemory, OutFault, SiteId};
use rb_io::{Sink, write_all};
use rb_script::{Limit, ScriptKind};
use rb_top::Status;
use std::alloc::Global;

/// Returns the exit number of the process: 0 at `Done`, another one for each kind of failure.
pub fn exit_number(status: Status) -> u8
    ensures { result ≡ exit_number_of status }
{
    match status {
        Status::Done => 0,
        Status::Usage => 2,
        Status::BadScript { .. } => 3,
        Status::ReadFault => 4,
        Status::WriteFault => 5,
        Status::DiskFault { .. } => 6,
        Status::NoMemory => 7,
        Status::NotEmpty { .. } => 8,
        Status::BadLog { .. } => 9,
    }
}

/// Writes the line that names a failure; writes nothing at `Done`. On an `Err`, a prefix of the
/// line has been written; it may be empty. Only the lines for a bad script, a bad log and a device
/// that is not empty allocate.
pub fn print_status<O: Sink>(alloc: Global, out: &mut O, status: Status) -> Result<(), OutFault>
    ensures whole { OnOk result (Appends (O.held out.old) (O.held out.new) (fault_line_of status)) }
    ensures part { OnErr result (GrowsByPrefix (O.held out.old) (O.held out.new)
        (fault_line_of status)) }
    ensures failed { IsErrOf result OutFault.Failed →
        Rose (O.fault_count out.old) (O.fault_count out.new) }
{
    match status {
        Status::Done => write_all(out, b"")?,
        Status::Usage => print_usage(out)?,
        Status::NotEmpty { site, file, length } => {
            let text = not_empty_line(alloc, site, file, length)?;
            write_all(out, text.as_slice())?;
        }
        Status::BadScript { line, kind } => {
            let text = bad_script_line(alloc, line, kind)?;
            write_all(out, text.as_slice())?;
        }
        Status::BadLog { position, field } => {
            let text = bad_log_line(alloc, position, field)?;
            write_all(out, text.as_slice())?;
        }
        Status::ReadFault => write_all(out, b"read fault\n")?,
        Status::WriteFault => write_all(out, b"write fault\n")?,
        Status::DiskFault { site: SiteId::A } => write_all(out, b"disk fault A\n")?,
        Status::DiskFault { site: SiteId::B } => write_all(out, b"disk fault B\n")?,
        Status::NoMemory => write_all(out, b"no memory\n")?,
    }
    Ok(())
}

// Writes the line for words outside the grammar.
#[tactic(auto, unfolding(crate::specs::Ending::usage_line))]
fn print_usage<O: Sink>(out: &mut O) -> Result<(), OutFault>
    ensures whole { OnOk result (Appends (O.held out.old) (O.held out.new) usage_line) }
    ensures part { OnErr result (GrowsByPrefix (O.held out.old) (O.held out.new) usage_line) }
    ensures failed { IsErrOf result OutFault.Failed →
        Rose (O.fault_count out.old) (O.fault_count out.new) }
{
    write_all(
        out,
        b"usage: run [--brief] | read | make SEED COUNT | live\n",
    )?;
    Ok(())
}

// Returns the line for a device that is not empty.
fn not_empty_line(alloc: Global, site: SiteId, file: u32, length: u64) -> Result<Bytes, NoMemory>
    ensures { IfOk result (λ text. text ≡ not_empty_line site file length) }
{
    let mut text = Vec::from_slice(alloc, b"not empty: site ")?;
    text.extend_from_slice(letter(site))?;
    text.extend_from_slice(b" file ")?;
    text.extend_from_slice(file.to_string(alloc)?.as_bytes())?;
    text.extend_from_slice(b" length ")?;
    text.extend_from_slice(length.to_string(alloc)?.as_bytes())?;
    text.push(b'\n')?;
    Ok(Bytes::from_vec(text))
}

// Returns the letter of a site.
fn letter(site: SiteId) -> &'static [u8]
    ensures { result.now ≡ letter_of site }
{
    match site {
        SiteId::A => b"A",
        SiteId::B => b"B",
    }
}

// Returns the line for a script that is not legal.
fn bad_script_line(alloc: Global, line: u32, kind: ScriptKind) -> Result<Bytes, NoMemory>
    ensures { IfOk result (λ text. text ≡ bad_script_line line kind) }
{
    let mut text = Vec::from_slice(alloc, b"bad script: line ")?;
    text.extend_from_slice(line.to_string(alloc)?.as_bytes())?;
    text.push(b' ')?;
    put_kind(&mut text, kind)?;
    text.push(b'\n')?;
    Ok(Bytes::from_vec(text))
}

// Returns the line for a log with a bad event.
fn bad_log_line(alloc: Global, position: u64, field: Field) -> Result<Bytes, NoMemory>
    ensures { IfOk result (λ text. text ≡ bad_log_line position field) }
{
    let mut text = Vec::from_slice(alloc, b"bad log: position ")?;
    text.extend_from_slice(position.to_string(alloc)?.as_bytes())?;
    text.extend_from_slice(b" field ")?;
    text.extend_from_slice(field_name(field))?;
    text.push(b'\n')?;
    Ok(Bytes::from_vec(text))
}

// Appends the kind of a refusal.
fn put_kind(text: &mut Vec<u8>, kind: ScriptKind) -> Result<(), NoMemory>
    ensures { OnOk result (text.new.items ≡ text.old.items ++ kind_of kind) }
{
    match kind {
        ScriptKind::Syntax => text.extend_from_slice(b"syntax")?,
        ScriptKind::Setup => text.extend_from_slice(b"setup")?,
        ScriptKind::Limit(limit) => {
            text.extend_from_slice(b"limit ")?;
            text.extend_from_slice(limit_name(limit))?;
        }
    }
    Ok(())
}

// Returns the name of a limit.
fn limit_name(limit: Limit) -> &'static [u8]
    ensures { result.now ≡ name_of_limit limit }
{
    match limit {
        Limit::Bytes => b"Bytes",
        Limit::Lines => b"Lines",
        Limit::Tables => b"Tables",
        Limit::Columns => b"Columns",
        Limit::RowBytes => b"RowBytes",
        Limit::Groups => b"Groups",
        Limit::Replicas => b"Replicas",
        Limit::LogLimit => b"LogLimit",
        Limit::TxChanges => b"TxChanges",
        Limit::Changes => b"Changes",
        Limit::Work => b"Work",
    }
}

// Returns the name of a field.
fn field_name(field: Field) -> &'static [u8]
    ensures { result.now ≡ name_of_field field }
{
    match field {
        Field::Magic => b"Magic",
        Field::EventType => b"EventType",
        Field::EventSize => b"EventSize",
        Field::EndPosition => b"EndPosition",
        Field::Order => b"Order",
        Field::Version => b"Version",
        Field::HeaderLength => b"HeaderLength",
        Field::PostHeader => b"PostHeader",
        Field::QueryText => b"QueryText",
        Field::TableId => b"TableId",
        Field::Columns => b"Columns",
        Field::ColumnType => b"ColumnType",
        Field::Metadata => b"Metadata",
        Field::Extra => b"Extra",
        Field::Width => b"Width",
        Field::Present => b"Present",
        Field::Null => b"Null",
        Field::Length => b"Length",
        Field::Key => b"Key",
        Field::Status => b"Status",
        Field::AfterRotate => b"AfterRotate",
        Field::Limit => b"Limit",
    }
}
