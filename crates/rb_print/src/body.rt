ghost use Rattle.std.specs.Prelude.{◌≡◌, ◌++◌, ◌∷◌, [], ◌==◌, find, map, IfOk, OnOk};
ghost use Rattle.std.specs.List.{flat_map, join_by};
ghost use Rattle.std.specs.Option.{option_copied};
ghost use Rattle.rb_text_defs.specs.LogText.{Ascend, body_text, change_line, epoch_line, image_text, kind_text, reflected_number, rest_line, rotate_line, table_text};

use crate::put::{Labelled, put, put_number, put_numbers};
use crate::value::{put_bytes, put_joined};
use rb_base::{Bytes, Change, EpochBody, Kind, Mapped, NoMemory, Row};
use std::alloc::Global;

/// Returns the line of an epoch of a log, and a line for each of its changes, each with its line
/// feed. `end` is the epoch's end, in bytes from the file's start. The only error is `NoMemory`.
#[tactic(auto, unfolding(rb_text_defs::specs::LogText::body_text), using(crate::proofs::TextLaws::pieces_mapped))]
pub fn print_body(alloc: Global, body: &EpochBody, end: u64) -> Result<Bytes, NoMemory>
    requires ascending { Ascend body.now.tables }
    ensures { IfOk result (λ text. text ≡ body_text body.now end) }
{
    let mut text = Vec::new(alloc);
    put_epoch(&mut text, body, end)?;
    text.push(b'\n')?;
    put_changes(&mut text, body.tables.as_slice(), body.changes.as_slice())?;
    Ok(Bytes::from_vec(text))
}

/// Returns the line of a rotation, with its line feed: the next file's name, and the position in it
/// at which the log continues, in bytes from its start. The only error is `NoMemory`.
#[tactic(auto, unfolding(rb_text_defs::specs::LogText::rotate_line))]
pub fn print_rotation(alloc: Global, position: u64, name: &[u8]) -> Result<Bytes, NoMemory>
    ensures { IfOk result (λ text. text ≡ rotate_line position name.now ++ 10 ∷ []) }
{
    let mut text = Vec::new(alloc);
    put(&mut text, b"rotate name=")?;
    put_bytes(&mut text, name)?;
    put_number(&mut text, b" position=", position)?;
    text.push(b'\n')?;
    Ok(Bytes::from_vec(text))
}

/// Returns the line at the end of a log, with its line feed. `rest` is how many bytes follow the
/// last event outside an epoch or at an epoch's end. The only error is `NoMemory`.
#[tactic(auto, unfolding(rb_text_defs::specs::LogText::rest_line))]
pub fn print_rest(alloc: Global, rest: u64) -> Result<Bytes, NoMemory>
    ensures { IfOk result (λ text. text ≡ rest_line rest ++ 10 ∷ []) }
{
    let mut text = Vec::new(alloc);
    put_number(&mut text, b"end rest=", rest)?;
    text.push(b'\n')?;
    Ok(Bytes::from_vec(text))
}

/// Appends the line of an epoch.
#[tactic(auto, unfolding(rb_text_defs::specs::LogText::epoch_line))]
fn put_epoch(text: &mut Vec<u8>, body: &EpochBody, end: u64) -> Result<(), NoMemory>
    ensures { OnOk result (text.new.items ≡ text.old.items ++ epoch_line body.now end) }
{
    put_numbers(
        text,
        &[
            Labelled(b"epoch ", body.epoch.0),
            Labelled(b" server=", u64::from(body.server)),
            Labelled(b" reflected=", reflected_number(body)),
            Labelled(b" changes=", body.changes.as_slice().len() as u64),
            Labelled(b" end=", end),
        ],
    )
}

/// Returns the number of the reflected epoch, or 0.
fn reflected_number(body: &EpochBody) -> u64
    ensures { result ≡ reflected_number body.now }
{
    match body.reflected {
        Some(epoch) => epoch.0,
        None => 0,
    }
}

/// Appends a line for each change.
fn put_changes(text: &mut Vec<u8>, tables: &[Mapped], changes: &[Change]) -> Result<(), NoMemory>
    requires ascending { Ascend tables.now }
    ensures { OnOk result (text.new.items
        ≡ text.old.items ++ flat_map (λ change. change_line tables.now change
        ++ 10 ∷ []) changes.now) }
{
    for change in changes {
        put_change(text, tables, change)?;
        text.push(b'\n')?;
    }
    Ok(())
}

/// Appends the line of a change.
#[tactic(auto, unfolding(rb_text_defs::specs::LogText::change_line), using(crate::proofs::TextLaws::after_eight))]
fn put_change(text: &mut Vec<u8>, tables: &[Mapped], change: &Change) -> Result<(), NoMemory>
    requires ascending { Ascend tables.now }
    ensures { OnOk result (text.new.items ≡ text.old.items ++ change_line tables.now change.now) }
{
    put(text, kind_name(change.kind))?;
    put(text, b" ")?;
    put_table(text, tables, change.table)?;
    put_number(text, b" transid=", change.transid)?;
    put_number(text, b" key=", change.key)?;
    put(text, b" before=")?;
    put_image(text, &change.before)?;
    put(text, b" after=")?;
    put_image(text, &change.after)?;
    Ok(())
}

fn kind_name(kind: Kind) -> &'static [u8]
    ensures { result.now ≡ kind_text kind }
{
    match kind {
        Kind::Insert => b"ins",
        Kind::Update => b"upd",
        Kind::Remove => b"del",
    }
}

/// Appends the names of the table with this id; nothing if there is none.
#[tactic(auto, unfolding(rb_text_defs::specs::LogText::table_text), using(crate::proofs::TextLaws::after_two))]
fn put_table(text: &mut Vec<u8>, tables: &[Mapped], id: u16) -> Result<(), NoMemory>
    requires ascending { Ascend tables.now }
    ensures { OnOk result (text.new.items ≡ text.old.items ++ table_text tables.now id) }
{
    match find_table(tables, id) {
        Some(table) => {
            put_bytes(text, table.schema.as_slice())?;
            put(text, b".")?;
            put_bytes(text, table.name.as_slice())?;
            Ok(())
        }
        None => Ok(()),
    }
}

/// Returns the table with this id. There may be very many tables.
fn find_table(tables: &[Mapped], id: u16) -> Option<&Mapped>
    requires ascending { Ascend tables.now }
    ensures { option_copied result ≡ find (λ table. table.id == id) tables.now }
{
    match tables.binary_search_by_key(&id, |table| table.id) {
        Ok(place) => Some(&tables[place]),
        Err(_) => None,
    }
}

/// Appends a row image, or a dash if there is none.
#[tactic(auto, unfolding(rb_text_defs::specs::LogText::image_text), using(crate::proofs::TextLaws::after_two))]
fn put_image(text: &mut Vec<u8>, image: &Option<Row>) -> Result<(), NoMemory>
    ensures { OnOk result (text.new.items ≡ text.old.items ++ image_text image.now) }
{
    match image {
        Some(row) => {
            put(text, b"(")?;
            put_joined(text, row.values.as_slice())?;
            put(text, b")")?;
            Ok(())
        }
        None => {
            put(text, b"-")?;
            Ok(())
        }
    }
}
