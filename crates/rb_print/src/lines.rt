ghost use Rattle.std.specs.Prelude.{◌≡◌, ◌++◌, ◌∷◌, [], codes, length, IfOk, OnOk};
ghost use Rattle.std.specs.List.{concat, flat_map};
ghost use Rattle.rb_text_defs.specs.Report.{index_line, labelled, last_in, letter_of, log_line, log_lines, outcome_line, row_line, table_lines, text_of_lines};

use crate::outcome::put_outcome;
use crate::put::{Labelled, letter, put, put_number, put_numbers};
use crate::value::put_row;
use rb_base::{Bytes, Epoch, IndexRow, NoMemory, Outcome, Row, SiteId};
use std::alloc::Global;

/// Returns an event's line of the report, with its line feed: the number of its line in the script,
/// and what it did. The only error is `NoMemory`.
pub fn print_outcome(alloc: Global, line: u32, outcome: &Outcome) -> Result<Bytes, NoMemory>
    ensures { IfOk result (λ text. text ≡ outcome_line line outcome.now ++ 10 ∷ []) }
{
    let mut text = Vec::new(alloc);
    put_number(&mut text, b"", u64::from(line))?;
    put(&mut text, b" ")?;
    put_outcome(&mut text, outcome)?;
    text.push(b'\n')?;
    Ok(Bytes::from_vec(text))
}

/// Returns the lines of a table: its name with the count of its rows, and a line for each row, each
/// with its line feed. The only error is `NoMemory`.
#[tactic(auto, using(crate::proofs::TextLaws::pieces_mapped))]
pub fn print_table(
    alloc: Global,
    site: SiteId,
    name: &[u8],
    rows: &[Row],
) -> Result<Bytes, NoMemory>
    ensures { IfOk result (λ text. text
        ≡ text_of_lines (table_lines site (record { name = name.now; rows = rows.now }))) }
{
    let mut text = Vec::new(alloc);
    put_head(&mut text, site, name, rows.len() as u64)?;
    text.push(b'\n')?;
    put_rows(&mut text, rows)?;
    Ok(Bytes::from_vec(text))
}

/// Appends a table's name and the count of its rows.
#[tactic(auto, using(crate::proofs::TextLaws::after_four))]
fn put_head(text: &mut Vec<u8>, site: SiteId, name: &[u8], count: u64) -> Result<(), NoMemory>
    ensures { OnOk result (text.new.items ≡ text.old.items
        ++ concat (codes "table " ∷ letter_of site ∷ codes " " ∷ name.now ∷ labelled
        (codes " rows=") count ∷ [])) }
{
    put(text, b"table ")?;
    put(text, letter(site))?;
    put(text, b" ")?;
    put(text, name)?;
    put_number(text, b" rows=", count)?;
    Ok(())
}

/// Appends a line for each row.
fn put_rows(text: &mut Vec<u8>, rows: &[Row]) -> Result<(), NoMemory>
    ensures { OnOk result (text.new.items ≡ text.old.items
        ++ flat_map (λ row. row_line row ++ 10 ∷ []) rows.now) }
{
    for row in rows {
        put_row(text, row)?;
        text.push(b'\n')?;
    }
    Ok(())
}

/// Returns the lines of a site's log, each with its line feed: the counts of its files and epochs,
/// and a line for each row of its index. `files` is the number of its files. The only error is
/// `NoMemory`.
#[tactic(auto, using(crate::proofs::TextLaws::pieces_mapped))]
pub fn print_log(
    alloc: Global,
    site: SiteId,
    files: u32,
    rows: &[IndexRow],
) -> Result<Bytes, NoMemory>
    ensures { IfOk result (λ text. text
        ≡ text_of_lines (log_lines site (record { files = files; rows = rows.now }))) }
{
    let mut text = Vec::new(alloc);
    put_log(&mut text, site, files, rows)?;
    text.push(b'\n')?;
    put_index(&mut text, rows)?;
    Ok(Bytes::from_vec(text))
}

/// Appends the counts of a log's files and epochs, and its last epoch.
fn put_log(text: &mut Vec<u8>, site: SiteId, files: u32, rows: &[IndexRow]) -> Result<(), NoMemory>
    ensures { OnOk result (text.new.items ≡ text.old.items
        ++ log_line site files (length rows.now) (last_in rows.now)) }
{
    put(text, b"log ")?;
    put(text, letter(site))?;
    put_numbers(
        text,
        &[
            Labelled(b" files=", u64::from(files)),
            Labelled(b" epochs=", rows.len() as u64),
            Labelled(b" written=", last_epoch(rows).0),
        ],
    )?;
    Ok(())
}

/// Returns the epoch of the last row, or epoch 0 if there is no row.
fn last_epoch(rows: &[IndexRow]) -> Epoch
    ensures { result.0 ≡ last_in rows.now }
{
    match rows.last() {
        Some(row) => row.epoch,
        None => Epoch(0),
    }
}

/// Appends a line for each row of an index.
fn put_index(text: &mut Vec<u8>, rows: &[IndexRow]) -> Result<(), NoMemory>
    ensures { OnOk result (text.new.items ≡ text.old.items
        ++ flat_map (λ row. index_line row ++ 10 ∷ []) rows.now) }
{
    for row in rows {
        put_index_row(text, row)?;
        text.push(b'\n')?;
    }
    Ok(())
}

/// Appends a row of an index: its epoch and GCI, its place in the log, and how many changes of each
/// kind it has.
#[tactic(auto, unfolding(rb_text_defs::specs::Report::index_line))]
fn put_index_row(text: &mut Vec<u8>, row: &IndexRow) -> Result<(), NoMemory>
    ensures { OnOk result (text.new.items ≡ text.old.items ++ index_line row.now) }
{
    put_numbers(
        text,
        &[
            Labelled(b"epoch ", row.epoch.0),
            Labelled(b" gci=", u64::from(row.gci)),
            Labelled(b" file=", u64::from(row.file)),
            Labelled(b" pos=", row.position),
            Labelled(b" next=", row.next_position),
            Labelled(b" ins=", u64::from(row.inserts)),
            Labelled(b" upd=", u64::from(row.updates)),
            Labelled(b" del=", u64::from(row.deletes)),
        ],
    )?;
    Ok(())
}
