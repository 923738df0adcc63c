//! A program that plays test cases from files. Each file of the folder `cases` says what the main
//! program gets and what it must give; data/README.md describes the form.
//!
//! It calls [`rb_top::top`] as `rb_cli` does, with a source, a sink and two devices in memory. It
//! has no contract. Its output is compared with the file `stdout`.
#![tactic(auto)]

mod case;
mod compare;
mod edges;
mod fault;
mod hex;
mod objects;
mod parse;
mod parts;
mod play;
mod section;
mod shown;
mod spell;
mod table;

use crate::compare::first_difference;
use crate::fault::{Fault, bad};
use crate::parse::parse;
use crate::parts::{Part, read_parts};
use crate::play::play;
use crate::table::{Table, filled};
use std::process::ExitCode;
use std::rt::Files;
use std::thread::Threads;
use std::{fs, io};

fn main(rt: HostRuntime) -> io::Result<ExitCode> {
    let names = names_of(&rt, "cases")?;
    let parts = match read_parts(&rt, &names_of(&rt, "parts")?) {
        Ok(parts) => parts,
        Err(fault) => {
            println!(rt; "parts: {fault}")?;
            return Ok(ExitCode::from(1));
        }
    };
    let mut passed = 0u64;
    let mut failed = 0u64;
    for name in &names {
        if is_passed(&rt, &parts, name.as_str())? {
            passed = passed.saturating_add(1);
        } else {
            failed = failed.saturating_add(1);
        }
    }
    println!(rt; "{passed} passed, {failed} failed")?;
    Ok(ExitCode::from(if failed == 0 { 0 } else { 1 }))
}

// Returns the names of a folder's files, sorted.
fn names_of<R: Files + AllocGlobal + Clone + Drop>(
    rt: &R,
    folder: &str,
) -> io::Result<Vec<String>> {
    let mut names = Vec::new(rt.alloc());
    for entry in fs::read_dir(rt, folder)? {
        names.push(String::from_str(rt.alloc(), entry?.file_name())?)?;
    }
    names.sort_unstable();
    Ok(names)
}

// Plays the case of this name, prints its line, and returns whether it passed.
fn is_passed<R: Files + AllocGlobal + Print + Threads + Sync>(
    rt: &R,
    parts: &[Part],
    name: &str,
) -> io::Result<bool> {
    match difference_of_file(rt, parts, name) {
        Ok(None) => {
            println!(rt; "{name}: ok")?;
            Ok(true)
        }
        Ok(Some(difference)) => {
            println!(rt; "{name}: {difference}")?;
            Ok(false)
        }
        Err(fault) => {
            println!(rt; "{name}: {fault}")?;
            Ok(false)
        }
    }
}

// Plays a case file, once for each row if it ends with a table. Returns the first difference.
fn difference_of_file<R: Files + AllocGlobal + Threads + Sync>(
    rt: &R,
    parts: &[Part],
    name: &str,
) -> Result<Option<String>, Fault> {
    let path = format!(in rt.alloc(); "cases/{name}")?;
    let text = fs::read_to_string(rt, path.as_str())?;
    match Table::of(text.as_str()) {
        Some(table) => difference_of_rows(rt, parts, &table),
        None => difference_of(rt, parts, text.as_str()),
    }
}

// Plays a case once for each row. Returns the first difference, with its row.
fn difference_of_rows<R: AllocGlobal + Threads + Sync>(
    rt: &R,
    parts: &[Part],
    table: &Table<'_>,
) -> Result<Option<String>, Fault> {
    if table.rows.trim().is_empty() {
        return bad("the table has no row");
    }
    for row in table.rows.lines() {
        match difference_of_row(rt, parts, table, row) {
            Ok(None) => {}
            Ok(Some(difference)) => {
                return Ok(Some(format!(in rt.alloc(); "row {row}: {difference}")?));
            }
            Err(fault) => return Ok(Some(format!(in rt.alloc(); "row {row}: {fault}")?)),
        }
    }
    Ok(None)
}

// Plays a case with the cells of a row. Returns the first difference.
fn difference_of_row<R: AllocGlobal + Threads + Sync>(
    rt: &R,
    parts: &[Part],
    table: &Table<'_>,
    row: &str,
) -> Result<Option<String>, Fault> {
    let text = filled(rt.alloc(), table, row)?;
    difference_of(rt, parts, text.as_str())
}

// Plays a case once. Returns the first difference between the expected and the actual result.
fn difference_of<R: AllocGlobal + Threads + Sync>(
    rt: &R,
    parts: &[Part],
    text: &str,
) -> Result<Option<String>, Fault> {
    let case = parse(rt.alloc(), parts, text)?;
    let played = play(rt, rt.alloc(), &case)?;
    first_difference(rt.alloc(), &case, &played)
}
