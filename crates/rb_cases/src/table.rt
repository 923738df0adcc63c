use crate::fault::{Fault, bad};
use std::alloc::Global;

/// A case that is played once for each row.
#[derive(Clone, Copy)]
pub(crate) struct Table<'a> {
    /// The text before the table.
    pub(crate) template: &'a str,
    /// The columns' names.
    pub(crate) columns: &'a str,
    pub(crate) rows: &'a str,
}

impl<'a> Table<'a> {
    /// Splits a case at its last section, `[rows NAME ..]`, if it has one.
    pub(crate) fn of(text: &'a str) -> Option<Table<'a>> {
        let (template, rest) = text.split_once("\n[rows ")?;
        let (columns, rows) = rest.split_once("]\n")?;
        Some(Table {
            template,
            columns,
            rows,
        })
    }
}

/// Returns the case's text with the cells of a row in place of the columns' names in braces. `|`
/// stands between cells.
pub(crate) fn filled(alloc: Global, table: &Table<'_>, row: &str) -> Result<String, Fault> {
    let mut text = String::from_str(alloc, table.template)?;
    let mut cells = row.split('|');
    for column in table.columns.split_whitespace() {
        let Some(cell) = cells.next() else {
            return bad("a row has too few cells");
        };
        let name = format!(in alloc; "{{{column}}}")?;
        text = text.as_str().replace(alloc, name.as_str(), cell.trim())?;
    }
    if cells.next().is_some() {
        return bad("a row has too many cells");
    }
    Ok(text)
}
