ghost use Rattle.std.specs.Prelude.{◌≡◌, ◌≤◌, map, IfOk, option_map};
ghost use Rattle.rb_text_defs.specs.Form.{maximum_of, type_of};
ghost use Rattle.rb_text_defs.specs.Script.{column_bytes, most_row_bytes, row_bytes};
ghost use Rattle.rb_script.specs.Seen.{column_seen, word_of};

use crate::word::Word;
use rb_base::{Column, Columns, NoMemory};
use std::alloc::Global;

/// The type of a column, as a line writes it.
#[derive(Clone, Copy)]
pub(crate) enum ColumnType {
    /// A number.
    Num,
    /// A text of at most this many bytes. The number is at least 1, and may exceed what a row has
    /// room for.
    Text(u32),
}

/// Returns the type that a word names.
pub(crate) fn type_of(word: Word<'_>) -> Option<ColumnType>
    ensures { option_map column_seen result ≡ type_of (word_of word.entry) }
{
    if word.is(b"num") {
        return Some(ColumnType::Num);
    }
    let most = maximum_of(word)?;
    if most < 1 {
        return None;
    }
    Some(ColumnType::Text(most))
}

/// Returns the maximum length of a text in bytes: the number below 2^32 after `text:`.
fn maximum_of(word: Word<'_>) -> Option<u32>
    ensures { result ≡ maximum_of (word_of word.entry) }
{
    match word {
        Word::Plain(bytes) => {
            let digits = bytes.strip_prefix(b"text:".as_slice())?;
            Word::Plain(digits).small_number()
        }
        Word::Quoted(_) => None,
    }
}

/// Returns the columns of these types. Their rows must be short enough for a table.
pub(crate) fn columns_of(alloc: Global, types: &[ColumnType]) -> Result<Columns, NoMemory>
    requires { row_bytes (map column_seen types.now) ≤ most_row_bytes }
    ensures { IfOk result (λ columns. columns ≡ map column_seen types.now) }
{
    let mut columns = Vec::new(alloc);
    for column_type in types {
        columns.push(column_of(*column_type))?;
    }
    Ok(Columns::from_vec(columns))
}

/// Returns the column of a type that has room in a row.
fn column_of(column_type: ColumnType) -> Column
    requires { column_bytes (column_seen column_type) ≤ most_row_bytes }
    ensures { result ≡ column_seen column_type }
{
    match column_type {
        ColumnType::Num => Column::Num,
        ColumnType::Text(most) => Column::Text(most as u16),
    }
}
