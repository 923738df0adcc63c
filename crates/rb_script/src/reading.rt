ghost use Rattle.std.specs.Prelude.{◌≡◌, IfOk, option_map};
ghost use Rattle.rb_text_defs.specs.Words.{◌>>=◌ as ◌read_on◌, words_of};
ghost use Rattle.rb_text_defs.specs.Form.{form_of, reading_of, says};
ghost use Rattle.rb_script.specs.Seen.{form_seen, reading_seen};

use crate::byte::{are_line_bytes, is_skipped};
use crate::form::{Form, read_form};
use crate::word::words;
use rb_base::NoMemory;
use std::alloc::Global;

/// What a line says.
#[derive(Drop)]
pub(crate) enum ReadLine<'a> {
    /// The line is of no form.
    Wrong,
    /// The line is a comment or blank.
    Skipped,
    /// The line says this.
    Says(Form<'a>),
}

/// Returns what a line says. The only error is `NoMemory`.
#[tactic(auto, unfolding(rb_text_defs::specs::Form::reading_of))]
pub(crate) fn read_line(alloc: Global, line: &[u8]) -> Result<ReadLine<'_>, NoMemory>
    ensures { IfOk result (λ reading. reading_seen reading ≡ reading_of line.now) }
{
    if !are_line_bytes(line) {
        return Ok(ReadLine::Wrong);
    }
    if is_skipped(line) {
        return Ok(ReadLine::Skipped);
    }
    match form_in(alloc, line)? {
        Some(form) => Ok(ReadLine::Says(form)),
        None => Ok(ReadLine::Wrong),
    }
}

/// Returns the form that the words of a line have, or `None` if a text is malformed or no form
/// matches.
fn form_in(alloc: Global, line: &[u8]) -> Result<Option<Form<'_>>, NoMemory>
    ensures { IfOk result (λ form. option_map form_seen form
        ≡ (words_of line.now read_on form_of)) }
{
    let Some(words) = words(alloc, line)? else {
        return Ok(None);
    };
    let form = read_form(alloc, &words)?;
    Ok(form)
}
