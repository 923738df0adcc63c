ghost use Rattle.std.specs.Prelude.{◌≡◌, ◌+◌, ◌∷◌, [], ◌++◌, List, Ok, Err, IfOk, None, Some, OnOk};
ghost use Rattle.rb_text_defs.specs.Form.{LineMeaning, reading_of};
ghost use Rattle.rb_text_defs.specs.Script.{refusal_of_line, script_of};
ghost use Rattle.rb_script.specs.Refused.{IfBad};
ghost use Rattle.rb_script.specs.Summarizes.{IsSmall, Summarizes, forms_of};

use crate::before::Before;
use crate::cut::first_line;
use crate::fault::ParseFault;
use crate::limit::{MOST_LINES, MOST_SCRIPT_BYTES};
use crate::reading::{ReadLine, read_line};
use rb_text_defs::{Limit, Script, ScriptKind};
use std::alloc::Global;

/// Parses a script. `Bad` names the first bad line, counted from 1, and why it is refused, judged
/// in this order: it is of no form, it does not fit the lines before it, or it exceeds a limit.
/// Line 0 with the limit of bytes says that the script as a whole is too long. `NoMemory` says that
/// memory ran out for the lines up to there.
pub fn parse(alloc: Global, bytes: &[u8]) -> Result<Script, ParseFault>
    ensures ok { IfOk result (λ script. script_of bytes.now ≡ Ok script) }
    ensures bad { IfBad result (λ line kind. script_of bytes.now
        ≡ Err (record { line = line; kind = kind })) }
{
    if bytes.len() as u64 > MOST_SCRIPT_BYTES {
        return Err(ParseFault::Bad {
            line: 0,
            kind: ScriptKind::Limit(Limit::Bytes),
        });
    }
    let mut before = Before::new(alloc);
    let mut rest = bytes;
    while !rest.is_empty() {
        let (line, after) = first_line(rest);
        add_line(alloc, &mut before, line)?;
        rest = after;
    }
    Ok(before.into_script())
}

/// Adds one more line, or returns why it is refused.
fn add_line(alloc: Global, before: &mut Before, line: &[u8]) -> Result<(), ParseFault>
    requires { IsSmall before.old }
    ensures summary { OnOk result ((readings : List LineMeaning) → Summarizes readings before.old
        → Summarizes (readings ++ reading_of line.now ∷ []) before.new) }
    ensures fine { OnOk result ((readings : List LineMeaning) → Summarizes readings before.old
        → refusal_of_line (forms_of readings) (before.old.lines + 1) (reading_of line.now) ≡ None) }
    ensures bad { IfBad result (λ number kind. (readings : List LineMeaning) →
        Summarizes readings before.old
        → refusal_of_line (forms_of readings) (before.old.lines + 1) (reading_of line.now)
        ≡ Some (record { line = number; kind = kind })) }
    ensures lines { OnOk result (before.new.lines ≡ before.old.lines + 1) }
{
    let number = before.lines + 1;
    match read_line(alloc, line)? {
        ReadLine::Wrong => Err(ParseFault::Bad {
            line: number,
            kind: ScriptKind::Syntax,
        }),
        ReadLine::Skipped => {
            if number > MOST_LINES {
                return Err(ParseFault::Bad {
                    line: number,
                    kind: ScriptKind::Limit(Limit::Lines),
                });
            }
            before.skip();
            Ok(())
        }
        ReadLine::Says(form) => {
            if let Some(kind) = before.refusal(&form) {
                return Err(ParseFault::Bad { line: number, kind });
            }
            before.take(alloc, form)?;
            Ok(())
        }
    }
}
