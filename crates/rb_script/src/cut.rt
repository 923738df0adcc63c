ghost use Rattle.std.specs.Prelude.{◌≡◌, ◌<◌, ◌==◌, [], ◌∷◌, length, IfNone, IfSome};
ghost use Rattle.std.specs.Bool.{OnTrue};
ghost use Rattle.std.specs.Option.{option_map_or};
ghost use Rattle.std.specs.List.{slice_split};
ghost use Rattle.rb_text_defs.specs.Words.{ends_with, lines_of, without_return};

/// Splits a non-empty text after its first line. Returns the line without its end, and the text
/// after it.
pub(crate) fn first_line(text: &[u8]) -> (&[u8], &[u8])
    requires { 0 < length text.now }
    ensures lines { lines_of text.now ≡ result.0.now ∷ lines_of result.1.now }
    ensures shorter { length result.1.now < length text.now }
{
    let (line, rest) = cut(text, b'\n');
    match rest {
        Some(rest) => (without_return(line), rest),
        None => (without_return(line), &[]),
    }
}

/// Returns a line without a carriage return at its end.
fn without_return(line: &[u8]) -> &[u8]
    ensures { result.now ≡ without_return line.now }
{
    if ends_with_return(line) {
        &line[..line.len() - 1]
    } else {
        line
    }
}

fn ends_with_return(line: &[u8]) -> bool
    ensures last { result ≡ ends_with (λ byte. byte == 13) line.now }
    ensures some { OnTrue result (0 < length line.now) }
{
    !line.is_empty() && line[line.len() - 1] == b'\r'
}

/// Returns the bytes before the first byte that equals `at`, and the bytes after it. Without such a
/// byte, returns the whole text and `None`.
pub(crate) fn cut(text: &[u8], at: u8) -> (&[u8], Option<&[u8]>)
    ensures split { slice_split (λ byte. byte == at) text.now
        ≡ result.0.now ∷ option_map_or (λ rest. slice_split (λ byte. byte == at) rest.now) result.1
        [] }
    ensures all { IfNone result.1 (result.0.now ≡ text.now) }
    ensures shorter { IfSome result.1 (λ rest. length rest.now < length text.now) }
{
    for (index, byte) in text.iter().enumerate() {
        if *byte == at {
            return (&text[..index], Some(&text[index + 1..]));
        }
    }
    (text, None)
}
