ghost use Rattle.std.specs.Prelude.{◌≡◌, ◌<◌, ◌==◌, ◌&&◌, nat_le, not, ◌++◌, ◌∷◌, [], codes, OnOk};
ghost use Rattle.std.specs.List.{flat_map, join_by};
ghost use Rattle.rb_text_defs.specs.Report.{hex_digit, row_line, text_byte, value_text};

use crate::put::{put, put_number};
use rb_base::{NoMemory, Row, Value};

/// Appends the line of a row, the key first.
#[tactic(auto, unfolding(rb_text_defs::specs::Report::row_line))]
pub(crate) fn put_row(text: &mut Vec<u8>, row: &Row) -> Result<(), NoMemory>
    ensures { OnOk result (text.new.items ≡ text.old.items ++ row_line row.now) }
{
    put(text, b"row")?;
    put_values(text, row.values.as_slice())?;
    Ok(())
}

/// Appends values, a space between.
pub(crate) fn put_joined(text: &mut Vec<u8>, values: &[Value]) -> Result<(), NoMemory>
    ensures { OnOk result (text.new.items ≡ text.old.items
        ++ join_by value_text (codes " ") values.now) }
{
    match values.split_first() {
        Some((first, others)) => {
            put_value(text, first)?;
            put_values(text, others)?;
            Ok(())
        }
        None => Ok(()),
    }
}

/// Appends values, a space before each.
fn put_values(text: &mut Vec<u8>, values: &[Value]) -> Result<(), NoMemory>
    ensures { OnOk result (text.new.items ≡ text.old.items
        ++ flat_map (λ value. 32 ∷ value_text value) values.now) }
{
    for value in values {
        text.push(b' ')?;
        put_value(text, value)?;
    }
    Ok(())
}

/// Appends a value: a number, or a text in quotes.
fn put_value(text: &mut Vec<u8>, value: &Value) -> Result<(), NoMemory>
    ensures { OnOk result (text.new.items ≡ text.old.items ++ value_text value.now) }
{
    match value {
        Value::Num(number) => {
            put_number(text, b"", *number)?;
            Ok(())
        }
        Value::Text(bytes) => {
            put(text, b"\"")?;
            put_bytes(text, bytes.as_slice())?;
            put(text, b"\"")?;
            Ok(())
        }
    }
}

/// Appends the bytes of a text or a name.
pub(crate) fn put_bytes(text: &mut Vec<u8>, bytes: &[u8]) -> Result<(), NoMemory>
    ensures { OnOk result (text.new.items ≡ text.old.items ++ flat_map text_byte bytes.now) }
{
    for byte in bytes {
        put_byte(text, *byte)?;
    }
    Ok(())
}

/// Appends a byte of a text: unchanged if it is printable and no quote or backslash, otherwise as
/// `\x` and two hexadecimal digits.
fn put_byte(text: &mut Vec<u8>, byte: u8) -> Result<(), NoMemory>
    ensures { OnOk result (text.new.items ≡ text.old.items ++ text_byte byte) }
{
    if is_plain(byte) {
        text.push(byte)?;
    } else {
        put(
            text,
            &[b'\\', b'x', hex_digit(byte / 16), hex_digit(byte % 16)],
        )?;
    }
    Ok(())
}

fn is_plain(byte: u8) -> bool
    ensures { result ≡ (nat_le 32 byte && nat_le byte 126 && not (byte == 34) && not (byte == 92)) }
{
    b' ' <= byte && byte <= b'~' && byte != b'"' && byte != b'\\'
}

/// Returns a hexadecimal digit, in lower case.
fn hex_digit(digit: u8) -> u8
    requires { digit < 16 }
    ensures { result ≡ hex_digit digit }
{
    if digit < 10 {
        digit + b'0'
    } else {
        digit + (b'a' - 10)
    }
}
