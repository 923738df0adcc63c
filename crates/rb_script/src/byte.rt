ghost use Rattle.std.specs.Prelude.{◌≡◌, ◌≤◌, length, IsTrue, if◌then◌else◌, Some, None};
ghost use Rattle.std.specs.List.{list_all};
ghost use Rattle.rb_text_defs.specs.Words.{begins_with, decimal_value, ends_with, is_blank, is_digit, is_letter, is_line_byte, is_name, is_name_byte, is_number, is_skipped, is_text_byte};

/// Returns the value of 1 to 20 decimal digits, if it has at most 64 bits.
pub(crate) fn number(bytes: &[u8]) -> Option<u64>
    ensures { result ≡ (if is_number bytes.now then Some (decimal_value bytes.now) else None) }
{
    if bytes.is_empty() || bytes.len() > 20 || !are_digits(bytes) {
        return None;
    }
    u64::try_from(decimal_value(bytes)).ok()
}

/// Returns the value of at most 20 digits.
fn decimal_value(digits: &[u8]) -> u128
    requires few { length digits.now ≤ 20 }
    requires digits { IsTrue (list_all is_digit digits.now) }
    ensures { result ≡ decimal_value digits.now }
{
    let mut value = 0u128;
    for digit in digits {
        value = value * 10 + u128::from(*digit - b'0');
    }
    value
}

/// Returns whether these bytes are a name: at most 32, a letter first, then letters, digits and
/// underscores.
#[tactic(auto, unfolding(rb_text_defs::specs::Words::is_name))]
pub(crate) fn is_name(bytes: &[u8]) -> bool
    ensures { result ≡ is_name bytes.now }
{
    bytes.len() <= 32 && begins_with_letter(bytes) && are_name_bytes(bytes)
}

/// Returns whether all bytes may stand in a line: tabs and printable bytes.
pub(crate) fn are_line_bytes(line: &[u8]) -> bool
    ensures { result ≡ list_all is_line_byte line.now }
{
    line.iter().all(|byte| is_line_byte(*byte))
}

/// Returns whether all bytes may stand in a text: printable bytes.
pub(crate) fn are_text_bytes(bytes: &[u8]) -> bool
    ensures { result ≡ list_all is_text_byte bytes.now }
{
    bytes.iter().all(|byte| is_text_byte(*byte))
}

/// Returns whether a line is skipped: it is blank, or its first byte after the blanks is a number
/// sign.
#[tactic(auto, unfolding(rb_text_defs::specs::Words::is_skipped))]
pub(crate) fn is_skipped(line: &[u8]) -> bool
    ensures { result ≡ is_skipped line.now }
{
    for byte in line {
        if !is_blank(*byte) {
            return *byte == b'#';
        }
    }
    true
}

/// Returns whether the last byte is a space or a tab.
pub(crate) fn ends_with_blank(bytes: &[u8]) -> bool
    ensures { result ≡ ends_with is_blank bytes.now }
{
    !bytes.is_empty() && is_blank(bytes[bytes.len() - 1])
}

pub(crate) fn is_blank(byte: u8) -> bool
    ensures { result ≡ is_blank byte }
{
    byte == b' ' || byte == b'\t'
}

fn is_line_byte(byte: u8) -> bool
    ensures { result ≡ is_line_byte byte }
{
    byte == b'\t' || b' ' <= byte && byte <= b'~'
}

fn is_text_byte(byte: u8) -> bool
    ensures { result ≡ is_text_byte byte }
{
    b' ' <= byte && byte <= b'~'
}

fn begins_with_letter(bytes: &[u8]) -> bool
    ensures { result ≡ begins_with is_letter bytes.now }
{
    match bytes {
        [first, ..] => is_letter(*first),
        [] => false,
    }
}

fn are_name_bytes(bytes: &[u8]) -> bool
    ensures { result ≡ list_all is_name_byte bytes.now }
{
    bytes.iter().all(|byte| is_name_byte(*byte))
}

fn is_name_byte(byte: u8) -> bool
    ensures { result ≡ is_name_byte byte }
{
    is_letter(byte) || is_digit(byte) || byte == b'_'
}

fn are_digits(bytes: &[u8]) -> bool
    ensures { result ≡ list_all is_digit bytes.now }
{
    bytes.iter().all(|byte| is_digit(*byte))
}

fn is_letter(byte: u8) -> bool
    ensures { result ≡ is_letter byte }
{
    b'a' <= byte && byte <= b'z'
}

fn is_digit(byte: u8) -> bool
    ensures { result ≡ is_digit byte }
{
    b'0' <= byte && byte <= b'9'
}
