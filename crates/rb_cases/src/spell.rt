//! Lines of text as a case writes them.

use crate::fault::{Fault, bad};
use crate::hex::digit_of;
use std::alloc::Global;

/// What was read before the next character.
#[derive(Clone, Copy)]
enum State {
    Plain,
    /// A backslash.
    Escape,
    /// A backslash and an `x`.
    Hex,
    /// A backslash, an `x` and this digit.
    HexDigit(u8),
}

/// Appends the bytes of a line, with a line feed. A backslash at its end takes the line feed away.
/// A line that begins with `{N times}` appends what follows, `N` times.
pub(crate) fn spell_line(alloc: Global, bytes: &mut Vec<u8>, line: &str) -> Result<(), Fault> {
    let (times, line) = split_times(line);
    let mut spelled = Vec::new(alloc);
    spell(&mut spelled, line)?;
    repeat(bytes, &spelled, times)
}

/// Appends a piece `times` times.
pub(crate) fn repeat(bytes: &mut Vec<u8>, piece: &[u8], times: u64) -> Result<(), Fault> {
    for _ in 0..times {
        bytes.extend_from_slice(piece)?;
    }
    Ok(())
}

// Splits `{N times}` from what follows it. Any other line is taken once.
fn split_times(line: &str) -> (u64, &str) {
    let Some(rest) = line.strip_prefix('{') else {
        return (1, line);
    };
    let Some((times, rest)) = rest.split_once(" times}") else {
        return (1, line);
    };
    match times.parse::<u64>() {
        Ok(times) => (times, rest),
        Err(_) => (1, line),
    }
}

// Appends the bytes of one line.
fn spell(bytes: &mut Vec<u8>, line: &str) -> Result<(), Fault> {
    let mut state = State::Plain;
    for letter in line.bytes() {
        state = after(bytes, state, letter)?;
    }
    match state {
        State::Plain => {
            bytes.push(b'\n')?;
            Ok(())
        }
        State::Escape => Ok(()),
        State::Hex | State::HexDigit(_) => bad("\\x wants two digits"),
    }
}

// Reads the next character, and appends what is complete. Returns the state after it.
fn after(bytes: &mut Vec<u8>, state: State, letter: u8) -> Result<State, Fault> {
    match state {
        State::Plain => {
            if letter == b'\\' {
                return Ok(State::Escape);
            }
            bytes.push(letter)?;
            Ok(State::Plain)
        }
        State::Escape => after_backslash(bytes, letter),
        State::Hex => match digit_of(letter) {
            Some(digit) => Ok(State::HexDigit(digit)),
            None => bad("\\x wants two digits"),
        },
        State::HexDigit(high) => match digit_of(letter) {
            Some(digit) => {
                bytes.push((high << 4) | digit)?;
                Ok(State::Plain)
            }
            None => bad("\\x wants two digits"),
        },
    }
}

// Appends what a character after a backslash means. Returns the state after it.
fn after_backslash(bytes: &mut Vec<u8>, letter: u8) -> Result<State, Fault> {
    let byte = match letter {
        b'n' => b'\n',
        b'r' => b'\r',
        b't' => b'\t',
        b'[' | b'{' | b'\\' => letter,
        b'x' => return Ok(State::Hex),
        _ => return bad("a backslash stands before n, r, t, [, {, \\, x or the line's end"),
    };
    bytes.push(byte)?;
    Ok(State::Plain)
}
