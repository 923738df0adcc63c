//! Sections that say how the source, the sink and the devices behave.

use crate::case::{Left, Stream};
use crate::fault::{Fault, bad};
use rb_base::Numbers;

/// Takes a line of the section on a source or a sink: `at most N`, or a failing call.
pub(crate) fn take_stream_line(stream: &mut Stream, line: &str) -> Result<(), Fault> {
    let Some(most) = line.strip_prefix("at most ") else {
        return take_failing(&mut stream.failing, line);
    };
    match most.parse::<usize>() {
        Ok(most) => {
            stream.most = most;
            Ok(())
        }
        Err(_) => bad("at most wants a number"),
    }
}

/// Takes a line `fails at N`: the call of this number fails.
pub(crate) fn take_failing(failing: &mut Numbers, line: &str) -> Result<(), Fault> {
    let Some(call) = line.strip_prefix("fails at ") else {
        return bad("a line begins with fails at, or in a source and a sink with at most");
    };
    match call.parse::<u64>() {
        Ok(call) => {
            failing.push(call)?;
            Ok(())
        }
        Err(_) => bad("fails at wants a number"),
    }
}

/// Returns how many bytes the source has left: `all`, `none` or a number.
pub(crate) fn left_of(line: &str) -> Result<Left, Fault> {
    match line {
        "all" => Ok(Left::All),
        "none" => Ok(Left::Bytes(0)),
        _ => match line.parse::<usize>() {
            Ok(count) => Ok(Left::Bytes(count)),
            Err(_) => bad("left wants all, none or a number"),
        },
    }
}
