use crate::arguments::arguments;
use rb_base::Bytes;
use rb_top::Status;
use std::alloc::Global;
use std::env::{Env, FillError};
use std::test::Fail;

// A command line.
#[derive(Drop)]
struct CommandLine {
    words: Vec<Bytes>,
}

impl CommandLine {
    fn new(alloc: Global, words: &[&[u8]]) -> Result<CommandLine, Fail> {
        let mut all = Vec::new(alloc);
        for word in words {
            all.push(Bytes::from_vec(word.to_vec(alloc)?))?;
        }
        Ok(CommandLine { words: all })
    }
}

impl Env for CommandLine {
    fn arg(&self, i: usize, buf: &mut [u8]) -> Result<usize, FillError> {
        let Some(word) = self.words.get(i) else {
            return Err(FillError::NotPresent);
        };
        let bytes = word.as_slice();
        if bytes.len() > buf.len() {
            return Err(FillError::TooLong);
        }
        buf[..bytes.len()].copy_from_slice(bytes);
        Ok(bytes.len())
    }

    fn var(&self, _name: &str, _buf: &mut [u8]) -> Result<usize, FillError> {
        Err(FillError::NotPresent)
    }

    fn var_at(&self, _i: usize, _buf: &mut [u8]) -> Result<usize, FillError> {
        Err(FillError::NotPresent)
    }
}

// An argument that is no text is outside the grammar of the words.
#[test]
fn arguments_are_words(rt: HostRuntime) -> Result<(), Fail> {
    let alloc = rt.alloc();
    let line = CommandLine::new(alloc, &[b"rb_cli", b"run", b"on"])?;
    let words = arguments(&(line, alloc)).unwrap_or(Vec::new(alloc));
    assert_eq!(rt; words.len(), 2);
    assert_eq!(rt; words[0].as_slice(), b"run".as_slice());
    assert_eq!(rt; words[1].as_slice(), b"on".as_slice());
    let line = CommandLine::new(alloc, &[b"rb_cli", &[255]])?;
    assert_eq!(rt; arguments(&(line, alloc)).err(), Some(Status::Usage));
    Ok(())
}
