ghost use Rattle.std.specs.Prelude.{◌≡◌, map, drop, IfOk};
ghost use Rattle.std.specs.String.{string_bytes};

use rb_base::{Bytes, NoMemory};
use rb_top::Status;
use std::alloc::Global;
use std::env::{Args, Env, args};
use std::io::ErrorKind;

/// Returns the process's arguments without the program's name, as bytes. The error is `Usage` if an
/// argument is no text, or `NoMemory`.
pub fn arguments<R: Env + AllocGlobal>(rt: &R) -> Result<Vec<Bytes>, Status> {
    match args(rt) {
        Ok(arguments) => all_words(rt.alloc(), arguments).map_err(|_| Status::NoMemory),
        Err(error) if error.kind() == ErrorKind::OutOfMemory => Err(Status::NoMemory),
        Err(_) => Err(Status::Usage),
    }
}

fn all_words(alloc: Global, arguments: Args) -> Result<Vec<Bytes>, NoMemory> {
    let arguments: Vec<String> = arguments.collect(alloc)?;
    words(alloc, &arguments)
}

// Returns the words of a command line: all arguments but the first, which is the program's name.
fn words(alloc: Global, arguments: &[String]) -> Result<Vec<Bytes>, NoMemory>
    ensures { IfOk result (λ words. words.items ≡ map string_bytes (drop 1 arguments.now)) }
{
    match arguments {
        [] => Ok(Vec::new(alloc)),
        [_name, words @ ..] => copies(alloc, words),
    }
}

// Returns the arguments as bytes.
fn copies(alloc: Global, arguments: &[String]) -> Result<Vec<Bytes>, NoMemory>
    ensures { IfOk result (λ words. words.items ≡ map string_bytes arguments.now) }
{
    let mut words = Vec::new(alloc);
    for argument in arguments {
        words.push(Bytes::from_vec(Vec::from_slice(alloc, argument.as_bytes())?))?;
    }
    Ok(words)
}
