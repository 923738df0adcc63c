ghost use Rattle.std.specs.Prelude.{◌≡◌, ◌<◌, ◌≤◌, length, IfOk, IfSome, IsErrOf, OnOk, OnErr};
ghost use Rattle.std.specs.Io.KnownBytes.{Appends, Consumes, IsAtEnd};
ghost use Rattle.rb_base.specs.Faults.{Rose};
ghost use Rattle.rb_io.specs.Prefix.{GrowsByPrefix};
ghost use Rattle.rb_io.specs.declared.whole.ReadAllFault.TheVariants.{Failed as SourceFailed, NoMemory as OutOfMemory};

use crate::sink::Sink;
use crate::source::Source;
use rb_base::{Bytes, Failed, OutFault};
use std::alloc::{AllocError, Global};

/// The error of reading a source to its end.
#[derive(Clone, Copy, Debug, PartialEq, Eq)]
pub enum ReadAllFault {
    /// The source has more bytes than the limit.
    TooLong,
    /// The source failed, and its count of faults rose.
    Failed,
    NoMemory,
}

impl From<Failed> for ReadAllFault {
    ghost from_gives = { λ _ e. e ≡ SourceFailed };

    fn from(_: Failed) -> Self {
        ReadAllFault::Failed
    }
}

impl From<AllocError> for ReadAllFault {
    ghost from_gives = { λ _ e. e ≡ OutOfMemory };

    fn from(_: AllocError) -> Self {
        ReadAllFault::NoMemory
    }
}

const PIECE: usize = 65536;

/// Reads a source to its end and returns its bytes. The limit is `most` bytes. On an error, the
/// bytes that were read until then are lost.
pub fn read_all<I: Source>(alloc: Global, source: &mut I, most: u64) -> Result<Bytes, ReadAllFault>
    ensures ok { IfOk result (λ bytes.
        Consumes (I.left source.old) (I.left source.new) bytes
        × IsAtEnd (I.left source.new)
        × (length bytes ≤ most)) }
    ensures too_long { IsErrOf result ReadAllFault.TooLong →
        IfSome (I.left source.old) (λ bytes. most < length bytes) }
    ensures failed { IsErrOf result ReadAllFault.Failed →
        Rose (I.fault_count source.old) (I.fault_count source.new) }
    ensures later { I.fault_count source.old ≤ I.fault_count source.new }
{
    let mut piece = vec![in alloc; 0u8; PIECE]?;
    read_by(alloc, &mut piece, source, most)
}

// Reads the source to its end, in reads into `piece`.
#[tactic(auto, using(crate::proofs::Known::consumes_more, crate::proofs::Known::had_more))]
fn read_by<I: Source>(
    alloc: Global,
    piece: &mut [u8],
    source: &mut I,
    most: u64,
) -> Result<Bytes, ReadAllFault>
    requires { 0 < length piece.old }
    ensures ok { IfOk result (λ bytes.
        Consumes (I.left source.old) (I.left source.new) bytes
        × IsAtEnd (I.left source.new)
        × (length bytes ≤ most)) }
    ensures too_long { IsErrOf result ReadAllFault.TooLong →
        IfSome (I.left source.old) (λ bytes. most < length bytes) }
    ensures failed { IsErrOf result ReadAllFault.Failed →
        Rose (I.fault_count source.old) (I.fault_count source.new) }
    ensures later { I.fault_count source.old ≤ I.fault_count source.new }
{
    let mut bytes = Vec::new(alloc);
    for _ in 0..=most {
        let count = source.read(piece)?;
        if count == 0 {
            return Ok(Bytes::from_vec(bytes));
        }
        if most - (bytes.len() as u64) < count as u64 {
            return Err(ReadAllFault::TooLong);
        }
        bytes.extend_from_slice(&piece[..count])?;
    }
    Err(ReadAllFault::TooLong)
}

/// Writes all the bytes. On an error, a prefix of them may be written.
pub fn write_all<O: Sink>(out: &mut O, bytes: &[u8]) -> Result<(), OutFault>
    ensures ok { OnOk result (Appends (O.held out.old) (O.held out.new) bytes.now) }
    ensures prefix { OnErr result (GrowsByPrefix (O.held out.old) (O.held out.new) bytes.now) }
    ensures failed { IsErrOf result OutFault.Failed →
        Rose (O.fault_count out.old) (O.fault_count out.new) }
    ensures later { O.fault_count out.old ≤ O.fault_count out.new }
{
    let mut at = 0;
    while at < bytes.len() {
        at += out.write(&bytes[at..])?;
    }
    Ok(())
}
