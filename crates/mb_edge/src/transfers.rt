ghost use Rattle.std.specs.Prelude.{◌≡◌, ◌≤◌, IfOk, IsErrOf, length};
ghost use Rattle.std.specs.Io.KnownBytes.{Consumes};
ghost use Rattle.mb_edge.specs.Causes.{HasCause, Rose};
ghost use Rattle.mb_edge.specs.Transfers.{AreFirst, Takes};
ghost use Rattle.mb_edge.specs.declared.transfers.ReadError.TheVariants.{NoMemory};

use crate::faults::Failed;
use crate::lists::Bytes;
use crate::sinks::Sink;
use crate::sources::Source;
use std::alloc::{AllocError, Global};
use std::error::Error;
use std::fmt;

/// Why a source was not read to its end.
#[derive(Clone, Copy, Debug, PartialEq, Eq, Drop)]
pub enum ReadError {
    /// The source failed; its count of faults rose. What was read is lost.
    Failed,
    /// There was no memory for the bytes. What was read is lost.
    NoMemory,
}

impl fmt::Display for ReadError {
    fn fmt<W: fmt::Write>(&self, f: &mut fmt::Formatter<W>) -> fmt::Result {
        match self {
            ReadError::Failed => f.write_str("the source failed"),
            ReadError::NoMemory => f.write_str("no memory"),
        }
    }
}

impl Error for ReadError {}

impl From<AllocError> for ReadError {
    ghost from_gives = { λ _ error. error ≡ NoMemory };

    fn from(_error: AllocError) -> ReadError {
        ReadError::NoMemory
    }
}

/// Reads a source until its end, or until `most` bytes were read. Each turn but the last reads a byte or
/// more.
pub fn read_whole<S: Source>(alloc: Global, source: &mut S, most: usize) -> Result<Bytes, ReadError>
    ensures first { IfOk result (λ bytes. AreFirst (S.left source.old) most bytes) }
    ensures rest { IfOk result (λ bytes. Consumes (S.left source.old) (S.left source.new) bytes) }
    ensures bound { IfOk result (λ bytes. length bytes ≤ most) }
    ensures later { S.faults source.old ≤ S.faults source.new }
    ensures failed { IsErrOf result ReadError.Failed → Rose (S.faults source.old) (S.faults source.new) }
{
    let mut bytes = Vec::new(alloc);
    let mut chunk = [0; 4096];
    'turns: while bytes.len() < most {
        let want = chunk.len().min(most - bytes.len());
        match source.read(&mut chunk[..want]) {
            Ok(0) => return Ok(Bytes::from_vec(bytes)),
            Ok(count) => bytes.extend_from_slice(&chunk[..count])?,
            Err(Failed) => return Err(ReadError::Failed),
        }
    }
    Ok(Bytes::from_vec(bytes))
}

/// Writes a whole text. Each turn but the last writes a byte or more; a sink that takes nothing has failed.
/// Where it fails, a front of the text was taken.
pub fn write_whole<K: Sink>(sink: &mut K, text: &[u8]) -> Result<(), Failed>
    ensures bytes { Takes (K.taken sink.old) (K.taken sink.new) result text.now }
    ensures cause { HasCause (K.faults sink.old) (K.faults sink.new) result }
{
    let mut at = 0;
    'turns: while at < text.len() {
        match sink.write(&text[at..]) {
            Ok(0) => return Err(Failed),
            Ok(count) => at += count,
            Err(Failed) => return Err(Failed),
        }
    }
    Ok(())
}
