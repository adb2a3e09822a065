ghost use Rattle.std.specs.Prelude.{◌≡◌, IfOk};
ghost use Rattle.mb_jobs.specs.Calls.{fills, read_as};
ghost use Rattle.mb_jobs.specs.declared.verbs.Verb.{Verb};

use crate::numbers::{byte_of, offset_of, short_of};
use crate::paths::{hex_of, raw_of, whence_of};
use crate::words::cut;
use mb_kinds::{Call, Octets};
use std::alloc::{AllocError, Global};

/// `close FD`.
pub(crate) fn close(rest: &[u8]) -> Option<Call>
    ensures { result ≡ read_as Verb.Close rest.now }
{
    match short_of(rest) {
        Some(fd) => Some(Call::Close { fd }),
        None => None,
    }
}

/// `dup FD`.
pub(crate) fn dup(rest: &[u8]) -> Option<Call>
    ensures { result ≡ read_as Verb.Dup rest.now }
{
    match short_of(rest) {
        Some(fd) => Some(Call::Dup { fd }),
        None => None,
    }
}

/// `fstat FD`.
pub(crate) fn fstat(rest: &[u8]) -> Option<Call>
    ensures { result ≡ read_as Verb.Fstat rest.now }
{
    match short_of(rest) {
        Some(fd) => Some(Call::Fstat { fd }),
        None => None,
    }
}

/// `read FD COUNT`.
pub(crate) fn read(rest: &[u8]) -> Option<Call>
    ensures { result ≡ read_as Verb.Read rest.now }
{
    let (fd, count) = cut(rest);
    match (short_of(fd), short_of(count)) {
        (Some(fd), Some(count)) => Some(Call::Read { fd, count }),
        _ => None,
    }
}

/// `text FD REST`, which writes REST as it stands.
pub(crate) fn text(alloc: Global, rest: &[u8]) -> Result<Option<Call>, AllocError>
    ensures { IfOk result (λ found. found ≡ read_as Verb.Text rest.now) }
{
    let (fd, text) = cut(rest);
    match (short_of(fd), raw_of(alloc, text)?) {
        (Some(fd), Some(bytes)) => Ok(Some(Call::Write { fd, bytes })),
        _ => Ok(None),
    }
}

/// `hex FD DIGITS`, which writes the bytes of the digits.
pub(crate) fn hex(alloc: Global, rest: &[u8]) -> Result<Option<Call>, AllocError>
    ensures { IfOk result (λ found. found ≡ read_as Verb.Hex rest.now) }
{
    let (fd, digits) = cut(rest);
    match (short_of(fd), hex_of(alloc, digits)?) {
        (Some(fd), Some(bytes)) => Ok(Some(Call::Write { fd, bytes })),
        _ => Ok(None),
    }
}

/// A write of so many times a byte. The only error is want of memory.
fn fills(alloc: Global, fd: u16, count: u16, byte: u8) -> Result<Call, AllocError>
    ensures { IfOk result (λ call. call ≡ fills fd count byte) }
{
    let bytes = vec![in alloc; byte; usize::from(count)]?;
    Ok(Call::Write {
        fd,
        bytes: Octets::from_vec(bytes),
    })
}

/// `fill FD COUNT BYTE`, which writes COUNT times BYTE.
pub(crate) fn fill(alloc: Global, rest: &[u8]) -> Result<Option<Call>, AllocError>
    ensures { IfOk result (λ found. found ≡ read_as Verb.Fill rest.now) }
{
    let (fd, more) = cut(rest);
    let (count, byte) = cut(more);
    match (short_of(fd), short_of(count), byte_of(byte)) {
        (Some(fd), Some(count), Some(byte)) => Ok(Some(fills(alloc, fd, count, byte)?)),
        _ => Ok(None),
    }
}

/// `lseek FD OFFSET WHENCE`.
pub(crate) fn lseek(rest: &[u8]) -> Option<Call>
    ensures { result ≡ read_as Verb.Lseek rest.now }
{
    let (fd, more) = cut(rest);
    let (offset, whence) = cut(more);
    match (short_of(fd), offset_of(offset), whence_of(whence)) {
        (Some(fd), Some(offset), Some(whence)) => Some(Call::Lseek { fd, offset, whence }),
        _ => None,
    }
}
