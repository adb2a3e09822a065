ghost use Rattle.std.specs.Prelude.{◌≡◌, [], IfOk, decimal};
ghost use Rattle.mb_call_texts.specs.CallText.{call_text, octal_word, path_word, with_one, with_three, with_two, write_text};

use crate::words::{
    how_bytes, push_mode, push_number, push_offset, push_path, push_word, whence_bytes,
};
use mb_jobs::Text;
use mb_kinds::{Call, How, Octets, Path, Whence};
use std::alloc::{AllocError, Global};

/// A verb and a path.
fn with_path(alloc: Global, verb: &[u8], path: &Path) -> Result<Vec<u8>, AllocError>
    ensures { IfOk result (λ text. text.items ≡ with_one verb.now (path_word path.now)) }
{
    let mut out = verb.to_vec(alloc)?;
    push_path(&mut out, path)?;
    Ok(out)
}

/// A verb, a path and a mode.
fn with_mode(alloc: Global, verb: &[u8], path: &Path, mode: u16) -> Result<Vec<u8>, AllocError>
    ensures { IfOk result (λ text. text.items ≡ with_two verb.now (path_word path.now) (octal_word mode)) }
{
    let mut out = with_path(alloc, verb, path)?;
    push_mode(alloc, &mut out, mode)?;
    Ok(out)
}

/// A verb, a path and a number.
fn with_path_number(
    alloc: Global,
    verb: &[u8],
    path: &Path,
    number: u32,
) -> Result<Vec<u8>, AllocError>
    ensures { IfOk result (λ text. text.items ≡ with_two verb.now (path_word path.now) (decimal number)) }
{
    let mut out = with_path(alloc, verb, path)?;
    push_number(alloc, &mut out, number)?;
    Ok(out)
}

/// A verb, a path and two numbers.
fn with_path_numbers(
    alloc: Global,
    verb: &[u8],
    path: &Path,
    first: u32,
    second: u32,
) -> Result<Vec<u8>, AllocError>
    ensures { IfOk result (λ text. text.items ≡ with_three verb.now (path_word path.now) (decimal first) (decimal second)) }
{
    let mut out = with_path_number(alloc, verb, path, first)?;
    push_number(alloc, &mut out, second)?;
    Ok(out)
}

/// A verb and a number.
fn with_number(alloc: Global, verb: &[u8], number: u16) -> Result<Vec<u8>, AllocError>
    ensures { IfOk result (λ text. text.items ≡ with_one verb.now (decimal number)) }
{
    let mut out = verb.to_vec(alloc)?;
    push_number(alloc, &mut out, u32::from(number))?;
    Ok(out)
}

/// `open PATH HOW`.
fn open_text(alloc: Global, path: &Path, how: How) -> Result<Vec<u8>, AllocError>
    ensures { IfOk result (λ text. text.items ≡ call_text (Call.Open path.now how)) }
{
    let mut out = with_path(alloc, b"open", path)?;
    push_word(&mut out, how_bytes(how))?;
    Ok(out)
}

/// `read FD COUNT`.
fn read_text(alloc: Global, fd: u16, count: u16) -> Result<Vec<u8>, AllocError>
    ensures { IfOk result (λ text. text.items ≡ call_text (Call.Read fd count)) }
{
    let mut out = with_number(alloc, b"read", fd)?;
    push_number(alloc, &mut out, u32::from(count))?;
    Ok(out)
}

/// A write of no bytes, `fill FD 0 0`.
fn empty_write(alloc: Global, fd: u16) -> Result<Vec<u8>, AllocError>
    ensures { IfOk result (λ text. text.items ≡ write_text fd []) }
{
    let mut out = with_number(alloc, b"fill", fd)?;
    out.extend_from_slice(b" 0 0")?;
    Ok(out)
}

/// `hex FD DIGITS`.
fn write_text(alloc: Global, fd: u16, bytes: &Octets) -> Result<Vec<u8>, AllocError>
    ensures { IfOk result (λ text. text.items ≡ write_text fd bytes.now) }
{
    let bytes = bytes.as_slice();
    if bytes.is_empty() {
        return empty_write(alloc, fd);
    }
    let mut out = with_number(alloc, b"hex", fd)?;
    let digits = hex::encode(alloc, bytes)?;
    push_word(&mut out, digits.as_bytes())?;
    Ok(out)
}

/// `lseek FD OFFSET WHENCE`.
fn lseek_text(alloc: Global, fd: u16, offset: i32, whence: Whence) -> Result<Vec<u8>, AllocError>
    ensures { IfOk result (λ text. text.items ≡ call_text (Call.Lseek fd offset whence)) }
{
    let mut out = with_number(alloc, b"lseek", fd)?;
    push_offset(alloc, &mut out, offset)?;
    push_word(&mut out, whence_bytes(whence))?;
    Ok(out)
}

/// `link PATH PATH`.
fn link_text(alloc: Global, from: &Path, to: &Path) -> Result<Vec<u8>, AllocError>
    ensures { IfOk result (λ text. text.items ≡ call_text (Call.Link from.now to.now)) }
{
    let mut out = with_path(alloc, b"link", from)?;
    push_path(&mut out, to)?;
    Ok(out)
}

/// `umask MASK`.
fn umask_text(alloc: Global, mask: u16) -> Result<Vec<u8>, AllocError>
    ensures { IfOk result (λ text. text.items ≡ call_text (Call.Umask mask)) }
{
    let mut out = b"umask".to_vec(alloc)?;
    push_mode(alloc, &mut out, mask)?;
    Ok(out)
}

/// The bytes of the text of a call.
fn bytes_of(alloc: Global, call: &Call) -> Result<Vec<u8>, AllocError>
    ensures { IfOk result (λ text. text.items ≡ call_text call.now) }
{
    match call {
        Call::Open { path, how } => open_text(alloc, path, *how),
        Call::Creat { path, mode } => with_mode(alloc, b"creat", path, *mode),
        Call::Close { fd } => with_number(alloc, b"close", *fd),
        Call::Read { fd, count } => read_text(alloc, *fd, *count),
        Call::Write { fd, bytes } => write_text(alloc, *fd, bytes),
        Call::Lseek { fd, offset, whence } => lseek_text(alloc, *fd, *offset, *whence),
        Call::Dup { fd } => with_number(alloc, b"dup", *fd),
        Call::Link { from, to } => link_text(alloc, from, to),
        Call::Unlink { path } => with_path(alloc, b"unlink", path),
        Call::Mkdir { path, mode } => with_mode(alloc, b"mkdir", path, *mode),
        Call::Rmdir { path } => with_path(alloc, b"rmdir", path),
        Call::Chdir { path } => with_path(alloc, b"chdir", path),
        Call::Stat { path } => with_path(alloc, b"stat", path),
        Call::Fstat { fd } => with_number(alloc, b"fstat", *fd),
        Call::Chmod { path, mode } => with_mode(alloc, b"chmod", path, *mode),
        Call::Chown { path, uid, gid } => {
            with_path_numbers(alloc, b"chown", path, u32::from(*uid), u32::from(*gid))
        }
        Call::Utime { path, atime, mtime } => {
            with_path_numbers(alloc, b"utime", path, *atime, *mtime)
        }
        Call::Access { path, bits } => {
            with_path_number(alloc, b"access", path, u32::from(*bits))
        }
        Call::Umask { mask } => umask_text(alloc, *mask),
        Call::Sync => b"sync".to_vec(alloc),
        Call::Exit => b"exit".to_vec(alloc),
    }
}

/// The text of a call, as a job has it behind the caller's letter and a blank. It takes memory and time
/// in proportion to the text's length; the only error is want of memory.
pub fn text_of_call(alloc: Global, call: &Call) -> Result<Text, AllocError>
    ensures { IfOk result (λ text. text ≡ call_text call.now) }
{
    Ok(Text::from_vec(bytes_of(alloc, call)?))
}
