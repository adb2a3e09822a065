ghost use Rattle.std.specs.Prelude.{◌≡◌, IfOk, IfSome, option_map};
ghost use Rattle.std.specs.List.{list_all};
ghost use Rattle.mb_kinds.specs.Texts.{IsPath};
ghost use Rattle.mb_jobs.specs.Paths.{has_bytes, hex_in, how_in, is_path_byte, is_text_byte, path_in, raw_in, some_bytes, whence_in};

use hex::FromHexError;
use mb_kinds::{How, Octets, Path, Whence};
use std::alloc::{AllocError, Global};

/// Whether each byte of a word prints and is no blank. It looks at all of them, so that no branch hinders looking at many
/// at a time.
fn has_path_bytes(word: &[u8]) -> bool
    ensures { result ≡ list_all is_path_byte word.now }
{
    let mut prints = true;
    for byte in word {
        prints &= 33 <= *byte && *byte <= 126;
    }
    prints
}

/// Whether each byte of a text prints or is a blank, as [`has_path_bytes`] looks at them.
fn has_text_bytes(text: &[u8]) -> bool
    ensures { result ≡ list_all is_text_byte text.now }
{
    let mut prints = true;
    for byte in text {
        prints &= 32 <= *byte && *byte <= 126;
    }
    prints
}

/// Whether a text has 1 to so many bytes.
fn has_bytes(most: usize, text: &[u8]) -> bool
    ensures { result ≡ has_bytes most text.now }
{
    1 <= text.len() && text.len() <= most
}

/// The bytes of a path that a word writes.
fn path_bytes(word: &[u8]) -> Option<&[u8]>
    ensures exact { option_map (λ bytes. bytes.now) result ≡ path_in word.now }
    ensures path { IfSome result (λ bytes. IsPath bytes.now) }
{
    if word == b"\"\"".as_slice() {
        return Some(&[]);
    }
    if has_bytes(255, word) && has_path_bytes(word) {
        Some(word)
    } else {
        None
    }
}

/// The path that a word writes.
pub(crate) fn path_of(alloc: Global, word: &[u8]) -> Result<Option<Path>, AllocError>
    ensures { IfOk result (λ found. found ≡ path_in word.now) }
{
    match path_bytes(word) {
        Some(bytes) => Ok(Some(Path::from_vec(bytes.to_vec(alloc)?))),
        None => Ok(None),
    }
}

/// `r`, `w` or `rw`.
pub(crate) fn how_of(word: &[u8]) -> Option<How>
    ensures { result ≡ how_in word.now }
{
    if word == b"r".as_slice() {
        Some(How::Reading)
    } else if word == b"w".as_slice() {
        Some(How::Writing)
    } else if word == b"rw".as_slice() {
        Some(How::Both)
    } else {
        None
    }
}

/// `0` from the start, `1` from here, `2` from the end.
pub(crate) fn whence_of(word: &[u8]) -> Option<Whence>
    ensures { result ≡ whence_in word.now }
{
    if word == b"0".as_slice() {
        Some(Whence::Start)
    } else if word == b"1".as_slice() {
        Some(Whence::Here)
    } else if word == b"2".as_slice() {
        Some(Whence::End)
    } else {
        None
    }
}

/// The bytes of a text that are written as they stand.
pub(crate) fn raw_of(alloc: Global, text: &[u8]) -> Result<Option<Octets>, AllocError>
    ensures { IfOk result (λ found. found ≡ raw_in text.now) }
{
    if has_bytes(65535, text) && has_text_bytes(text) {
        Ok(Some(Octets::from_vec(text.to_vec(alloc)?)))
    } else {
        Ok(None)
    }
}

/// Bytes that a call may write, of which there are some.
fn some_bytes(bytes: Vec<u8>) -> Option<Octets>
    ensures { result ≡ some_bytes bytes.items }
{
    if has_bytes(65535, &bytes) {
        Some(Octets::from_vec(bytes))
    } else {
        None
    }
}

/// The bytes that pairs of hex digits write, in either case.
pub(crate) fn hex_of(alloc: Global, digits: &[u8]) -> Result<Option<Octets>, AllocError>
    ensures { IfOk result (λ found. found ≡ hex_in digits.now) }
{
    match hex::decode(alloc, digits) {
        Ok(bytes) => Ok(some_bytes(bytes)),
        Err(FromHexError::OutOfMemory) => Err(AllocError),
        Err(_) => Ok(None),
    }
}
