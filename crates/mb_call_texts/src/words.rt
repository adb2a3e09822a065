ghost use Rattle.std.specs.Prelude.{◌≡◌, ◌++◌, ◌∷◌, OnOk, decimal};
ghost use Rattle.std.specs.Fmt.{signed_decimal};
ghost use Rattle.mb_call_texts.specs.CallText.{how_word, octal_word, path_word, whence_word};

use mb_kinds::{How, Path, Whence};
use std::alloc::{AllocError, Global};

/// Appends a blank and a word.
pub(crate) fn push_word(out: &mut Vec<u8>, word: &[u8]) -> Result<(), AllocError>
    ensures { OnOk result (out.new.items ≡ out.old.items ++ 32 ∷ word.now) }
{
    out.push(b' ')?;
    out.extend_from_slice(word)?;
    Ok(())
}

/// The bytes of a path as a word.
fn path_bytes(path: &[u8]) -> &[u8]
    ensures { result.now ≡ path_word path.now }
{
    if path.is_empty() { b"\"\"" } else { path }
}

/// Appends a blank and a path.
pub(crate) fn push_path(out: &mut Vec<u8>, path: &Path) -> Result<(), AllocError>
    ensures { OnOk result (out.new.items ≡ out.old.items ++ 32 ∷ path_word path.now) }
{
    push_word(out, path_bytes(path.as_slice()))
}

/// Appends a blank and a number in decimal.
pub(crate) fn push_number(alloc: Global, out: &mut Vec<u8>, number: u32) -> Result<(), AllocError>
    ensures { OnOk result (out.new.items ≡ out.old.items ++ 32 ∷ decimal number) }
{
    let digits = format!(in alloc; "{number}")?;
    push_word(out, digits.as_bytes())
}

/// Appends a blank and an offset in decimal, with a `-` before a negative one.
pub(crate) fn push_offset(alloc: Global, out: &mut Vec<u8>, offset: i32) -> Result<(), AllocError>
    ensures { OnOk result (out.new.items ≡ out.old.items ++ 32 ∷ signed_decimal offset) }
{
    let digits = format!(in alloc; "{offset}")?;
    push_word(out, digits.as_bytes())
}

/// Appends a blank and the bits of a mode in octal.
pub(crate) fn push_mode(alloc: Global, out: &mut Vec<u8>, mode: u16) -> Result<(), AllocError>
    ensures { OnOk result (out.new.items ≡ out.old.items ++ 32 ∷ octal_word mode) }
{
    let digits = format!(in alloc; "{mode:o}")?;
    push_word(out, digits.as_bytes())
}

/// The word of the directions in which a file is opened.
pub(crate) fn how_bytes(how: How) -> &'static [u8]
    ensures { result.now ≡ how_word how }
{
    match how {
        How::Reading => b"r",
        How::Writing => b"w",
        How::Both => b"rw",
    }
}

/// The word of the place from which an offset counts.
pub(crate) fn whence_bytes(whence: Whence) -> &'static [u8]
    ensures { result.now ≡ whence_word whence }
{
    match whence {
        Whence::Start => b"0",
        Whence::Here => b"1",
        Whence::End => b"2",
    }
}
