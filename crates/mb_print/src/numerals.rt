ghost use Rattle.std.specs.Prelude.{◌≡◌, ◌++◌, IfOk, OnOk, decimal};
ghost use Rattle.mb_print.specs.Replies.{octal};

use itoa::Buffer;
use std::alloc::{AllocError, Global};

/// Appends a number in decimal.
pub(crate) fn push_number(out: &mut Vec<u8>, number: u64) -> Result<(), AllocError>
    ensures { OnOk result (out.new.items ≡ out.old.items ++ decimal number) }
{
    let mut digits = Buffer::new();
    out.extend_from_slice(digits.format(number).as_bytes())?;
    Ok(())
}

/// Appends a label and a number in decimal.
pub(crate) fn push_field(out: &mut Vec<u8>, label: &[u8], number: u64) -> Result<(), AllocError>
    ensures { OnOk result (out.new.items ≡ out.old.items ++ label.now ++ decimal number) }
{
    out.extend_from_slice(label)?;
    push_number(out, number)
}

/// A label and a number in decimal.
pub(crate) fn field(alloc: Global, label: &[u8], number: u64) -> Result<Vec<u8>, AllocError>
    ensures { IfOk result (λ text. text.items ≡ label.now ++ decimal number) }
{
    let mut out = Vec::new(alloc);
    push_field(&mut out, label, number)?;
    Ok(out)
}

/// A mode in octal, six digits with leading zeros.
pub(crate) fn octal_digits(mode: u16) -> [u8; 6]
    ensures { result ≡ octal mode }
{
    [
        b'0' + (mode / 32768 % 8) as u8,
        b'0' + (mode / 4096 % 8) as u8,
        b'0' + (mode / 512 % 8) as u8,
        b'0' + (mode / 64 % 8) as u8,
        b'0' + (mode / 8 % 8) as u8,
        b'0' + (mode % 8) as u8,
    ]
}
