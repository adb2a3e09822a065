ghost use Rattle.std.specs.Prelude.{◌≡◌, ◌++◌, IfOk, OnOk};
ghost use Rattle.hex.specs.Hex.{encode_lower};
ghost use Rattle.mb_print.specs.Replies.{got_text, info_text, mode_text, owner_text, reply_text, size_text};

use crate::numerals::{octal_digits, push_field, push_number};
use mb_kinds::{Octets, Reply, Stat};
use std::alloc::AllocError;

/// How many bytes are written as digits at a time.
const PIECE: usize = 256;

/// Appends two digits for each byte, for a piece of the bytes at a time, which stays at hand.
fn push_digits(out: &mut Vec<u8>, bytes: &[u8]) -> Result<(), AllocError>
    ensures { OnOk result (out.new.items ≡ out.old.items ++ encode_lower bytes.now) }
{
    out.reserve(bytes.len().saturating_mul(2))?;
    let mut digits = [0; 2 * PIECE];
    let mut done = 0;
    while done < bytes.len() {
        let some = (bytes.len() - done).min(PIECE);
        let Ok(()) = hex::encode_to_slice(&bytes[done..done + some], &mut digits[..2 * some]) else {
            unreachable!()
        };
        out.extend_from_slice(&digits[..2 * some])?;
        done += some;
    }
    Ok(())
}

/// Appends the text of the bytes of a read.
fn push_got(out: &mut Vec<u8>, bytes: &Octets) -> Result<(), AllocError>
    ensures { OnOk result (out.new.items ≡ out.old.items ++ got_text bytes.now) }
{
    let bytes = bytes.as_slice();
    if bytes.is_empty() {
        return push_text(out, b"0");
    }
    push_number(out, bytes.len() as u64)?;
    out.extend_from_slice(b" ")?;
    push_digits(out, bytes)
}

/// Appends the number and the mode of an inode.
fn push_mode(out: &mut Vec<u8>, stat: &Stat) -> Result<(), AllocError>
    ensures { OnOk result (out.new.items ≡ out.old.items ++ mode_text stat.now) }
{
    push_field(out, b"ino ", u64::from(stat.ino))?;
    out.extend_from_slice(b" mode ")?;
    out.extend_from_slice(&octal_digits(stat.mode))?;
    Ok(())
}

/// Appends how many names an inode has, and whose it is.
fn push_owner(out: &mut Vec<u8>, stat: &Stat) -> Result<(), AllocError>
    ensures { OnOk result (out.new.items ≡ out.old.items ++ owner_text stat.now) }
{
    push_field(out, b" nlink ", u64::from(stat.nlink))?;
    push_field(out, b" uid ", u64::from(stat.uid))?;
    push_field(out, b" gid ", u64::from(stat.gid))
}

/// Appends the size and the times of an inode.
fn push_size(out: &mut Vec<u8>, stat: &Stat) -> Result<(), AllocError>
    ensures { OnOk result (out.new.items ≡ out.old.items ++ size_text stat.now) }
{
    push_field(out, b" size ", u64::from(stat.size))?;
    push_field(out, b" atime ", u64::from(stat.atime))?;
    push_field(out, b" mtime ", u64::from(stat.mtime))?;
    push_field(out, b" ctime ", u64::from(stat.ctime))
}

/// Appends the text of the fields of an inode.
fn push_info(out: &mut Vec<u8>, stat: &Stat) -> Result<(), AllocError>
    ensures { OnOk result (out.new.items ≡ out.old.items ++ info_text stat.now) }
{
    push_mode(out, stat)?;
    push_owner(out, stat)?;
    push_size(out, stat)
}

/// Appends the text of the numbers of two fault records.
fn push_restart(out: &mut Vec<u8>, first: u32, second: u32) -> Result<(), AllocError>
    ensures { OnOk result (out.new.items ≡ out.old.items ++ reply_text (Reply.Restart first second)) }
{
    push_field(out, b"EIO restart ", u64::from(first))?;
    push_field(out, b" ", u64::from(second))?;
    Ok(())
}

/// Appends a text.
fn push_text(out: &mut Vec<u8>, text: &[u8]) -> Result<(), AllocError>
    ensures { OnOk result (out.new.items ≡ out.old.items ++ text.now) }
{
    out.extend_from_slice(text)?;
    Ok(())
}

/// Appends the printed text of a reply.
pub(crate) fn push_reply(out: &mut Vec<u8>, reply: &Reply) -> Result<(), AllocError>
    ensures { OnOk result (out.new.items ≡ out.old.items ++ reply_text reply.now) }
{
    match reply {
        Reply::Num(number) => push_number(out, u64::from(*number)),
        Reply::Got(bytes) => push_got(out, bytes),
        Reply::Info(stat) => push_info(out, stat),
        Reply::Refused(error) => push_text(out, error.name().as_bytes()),
        Reply::Restart { first, second } => push_restart(out, *first, *second),
        Reply::Device => push_text(out, b"EIO device"),
        Reply::Failed { faults } => push_field(out, b"FAILED ", u64::from(*faults)),
    }
}
