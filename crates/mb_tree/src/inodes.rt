ghost use Rattle.std.specs.Prelude.{◌≡◌, ◌++◌, ◌*◌, min, IfOk, MatchOption, Some, None};
ghost use Rattle.mb_tree.specs.Inodes.{kind_of, is_directory, is_regular, is_special, body_size, stat_of, bits_for, may, byte_at, bytes_from, read_at, part_at};
ghost use Rattle.mb_tree.specs.Lookup.{is_used};

use crate::nodes::{Body, Node, Parts, PlainSlot};
use mb_kinds::{Cred, Octets, Stat};
use std::alloc::{AllocError, Global};

/// The kind bits of a mode.
pub const KIND: u16 = 0o170000;
/// The kind bits of a regular file.
pub const REGULAR: u16 = 0o100000;
/// The kind bits of a directory.
pub const DIRECTORY: u16 = 0o040000;
/// The kind bits of a special file that moves bytes, and of one that moves blocks.
pub const CHARACTER: u16 = 0o020000;

pub const BLOCK: u16 = 0o060000;

/// Whether a mode is a directory's.
pub fn is_directory(mode: u16) -> bool
    ensures { result ≡ is_directory mode }
{
    mode & KIND == DIRECTORY
}

/// Whether a mode is a regular file's.
pub fn is_regular(mode: u16) -> bool
    ensures { result ≡ is_regular mode }
{
    mode & KIND == REGULAR
}

/// Whether a mode is a special file's.
pub fn is_special(mode: u16) -> bool
    ensures { result ≡ is_special mode }
{
    mode & KIND == CHARACTER || mode & KIND == BLOCK
}

/// Whether the caller has all the wanted bits (4 read, 2 write, 1 search) on an inode; uid 0 passes.
pub fn may(cred: Cred, stat: &Stat, wanted: u8) -> bool
    ensures { result ≡ may cred stat.now wanted }
{
    if cred.uid == 0 {
        return true;
    }
    let bits = if cred.uid == stat.uid {
        stat.mode / 64 % 8
    } else if cred.gid == stat.gid {
        stat.mode / 8 % 8
    } else {
        stat.mode % 8
    };
    bits & u16::from(wanted) == u16::from(wanted)
}

/// Whether a slot is in use.
pub fn is_used(slot: &PlainSlot) -> bool
    ensures { result ≡ is_used slot.now }
{
    slot.ino != 0
}

/// The bytes of so many slots.
fn bytes_of_slots(slots: usize) -> u32
    ensures { result ≡ min (16 * slots) 4294967295 }
{
    u32::try_from(slots).map_or(u32::MAX, |slots| slots.saturating_mul(16))
}

impl Body {
    /// The size in bytes.
    pub fn size(&self) -> u32
        ensures { result ≡ body_size self.now }
    {
        match self {
            Body::Regular { size, .. } => *size,
            Body::Directory { slots } => bytes_of_slots(slots.len()),
            Body::Special { size, .. } => *size,
        }
    }
}

impl Node {
    /// What stat tells of the inode.
    pub fn stat(&self, ino: u16) -> Stat
        ensures { result ≡ stat_of ino self.now }
    {
        Stat {
            ino,
            mode: self.mode,
            nlink: self.nlink,
            uid: self.uid,
            gid: self.gid,
            size: self.body.size(),
            atime: self.atime,
            mtime: self.mtime,
            ctime: self.ctime,
        }
    }
}
