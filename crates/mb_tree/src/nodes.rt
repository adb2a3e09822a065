use crate::maps::Map;
use mb_kinds::{Name, Seq};

/// A directory entry of V7 dir(5): an inode number, 0 in an empty slot, and a name of 14 bytes, padded
/// with 0. An emptied slot keeps its name, which is this project's choice.
#[derive(Clone, Copy, Debug, Drop)]
pub struct PlainSlot {
    pub ino: u16,
    pub name: Name,
}

/// The slots of a directory, in order.
pub type PlainSlots = Seq<PlainSlot>;

/// The parts of a regular file: part number `p` has the 512 bytes from byte `512 * p` on. A part that
/// is missing reads as zeros.
pub type Parts = Map<[u8; 512]>;

/// What an inode holds, by its kind. `size` is in bytes; `area` has the 40 address bytes of a special
/// file's inode, which are kept as found.
#[derive(Drop)]
pub enum Body {
    Regular { size: u32, parts: Parts },
    Directory { slots: PlainSlots },
    Special { size: u32, area: [u8; 40] },
}

/// An inode with its content (V7 filsys(5)). The kind bits of `mode` name the kind of the body, `nlink`
/// counts the used slots that lead to the inode, and the times are in seconds.
#[derive(Drop)]
pub struct Node {
    pub mode: u16,
    pub nlink: u16,
    pub uid: u16,
    pub gid: u16,
    pub atime: u32,
    pub mtime: u32,
    pub ctime: u32,
    pub body: Body,
}

/// The inodes in use, by their numbers.
pub type Nodes = Map<Node>;
