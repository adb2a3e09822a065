ghost use Rattle.std.specs.Prelude.{◌≡◌};
ghost use Rattle.mb_namei.specs.Inodes as inodes;
ghost use Rattle.mb_namei.specs.Inodes.{LooksAt};

use mb_iface::{Changes, Need, View, seen};
use mb_kinds::Stat;
use mb_layout::{Dinode, inode_block, inode_place};

/// An inode read from its block.
#[derive(Clone, Copy, Debug, PartialEq, Drop)]
pub enum Looked {
    /// The inode, with mode 0 where it is free.
    Inode(Dinode),
    /// The view lacks the inode's block.
    Need(Need),
}

/// Reads the inode with a number from 1 on (V7 filsys(5)). Of a number past the volume's last one it
/// reads what stands in the block where that inode would be.
#[inline(always)]
pub fn info<V: View>(view: &V, changes: &Changes, ino: u16) -> Looked
    ensures { LooksAt (V.shown view.now) changes.now ino result }
{
    let holder = inode_block(ino);
    match seen(view, changes, holder) {
        Some(bytes) => Looked::Inode(Dinode::read(bytes, inode_place(ino))),
        None => Looked::Need(Need::one(holder)),
    }
}

/// What stat tells of an inode (V7 stat(2)).
#[inline(always)]
pub fn stat_by(ino: u16, inode: &Dinode) -> Stat
    ensures { result ≡ inodes.stat_by ino inode.now }
{
    Stat {
        ino,
        mode: inode.mode,
        nlink: inode.nlink,
        uid: inode.uid,
        gid: inode.gid,
        size: inode.size,
        atime: inode.atime,
        mtime: inode.mtime,
        ctime: inode.ctime,
    }
}
