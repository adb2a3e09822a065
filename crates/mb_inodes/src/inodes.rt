ghost use Rattle.mb_word.specs.Fields as fields;
ghost use Rattle.mb_layout.specs.Inode.{dinode_bytes, FitsDinode};
ghost use Rattle.std.specs.Prelude.{◌*◌, ◌≡◌, length};
ghost use Rattle.mb_iface.specs.Edits.{Edits};
ghost use Rattle.mb_inodes.specs.Inodes.{ReadsInode, WritesInode};

use mb_iface::{Changes, Edited, Need, View, edit, seen};
use mb_layout::{Dinode, inode_block, inode_place};
use mb_word::{put_long, put_word};

/// An inode read from its block.
#[derive(Clone, Copy, Debug, PartialEq)]
pub enum Inode {
    /// Its value; the mode is 0 where the inode is free.
    Here(Dinode),
    /// The view lacks the inode's block.
    Need(Need),
}

/// Reads an inode, one from 1 on, as it stands under the changes.
pub fn read_inode<V: View>(view: &V, changes: &Changes, ino: u16) -> Inode
    ensures { ReadsInode (V.shown view.now) changes.now ino result }
{
    let holder = inode_block(ino);
    let Some(bytes) = seen(view, changes, holder) else {
        return Inode::Need(Need::one(holder));
    };
    Inode::Here(Dinode::read(bytes, inode_place(ino)))
}

/// Writes an inode, one from 1 on: all of its 64 bytes.
pub fn write_inode<V: View>(view: &V, changes: &mut Changes, ino: u16, inode: &Dinode) -> Edited
    ensures bytes { Edits (V.shown view.now) changes.old changes.new (fields.inode_block ino) (64 * fields.inode_place ino) (dinode_bytes inode.now) result }
    ensures written { WritesInode (V.shown view.now) changes.old changes.new ino inode.now result }
{
    let mut bytes = [0; 64];
    put_inode(inode, &mut bytes);
    let at = 64 * inode_place(ino) as usize;
    edit(view, changes, inode_block(ino), at, &bytes)
}

/// Writes the 64 bytes of an inode.
fn put_inode(inode: &Dinode, bytes: &mut [u8; 64])
    ensures bytes { bytes.new ≡ dinode_bytes inode.now }
    ensures sized { length bytes.new ≡ 64 }
    ensures fits { FitsDinode inode.now }
{
    let Dinode {
        mode,
        nlink,
        uid,
        gid,
        size,
        area,
        atime,
        mtime,
        ctime,
    } = *inode;
    put_word(bytes, 0, mode);
    put_word(bytes, 2, nlink);
    put_word(bytes, 4, uid);
    put_word(bytes, 6, gid);
    put_long(bytes, 8, size);
    bytes[12..52].copy_from_slice(&area);
    put_long(bytes, 52, atime);
    put_long(bytes, 56, mtime);
    put_long(bytes, 60, ctime);
}
