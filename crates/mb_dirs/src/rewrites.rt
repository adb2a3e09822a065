ghost use Rattle.mb_dirs.specs.Rewriting.{RewritesInode, WritesBlank};

use crate::steps::Advanced;
use mb_iface::{Changes, Edited, Need, View};
use mb_inodes::{Inode, read_inode, write_inode};
use mb_layout::{Dinode, inode_block};

/// Writes an inode but for its area, which stays as it is under the changes.
pub(crate) fn rewrite<V: View>(
    view: &V,
    changes: &mut Changes,
    ino: u16,
    fields: &Dinode,
) -> Advanced
    ensures { RewritesInode (V.shown view.now) changes.old changes.new ino fields.now result }
{
    let now = match read_inode(view, changes, ino) {
        Inode::Here(now) => now,
        Inode::Need(need) => return Advanced::Need(need),
    };
    let mut inode = *fields;
    let area = now.area;
    inode.area = area;
    match write_inode(view, changes, ino, &inode) {
        Edited::Done => Advanced::Done,
        Edited::Lacking => Advanced::Need(Need::one(inode_block(ino))),
        Edited::NoMemory => Advanced::NoMemory,
    }
}

/// Writes an inode without an address; the byte of its area that holds no address stays.
pub(crate) fn write_blank<V: View>(
    view: &V,
    changes: &mut Changes,
    ino: u16,
    fields: &Dinode,
) -> Advanced
    ensures { WritesBlank (V.shown view.now) changes.old changes.new ino fields.now result }
{
    let was = match read_inode(view, changes, ino) {
        Inode::Here(was) => was,
        Inode::Need(need) => return Advanced::Need(need),
    };
    let mut inode = *fields;
    inode.area = [0; 40];
    inode.area[39] = was.area[39];
    match write_inode(view, changes, ino, &inode) {
        Edited::Done => Advanced::Done,
        Edited::Lacking => Advanced::Need(Need::one(inode_block(ino))),
        Edited::NoMemory => Advanced::NoMemory,
    }
}
