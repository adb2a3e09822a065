ghost use Rattle.mb_dirs.specs.Growth.{EntersBehind, longer_inode};
ghost use Rattle.std.specs.Prelude.{◌≡◌, ◌<◌};

use crate::enters::Entered;
use crate::rewrites::rewrite;
use crate::slot_writes::put_slot;
use crate::steps::Advanced;
use mb_bmap::{Reached, reach};
use mb_iface::{Changes, Edited, Need, View};
use mb_inodes::{Inode, read_inode};
use mb_kinds::Name;
use mb_layout::Dinode;

/// Adds a slot behind those of a directory, with a block for it where the last part is full.
pub(crate) fn grow<V: View>(
    view: &V,
    changes: &mut Changes,
    dir: u16,
    links: u16,
    moment: u32,
    name: &Name,
    ino: u16,
) -> Entered
    ensures { EntersBehind (V.shown view.now) changes.old changes.new dir links moment name.now ino result }
{
    let inode = match read_inode(view, changes, dir) {
        Inode::Here(inode) => inode,
        Inode::Need(need) => return Entered::Need(need),
    };
    let count = inode.size / 16;
    let part = count / 32;
    // no directory of a volume has so many parts
    if part >= 2_113_674 {
        return Entered::NoneLeft;
    }
    let block = match reach(view, changes, dir, part, 1) {
        Reached::At(block) => block,
        Reached::NoneLeft => return Entered::NoneLeft,
        Reached::Need(need) => return Entered::Need(need),
        Reached::NoMemory => return Entered::NoMemory,
    };
    // nor a block with such a number
    if block == 0 || block >= 262_144 {
        return Entered::NoneLeft;
    }
    match put_slot(view, changes, block, (count % 32) as u8, name, ino) {
        Edited::Done => {}
        Edited::Lacking => return Entered::Need(Need::one(block)),
        Edited::NoMemory => return Entered::NoMemory,
    }
    match rewrite(view, changes, dir, &longer(&inode, links, moment)) {
        Advanced::Done => Entered::Done,
        Advanced::Need(need) => Entered::Need(need),
        Advanced::NoMemory => Entered::NoMemory,
    }
}

/// A directory's inode with room for one slot more, its link count and its times set.
fn longer(inode: &Dinode, links: u16, moment: u32) -> Dinode
    requires { inode.now.size < 1082201088 }
    ensures { result ≡ longer_inode inode.now links moment }
{
    let mut inode = *inode;
    inode.nlink = links;
    inode.size += 16;
    inode.mtime = moment;
    inode.ctime = moment;
    inode
}
