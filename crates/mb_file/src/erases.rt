ghost use Rattle.mb_file.specs.Erasing.{Erases, held_blocks};
ghost use Rattle.mb_file.specs.Freeing.{ListsToFree};

use crate::frees::{blocks_to_free, put_all_back};
use crate::walks::Collected;
use mb_alloc::{Hung, free_inode};
use mb_iface::{Changes, View};
use mb_inodes::{Inode, read_inode};
use mb_layout::Dinode;
use mb_tree::{is_directory, is_regular};
use std::alloc::Global;

/// Erases an inode, one that is in use: puts all blocks that it holds back on the free chain, writes
/// it as a free one and caches its number (V7 ifree, tloop; filsys(5)). A special file has no blocks.
/// Nothing is promised of the changes on any other answer than `Done`: an operation makes them on
/// changes of its own. It asks for block 1, the inode's block, and blocks that the inode holds, before
/// anything is changed.
pub fn erase_in<V: View>(alloc: Global, view: &V, changes: &mut Changes, ino: u16) -> Hung
    ensures { Erases (V.shown view.now) changes.old changes.new ino result }
{
    let inode = match read_inode(view, changes, ino) {
        Inode::Here(inode) => inode,
        Inode::Need(need) => return Hung::Need(need),
    };
    let list = match held(alloc, view, changes, &inode) {
        Collected::Blocks(list) => list,
        Collected::Need(need) => return Hung::Need(need),
        Collected::NoMemory => return Hung::NoMemory,
    };
    match free_inode(view, changes, ino) {
        Hung::Done => put_all_back(view, changes, &list),
        Hung::Need(need) => Hung::Need(need),
        Hung::NoMemory => Hung::NoMemory,
    }
}

/// The blocks that an inode holds, in the order in which they are put back: none where it is neither a
/// directory nor a regular file. Everything that putting them back wants is asked for.
fn held<V: View>(alloc: Global, view: &V, changes: &Changes, inode: &Dinode) -> Collected
    ensures { ListsToFree (V.shown view.now) changes.now (λ ps. held_blocks ps inode.now) result }
{
    if is_directory(inode.mode) || is_regular(inode.mode) {
        blocks_to_free(alloc, view, changes, inode)
    } else {
        Collected::Blocks(Vec::new(alloc))
    }
}
