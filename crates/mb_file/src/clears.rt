ghost use Rattle.std.specs.Prelude.{◌≡◌};
ghost use Rattle.mb_tree.specs.declared.operations.FsOp.TheVariants.{Empty};
ghost use Rattle.mb_iface.specs.Acting.{ActsWhatever};
ghost use Rattle.mb_iface.specs.Needs.{ActsFor};
ghost use Rattle.mb_iface.specs.OnVolumes.{OnVolumes};
ghost use Rattle.mb_file.specs.Clearing.{Clears, emptied_inode};

use crate::frees::{blocks_to_free, put_all_back};
use crate::walks::Collected;
use mb_alloc::Hung;
use mb_iface::{Acted, Changes, Edited, Need, View};
use mb_inodes::{Inode, read_inode, write_inode};
use mb_layout::{Dinode, inode_block};
use std::alloc::Global;

/// Empties a regular file: size 0, no part, `mtime` and `ctime` the moment (V7 creat(2) of a name that
/// is there). All blocks that it holds are free then, its index blocks among them.
pub fn empty<V: View>(alloc: Global, view: &V, ino: u16, moment: u32) -> Acted
    ensures need { ActsFor (V.shown view.now) result }
    ensures answer { OnVolumes (V.shown view.now) (λ image tree.
        ActsWhatever (V.shown view.now) image tree (Empty ino moment) result) }
{
    let mut changes = Changes::new(alloc);
    match clear(alloc, view, &mut changes, ino, moment) {
        Hung::Done => Acted::Done {
            changes,
            pick: None,
        },
        Hung::Need(need) => Acted::Need(need),
        Hung::NoMemory => Acted::NoMemory,
    }
}

/// Writes a regular file's inode as an empty file's, and puts its blocks back on the free chain. What that
/// wants is asked for before anything is changed. On any other answer than `Done` the changes are for
/// letting go.
fn clear<V: View>(alloc: Global, view: &V, changes: &mut Changes, ino: u16, moment: u32) -> Hung
    ensures { Clears (V.shown view.now) changes.old changes.new ino moment result }
{
    let inode = match read_inode(view, changes, ino) {
        Inode::Here(inode) => inode,
        Inode::Need(need) => return Hung::Need(need),
    };
    let list = match blocks_to_free(alloc, view, changes, &inode) {
        Collected::Blocks(list) => list,
        Collected::Need(need) => return Hung::Need(need),
        Collected::NoMemory => return Hung::NoMemory,
    };
    let holes = without_parts(&inode, moment);
    match write_inode(view, changes, ino, &holes) {
        Edited::Done => put_all_back(view, changes, &list),
        Edited::Lacking => Hung::Need(Need::one(inode_block(ino))),
        Edited::NoMemory => Hung::NoMemory,
    }
}

/// A file's inode with holes alone; the byte behind its addresses stays.
fn without_parts(inode: &Dinode, moment: u32) -> Dinode
    ensures { result ≡ emptied_inode inode.now moment }
{
    let mut area = [0; 40];
    area[39] = inode.area[39];
    Dinode {
        size: 0,
        area,
        mtime: moment,
        ctime: moment,
        ..*inode
    }
}
