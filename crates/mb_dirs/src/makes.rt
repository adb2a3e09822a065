ghost use Rattle.std.specs.Prelude.{◌≡◌};
ghost use Rattle.mb_dirs.specs.Making.{MakesFile, MakesDirectory, new_inode};

use crate::enters::Entered;
use crate::rewrites::write_blank;
use crate::slot_writes::put_slot;
use crate::steps::Advanced;
use mb_bmap::{Reached, reach};
use mb_iface::{Changes, Edited, Need, View};
use mb_kinds::Name;
use mb_layout::Dinode;

/// What a new inode gets.
#[derive(Clone, Copy, Debug, PartialEq, Drop)]
pub struct NewInode {
    /// Its permissions, without a kind.
    pub mode: u16,
    /// Its owner.
    pub uid: u16,
    /// The owner's group.
    pub gid: u16,
    /// When it is made.
    pub moment: u32,
}

/// `.`, the name of a directory's first slot (V7 dir(5)).
const DOT: Name = [46, 0, 0, 0, 0, 0, 0, 0, 0, 0, 0, 0, 0, 0];

/// `..`, the name of its second.
const DOT_DOT: Name = [46, 46, 0, 0, 0, 0, 0, 0, 0, 0, 0, 0, 0, 0];

/// Makes an empty regular file with one link in a free inode, one from 1 to the last.
pub fn make_file<V: View>(view: &V, changes: &mut Changes, ino: u16, new: &NewInode) -> Advanced
    ensures { MakesFile (V.shown view.now) changes.old changes.new ino new.now result }
{
    write_blank(view, changes, ino, &inode_of(new, 0x8000 | new.mode, 1, 0))
}

/// Makes a directory with two links in a free inode, one from 1 to the last: its slots are `.` and
/// `..`, which leads to the parent (V7 dir(5)).
pub fn make_directory<V: View>(
    view: &V,
    changes: &mut Changes,
    ino: u16,
    new: &NewInode,
    parent: u16,
) -> Entered
    ensures { MakesDirectory (V.shown view.now) changes.old changes.new ino new.now parent result }
{
    match write_blank(view, changes, ino, &inode_of(new, 0x4000 | new.mode, 2, 32)) {
        Advanced::Done => {}
        Advanced::Need(need) => return Entered::Need(need),
        Advanced::NoMemory => return Entered::NoMemory,
    }
    let block = match reach(view, changes, ino, 0, 1) {
        Reached::At(block) => block,
        Reached::NoneLeft => return Entered::NoneLeft,
        Reached::Need(need) => return Entered::Need(need),
        Reached::NoMemory => return Entered::NoMemory,
    };
    // no volume has a block with such a number
    if block == 0 || block >= 262_144 {
        return Entered::NoneLeft;
    }
    match put_slot(view, changes, block, 0, &DOT, ino) {
        Edited::Done => {}
        Edited::Lacking => return Entered::Need(Need::one(block)),
        Edited::NoMemory => return Entered::NoMemory,
    }
    match put_slot(view, changes, block, 1, &DOT_DOT, parent) {
        Edited::Done => Entered::Done,
        Edited::Lacking => Entered::Need(Need::one(block)),
        Edited::NoMemory => Entered::NoMemory,
    }
}

/// The value of a new inode of so many bytes, without an address.
fn inode_of(new: &NewInode, mode: u16, nlink: u16, size: u32) -> Dinode
    ensures { result ≡ new_inode new.now mode nlink size }
{
    Dinode {
        mode,
        nlink,
        uid: new.uid,
        gid: new.gid,
        size,
        area: [0; 40],
        atime: new.moment,
        mtime: new.moment,
        ctime: new.moment,
    }
}
