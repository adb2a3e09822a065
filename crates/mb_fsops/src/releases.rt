ghost use Rattle.std.specs.Prelude.{◌≡◌, count_by, nat_eq};
ghost use Rattle.mb_tree.specs.declared.operations.FsOp.TheVariants.{Release};
ghost use Rattle.mb_fsops.specs.Performing.{PerformsAlways};
ghost use Rattle.mb_fsops.specs.Releasing.{ReleasesOne};

use crate::links::is_lost;
use mb_file::{Hung, erase_in};
use mb_iface::{Acted, Changes, Opens, View};
use mb_inodes::{Inode, read_inode};
use mb_tree::Inos;
use std::alloc::Global;

/// Lets open files go (V7 close(2)), one for each time that an inode's number stands in the list. A
/// nameless inode that is not open any longer is erased with all that it holds.
pub fn release<V: View>(alloc: Global, view: &V, opens: &Opens, inos: &Inos) -> Acted
    ensures { PerformsAlways (V.shown view.now) opens.now (Release inos.now) result }
{
    let mut changes = Changes::new(alloc);
    let inos = inos.as_slice();
    for ino in inos {
        match release_one(alloc, view, &mut changes, opens, inos, *ino) {
            Hung::Done => {}
            Hung::Need(need) => return Acted::Need(need),
            Hung::NoMemory => return Acted::NoMemory,
        }
    }
    Acted::Done {
        changes,
        pick: None,
    }
}

/// Erases one of the inodes, where it is nameless and the release of all of them leaves no open file
/// on it. One that is erased already stays so.
fn release_one<V: View>(
    alloc: Global,
    view: &V,
    changes: &mut Changes,
    opens: &Opens,
    inos: &[u16],
    ino: u16,
) -> Hung
    ensures { ReleasesOne (V.shown view.now) changes.old changes.new opens.now inos.now ino result }
{
    let inode = match read_inode(view, changes, ino) {
        Inode::Here(inode) => inode,
        Inode::Need(need) => return Hung::Need(need),
    };
    if inode.mode == 0 {
        return Hung::Done;
    }
    let left = (opens.count(ino) as usize).saturating_sub(times(inos, ino));
    if is_lost(inode.nlink, left) {
        return erase_in(alloc, view, changes, ino);
    }
    Hung::Done
}

/// How often an inode's number stands in a list.
fn times(inos: &[u16], ino: u16) -> usize
    ensures { result ≡ count_by (nat_eq ino) inos.now }
{
    inos.iter().filter(|other| ino == **other).count()
}
