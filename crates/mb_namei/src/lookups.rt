ghost use Rattle.mb_namei.specs.Lookups.{LooksUp};

use crate::inodes::{Looked, info, stat_by};
use crate::searches::{Sought, search};
use mb_iface::{Changes, Need, View};
use mb_kinds::{Cred, Errno, Name};
use mb_tree::{is_directory, may};

/// Where one component of a path leads.
#[derive(Clone, Copy, Debug, Drop)]
pub enum LookedUp {
    /// To the inode with this number.
    Number(u16),
    /// No used slot of the directory has the name.
    Missing,
    /// `ENOTDIR` where the inode is no directory, `EACCES` where the caller may not search it.
    Refused(Errno),
    /// The view lacks the inode's block, or a block of the directory.
    Need(Need),
}

/// Looks one component up in an inode, which must be a directory that the caller may search (V7
/// namei). It stands in each of its callers, which take what it finds apart at once.
#[inline(always)]
pub fn look_up<V: View>(view: &V, changes: &Changes, cred: Cred, dir: u16, name: &Name) -> LookedUp
    ensures { LooksUp (V.shown view.now) changes.now cred dir name.now result }
{
    let inode = match info(view, changes, dir) {
        Looked::Inode(inode) => inode,
        Looked::Need(need) => return LookedUp::Need(need),
    };
    if !is_directory(inode.mode) {
        return LookedUp::Refused(Errno::ENOTDIR);
    }
    if !may(cred, &stat_by(dir, &inode), 1) {
        return LookedUp::Refused(Errno::EACCES);
    }
    match search(view, changes, dir, inode.size, name) {
        Sought::Found { ino, .. } => LookedUp::Number(ino),
        Sought::Empty { .. } => LookedUp::Missing,
        Sought::Full => LookedUp::Missing,
        Sought::Need(need) => LookedUp::Need(need),
    }
}
