ghost use Rattle.std.specs.Prelude.{◌≡◌};
ghost use Rattle.mb_tree.specs.declared.operations.FsOp.TheVariants.{Enlink, Delink};
ghost use Rattle.mb_fsops.specs.Performing.{PerformsAlways, PerformsAnyway};
ghost use Rattle.mb_fsops.specs.Links.{LinksAt, LosesName, UnlinksAt, lost_with};

use crate::places::{NamePlace, find_name};
use mb_dirs::{Advanced, Entered, FieldChange, Gap, clear_slot, enter, set_fields};
use mb_file::{Hung, erase_in};
use mb_iface::{Acted, Changes, Opens, View};
use mb_inodes::{Inode, read_inode};
use mb_kinds::{Errno, Name};
use std::alloc::Global;

/// The greatest link count: this project's choice.
const MOST_LINKS: u16 = 32_767;

/// Enters a further name of an inode (V7 link(2)). Refused with `EMLINK` where the inode has 32,767
/// links, and with `ENOSPC` where the directory would need more blocks than are free.
pub fn enlink<V: View>(
    alloc: Global,
    view: &V,
    dir: u16,
    name: &Name,
    ino: u16,
    moment: u32,
) -> Acted
    ensures { PerformsAnyway (V.shown view.now) (Enlink dir name.now ino moment) result }
{
    let none = Changes::new(alloc);
    let inode = match read_inode(view, &none, ino) {
        Inode::Here(inode) => inode,
        Inode::Need(need) => return Acted::Need(need),
    };
    if inode.nlink >= MOST_LINKS {
        return Acted::Refused(Errno::EMLINK);
    }
    let linked = inode.nlink + 1;
    match find_name(alloc, view, dir, name) {
        NamePlace::Open { links, gap } => {
            link_at(alloc, view, dir, name, ino, moment, linked, links, gap)
        }
        NamePlace::Slot { .. } => Acted::Refused(Errno::EEXIST),
        NamePlace::Need(need) => Acted::Need(need),
    }
}

/// Sets the link count of an inode and enters a name of it at its place in a directory with so many
/// links.
fn link_at<V: View>(
    alloc: Global,
    view: &V,
    dir: u16,
    name: &Name,
    ino: u16,
    moment: u32,
    linked: u16,
    links: u16,
    gap: Gap,
) -> Acted
    ensures { LinksAt (V.shown view.now) dir name.now ino moment linked links gap result }
{
    let mut changes = Changes::new(alloc);
    let more = FieldChange::Links {
        links: linked,
        moment,
    };
    match set_fields(view, &mut changes, ino, &more) {
        Advanced::Done => {}
        Advanced::Need(need) => return Acted::Need(need),
        Advanced::NoMemory => return Acted::NoMemory,
    }
    match enter(view, &mut changes, dir, links, moment, gap, name, ino) {
        Entered::Done => Acted::Done {
            changes,
            pick: None,
        },
        Entered::NoneLeft => Acted::Refused(Errno::ENOSPC),
        Entered::Need(need) => Acted::Need(need),
        Entered::NoMemory => Acted::NoMemory,
    }
}

/// Empties the slot of a name and takes one from the links of its inode (V7 unlink(2)). An inode that
/// has no other name is erased with all that it holds, but for one that is open: that stays until it
/// is released.
pub fn delink<V: View>(
    alloc: Global,
    view: &V,
    opens: &Opens,
    dir: u16,
    name: &Name,
    moment: u32,
) -> Acted
    ensures { PerformsAlways (V.shown view.now) opens.now (Delink dir name.now moment) result }
{
    match find_name(alloc, view, dir, name) {
        NamePlace::Slot { links, at, ino } => {
            unlink_at(alloc, view, opens, dir, name, ino, moment, links, at)
        }
        NamePlace::Open { .. } => Acted::Refused(Errno::ENOENT),
        NamePlace::Need(need) => Acted::Need(need),
    }
}

/// Empties the slot of a name of an inode, at its place in a directory with so many links, and takes
/// the name from the inode.
fn unlink_at<V: View>(
    alloc: Global,
    view: &V,
    opens: &Opens,
    dir: u16,
    name: &Name,
    ino: u16,
    moment: u32,
    links: u16,
    at: u32,
) -> Acted
    ensures { UnlinksAt (V.shown view.now) opens.now dir name.now ino moment links at result }
{
    let mut changes = Changes::new(alloc);
    match clear_slot(view, &mut changes, dir, links, moment, at, name) {
        Advanced::Done => {}
        Advanced::Need(need) => return Acted::Need(need),
        Advanced::NoMemory => return Acted::NoMemory,
    }
    match lose_name(alloc, view, &mut changes, opens, ino, moment) {
        Hung::Done => Acted::Done {
            changes,
            pick: None,
        },
        Hung::Need(need) => Acted::Need(need),
        Hung::NoMemory => Acted::NoMemory,
    }
}

/// Takes one from the links of an inode, or erases it where it has no other and is not open.
fn lose_name<V: View>(
    alloc: Global,
    view: &V,
    changes: &mut Changes,
    opens: &Opens,
    ino: u16,
    moment: u32,
) -> Hung
    ensures { LosesName (V.shown view.now) changes.old changes.new opens.now ino moment result }
{
    let inode = match read_inode(view, changes, ino) {
        Inode::Here(inode) => inode,
        Inode::Need(need) => return Hung::Need(need),
    };
    let links = inode.nlink.saturating_sub(1);
    if is_lost(links, opens.count(ino) as usize) {
        return erase_in(alloc, view, changes, ino);
    }
    let less = FieldChange::Links { links, moment };
    match set_fields(view, changes, ino, &less) {
        Advanced::Done => Hung::Done,
        Advanced::Need(need) => Hung::Need(need),
        Advanced::NoMemory => Hung::NoMemory,
    }
}

/// Whether an inode with so many links and so many open files is lost.
pub(crate) fn is_lost(links: u16, files: usize) -> bool
    ensures { result ≡ lost_with links files }
{
    links == 0 && files == 0
}
