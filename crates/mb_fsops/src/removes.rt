ghost use Rattle.mb_tree.specs.declared.operations.FsOp.TheVariants.{RemoveDir};
ghost use Rattle.mb_fsops.specs.Performing.{PerformsAnyway};
ghost use Rattle.mb_fsops.specs.Removing.{RemovesAt};

use crate::places::{NamePlace, find_name};
use mb_dirs::{Advanced, clear_slot};
use mb_file::{Hung, erase_in};
use mb_iface::{Acted, Changes, Need, View};
use mb_kinds::{Errno, Name};
use std::alloc::Global;

/// Removes a directory that has no names but its dots and is not open (V7 rmdir(1)): empties the slot
/// of its name, takes the link that its `..` was from the links of the directory with the name, and
/// erases it with the blocks that it holds. Block 1, which the erasure wants, is asked for before the name
/// is searched.
pub fn remove_dir<V: View>(alloc: Global, view: &V, dir: u16, name: &Name, moment: u32) -> Acted
    ensures { PerformsAnyway (V.shown view.now) (RemoveDir dir name.now moment) result }
{
    if view.get(1).is_none() {
        return Acted::Need(Need::one(1));
    }
    match find_name(alloc, view, dir, name) {
        NamePlace::Slot { links, at, ino } => {
            let less = links.saturating_sub(1);
            remove_dir_at(alloc, view, dir, less, at, name, ino, moment)
        }
        NamePlace::Open { .. } => Acted::Refused(Errno::ENOENT),
        NamePlace::Need(need) => Acted::Need(need),
    }
}

/// Removes the directory whose name stands at a place; the directory with the name has so many links
/// then.
fn remove_dir_at<V: View>(
    alloc: Global,
    view: &V,
    dir: u16,
    links: u16,
    at: u32,
    name: &Name,
    ino: u16,
    moment: u32,
) -> Acted
    ensures { RemovesAt (V.shown view.now) dir links at name.now ino moment result }
{
    let mut changes = Changes::new(alloc);
    match clear_slot(view, &mut changes, dir, links, moment, at, name) {
        Advanced::Done => {}
        Advanced::Need(need) => return Acted::Need(need),
        Advanced::NoMemory => return Acted::NoMemory,
    }
    match erase_in(alloc, view, &mut changes, ino) {
        Hung::Done => Acted::Done {
            changes,
            pick: None,
        },
        Hung::Need(need) => Acted::Need(need),
        Hung::NoMemory => Acted::NoMemory,
    }
}
