ghost use Rattle.mb_tree.specs.declared.operations.FsOp.TheVariants.{Create};
ghost use Rattle.mb_fsops.specs.Creating.{CreatesAt, PerformsWith, PicksAsV7};

use crate::places::{NamePlace, find_name};
use mb_dirs::{Chosen, Gap, NewInode, create_in, lacking_number};
use mb_iface::{Acted, Changes, View};
use mb_kinds::{Errno, Name};
use std::alloc::Global;

/// Makes an empty regular file under a name that is missing in a directory (V7 creat(2)), with the
/// demanded number, or with a free one. Refused with `ENOSPC` where no number is free, or where the
/// directory would need more blocks than are free.
pub fn create<V: View>(
    alloc: Global,
    view: &V,
    dir: u16,
    name: &Name,
    new: &NewInode,
    demanded: Option<u16>,
) -> Acted
    ensures performs { PerformsWith (V.shown view.now) (Create dir name.now new.now.mode new.now.uid new.now.gid new.now.moment) demanded result }
    ensures picks { PicksAsV7 (V.shown view.now) demanded result }
{
    if let Some(need) = lacking_number(view, &Changes::new(alloc), demanded) {
        return Acted::Need(need);
    }
    match find_name(alloc, view, dir, name) {
        NamePlace::Open { links, gap } => {
            create_at(alloc, view, dir, links, gap, name, new, demanded)
        }
        NamePlace::Slot { .. } => Acted::Refused(Errno::EEXIST),
        NamePlace::Need(need) => Acted::Need(need),
    }
}

/// Makes the file where its name goes, in a directory with so many links.
fn create_at<V: View>(
    alloc: Global,
    view: &V,
    dir: u16,
    links: u16,
    gap: Gap,
    name: &Name,
    new: &NewInode,
    demanded: Option<u16>,
) -> Acted
    ensures { CreatesAt (V.shown view.now) dir links gap name.now new.now demanded result }
{
    let mut changes = Changes::new(alloc);
    match create_in(view, &mut changes, dir, links, gap, name, new, demanded) {
        Chosen::Number(ino) => Acted::Done {
            changes,
            pick: Some(ino),
        },
        Chosen::NoneLeft => Acted::Refused(Errno::ENOSPC),
        Chosen::Need(need) => Acted::Need(need),
        Chosen::NoMemory => Acted::NoMemory,
    }
}
