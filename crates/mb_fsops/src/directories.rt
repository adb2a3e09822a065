ghost use Rattle.mb_tree.specs.declared.operations.FsOp.TheVariants.{MakeDir};
ghost use Rattle.mb_fsops.specs.Creating.{PerformsWith, PicksAsV7};
ghost use Rattle.mb_fsops.specs.MakingDirs.{MakesDirAt};

use crate::places::{NamePlace, find_name};
use mb_dirs::{Chosen, Gap, NewInode, lacking_number, make_directory_in};
use mb_file::lacking_free;
use mb_iface::{Acted, Changes, View};
use mb_kinds::{Errno, Name};
use std::alloc::Global;

/// The greatest link count: this project's choice.
const MOST_LINKS: u16 = 32_767;

/// Makes a directory under a name that is missing in a directory (V7 mkdir(1)), with the demanded
/// number, or with a free one. Refused with `EMLINK` where the directory has 32,767 links, and with
/// `ENOSPC` where no number is free, or fewer blocks than both directories want.
pub fn make_dir<V: View>(
    alloc: Global,
    view: &V,
    dir: u16,
    name: &Name,
    new: &NewInode,
    demanded: Option<u16>,
) -> Acted
    ensures performs { PerformsWith (V.shown view.now) (MakeDir dir name.now new.now.mode new.now.uid new.now.gid new.now.moment) demanded result }
    ensures picks { PicksAsV7 (V.shown view.now) demanded result }
{
    if let Some(need) = lacking_number(view, &Changes::new(alloc), demanded) {
        return Acted::Need(need);
    }
    if let Some(need) = lacking_free(view, &Changes::new(alloc), 1) {
        return Acted::Need(need);
    }
    match find_name(alloc, view, dir, name) {
        NamePlace::Open { links, gap } => {
            if links >= MOST_LINKS {
                return Acted::Refused(Errno::EMLINK);
            }
            make_dir_at(alloc, view, dir, links + 1, gap, name, new, demanded)
        }
        NamePlace::Slot { .. } => Acted::Refused(Errno::EEXIST),
        NamePlace::Need(need) => Acted::Need(need),
    }
}

/// Makes the directory where its name goes; the parent has so many links then.
fn make_dir_at<V: View>(
    alloc: Global,
    view: &V,
    dir: u16,
    links: u16,
    gap: Gap,
    name: &Name,
    new: &NewInode,
    demanded: Option<u16>,
) -> Acted
    ensures { MakesDirAt (V.shown view.now) dir links gap name.now new.now demanded result }
{
    let mut changes = Changes::new(alloc);
    match make_directory_in(view, &mut changes, dir, links, gap, name, new, demanded) {
        Chosen::Number(ino) => Acted::Done {
            changes,
            pick: Some(ino),
        },
        Chosen::NoneLeft => Acted::Refused(Errno::ENOSPC),
        Chosen::Need(need) => Acted::Need(need),
        Chosen::NoMemory => Acted::NoMemory,
    }
}
