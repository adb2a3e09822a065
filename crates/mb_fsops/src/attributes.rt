ghost use Rattle.mb_tree.specs.declared.operations.FsOp.TheVariants.{SetMode, SetOwner, SetTimes};
ghost use Rattle.mb_fsops.specs.Performing.{PerformsAnyway};
ghost use Rattle.mb_fsops.specs.Attributes.{SetsThese};

use mb_dirs::{Advanced, FieldChange, set_fields};
use mb_iface::{Acted, Changes, View};
use std::alloc::Global;

/// Sets the bits 07777 of an inode's mode and when it was changed (V7 chmod(2)); its kind stays.
pub fn set_mode<V: View>(alloc: Global, view: &V, ino: u16, mode: u16, moment: u32) -> Acted
    ensures { PerformsAnyway (V.shown view.now) (SetMode ino mode moment) result }
{
    set(alloc, view, ino, &FieldChange::Mode { mode, moment })
}

/// Sets the owner of an inode, the owner's group, and when it was changed (V7 chown(2)).
pub fn set_owner<V: View>(
    alloc: Global,
    view: &V,
    ino: u16,
    uid: u16,
    gid: u16,
    moment: u32,
) -> Acted
    ensures { PerformsAnyway (V.shown view.now) (SetOwner ino uid gid moment) result }
{
    set(alloc, view, ino, &FieldChange::Owner { uid, gid, moment })
}

/// Sets when an inode was read, written and changed (V7 utime(2)).
pub fn set_times<V: View>(
    alloc: Global,
    view: &V,
    ino: u16,
    atime: u32,
    mtime: u32,
    moment: u32,
) -> Acted
    ensures { PerformsAnyway (V.shown view.now) (SetTimes ino atime mtime moment) result }
{
    let times = FieldChange::Times {
        atime,
        mtime,
        moment,
    };
    set(alloc, view, ino, &times)
}

/// Sets fields of an inode, and nothing else.
fn set<V: View>(alloc: Global, view: &V, ino: u16, change: &FieldChange) -> Acted
    ensures { SetsThese (V.shown view.now) ino change.now result }
{
    let mut changes = Changes::new(alloc);
    match set_fields(view, &mut changes, ino, change) {
        Advanced::Done => Acted::Done {
            changes,
            pick: None,
        },
        Advanced::Need(need) => Acted::Need(need),
        Advanced::NoMemory => Acted::NoMemory,
    }
}
