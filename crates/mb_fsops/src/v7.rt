ghost use Rattle.std.specs.Prelude.{◌≡◌, true};
ghost use Rattle.mb_iface.specs.Acting.{KeepsWhereHeld};
ghost use Rattle.mb_tree.specs.PickLaws.{makes_inode};
ghost use Rattle.mb_fsops.specs.Creating.{PicksAsV7};
ghost use Rattle.mb_fsops.specs.Performing.{Performs};

use crate::{
    create, delink, enlink, hold, make_dir, release, remove_dir, set_mode, set_owner, set_times,
};
use mb_dirs::NewInode;
use mb_file::{empty, put, read};
use mb_iface::{Acted, Asked, FileSys, Opens, Query, View};
use mb_namei::{find, info_of, place, used};
use mb_tree::FsOp;
use std::alloc::Global;

/// The file system of Unix V7. It holds nothing: each answer is of the blocks that it is given.
#[derive(Clone, Copy)]
pub struct V7;

impl FileSys for V7 {
    // A caller knows which query it asks, so the others are left out where this stands in it.
    #[inline(always)]
    fn ask<V: View>(&self, alloc: Global, view: &V, query: &Query) -> Asked {
        match query {
            Query::Find { cwd, cred, path } => find(alloc, view, *cwd, *cred, path),
            Query::Place { cwd, cred, path } => place(alloc, view, *cwd, *cred, path),
            Query::Info { ino } => info_of(alloc, view, *ino),
            Query::Bytes { ino, offset, count } => read(alloc, view, *ino, *offset, *count),
            Query::Used { ino } => used(alloc, view, *ino),
        }
    }

    fn act<V: View>(
        &self,
        alloc: Global,
        view: &V,
        opens: &Opens,
        op: &FsOp,
        pick: Option<u16>,
    ) -> Acted {
        perform(alloc, view, opens, op, pick)
    }
}

/// Says what an operation changes, as `FileSys::act` does. Where it makes an inode and no number is
/// demanded the number is V7's pick: the last one in the super-block's cache whose inode is free, and
/// where none is, the first free one of the i-list (alloc(9)).
pub fn perform<V: View>(
    alloc: Global,
    view: &V,
    opens: &Opens,
    op: &FsOp,
    demanded: Option<u16>,
) -> Acted
    ensures performs { Performs (V.shown view.now) opens.now op.now demanded result }
    ensures picks { makes_inode op.now ≡ true → PicksAsV7 (V.shown view.now) demanded result }
    ensures still { KeepsWhereHeld op.now result }
{
    match op {
        FsOp::Create {
            dir,
            name,
            mode,
            uid,
            gid,
            moment,
        } => {
            let new = NewInode {
                mode: *mode,
                uid: *uid,
                gid: *gid,
                moment: *moment,
            };
            create(alloc, view, *dir, name, &new, demanded)
        }
        FsOp::Empty { ino, moment } => empty(alloc, view, *ino, *moment),
        FsOp::MakeDir {
            dir,
            name,
            mode,
            uid,
            gid,
            moment,
        } => {
            let new = NewInode {
                mode: *mode,
                uid: *uid,
                gid: *gid,
                moment: *moment,
            };
            make_dir(alloc, view, *dir, name, &new, demanded)
        }
        FsOp::RemoveDir { dir, name, moment } => remove_dir(alloc, view, *dir, name, *moment),
        FsOp::Enlink {
            dir,
            name,
            ino,
            moment,
        } => enlink(alloc, view, *dir, name, *ino, *moment),
        FsOp::Delink { dir, name, moment } => delink(alloc, view, opens, *dir, name, *moment),
        FsOp::Put {
            ino,
            offset,
            bytes,
            moment,
        } => put(alloc, view, *ino, *offset, bytes.as_slice(), *moment),
        FsOp::SetMode { ino, mode, moment } => set_mode(alloc, view, *ino, *mode, *moment),
        FsOp::SetOwner {
            ino,
            uid,
            gid,
            moment,
        } => set_owner(alloc, view, *ino, *uid, *gid, *moment),
        FsOp::SetTimes {
            ino,
            atime,
            mtime,
            moment,
        } => set_times(alloc, view, *ino, *atime, *mtime, *moment),
        FsOp::Hold { ino } => hold(alloc, view, *ino),
        FsOp::Release { inos } => release(alloc, view, opens, inos),
    }
}
