ghost use Rattle.std.specs.Prelude.{◌≡◌, IfOk};

use mb_edge::NoMemory;
use mb_kinds::Seq;
use mb_oplog::Logged;
use mb_tree::{FsOp, Inos};
use std::alloc::Global;

fn copied_inos(alloc: Global, inos: &Inos) -> Result<Inos, NoMemory>
    ensures { IfOk result (λ copy. copy ≡ inos.now) }
{
    Ok(Seq::from_vec(inos.as_slice().to_vec(alloc)?))
}

/// A copy of an operation. The only error is want of memory.
pub(crate) fn copied_op(alloc: Global, op: &FsOp) -> Result<FsOp, NoMemory>
    ensures { IfOk result (λ copy. copy ≡ op.now) }
{
    let copy = match op {
        FsOp::Create {
            dir,
            name,
            mode,
            uid,
            gid,
            moment,
        } => FsOp::Create {
            dir: *dir,
            name: *name,
            mode: *mode,
            uid: *uid,
            gid: *gid,
            moment: *moment,
        },
        FsOp::Empty { ino, moment } => FsOp::Empty {
            ino: *ino,
            moment: *moment,
        },
        FsOp::MakeDir {
            dir,
            name,
            mode,
            uid,
            gid,
            moment,
        } => FsOp::MakeDir {
            dir: *dir,
            name: *name,
            mode: *mode,
            uid: *uid,
            gid: *gid,
            moment: *moment,
        },
        FsOp::RemoveDir { dir, name, moment } => FsOp::RemoveDir {
            dir: *dir,
            name: *name,
            moment: *moment,
        },
        FsOp::Enlink {
            dir,
            name,
            ino,
            moment,
        } => FsOp::Enlink {
            dir: *dir,
            name: *name,
            ino: *ino,
            moment: *moment,
        },
        FsOp::Delink { dir, name, moment } => FsOp::Delink {
            dir: *dir,
            name: *name,
            moment: *moment,
        },
        FsOp::Put {
            ino,
            offset,
            bytes,
            moment,
        } => FsOp::Put {
            ino: *ino,
            offset: *offset,
            bytes: bytes.copied(alloc)?,
            moment: *moment,
        },
        FsOp::SetMode { ino, mode, moment } => FsOp::SetMode {
            ino: *ino,
            mode: *mode,
            moment: *moment,
        },
        FsOp::SetOwner {
            ino,
            uid,
            gid,
            moment,
        } => FsOp::SetOwner {
            ino: *ino,
            uid: *uid,
            gid: *gid,
            moment: *moment,
        },
        FsOp::SetTimes {
            ino,
            atime,
            mtime,
            moment,
        } => FsOp::SetTimes {
            ino: *ino,
            atime: *atime,
            mtime: *mtime,
            moment: *moment,
        },
        FsOp::Hold { ino } => FsOp::Hold { ino: *ino },
        FsOp::Release { inos } => FsOp::Release {
            inos: copied_inos(alloc, inos)?,
        },
    };
    Ok(copy)
}

/// A copy of an operation with its pick. The only error is want of memory.
pub(crate) fn copied(alloc: Global, logged: &Logged) -> Result<Logged, NoMemory>
    ensures { IfOk result (λ copy. copy ≡ logged.now) }
{
    Ok(Logged {
        op: copied_op(alloc, &logged.op)?,
        pick: logged.pick,
    })
}
