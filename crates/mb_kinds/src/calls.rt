ghost use Rattle.std.specs.Prelude.{◌≡◌, ◌≤◌, IfOk, IfSome, length};

use crate::bytes::{Octets, Path};
use std::alloc::{AllocError, Global};

/// The directions in which a file is opened (V7 open(2)).
#[derive(Clone, Copy, Debug, PartialEq, Eq, Drop)]
pub enum How {
    Reading,
    Writing,
    Both,
}

/// Where an offset of `lseek` counts from (V7 lseek(2)).
#[derive(Clone, Copy, Debug, PartialEq, Eq, Drop)]
pub enum Whence {
    Start,
    Here,
    End,
}

/// The calls of V7 section 2 that this project runs. `mkdir` and `rmdir` do the work of mkdir(1) and
/// rmdir(1) in one step, which is this project's choice.
#[derive(Debug, PartialEq, Drop)]
pub enum Call {
    Open {
        path: Path,
        how: How,
    },
    Creat {
        path: Path,
        mode: u16,
    },
    Close {
        fd: u16,
    },
    Read {
        fd: u16,
        count: u16,
    },
    Write {
        fd: u16,
        bytes: Octets,
    },
    Lseek {
        fd: u16,
        offset: i32,
        whence: Whence,
    },
    Dup {
        fd: u16,
    },
    Link {
        from: Path,
        to: Path,
    },
    Unlink {
        path: Path,
    },
    Mkdir {
        path: Path,
        mode: u16,
    },
    Rmdir {
        path: Path,
    },
    Chdir {
        path: Path,
    },
    Stat {
        path: Path,
    },
    Fstat {
        fd: u16,
    },
    Chmod {
        path: Path,
        mode: u16,
    },
    Chown {
        path: Path,
        uid: u16,
        gid: u16,
    },
    Utime {
        path: Path,
        atime: u32,
        mtime: u32,
    },
    Access {
        path: Path,
        bits: u8,
    },
    Umask {
        mask: u16,
    },
    Sync,
    Exit,
}

impl Call {
    /// A copy. The only error is want of memory.
    pub fn copied(&self, alloc: Global) -> Result<Call, AllocError>
        ensures { IfOk result (λ copy. copy ≡ self.now) }
    {
        let mut room = Vec::new(alloc);
        self.copied_into(alloc, &mut room)
    }

    /// A copy whose path or bytes stand in the room of a list, of which an empty one is left; of two paths the first
    /// takes it, and a call without any leaves the list. The only error is want of memory.
    pub fn copied_into(&self, alloc: Global, room: &mut Vec<u8>) -> Result<Call, AllocError>
        ensures { IfOk result (λ copy. copy ≡ self.now) }
    {
        let copy = match self {
            Call::Open { path, how } => Call::Open {
                path: path.copied_into(alloc, room)?,
                how: *how,
            },
            Call::Creat { path, mode } => Call::Creat {
                path: path.copied_into(alloc, room)?,
                mode: *mode,
            },
            Call::Close { fd } => Call::Close { fd: *fd },
            Call::Read { fd, count } => Call::Read {
                fd: *fd,
                count: *count,
            },
            Call::Write { fd, bytes } => Call::Write {
                fd: *fd,
                bytes: bytes.copied_into(alloc, room)?,
            },
            Call::Lseek { fd, offset, whence } => Call::Lseek {
                fd: *fd,
                offset: *offset,
                whence: *whence,
            },
            Call::Dup { fd } => Call::Dup { fd: *fd },
            Call::Link { from, to } => Call::Link {
                from: from.copied_into(alloc, room)?,
                to: to.copied(alloc)?,
            },
            Call::Unlink { path } => Call::Unlink {
                path: path.copied_into(alloc, room)?,
            },
            Call::Mkdir { path, mode } => Call::Mkdir {
                path: path.copied_into(alloc, room)?,
                mode: *mode,
            },
            Call::Rmdir { path } => Call::Rmdir {
                path: path.copied_into(alloc, room)?,
            },
            Call::Chdir { path } => Call::Chdir {
                path: path.copied_into(alloc, room)?,
            },
            Call::Stat { path } => Call::Stat {
                path: path.copied_into(alloc, room)?,
            },
            Call::Fstat { fd } => Call::Fstat { fd: *fd },
            Call::Chmod { path, mode } => Call::Chmod {
                path: path.copied_into(alloc, room)?,
                mode: *mode,
            },
            Call::Chown { path, uid, gid } => Call::Chown {
                path: path.copied_into(alloc, room)?,
                uid: *uid,
                gid: *gid,
            },
            Call::Utime { path, atime, mtime } => Call::Utime {
                path: path.copied_into(alloc, room)?,
                atime: *atime,
                mtime: *mtime,
            },
            Call::Access { path, bits } => Call::Access {
                path: path.copied_into(alloc, room)?,
                bits: *bits,
            },
            Call::Umask { mask } => Call::Umask { mask: *mask },
            Call::Sync => Call::Sync,
            Call::Exit => Call::Exit,
        };
        Ok(copy)
    }

    /// The room of the bytes that it holds: of its path, of the first of two, or of what it writes. `None` where it
    /// holds none; needs no memory.
    pub fn into_room(self) -> Option<Vec<u8>>
        ensures { IfSome result (λ room. length room.items ≤ 65535) }
    {
        match self {
            Call::Open { path, .. }
            | Call::Creat { path, .. }
            | Call::Unlink { path }
            | Call::Mkdir { path, .. }
            | Call::Rmdir { path }
            | Call::Chdir { path }
            | Call::Stat { path }
            | Call::Chmod { path, .. }
            | Call::Chown { path, .. }
            | Call::Utime { path, .. }
            | Call::Access { path, .. } => Some(path.into_vec()),
            Call::Link { from, to: _ } => Some(from.into_vec()),
            Call::Write { bytes, .. } => Some(bytes.into_vec()),
            _ => None,
        }
    }
}
