ghost use Rattle.std.specs.Prelude.{◌≡◌, IfOk};

use crate::bytes::Octets;
use crate::errors::Errno;
use std::alloc::{AllocError, Global};

/// What `stat` tells of an inode (V7 stat(2)). `size` is in bytes, the times in seconds.
#[derive(Clone, Copy, Debug, PartialEq, Eq, Drop)]
pub struct Stat {
    pub ino: u16,
    pub mode: u16,
    pub nlink: u16,
    pub uid: u16,
    pub gid: u16,
    pub size: u32,
    pub atime: u32,
    pub mtime: u32,
    pub ctime: u32,
}

/// What a call is answered with.
#[derive(Debug, PartialEq, Drop)]
pub enum Reply {
    /// A number: a descriptor, a count, an offset, a mask, or 0.
    Num(u32),
    /// The bytes of a read.
    Got(Octets),
    /// The inode of a `stat` or an `fstat`.
    Info(Stat),
    /// The call was refused and changed nothing.
    Refused(Errno),
    /// The call's own second fault (`EIO`), with the numbers of its two fault records, from 1.
    Restart { first: u32, second: u32 },
    /// The disk failed during the call (`EIO`).
    Device,
    /// The volume has failed for good, with the number of fault records.
    Failed { faults: u32 },
}

impl Reply {
    /// A copy. The only error is want of memory.
    pub fn copied(&self, alloc: Global) -> Result<Reply, AllocError>
        ensures { IfOk result (λ copy. copy ≡ self.now) }
    {
        let copy = match self {
            Reply::Num(number) => Reply::Num(*number),
            Reply::Got(bytes) => Reply::Got(bytes.copied(alloc)?),
            Reply::Info(stat) => Reply::Info(*stat),
            Reply::Refused(error) => Reply::Refused(*error),
            Reply::Restart { first, second } => Reply::Restart {
                first: *first,
                second: *second,
            },
            Reply::Device => Reply::Device,
            Reply::Failed { faults } => Reply::Failed { faults: *faults },
        };
        Ok(copy)
    }
}
