ghost use Rattle.std.specs.Prelude.{◌≡◌};
ghost use Rattle.mb_kinds.specs.ErrorNames.{error_name};

use std::fmt;

/// The errors that a call can answer: those of the V7 section 2 pages that the calls of this project
/// can meet. `EIO` is none of them: it is the reply `Restart` or `Device`.
#[derive(Clone, Copy, Debug, PartialEq, Eq, Drop)]
pub enum Errno {
    /// 1: only the owner or uid 0 may do this, or nobody may do it to a directory.
    EPERM,
    /// 2: no used slot has this name.
    ENOENT,
    /// 6: a special file cannot be opened.
    ENXIO,
    /// 9: the descriptor is not in use, or is open in the wrong direction.
    EBADF,
    /// 13: the permission bits refuse it.
    EACCES,
    /// 16: the directory is in use.
    EBUSY,
    /// 17: the name is there already, or the directory has other slots in use.
    EEXIST,
    /// 20: a component that has to be a directory is none.
    ENOTDIR,
    /// 21: a directory cannot be written.
    EISDIR,
    /// 22: the argument makes no sense here.
    EINVAL,
    /// 24: no descriptor is free.
    EMFILE,
    /// 27: the file would pass its greatest size.
    EFBIG,
    /// 28: no block or no inode is free.
    ENOSPC,
    /// 31: the link count is at its greatest.
    EMLINK,
}

impl Errno {
    /// The error's name in capitals, as the transcript prints it.
    pub fn name(self) -> &'static str
        ensures { result.now ≡ error_name self }
    {
        match self {
            Errno::EPERM => "EPERM",
            Errno::ENOENT => "ENOENT",
            Errno::ENXIO => "ENXIO",
            Errno::EBADF => "EBADF",
            Errno::EACCES => "EACCES",
            Errno::EBUSY => "EBUSY",
            Errno::EEXIST => "EEXIST",
            Errno::ENOTDIR => "ENOTDIR",
            Errno::EISDIR => "EISDIR",
            Errno::EINVAL => "EINVAL",
            Errno::EMFILE => "EMFILE",
            Errno::EFBIG => "EFBIG",
            Errno::ENOSPC => "ENOSPC",
            Errno::EMLINK => "EMLINK",
        }
    }
}

impl fmt::Display for Errno {
    fn fmt<W: fmt::Write>(&self, f: &mut fmt::Formatter<W>) -> fmt::Result {
        f.write_str(self.name())
    }
}
