use mb_kinds::{Cred, Path};

/// What a file system is asked. `Bytes` and `Used` are asked of an inode that suits them; of another
/// one no answer is promised.
#[derive(Drop)]
pub enum Query {
    /// The inode to which a path leads (V7 namei).
    Find { cwd: u16, cred: Cred, path: Path },
    /// The directory and the name of a path's last component, and what that name leads to.
    Place { cwd: u16, cred: Cred, path: Path },
    /// What stat tells of an inode.
    Info { ino: u16 },
    /// What a read of `count` bytes at an offset gets of a regular file or a directory.
    Bytes { ino: u16, offset: u32, count: u16 },
    /// How many slots of a directory are in use.
    Used { ino: u16 },
}
