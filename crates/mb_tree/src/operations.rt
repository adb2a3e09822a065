use mb_kinds::{Name, Octets, Seq};

/// A list of inode numbers.
pub type Inos = Seq<u16>;

/// The operations of the file system, which change the tree and the counts of open files. `moment` is
/// the time that they write.
#[derive(Drop)]
pub enum FsOp {
    /// `creat` of a missing name: makes a regular file with the picked number and holds it.
    Create {
        dir: u16,
        name: Name,
        mode: u16,
        uid: u16,
        gid: u16,
        moment: u32,
    },
    /// `creat` of a present name: drops all bytes of the file and holds it.
    Empty {
        ino: u16,
        moment: u32,
    },
    /// `mkdir`: makes a directory with the picked number.
    MakeDir {
        dir: u16,
        name: Name,
        mode: u16,
        uid: u16,
        gid: u16,
        moment: u32,
    },
    /// `rmdir`: drops the directory that the name leads to.
    RemoveDir {
        dir: u16,
        name: Name,
        moment: u32,
    },
    /// `link`: enters a further name of the inode.
    Enlink {
        dir: u16,
        name: Name,
        ino: u16,
        moment: u32,
    },
    /// `unlink`: empties the slot of the name.
    Delink {
        dir: u16,
        name: Name,
        moment: u32,
    },
    /// `write` of at least one byte.
    Put {
        ino: u16,
        offset: u32,
        bytes: Octets,
        moment: u32,
    },
    /// `chmod`: `mode` has the bits 07777 that the inode gets.
    SetMode {
        ino: u16,
        mode: u16,
        moment: u32,
    },
    /// `chown`.
    SetOwner {
        ino: u16,
        uid: u16,
        gid: u16,
        moment: u32,
    },
    /// `utime`.
    SetTimes {
        ino: u16,
        atime: u32,
        mtime: u32,
        moment: u32,
    },
    /// `open`: one more open file on the inode.
    Hold {
        ino: u16,
    },
    /// `close` of an open file's last descriptor, and `exit`: one open file less on each of these
    /// inodes; a number stands once for each open file.
    Release {
        inos: Inos,
    },
}
