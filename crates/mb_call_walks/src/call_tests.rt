use crate::tables::{answers, answers_root};
use std::test::Fail;

/// Each call of the table once.
#[test]
fn each_call(rt: HostRuntime) -> Result<(), Fail> {
    answers_root(
        &rt,
        rt.alloc(),
        &[
            ("a creat /f 644", "3"),
            ("a text 3 hello", "5"),
            ("a lseek 3 1 0", "1"),
            ("a open /f r", "4"),
            ("a read 4 9", "5 68656c6c6f"),
            ("a dup 4", "5"),
            (
                "a fstat 5",
                "ino 3 mode 100644 nlink 1 uid 0 gid 0 size 5 atime 1 mtime 2 ctime 2",
            ),
            ("a link /f /g", "0"),
            (
                "a stat /g",
                "ino 3 mode 100644 nlink 2 uid 0 gid 0 size 5 atime 1 mtime 2 ctime 8",
            ),
            ("a unlink /f", "0"),
            ("a mkdir /d 755", "0"),
            ("a rmdir /d", "0"),
            ("a chdir /", "0"),
            ("a access g 4", "0"),
            ("a chmod g 600", "0"),
            ("a chown g 5 6", "0"),
            ("a utime g 100 200", "0"),
            ("a umask 22", "0"),
            ("a close 5", "0"),
            ("a sync", "0"),
            ("a exit", "0"),
        ],
    )
}

/// Descriptors are the lowest free ones of 3 to 19, and `dup` shares the offset.
#[test]
fn descriptors(rt: HostRuntime) -> Result<(), Fail> {
    answers_root(
        &rt,
        rt.alloc(),
        &[
            ("a creat /f 644", "3"),
            ("a hex 3 00ff61", "3"),
            ("a open /f rw", "4"),
            ("a dup 4", "5"),
            ("a read 4 1", "1 00"),
            ("a read 5 1", "1 ff"),
            ("a lseek 5 -1 1", "1"),
            ("a read 4 9", "2 ff61"),
            ("a close 4", "0"),
            ("a fstat 4", "EBADF"),
            ("a lseek 5 -2 2", "1"),
            ("a lseek 5 -9 1", "EINVAL"),
            ("a read 3 1", "EBADF"),
            ("a exit", "0"),
        ],
    )
}

/// A file that is there loses its bytes, and keeps its mode.
#[test]
fn creat_of_a_present_name(rt: HostRuntime) -> Result<(), Fail> {
    answers_root(
        &rt,
        rt.alloc(),
        &[
            ("a creat /f 644", "3"),
            ("a text 3 hi", "2"),
            ("a creat /f 600", "4"),
            (
                "a fstat 4",
                "ino 3 mode 100644 nlink 1 uid 0 gid 0 size 0 atime 1 mtime 3 ctime 3",
            ),
            ("a creat / 644", "EISDIR"),
            ("a creat /f/g 644", "ENOTDIR"),
            ("a creat /d/g 644", "ENOENT"),
            ("a fill 3 0 65", "0"),
            ("a exit", "0"),
        ],
    )
}

#[test]
fn names(rt: HostRuntime) -> Result<(), Fail> {
    answers_root(
        &rt,
        rt.alloc(),
        &[
            ("a creat /f 644", "3"),
            ("a link /f /g", "0"),
            (
                "a stat /g",
                "ino 3 mode 100644 nlink 2 uid 0 gid 0 size 0 atime 1 mtime 1 ctime 2",
            ),
            ("a link /f /g", "EEXIST"),
            ("a link / /r", "EPERM"),
            ("a link /f /", "EEXIST"),
            ("a unlink /f", "0"),
            ("a stat /f", "ENOENT"),
            (
                "a stat /g",
                "ino 3 mode 100644 nlink 1 uid 0 gid 0 size 0 atime 1 mtime 1 ctime 7",
            ),
            ("a unlink /f", "ENOENT"),
            ("a unlink /", "EPERM"),
            ("a exit", "0"),
        ],
    )
}

#[test]
fn directories(rt: HostRuntime) -> Result<(), Fail> {
    answers_root(
        &rt,
        rt.alloc(),
        &[
            ("a mkdir /d 755", "0"),
            (
                "a stat /d",
                "ino 3 mode 040755 nlink 2 uid 0 gid 0 size 32 atime 1 mtime 1 ctime 1",
            ),
            (
                "a stat /",
                "ino 2 mode 040777 nlink 3 uid 0 gid 0 size 48 atime 0 mtime 1 ctime 1",
            ),
            ("a mkdir /d 755", "EEXIST"),
            ("a chdir /d", "0"),
            ("a rmdir /d", "EBUSY"),
            ("a rmdir .", "EINVAL"),
            ("a chdir ..", "0"),
            ("a rmdir /d", "0"),
            ("a chdir /d", "ENOENT"),
            ("a rmdir /", "EBUSY"),
            (
                "a stat .",
                "ino 2 mode 040777 nlink 2 uid 0 gid 0 size 48 atime 0 mtime 9 ctime 9",
            ),
            ("a exit", "0"),
        ],
    )
}

/// The mask 27 leaves 640 of 666; the owner may set the mode and the times, but for the bit 1000.
#[test]
fn attributes(rt: HostRuntime) -> Result<(), Fail> {
    answers(
        &rt,
        rt.alloc(),
        "\"a 0 0\", \"b 5 6\"",
        &[
            ("a umask 22", "0"),
            ("a umask 27", "18"),
            ("a creat /f 666", "3"),
            (
                "a stat /f",
                "ino 3 mode 100640 nlink 1 uid 0 gid 0 size 0 atime 3 mtime 3 ctime 3",
            ),
            ("b chmod /f 666", "EPERM"),
            ("b utime /f 1 1", "EPERM"),
            ("a chown /f 5 7", "0"),
            ("b chmod /f 1751", "0"),
            (
                "b stat /f",
                "ino 3 mode 100751 nlink 1 uid 5 gid 7 size 0 atime 3 mtime 3 ctime 8",
            ),
            ("b chown /f 5 6", "EPERM"),
            ("b utime /f 100 200", "0"),
            ("a chmod /f 1644", "0"),
            (
                "a stat /f",
                "ino 3 mode 101644 nlink 1 uid 5 gid 7 size 0 atime 100 mtime 200 ctime 12",
            ),
            ("a exit", "0"),
            ("b exit", "0"),
        ],
    )
}

/// The bits of the owner, the group and the others; uid 0 passes.
#[test]
fn permission(rt: HostRuntime) -> Result<(), Fail> {
    answers(
        &rt,
        rt.alloc(),
        "\"a 0 0\", \"b 5 6\"",
        &[
            ("a creat /f 640", "3"),
            ("b access /f 4", "EACCES"),
            ("a chown /f 1 6", "0"),
            ("b access /f 4", "0"),
            ("b access /f 6", "EACCES"),
            ("b open /f w", "EACCES"),
            ("a chown /f 5 1", "0"),
            ("b access /f 6", "0"),
            ("b access /f 1", "EACCES"),
            ("a access /f 7", "0"),
            ("a exit", "0"),
            ("b exit", "0"),
        ],
    )
}

/// Names of a directory are searched for with its bit 1 and changed with its bit 2; its bytes are its slots.
#[test]
fn permission_of_directories(rt: HostRuntime) -> Result<(), Fail> {
    answers(
        &rt,
        rt.alloc(),
        "\"a 0 0\", \"b 5 6\"",
        &[
            ("a mkdir /d 700", "0"),
            ("b stat /d/x", "EACCES"),
            ("b chdir /d", "EACCES"),
            ("a chmod /d 755", "0"),
            ("b stat /d/x", "ENOENT"),
            ("b creat /d/x 644", "EACCES"),
            ("b mkdir /d/e 755", "EACCES"),
            ("b creat /x 644", "3"),
            ("b link /x /d/y", "EACCES"),
            ("b open /d w", "EACCES"),
            ("a open /d w", "EISDIR"),
            ("a open /d r", "3"),
            ("a read 3 5", "5 03002e0000"),
            ("a text 3 x", "EBADF"),
            ("a exit", "0"),
            ("b exit", "0"),
        ],
    )
}

/// The file without a name goes with its caller, and its number is given again.
#[test]
fn sync_and_exit(rt: HostRuntime) -> Result<(), Fail> {
    answers(
        &rt,
        rt.alloc(),
        "\"a 0 0\", \"b 0 0\"",
        &[
            ("a creat /f 644", "3"),
            ("a sync", "0"),
            ("a unlink /f", "0"),
            ("b creat /g 644", "3"),
            ("a exit", "0"),
            ("b creat /h 644", "4"),
            (
                "b fstat 3",
                "ino 4 mode 100644 nlink 1 uid 0 gid 0 size 0 atime 4 mtime 4 ctime 4",
            ),
            (
                "b fstat 4",
                "ino 3 mode 100644 nlink 1 uid 0 gid 0 size 0 atime 6 mtime 6 ctime 6",
            ),
            ("b exit", "0"),
        ],
    )
}

/// There are 17 descriptors.
#[test]
fn descriptors_run_out(rt: HostRuntime) -> Result<(), Fail> {
    answers_root(
        &rt,
        rt.alloc(),
        &[
            ("a creat /f 644", "3"),
            ("a dup 3", "4"),
            ("a dup 3", "5"),
            ("a dup 3", "6"),
            ("a dup 3", "7"),
            ("a dup 3", "8"),
            ("a dup 3", "9"),
            ("a dup 3", "10"),
            ("a dup 3", "11"),
            ("a dup 3", "12"),
            ("a dup 3", "13"),
            ("a dup 3", "14"),
            ("a dup 3", "15"),
            ("a dup 3", "16"),
            ("a dup 3", "17"),
            ("a dup 3", "18"),
            ("a dup 3", "19"),
            ("a dup 3", "EMFILE"),
            ("a open /f r", "EMFILE"),
            ("a creat /g 644", "EMFILE"),
            ("a dup 20", "EBADF"),
            ("a exit", "0"),
        ],
    )
}
