use crate::tables::{answers, answers_root};
use std::test::Fail;

#[test]
fn two_bytes_are_written(rt: HostRuntime) -> Result<(), Fail> {
    answers_root(
        &rt,
        rt.alloc(),
        &[
            ("a creat /f 644", "3"),
            ("a text 3 hi", "2"),
            ("a close 3", "0"),
            ("a exit", "0"),
        ],
    )
}

#[test]
fn second_descriptor_reads_from_the_start(rt: HostRuntime) -> Result<(), Fail> {
    answers_root(
        &rt,
        rt.alloc(),
        &[
            ("a creat /f 644", "3"),
            ("a text 3 hi", "2"),
            ("a open /f r", "4"),
            ("a read 4 9", "2 6869"),
            ("a read 4 9", "0"),
            ("a lseek 4 1000 0", "1000"),
            ("a read 4 9", "0"),
            ("a exit", "0"),
        ],
    )
}

#[test]
fn number_of_a_removed_file_is_given_again(rt: HostRuntime) -> Result<(), Fail> {
    answers_root(
        &rt,
        rt.alloc(),
        &[
            ("a creat /x 644", "3"),
            ("a creat /y 644", "4"),
            ("a close 3", "0"),
            ("a unlink /x", "0"),
            ("a creat /z 600", "3"),
            (
                "a stat /y",
                "ino 4 mode 100644 nlink 1 uid 0 gid 0 size 0 atime 2 mtime 2 ctime 2",
            ),
            (
                "a stat /z",
                "ino 3 mode 100600 nlink 1 uid 0 gid 0 size 0 atime 5 mtime 5 ctime 5",
            ),
            ("a exit", "0"),
        ],
    )
}

#[test]
fn unlinked_file_stays_while_it_is_open(rt: HostRuntime) -> Result<(), Fail> {
    answers_root(
        &rt,
        rt.alloc(),
        &[
            ("a creat /f 644", "3"),
            ("a open /f r", "4"),
            ("a unlink /f", "0"),
            ("a text 3 lost", "4"),
            ("a read 4 8", "4 6c6f7374"),
            ("a close 3", "0"),
            ("a close 4", "0"),
            ("a creat /g 644", "3"),
            (
                "a fstat 3",
                "ino 3 mode 100644 nlink 1 uid 0 gid 0 size 0 atime 8 mtime 8 ctime 8",
            ),
            ("a exit", "0"),
        ],
    )
}

/// Of a component the first 14 bytes count.
#[test]
fn directories_are_made_and_kept(rt: HostRuntime) -> Result<(), Fail> {
    answers_root(
        &rt,
        rt.alloc(),
        &[
            ("a creat /abcdefghijklmno 644", "3"),
            (
                "a stat /abcdefghijklmn",
                "ino 3 mode 100644 nlink 1 uid 0 gid 0 size 0 atime 1 mtime 1 ctime 1",
            ),
            ("a mkdir /d 755", "0"),
            ("a creat /d/k 644", "4"),
            ("a rmdir /d", "EEXIST"),
            ("a mkdir /e 755", "0"),
            ("a chdir /e", "0"),
            ("a rmdir /e", "EBUSY"),
            ("a rmdir /abcdefghijklmn", "ENOTDIR"),
            ("a exit", "0"),
        ],
    )
}

#[test]
fn last_byte_of_the_largest_file_is_written(rt: HostRuntime) -> Result<(), Fail> {
    answers_root(
        &rt,
        rt.alloc(),
        &[
            ("a creat /f 644", "3"),
            ("a lseek 3 1082201087 0", "1082201087"),
            ("a text 3 x", "1"),
            ("a text 3 y", "EFBIG"),
            (
                "a stat /f",
                "ino 3 mode 100644 nlink 1 uid 0 gid 0 size 1082201088 atime 1 mtime 3 ctime 3",
            ),
            ("a exit", "0"),
        ],
    )
}

/// 94 parts and one index block use all 95 free blocks up.
#[test]
fn full_volume_refuses_and_has_room_again(rt: HostRuntime) -> Result<(), Fail> {
    answers_root(
        &rt,
        rt.alloc(),
        &[
            ("a creat /f 644", "3"),
            ("a fill 3 48128 65", "48128"),
            ("a creat /g 644", "4"),
            ("a fill 4 48128 66", "ENOSPC"),
            ("a close 3", "0"),
            ("a unlink /f", "0"),
            ("a fill 4 48128 66", "48128"),
            ("a exit", "0"),
        ],
    )
}

/// The second creat finds the file of the first.
#[test]
fn two_callers_create_one_file(rt: HostRuntime) -> Result<(), Fail> {
    answers(
        &rt,
        rt.alloc(),
        "\"a 0 0\", \"b 0 0\"",
        &[
            ("a creat /f 644", "3"),
            ("b creat /f 644", "3"),
            ("a exit", "0"),
            ("b exit", "0"),
        ],
    )
}
