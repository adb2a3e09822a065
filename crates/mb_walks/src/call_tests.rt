//! Single calls. Their numbers are those of a fresh volume of 100 blocks and 16 inodes, whose files can hold 96 blocks.

ghost use Rattle.mb_kinds.specs.Texts.{IsPath};

use crate::walk::{SUPER, Walk, creat, path, write};
use mb_kinds::{Call, Cred, Errno, How, Reply, Stat, Whence};
use mb_tree::{Body, Map};
use std::alloc::{AllocError, Global};
use std::process::Abort;
use std::test::Fail;

fn open(alloc: Global, text: &[u8]) -> Result<Call, AllocError>
    requires { IsPath text.now }
{
    Ok(Call::Open {
        path: path(alloc, text)?,
        how: How::Reading,
    })
}

fn stat(alloc: Global, text: &[u8]) -> Result<Call, AllocError>
    requires { IsPath text.now }
{
    Ok(Call::Stat {
        path: path(alloc, text)?,
    })
}

fn unlink(alloc: Global, text: &[u8]) -> Result<Call, AllocError>
    requires { IsPath text.now }
{
    Ok(Call::Unlink {
        path: path(alloc, text)?,
    })
}

fn mkdir(alloc: Global, text: &[u8]) -> Result<Call, AllocError>
    requires { IsPath text.now }
{
    Ok(Call::Mkdir {
        path: path(alloc, text)?,
        mode: 0o755,
    })
}

fn rmdir(alloc: Global, text: &[u8]) -> Result<Call, AllocError>
    requires { IsPath text.now }
{
    Ok(Call::Rmdir {
        path: path(alloc, text)?,
    })
}

fn chdir(alloc: Global, text: &[u8]) -> Result<Call, AllocError>
    requires { IsPath text.now }
{
    Ok(Call::Chdir {
        path: path(alloc, text)?,
    })
}

/// The first caller writes one byte at the start of a part of descriptor 3's file.
fn expect_part<R: Abort>(rt: &R, walk: &mut Walk, part: u16, want: Reply) {
    let seek = Call::Lseek {
        fd: 3,
        offset: 512 * i32::from(part),
        whence: Whence::Start,
    };
    let start = Reply::Num(512 * u32::from(part));
    walk.expect(rt, 0, Ok(seek), None, start);
    walk.expect(rt, 0, write(walk.heap, 3, b"x"), None, want);
}

/// What stat tells of a regular file with these numbers, owned by uid 0.
fn regular(ino: u16, mode: u16, size: u32, atime: u32, mtime: u32) -> Reply {
    Reply::Info(Stat {
        ino,
        mode,
        nlink: 1,
        uid: 0,
        gid: 0,
        size,
        atime,
        mtime,
        ctime: mtime,
    })
}

#[test]
fn second_descriptor_reads_from_the_start(rt: HostRuntime) -> Result<(), Fail> {
    let heap = rt.alloc();
    let mut walk = Walk::fresh(heap, &[SUPER])?;
    walk.expect(&rt, 0, creat(heap, b"/f", 0o644), Some(3), Reply::Num(3));
    walk.expect(&rt, 0, write(heap, 3, b"hi"), None, Reply::Num(2));
    walk.expect(&rt, 0, open(heap, b"/f"), None, Reply::Num(4));
    walk.expect_bytes(&rt, 4, 9, b"hi");
    walk.expect_bytes(&rt, 4, 9, b"");
    walk.expect(
        &rt,
        0,
        Ok(Call::Lseek {
            fd: 4,
            offset: 1000,
            whence: Whence::Start,
        }),
        None,
        Reply::Num(1000),
    );
    walk.expect_bytes(&rt, 4, 9, b"");
    walk.expect(&rt, 0, Ok(Call::Close { fd: 3 }), None, Reply::Num(0));
    walk.expect(&rt, 0, Ok(Call::Exit), None, Reply::Num(0));
    Ok(())
}

#[test]
fn largest_offset_costs_five_blocks(rt: HostRuntime) -> Result<(), Fail> {
    let heap = rt.alloc();
    let mut walk = Walk::fresh(heap, &[SUPER])?;
    let last = Call::Lseek {
        fd: 3,
        offset: 1_082_201_087,
        whence: Whence::Start,
    };
    walk.expect(&rt, 0, creat(heap, b"/f", 0o644), Some(3), Reply::Num(3));
    walk.expect(&rt, 0, Ok(last), None, Reply::Num(1_082_201_087));
    walk.expect(&rt, 0, write(heap, 3, b"x"), None, Reply::Num(1));
    walk.expect(
        &rt,
        0,
        write(heap, 3, b"y"),
        None,
        Reply::Refused(Errno::EFBIG),
    );
    walk.expect(
        &rt,
        0,
        stat(heap, b"/f"),
        None,
        regular(3, 0o100644, 1_082_201_088, 1, 3),
    );
    assert_eq!(rt; walk.held()?, 5);
    Ok(())
}

#[test]
fn full_disk_is_refused_until_a_file_is_dropped(rt: HostRuntime) -> Result<(), Fail> {
    let heap = rt.alloc();
    let bytes = [65; 48128].as_slice();
    let mut walk = Walk::fresh(heap, &[SUPER])?;
    walk.expect(&rt, 0, creat(heap, b"/f", 0o644), Some(3), Reply::Num(3));
    walk.expect(&rt, 0, write(heap, 3, bytes), None, Reply::Num(48128));
    walk.expect(&rt, 0, creat(heap, b"/g", 0o644), Some(4), Reply::Num(4));
    walk.expect(
        &rt,
        0,
        write(heap, 4, bytes),
        None,
        Reply::Refused(Errno::ENOSPC),
    );
    walk.expect(&rt, 0, Ok(Call::Close { fd: 3 }), None, Reply::Num(0));
    walk.expect(&rt, 0, unlink(heap, b"/f"), None, Reply::Num(0));
    walk.expect(&rt, 0, write(heap, 4, bytes), None, Reply::Num(48128));
    assert_eq!(rt; walk.held()?, 96);
    Ok(())
}

#[test]
fn freed_inode_is_used_again(rt: HostRuntime) -> Result<(), Fail> {
    let heap = rt.alloc();
    let mut walk = Walk::fresh(heap, &[SUPER])?;
    walk.expect(&rt, 0, creat(heap, b"/x", 0o644), Some(3), Reply::Num(3));
    walk.expect(&rt, 0, creat(heap, b"/y", 0o644), Some(4), Reply::Num(4));
    walk.expect(&rt, 0, Ok(Call::Close { fd: 3 }), None, Reply::Num(0));
    walk.expect(&rt, 0, unlink(heap, b"/x"), None, Reply::Num(0));
    walk.expect(&rt, 0, creat(heap, b"/z", 0o600), Some(3), Reply::Num(3));
    walk.expect(
        &rt,
        0,
        stat(heap, b"/y"),
        None,
        regular(4, 0o100644, 0, 2, 2),
    );
    walk.expect(
        &rt,
        0,
        stat(heap, b"/z"),
        None,
        regular(3, 0o100600, 0, 5, 5),
    );
    Ok(())
}

#[test]
fn unlinked_file_is_read_while_it_is_open(rt: HostRuntime) -> Result<(), Fail> {
    let heap = rt.alloc();
    let mut walk = Walk::fresh(heap, &[SUPER])?;
    walk.expect(&rt, 0, creat(heap, b"/f", 0o644), Some(3), Reply::Num(3));
    walk.expect(&rt, 0, open(heap, b"/f"), None, Reply::Num(4));
    walk.expect(&rt, 0, unlink(heap, b"/f"), None, Reply::Num(0));
    walk.expect(&rt, 0, write(heap, 3, b"lost"), None, Reply::Num(4));
    walk.expect_bytes(&rt, 4, 8, b"lost");
    walk.expect(&rt, 0, Ok(Call::Close { fd: 3 }), None, Reply::Num(0));
    walk.expect(&rt, 0, Ok(Call::Close { fd: 4 }), None, Reply::Num(0));
    walk.expect(&rt, 0, creat(heap, b"/g", 0o644), Some(3), Reply::Num(3));
    walk.expect(
        &rt,
        0,
        Ok(Call::Fstat { fd: 3 }),
        None,
        regular(3, 0o100644, 0, 8, 8),
    );
    Ok(())
}

#[test]
fn directories_are_refused_where_they_are_in_use(rt: HostRuntime) -> Result<(), Fail> {
    let heap = rt.alloc();
    let mut walk = Walk::fresh(heap, &[SUPER])?;
    walk.expect(
        &rt,
        0,
        creat(heap, b"/abcdefghijklmno", 0o644),
        Some(3),
        Reply::Num(3),
    );
    walk.expect(
        &rt,
        0,
        stat(heap, b"/abcdefghijklmn"),
        None,
        regular(3, 0o100644, 0, 1, 1),
    );
    walk.expect(&rt, 0, mkdir(heap, b"/d"), Some(4), Reply::Num(0));
    walk.expect(&rt, 0, creat(heap, b"/d/k", 0o644), Some(5), Reply::Num(4));
    walk.expect(
        &rt,
        0,
        rmdir(heap, b"/d"),
        None,
        Reply::Refused(Errno::EEXIST),
    );
    walk.expect(&rt, 0, mkdir(heap, b"/e"), Some(6), Reply::Num(0));
    walk.expect(&rt, 0, chdir(heap, b"/e"), None, Reply::Num(0));
    walk.expect(
        &rt,
        0,
        rmdir(heap, b"/e"),
        None,
        Reply::Refused(Errno::EBUSY),
    );
    walk.expect(
        &rt,
        0,
        rmdir(heap, b"/abcdefghijklmn"),
        None,
        Reply::Refused(Errno::ENOTDIR),
    );
    Ok(())
}

/// Whether a caller may do so with `/f`.
fn can<R: Abort>(rt: &R, walk: &mut Walk, caller: u8, bits: u8) -> bool {
    let call = match path(walk.heap, b"/f") {
        Ok(path) => Ok(Call::Access { path, bits }),
        Err(error) => Err(error),
    };
    let reply = walk.reply(caller, call, None);
    let refused = reply == Some(Reply::Refused(Errno::EACCES));
    assert!(rt;
        refused || reply == Some(Reply::Num(0)),
        "caller {caller} and bits {bits}"
    );
    !refused
}

#[test]
fn permission_tests_one_class_alone(rt: HostRuntime) -> Result<(), Fail> {
    let heap = rt.alloc();
    let callers = [
        Cred { uid: 7, gid: 8 },
        Cred { uid: 9, gid: 8 },
        Cred { uid: 9, gid: 9 },
        SUPER,
    ];
    let mut walk = Walk::fresh(heap, &callers)?;
    walk.expect(&rt, 0, creat(heap, b"/f", 0o421), Some(3), Reply::Num(3));
    for (caller, bits, want) in [
        (0, 4, true),
        (0, 2, false),
        (1, 2, true),
        (1, 4, false),
        (2, 1, true),
        (2, 2, false),
        (3, 7, true),
    ] {
        assert_eq!(rt;
            can(&rt, &mut walk, caller, bits),
            want,
            "caller {caller} and bits {bits}"
        );
    }
    Ok(())
}

#[test]
fn eighteenth_descriptor_is_refused(rt: HostRuntime) -> Result<(), Fail> {
    let heap = rt.alloc();
    let mut walk = Walk::fresh(heap, &[SUPER])?;
    for fd in 3..20 {
        walk.expect(&rt, 0, open(heap, b"/"), None, Reply::Num(fd));
    }
    walk.expect(
        &rt,
        0,
        open(heap, b"/"),
        None,
        Reply::Refused(Errno::EMFILE),
    );
    walk.expect(&rt, 0, Ok(Call::Close { fd: 7 }), None, Reply::Num(0));
    walk.expect(&rt, 0, Ok(Call::Dup { fd: 5 }), None, Reply::Num(7));
    Ok(())
}

/// What a file holds that has so many parts, from the first one on.
fn file_of(alloc: Global, count: u32) -> Result<Body, AllocError> {
    let mut parts = Map::new(alloc);
    for part in 0..count {
        parts.insert(part, [0; 512])?;
    }
    Ok(Body::Regular { size: 0, parts })
}

#[test]
fn index_blocks_begin_past_the_direct_parts(rt: HostRuntime) -> Result<(), Fail> {
    let heap = rt.alloc();
    for (parts, want) in [
        (0, 0),
        (10, 10),
        (11, 12),
        (137, 138),
        (138, 139),
        (139, 142),
        (266, 269),
        (267, 271),
        (16521, 16651),
        (16522, 16652),
        (16523, 16656),
    ] {
        assert_eq!(rt; file_of(heap, parts)?.cost(heap)?, want, "at {parts}");
    }
    Ok(())
}

#[test]
fn index_blocks_count_against_the_capacity(rt: HostRuntime) -> Result<(), Fail> {
    let heap = rt.alloc();
    for (last, next, short, enough) in [(9, 10, 3, 4), (137, 138, 5, 6), (16521, 16522, 7, 8)] {
        let mut walk = Walk::fresh(heap, &[SUPER])?;
        walk.machine.tree.cap = short;
        walk.expect(&rt, 0, creat(heap, b"/f", 0o644), Some(3), Reply::Num(3));
        expect_part(&rt, &mut walk, last, Reply::Num(1));
        expect_part(&rt, &mut walk, next, Reply::Refused(Errno::ENOSPC));
        walk.machine.tree.cap = enough;
        expect_part(&rt, &mut walk, next, Reply::Num(1));
        assert_eq!(rt; walk.held()?, u128::from(enough), "past part {last}");
    }
    Ok(())
}
