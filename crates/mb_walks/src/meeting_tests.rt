use crate::walk::{SUPER, Walk, creat, node, path, write};
use mb_kinds::{Call, Errno, Reply};
use mb_tree::{Body, Map};
use std::test::Fail;

#[test]
fn two_bytes_are_written_to_a_new_file(rt: HostRuntime) -> Result<(), Fail> {
    let heap = rt.alloc();
    let mut walk = Walk::fresh(heap, &[SUPER])?;
    walk.expect(&rt, 0, creat(heap, b"/f", 0o644), Some(3), Reply::Num(3));
    walk.expect(&rt, 0, write(heap, 3, b"hi"), None, Reply::Num(2));
    walk.expect(&rt, 0, Ok(Call::Close { fd: 3 }), None, Reply::Num(0));
    walk.expect(&rt, 0, Ok(Call::Exit), None, Reply::Num(0));
    Ok(())
}

// The second creat finds the file of the first, and picks no inode.
#[test]
fn two_callers_create_one_file(rt: HostRuntime) -> Result<(), Fail> {
    let heap = rt.alloc();
    let mut walk = Walk::fresh(heap, &[SUPER, SUPER])?;
    walk.expect(&rt, 0, creat(heap, b"/f", 0o644), Some(3), Reply::Num(3));
    walk.expect(&rt, 1, creat(heap, b"/f", 0o644), None, Reply::Num(3));
    walk.expect(&rt, 0, Ok(Call::Exit), None, Reply::Num(0));
    walk.expect(&rt, 1, Ok(Call::Exit), None, Reply::Num(0));
    Ok(())
}

#[test]
fn one_file_comes_between_five_of_another_caller(rt: HostRuntime) -> Result<(), Fail> {
    let heap = rt.alloc();
    let mut walk = Walk::fresh(heap, &[SUPER, SUPER])?;
    walk.expect(&rt, 1, creat(heap, b"/p", 0o644), Some(3), Reply::Num(3));
    walk.expect(&rt, 1, creat(heap, b"/q", 0o644), Some(4), Reply::Num(4));
    walk.expect(&rt, 1, creat(heap, b"/r", 0o644), Some(5), Reply::Num(5));
    walk.expect(&rt, 1, creat(heap, b"/s", 0o644), Some(6), Reply::Num(6));
    walk.expect(&rt, 0, creat(heap, b"/x", 0o644), Some(7), Reply::Num(3));
    walk.expect(&rt, 1, creat(heap, b"/t", 0o644), Some(8), Reply::Num(7));
    walk.expect(&rt, 0, Ok(Call::Exit), None, Reply::Num(0));
    walk.expect(&rt, 1, Ok(Call::Exit), None, Reply::Num(0));
    Ok(())
}

#[test]
fn paths_are_split_at_slashes(rt: HostRuntime) -> Result<(), Fail> {
    let heap = rt.alloc();
    let mut walk = Walk::fresh(heap, &[SUPER])?;
    let d = path(heap, b"/d")?;
    let mkdir = Call::Mkdir {
        path: d,
        mode: 0o755,
    };
    walk.expect(&rt, 0, Ok(mkdir), Some(3), Reply::Num(0));
    walk.expect(&rt, 0, creat(heap, b"/d/f", 0o644), Some(4), Reply::Num(3));
    walk.expect_ino(&rt, b"", 2);
    walk.expect_ino(&rt, b"/", 2);
    walk.expect_ino(&rt, b".", 2);
    walk.expect_ino(&rt, b"/..", 2);
    walk.expect_ino(&rt, b"/d/", 3);
    walk.expect_ino(&rt, b"d/.", 3);
    walk.expect_ino(&rt, b"/d/..", 2);
    walk.expect_ino(&rt, b"//d//f", 4);
    walk.expect_ino(&rt, b"/../d/./f/", 4);
    Ok(())
}

// Of a component the first 14 bytes count.
#[test]
fn a_path_of_255_bytes_names_a_file(rt: HostRuntime) -> Result<(), Fail> {
    let heap = rt.alloc();
    let mut walk = Walk::fresh(heap, &[SUPER])?;
    let long = [b'x'; 255];
    walk.expect(&rt, 0, creat(heap, &long, 0o644), Some(3), Reply::Num(3));
    walk.expect_ino(&rt, b"/xxxxxxxxxxxxxx", 3);
    walk.expect_ino(&rt, b"/xxxxxxxxxxxxxxy", 3);
    let other = path(heap, b"/xxxxxxxxxxxxx")?;
    walk.expect(
        &rt,
        0,
        Ok(Call::Stat { path: other }),
        None,
        Reply::Refused(Errno::ENOENT),
    );
    Ok(())
}

// There are 14 inodes beside the root and inode 1.
#[test]
fn inodes_run_out(rt: HostRuntime) -> Result<(), Fail> {
    let heap = rt.alloc();
    let mut walk = Walk::fresh(heap, &[SUPER])?;
    for ino in 3..17u16 {
        let name = [b'/', b'a' + (ino % 16) as u8];
        walk.expect(&rt, 0, creat(heap, &name, 0o644), Some(ino), Reply::Num(3));
        walk.expect(&rt, 0, Ok(Call::Close { fd: 3 }), None, Reply::Num(0));
    }
    walk.expect(
        &rt,
        0,
        creat(heap, b"/z", 0o644),
        None,
        Reply::Refused(Errno::ENOSPC),
    );
    Ok(())
}

#[test]
fn a_file_has_32767_names_at_most(rt: HostRuntime) -> Result<(), Fail> {
    let heap = rt.alloc();
    for (nlink, want) in [
        (32766, Reply::Num(0)),
        (32767, Reply::Refused(Errno::EMLINK)),
    ] {
        let mut walk = Walk::fresh(heap, &[SUPER])?;
        walk.expect(&rt, 0, creat(heap, b"/f", 0o644), Some(3), Reply::Num(3));
        let parts = Map::new(heap);
        let file = node(0o100644, nlink, Body::Regular { size: 0, parts });
        walk.machine.tree.nodes.insert(3, file)?;
        let link = Call::Link {
            from: path(heap, b"/f")?,
            to: path(heap, b"/g")?,
        };
        walk.expect(&rt, 0, Ok(link), None, want);
    }
    Ok(())
}
