use crate::volumes::{QueryEnd, find_on, place_on, volume};
use mb_gathering::{GatheredBlocks, nothing, without};
use mb_iface::Answer;
use mb_kinds::Errno;
use std::process::Abort;
use std::test::Fail;

fn last_component_may_be_missing_over<R: Abort + AllocGlobal>(
    rt: &R,
    disk: &GatheredBlocks,
) -> Result<(), Fail> {
    let mut view = nothing(rt.alloc());
    match place_on(rt.alloc(), disk, &mut view, 5, b"../big/new/")? {
        QueryEnd::Found(Answer::Place { dir, name, ino }) => {
            assert_eq!(rt; dir, 5);
            assert_eq!(rt; name, *b"new\0\0\0\0\0\0\0\0\0\0\0");
            assert_eq!(rt; ino, None);
        }
        _ => return Err("no place".into()),
    }
    match place_on(rt.alloc(), disk, &mut view, 5, b"f")? {
        QueryEnd::Found(Answer::Place { dir, ino, .. }) => {
            assert_eq!(rt; dir, 3);
            assert_eq!(rt; ino, Some(4));
        }
        _ => return Err("no place".into()),
    }
    Ok(())
}

#[test]
fn last_component_may_be_missing(rt: HostRuntime) -> Result<(), Fail> {
    let disk = volume(rt.alloc())?;
    last_component_may_be_missing_over(&rt, &disk)
}

fn path_without_components_over<R: Abort + AllocGlobal>(
    rt: &R,
    disk: &GatheredBlocks,
) -> Result<(), Fail> {
    let mut view = nothing(rt.alloc());
    match place_on(rt.alloc(), disk, &mut view, 5, b"/")? {
        QueryEnd::Found(Answer::Itself(ino)) => assert_eq!(rt; ino, 2),
        _ => return Err("no start".into()),
    }
    match place_on(rt.alloc(), disk, &mut view, 5, b"")? {
        QueryEnd::Found(Answer::Itself(ino)) => assert_eq!(rt; ino, 3),
        _ => return Err("no start".into()),
    }
    Ok(())
}

#[test]
fn path_without_components(rt: HostRuntime) -> Result<(), Fail> {
    let disk = volume(rt.alloc())?;
    path_without_components_over(&rt, &disk)
}

fn errors_of_a_place_over<R: Abort + AllocGlobal>(
    rt: &R,
    disk: &GatheredBlocks,
) -> Result<(), Fail> {
    let mut view = nothing(rt.alloc());
    match place_on(rt.alloc(), disk, &mut view, 5, b"g/x")? {
        QueryEnd::Refused(error) => assert_eq!(rt; error, Errno::ENOENT),
        QueryEnd::Found(_) => return Err("a place".into()),
    }
    match place_on(rt.alloc(), disk, &mut view, 6, b"x")? {
        QueryEnd::Refused(error) => assert_eq!(rt; error, Errno::EACCES),
        QueryEnd::Found(_) => return Err("a place".into()),
    }
    match place_on(rt.alloc(), disk, &mut view, 5, b"f/x")? {
        QueryEnd::Refused(error) => assert_eq!(rt; error, Errno::ENOTDIR),
        QueryEnd::Found(_) => return Err("a place".into()),
    }
    Ok(())
}

#[test]
fn errors_of_a_place(rt: HostRuntime) -> Result<(), Fail> {
    let disk = volume(rt.alloc())?;
    errors_of_a_place_over(&rt, &disk)
}

fn each_block_is_asked_for_over<R: Abort + AllocGlobal>(
    rt: &R,
    disk: &GatheredBlocks,
) -> Result<(), Fail> {
    for missing in 0..120 {
        let mut view = without(rt.alloc(), disk, missing)?;
        match find_on(rt.alloc(), disk, &mut view, 5, b"/big/n999")? {
            QueryEnd::Found(Answer::Node(stat)) => assert_eq!(rt; stat.ino, 4),
            _ => return Err("no inode".into()),
        }
    }
    Ok(())
}

/// Each block in turn is missing, and asked for where it is wanted.
#[test]
fn each_block_is_asked_for(rt: HostRuntime) -> Result<(), Fail> {
    let disk = volume(rt.alloc())?;
    each_block_is_asked_for_over(&rt, &disk)
}
