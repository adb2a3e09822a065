use crate::volumes::{is_refused, leads_to, used_on, volume};
use mb_gathering::GatheredBlocks;
use mb_kinds::Errno;
use std::process::Abort;
use std::test::Fail;

#[test]
fn empty_components_are_ignored(rt: HostRuntime) -> Result<(), Fail> {
    leads_to(&rt, b"/", 2)?;
    leads_to(&rt, b"", 2)?;
    leads_to(&rt, b"//a//", 3)?;
    leads_to(&rt, b"/a/f", 4)?;
    leads_to(&rt, b"a/f/", 4)
}

#[test]
fn dots_lead_by_their_slots(rt: HostRuntime) -> Result<(), Fail> {
    leads_to(&rt, b"/..", 2)?;
    leads_to(&rt, b"/a/..", 2)?;
    leads_to(&rt, b"/a/./../a/.", 3)
}

#[test]
fn fourteen_bytes_count(rt: HostRuntime) -> Result<(), Fail> {
    leads_to(&rt, b"/a/fourteen-bytes", 4)?;
    leads_to(&rt, b"/a/fourteen-bytes-and-more", 4)?;
    is_refused(&rt, 5, b"/a/fourteen-byte", Errno::ENOENT)?;
    is_refused(&rt, 5, b"/a/thirteen-bytes", Errno::ENOENT)
}

#[test]
fn errors_of_a_path(rt: HostRuntime) -> Result<(), Fail> {
    is_refused(&rt, 5, b"/b", Errno::ENOENT)?;
    is_refused(&rt, 5, b"/a/gone", Errno::ENOENT)?;
    is_refused(&rt, 5, b"/a/f/x", Errno::ENOTDIR)?;
    is_refused(&rt, 6, b"/a/f", Errno::EACCES)?;
    is_refused(&rt, 6, b"/a/f/x", Errno::EACCES)
}

#[test]
fn super_user_searches(rt: HostRuntime) -> Result<(), Fail> {
    is_refused(&rt, 0, b"/a/g", Errno::ENOENT)
}

fn used_slots_are_counted_over<R: Abort + AllocGlobal>(
    rt: &R,
    disk: &GatheredBlocks,
) -> Result<(), Fail> {
    assert_eq!(rt; used_on(rt.alloc(), disk, 3)?, 5);
    assert_eq!(rt; used_on(rt.alloc(), disk, 5)?, 1000);
    Ok(())
}

#[test]
fn used_slots_are_counted(rt: HostRuntime) -> Result<(), Fail> {
    let disk = volume(rt.alloc())?;
    used_slots_are_counted_over(&rt, &disk)
}
