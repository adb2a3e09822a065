use crate::volumes::{numbered, volume, volume_apart};
use mb_gathering::{GatheredBlocks, gather, nothing};
use mb_iface::Changes;
use mb_namei::{Sought, search};
use std::alloc::Global;
use std::process::Abort;
use std::test::Fail;

/// Searches a directory from a view of nothing, and counts how often blocks were asked for.
fn search_on(
    heap: Global,
    disk: &GatheredBlocks,
    dir: u16,
    size: u32,
    name: &[u8],
) -> Result<(Sought, u32), Fail> {
    let mut padded = [0; 14];
    for (k, byte) in name.iter().enumerate() {
        if k < 14 {
            padded[k] = *byte;
        }
    }
    let mut view = nothing(heap);
    let none = Changes::new(heap);
    for asked in 0..40 {
        match search(&view, &none, dir, size, &padded) {
            Sought::Need(need) => gather(disk, &mut view, need)?,
            other => return Ok((other, asked)),
        }
    }
    Err("a search asks too often".into())
}

fn slots_of_a_small_directory_over<R: Abort + AllocGlobal>(
    rt: &R,
    disk: &GatheredBlocks,
) -> Result<(), Fail> {
    let (found, _) = search_on(rt.alloc(), disk, 3, 96, b"f")?;
    assert_eq!(rt; found, Sought::Found { at: 3, ino: 4 });
    let (empty, _) = search_on(rt.alloc(), disk, 3, 96, b"gone")?;
    assert_eq!(rt; empty, Sought::Empty { at: 2 });
    let (first, _) = search_on(rt.alloc(), disk, 2, 96, b"new")?;
    assert_eq!(rt; first, Sought::Empty { at: 3 });
    let (full, _) = search_on(rt.alloc(), disk, 2, 48, b"big")?;
    assert_eq!(rt; full, Sought::Full);
    Ok(())
}

#[test]
fn slots_of_a_small_directory(rt: HostRuntime) -> Result<(), Fail> {
    let disk = volume(rt.alloc())?;
    slots_of_a_small_directory_over(&rt, &disk)
}

fn windows_double_over<R: Abort + AllocGlobal>(rt: &R, disk: &GatheredBlocks) -> Result<(), Fail> {
    let (last, asked) = search_on(rt.alloc(), disk, 5, 16_000, &numbered(999))?;
    assert_eq!(rt; last, Sought::Found { at: 999, ino: 4 });
    assert_eq!(rt; asked, 4);
    let (full, _) = search_on(rt.alloc(), disk, 5, 16_000, b"none")?;
    assert_eq!(rt; full, Sought::Full);
    Ok(())
}

/// A directory of 32 neighbouring blocks is asked for in windows that double from eight on: the inode's block, and
/// its parts in 3 runs, with the first of which the index block comes.
#[test]
fn windows_double(rt: HostRuntime) -> Result<(), Fail> {
    let disk = volume(rt.alloc())?;
    windows_double_over(&rt, &disk)
}

fn windows_of_blocks_apart_double_over<R: Abort + AllocGlobal>(
    rt: &R,
    disk: &GatheredBlocks,
) -> Result<(), Fail> {
    let (full, asked) = search_on(rt.alloc(), disk, 5, 10_240, b"none")?;
    assert_eq!(rt; full, Sought::Full);
    assert_eq!(rt; asked, 4);
    let (last, _) = search_on(rt.alloc(), disk, 5, 10_240, &numbered(639))?;
    assert_eq!(rt; last, Sought::Found { at: 639, ino: 4 });
    let (second, asked) = search_on(rt.alloc(), disk, 5, 10_240, &numbered(32))?;
    assert_eq!(rt; second, Sought::Found { at: 32, ino: 4 });
    assert_eq!(rt; asked, 2);
    Ok(())
}

/// So is a directory of 20 blocks none of which is beside another: in windows of 8, of 9, and of the 3 that are left.
#[test]
fn windows_of_blocks_apart_double(rt: HostRuntime) -> Result<(), Fail> {
    let disk = volume_apart(rt.alloc())?;
    windows_of_blocks_apart_double_over(&rt, &disk)
}

/// A name ends the search where it stands in the parts that were got last.
#[test]
fn nothing_is_asked_for_behind_a_name(rt: HostRuntime) -> Result<(), Fail> {
    let disk = volume_apart(rt.alloc())?;
    for part in 0..20 {
        let (found, asked) = search_on(rt.alloc(), &disk, 5, 10_240, &numbered(32 * part + 3))?;
        assert_eq!(rt;
            found,
            Sought::Found {
                at: 32 * part + 3,
                ino: 4
            }
        );
        let windows = match part {
            0..=7 => 1,
            8..=16 => 2,
            _ => 3,
        };
        assert_eq!(rt; asked, 1 + windows);
    }
    Ok(())
}
