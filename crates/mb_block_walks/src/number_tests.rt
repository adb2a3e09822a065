use crate::volumes::{cached, has_bytes, holds, is_changed, numbered};
use mb_alloc::{Hung, Picked, free_inode, pick_inode};
use mb_gathering::{GatheredBlocks, without};
use mb_iface::Changes;
use std::test::Fail;

/// A number is picked, or none is.
fn picks(disk: &GatheredBlocks, changes: &mut Changes, picked: Picked) -> Result<(), Fail> {
    holds(
        pick_inode(disk, changes) == picked,
        "another number is picked",
    )
}

/// The super-block has bytes from an offset on.
fn caches(changes: &Changes, at: usize, bytes: &[u8]) -> Result<(), Fail> {
    holds(has_bytes(changes, 1, at, bytes), "the cache is another one")
}

fn is_filled(disk: &GatheredBlocks, changes: &mut Changes) -> Result<(), Fail> {
    picks(disk, changes, Picked::Ino(3))?;
    caches(changes, 208, &[12, 0, 16, 0])?;
    caches(changes, 232, &[5, 0])?;
    picks(disk, changes, Picked::Ino(5))?;
    picks(disk, changes, Picked::Ino(6))
}

/// An empty cache is filled by a scan of the i-list: its lowest free number is picked, and the others
/// stand in the cache, the lowest last.
#[test]
fn empty_cache_is_filled_by_a_scan(rt: HostRuntime) -> Result<(), Fail> {
    let disk = numbered(rt.alloc())?;
    let mut changes = Changes::new(rt.alloc());
    is_filled(&disk, &mut changes)
}

fn are_passed_over(disk: &GatheredBlocks, changes: &mut Changes) -> Result<(), Fail> {
    picks(disk, changes, Picked::Ino(7))?;
    caches(changes, 208, &[96, 0])?;
    picks(disk, changes, Picked::Ino(9))
}

/// Of a full cache the last number that is free is picked: one below 3, one above the last inode and
/// one in use leave the cache with it.
#[test]
fn numbers_that_are_not_free_are_passed_over(rt: HostRuntime) -> Result<(), Fail> {
    let disk = cached(rt.alloc(), 9, &[7, 0, 4, 0, 17, 0, 2, 0])?;
    let mut changes = Changes::new(rt.alloc());
    are_passed_over(&disk, &mut changes)
}

fn is_filled_anew(disk: &GatheredBlocks, changes: &mut Changes) -> Result<(), Fail> {
    picks(disk, changes, Picked::Ino(3))?;
    caches(changes, 208, &[12, 0])
}

/// A full cache none of whose numbers is free is like an empty one.
#[test]
fn full_cache_without_a_free_number_is_filled_anew(rt: HostRuntime) -> Result<(), Fail> {
    let disk = cached(rt.alloc(), 4, &[0, 0, 1, 0, 2, 0, 17, 0])?;
    let mut changes = Changes::new(rt.alloc());
    is_filled_anew(&disk, &mut changes)
}

/// Marks each inode as one in use.
fn use_all(disk: &mut GatheredBlocks) {
    for place in 0..8 {
        let _ = disk.blocks.patch(2, 64 * place, &[0xa4, 0x81]);
        let _ = disk.blocks.patch(3, 64 * place, &[0xa4, 0x81]);
    }
}

fn picks_none(disk: &GatheredBlocks, changes: &mut Changes) -> Result<(), Fail> {
    picks(disk, changes, Picked::NoneLeft)?;
    holds(changes.len() == 0, "a block is changed")
}

/// Where each inode is in use none is picked.
#[test]
fn no_number_is_left(rt: HostRuntime) -> Result<(), Fail> {
    let mut disk = numbered(rt.alloc())?;
    use_all(&mut disk);
    let mut changes = Changes::new(rt.alloc());
    picks_none(&disk, &mut changes)
}

/// An inode is freed.
fn frees(disk: &GatheredBlocks, changes: &mut Changes, ino: u16) -> Result<(), Fail> {
    holds(
        free_inode(disk, changes, ino) == Hung::Done,
        "an inode is not freed",
    )
}

fn takes_100(disk: &GatheredBlocks, changes: &mut Changes) -> Result<(), Fail> {
    frees(disk, changes, 2)?;
    holds(!is_changed(changes, 1), "number 2 is cached")?;
    frees(disk, changes, 4)?;
    frees(disk, changes, 16)?;
    caches(changes, 208, &[100, 0])?;
    caches(changes, 408, &[4, 0, 0, 0])?;
    let gone = [0, 0];
    holds(has_bytes(changes, 2, 64, &gone), "inode 2 stays")?;
    holds(has_bytes(changes, 2, 192, &gone), "inode 4 stays")
}

/// The number of an inode that is freed is the 100th of the cache, and no more come into it; nor does
/// one below 3.
#[test]
fn cache_takes_100_numbers(rt: HostRuntime) -> Result<(), Fail> {
    let mut disk = cached(rt.alloc(), 9, &[7, 0, 7, 0, 7, 0, 0, 0])?;
    let _ = disk.blocks.patch(1, 208, &[99, 0]);
    let mut changes = Changes::new(rt.alloc());
    takes_100(&disk, &mut changes)
}

/// What a pick asks for first; 0 where it asks for nothing.
fn asked_by_pick(view: &GatheredBlocks, changes: &mut Changes) -> u32 {
    match pick_inode(view, changes) {
        Picked::Need(need) => need.first,
        _ => 0,
    }
}

/// What an inode that is freed asks for first; 0 where it asks for nothing.
fn asked_by_free(view: &GatheredBlocks, changes: &mut Changes, ino: u16) -> u32 {
    match free_inode(view, changes, ino) {
        Hung::Need(need) => need.first,
        _ => 0,
    }
}

fn asks_for(view: &GatheredBlocks, changes: &mut Changes, lacking: u32) -> Result<(), Fail> {
    let ino = if lacking == 3 { 9 } else { 4 };
    holds(
        asked_by_pick(view, changes) == lacking,
        "a pick asks otherwise",
    )?;
    holds(
        asked_by_free(view, changes, ino) == lacking,
        "a freed inode asks otherwise",
    )?;
    holds(changes.len() == 0, "a block is changed")
}

/// A pick and an inode freed ask for the block that the view lacks.
#[test]
fn number_asks_for_each_block_that_lacks(rt: HostRuntime) -> Result<(), Fail> {
    let disk = numbered(rt.alloc())?;
    for lacking in 1..4 {
        let view = without(rt.alloc(), &disk, lacking)?;
        let mut changes = Changes::new(rt.alloc());
        asks_for(&view, &mut changes, lacking)?;
    }
    Ok(())
}
