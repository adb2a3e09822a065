use crate::volumes::{fresh, take_next};
use mb_alloc::{Hung, free_block};
use mb_gathering::{GatheredBlocks, nothing};
use mb_iface::Changes;
use std::test::Fail;

/// Takes all of a chain of so many blocks, and then none.
fn take_all(
    disk: &GatheredBlocks,
    view: &mut GatheredBlocks,
    changes: &mut Changes,
    free: u32,
) -> Result<(), Fail> {
    for passed in 0..free.min(3995) {
        let block = take_next(disk, view, changes)?;
        if block != 4000_u32.saturating_sub(free).saturating_add(passed) {
            return Err("another block is taken".into());
        }
    }
    if take_next(disk, view, changes)? != 0 {
        return Err("a block is taken that is not free".into());
    }
    Ok(())
}

/// Puts so many blocks back, the last one first.
fn put_back(disk: &GatheredBlocks, changes: &mut Changes, free: u32) -> Result<(), Fail> {
    for passed in 0..free.min(3995) {
        match free_block(disk, changes, 3999 - passed) {
            Hung::Done => {}
            _ => return Err("a block is not put back".into()),
        }
    }
    Ok(())
}

/// Takes all of a chain, puts them back, and takes them again.
fn take_twice(
    disk: &GatheredBlocks,
    view: &mut GatheredBlocks,
    changes: &mut Changes,
    free: u32,
) -> Result<(), Fail> {
    take_all(disk, view, changes, free)?;
    put_back(disk, changes, free)?;
    take_all(disk, view, changes, free)
}

/// The same of a chain of so many blocks, with a view that has nothing at first.
fn chain_of(rt: &HostRuntime, free: u32) -> Result<(), Fail> {
    let disk = fresh(rt.alloc(), free)?;
    let mut view = nothing(rt.alloc());
    let mut changes = Changes::new(rt.alloc());
    take_twice(&disk, &mut view, &mut changes, free)
}

#[test]
fn empty_chain_gives_none(rt: HostRuntime) -> Result<(), Fail> {
    chain_of(&rt, 0)
}

#[test]
fn chain_of_one_block(rt: HostRuntime) -> Result<(), Fail> {
    chain_of(&rt, 1)
}

#[test]
fn chain_of_one_full_list(rt: HostRuntime) -> Result<(), Fail> {
    chain_of(&rt, 49)
}

#[test]
fn chain_of_a_full_list_and_one_block(rt: HostRuntime) -> Result<(), Fail> {
    chain_of(&rt, 50)
}

#[test]
fn chain_of_a_full_list_and_two_blocks(rt: HostRuntime) -> Result<(), Fail> {
    chain_of(&rt, 51)
}

#[test]
fn chain_of_51_lists(rt: HostRuntime) -> Result<(), Fail> {
    chain_of(&rt, 2549)
}
