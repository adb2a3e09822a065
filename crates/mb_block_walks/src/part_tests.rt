use crate::volumes::{fresh, take_next};
use mb_bmap::{Located, Reached, address, reach};
use mb_gathering::{GatheredBlocks, gather, nothing};
use mb_iface::{Changes, Over};
use std::alloc::Global;
use std::test::Fail;

/// Reaches a part, by trying anew with the blocks that are asked for; 0 where none is left for it.
fn reach_part(
    heap: Global,
    disk: &GatheredBlocks,
    view: &mut GatheredBlocks,
    changes: &mut Changes,
    part: u32,
) -> Result<u32, Fail> {
    for _ in 0..20 {
        let mut own = Changes::new(heap);
        match reach(
            &Over::new(view, changes),
            &mut own,
            3,
            part.min(2_113_673),
            4,
        ) {
            Reached::At(block) => {
                changes.absorb(own)?;
                return Ok(block);
            }
            Reached::NoneLeft => return Ok(0),
            Reached::Need(need) => gather(disk, view, need)?,
            Reached::NoMemory => return Err("no memory".into()),
        }
    }
    Err("a reach asks too often".into())
}

/// The block of a part; 0 where it has none.
fn block_of(view: &GatheredBlocks, changes: &Changes, part: u32) -> u32 {
    match address(view, changes, 3, part.min(2_113_673)) {
        Located::At(block) => block,
        _ => 0,
    }
}

/// A part is reached at a block, twice the same, and has its address then; the next block is free.
fn reaches(
    heap: Global,
    disk: &GatheredBlocks,
    view: &mut GatheredBlocks,
    changes: &mut Changes,
    part: u32,
    own: u32,
) -> Result<(), Fail> {
    for _ in 0..2 {
        if reach_part(heap, disk, view, changes, part)? != own {
            return Err("another block is reached".into());
        }
    }
    if block_of(view, changes, part) != own {
        return Err("the part has another address, or none".into());
    }
    if take_next(disk, view, changes)? != own.saturating_add(1) {
        return Err("more blocks were taken".into());
    }
    Ok(())
}

/// A part is reached with so many index blocks on its way, and has its address then.
fn part_at(rt: &HostRuntime, part: u32, depth: u32) -> Result<(), Fail> {
    let disk = fresh(rt.alloc(), 95)?;
    let mut view = nothing(rt.alloc());
    let mut changes = Changes::new(rt.alloc());
    let own = 3905_u32.saturating_add(depth);
    reaches(rt.alloc(), &disk, &mut view, &mut changes, part, own)
}

#[test]
fn parts_of_the_inode_itself(rt: HostRuntime) -> Result<(), Fail> {
    part_at(&rt, 0, 0)?;
    part_at(&rt, 9, 0)
}

#[test]
fn parts_under_the_single_index_block(rt: HostRuntime) -> Result<(), Fail> {
    part_at(&rt, 10, 1)?;
    part_at(&rt, 137, 1)
}

#[test]
fn parts_under_the_double_index_block(rt: HostRuntime) -> Result<(), Fail> {
    part_at(&rt, 138, 2)?;
    part_at(&rt, 16_521, 2)
}

#[test]
fn parts_under_the_triple_index_block(rt: HostRuntime) -> Result<(), Fail> {
    part_at(&rt, 16_522, 3)?;
    part_at(&rt, 2_113_673, 3)
}

/// Reaches the first 94 parts, and none behind them.
fn reach_all(
    heap: Global,
    disk: &GatheredBlocks,
    view: &mut GatheredBlocks,
    changes: &mut Changes,
) -> Result<(), Fail> {
    for part in 0..94 {
        if reach_part(heap, disk, view, changes, part)? == 0 {
            return Err("a part is refused too early".into());
        }
    }
    if reach_part(heap, disk, view, changes, 94)? != 0 {
        return Err("a part is reached that the chain has no block for".into());
    }
    if take_next(disk, view, changes)? != 0 {
        return Err("a block is left".into());
    }
    Ok(())
}

/// A file's 94 parts and their one index block use a chain of 95 blocks up.
#[test]
fn file_uses_the_chain_up(rt: HostRuntime) -> Result<(), Fail> {
    let disk = fresh(rt.alloc(), 95)?;
    let mut view = nothing(rt.alloc());
    let mut changes = Changes::new(rt.alloc());
    reach_all(rt.alloc(), &disk, &mut view, &mut changes)
}
