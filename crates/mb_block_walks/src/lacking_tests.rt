use crate::volumes::{fresh, holds, with_a_deep_part};
use mb_alloc::{Hung, Taken, free_block, take_block};
use mb_bmap::{Located, Reached, address, hang, reach};
use mb_gathering::{GatheredBlocks, without};
use mb_iface::Changes;
use std::alloc::Global;
use std::test::Fail;

/// What the address of the deep part asks for first; 0 where it asks for nothing.
fn asked_by_address(view: &GatheredBlocks, changes: &Changes) -> u32 {
    match address(view, changes, 3, 16_522) {
        Located::Need(need) => need.first,
        _ => 0,
    }
}

/// What the way to the deep part asks for first; 0 where it asks for nothing.
fn asked_by_reach(view: &GatheredBlocks, changes: &mut Changes) -> u32 {
    match reach(view, changes, 3, 16_522, 1) {
        Reached::Need(need) => need.first,
        _ => 0,
    }
}

/// What a block that is hung at the deep part asks for first; 0 where it asks for nothing.
fn asked_by_hang(view: &GatheredBlocks, changes: &mut Changes) -> u32 {
    match hang(view, changes, 3, 16_522, 3, 3990) {
        Hung::Need(need) => need.first,
        _ => 0,
    }
}

fn way_asks_for(view: &GatheredBlocks, changes: &mut Changes, lacking: u32) -> Result<(), Fail> {
    holds(
        asked_by_address(view, changes) == lacking,
        "an address asks otherwise",
    )?;
    holds(
        asked_by_reach(view, changes) == lacking,
        "a way asks otherwise",
    )?;
    holds(
        asked_by_hang(view, changes) == lacking,
        "a block that is hung asks otherwise",
    )?;
    holds(changes.len() == 0, "a block is changed")
}

/// The same on a view that lacks the block.
fn way_without(heap: Global, disk: &GatheredBlocks, lacking: u32) -> Result<(), Fail> {
    let view = without(heap, disk, lacking)?;
    let mut changes = Changes::new(heap);
    way_asks_for(&view, &mut changes, lacking)
}

/// The part's own block is not asked for.
fn part_is_not_asked_for(heap: Global, disk: &GatheredBlocks) -> Result<(), Fail> {
    let view = without(heap, disk, 3908)?;
    let changes = Changes::new(heap);
    holds(
        address(&view, &changes, 3, 16_522) == Located::At(3908),
        "another address is read",
    )
}

/// The way to a part asks for the inode's block and each index block where the view lacks it, and
/// never for the part's own block.
#[test]
fn way_asks_for_each_block_that_lacks(rt: HostRuntime) -> Result<(), Fail> {
    let disk = with_a_deep_part(rt.alloc())?;
    for lacking in [2, 3905, 3906, 3907] {
        way_without(rt.alloc(), &disk, lacking)?;
    }
    part_is_not_asked_for(rt.alloc(), &disk)
}

/// A take on a view of so many free blocks that lacks a block.
fn take_without(heap: Global, free: u32, lacking: u32) -> Result<Taken, Fail> {
    let disk = fresh(heap, free)?;
    let view = without(heap, &disk, lacking)?;
    let mut changes = Changes::new(heap);
    Ok(take_block(&view, &mut changes))
}

/// What it asks for first; 0 where it asks for nothing.
fn asked_by_take(heap: Global, free: u32, lacking: u32) -> Result<u32, Fail> {
    match take_without(heap, free, lacking)? {
        Taken::Need(need) => Ok(need.first),
        _ => Ok(0),
    }
}

/// A take asks for block 1, and for the taken block only where the next list is in it.
#[test]
fn take_asks_for_the_block_that_lacks(rt: HostRuntime) -> Result<(), Fail> {
    assert_eq!(rt; asked_by_take(rt.alloc(), 50, 1)?, 1);
    assert_eq!(rt; asked_by_take(rt.alloc(), 50, 3950)?, 3950);
    assert_eq!(rt; take_without(rt.alloc(), 49, 3951)?, Taken::Block(3951));
    Ok(())
}

/// Block 3,900 is put back on a view that lacks a block.
fn put_back_without(heap: Global, lacking: u32) -> Result<Hung, Fail> {
    let disk = fresh(heap, 10)?;
    let view = without(heap, &disk, lacking)?;
    let mut changes = Changes::new(heap);
    let hung = free_block(&view, &mut changes, 3900);
    holds(changes.len() == 0 || lacking != 1, "a block is changed")?;
    Ok(hung)
}

/// A block put back asks for block 1 alone.
#[test]
fn block_put_back_asks_for_the_super_block(rt: HostRuntime) -> Result<(), Fail> {
    match put_back_without(rt.alloc(), 1)? {
        Hung::Need(need) => assert_eq!(rt; need.first, 1),
        _ => return Err("a block is put back on a list that lacks".into()),
    }
    assert_eq!(rt; put_back_without(rt.alloc(), 3900)?, Hung::Done);
    Ok(())
}
