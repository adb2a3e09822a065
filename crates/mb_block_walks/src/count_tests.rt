ghost use Rattle.std.specs.Prelude.{◌<◌};

use crate::volumes::{fresh, has_bytes, holds};
use mb_alloc::{Hung, Taken, free_block, take_block};
use mb_gathering::GatheredBlocks;
use mb_iface::Changes;
use std::test::Fail;

/// A block is taken, or none is.
fn takes(disk: &GatheredBlocks, changes: &mut Changes, taken: Taken) -> Result<(), Fail> {
    holds(
        take_block(disk, changes) == taken,
        "a take tells another block",
    )
}

/// A block is put back.
fn puts_back(disk: &GatheredBlocks, changes: &mut Changes, block: u32) -> Result<(), Fail>
    requires { block < 262144 }
{
    holds(
        free_block(disk, changes, block) == Hung::Done,
        "a block is not put back",
    )
}

fn gets_an_end(disk: &GatheredBlocks, changes: &mut Changes) -> Result<(), Fail> {
    takes(disk, changes, Taken::NoneLeft)?;
    puts_back(disk, changes, 3900)?;
    let list = [2, 0, 0, 0, 0, 0, 0, 0, 60, 15];
    holds(has_bytes(changes, 1, 6, &list), "another list is held")?;
    takes(disk, changes, Taken::Block(3900))?;
    takes(disk, changes, Taken::NoneLeft)
}

/// An empty list gives no block; one put back stands there behind address 0, which ends the chain.
#[test]
fn empty_list_gets_an_end(rt: HostRuntime) -> Result<(), Fail> {
    let mut disk = fresh(rt.alloc(), 0)?;
    let _ = disk.blocks.patch(1, 6, &[0, 0]);
    let mut changes = Changes::new(rt.alloc());
    gets_an_end(&disk, &mut changes)
}

fn moves_into_the_block(disk: &GatheredBlocks, changes: &mut Changes) -> Result<(), Fail> {
    puts_back(disk, changes, 3900)?;
    holds(
        has_bytes(changes, 3900, 0, &[50, 0]),
        "no list of 50 is held",
    )?;
    takes(disk, changes, Taken::Block(3900))?;
    takes(disk, changes, Taken::Block(3951))
}

/// A list of 50 is full: the block put back gets it.
#[test]
fn list_of_50_moves_into_the_block(rt: HostRuntime) -> Result<(), Fail> {
    let disk = fresh(rt.alloc(), 49)?;
    let mut changes = Changes::new(rt.alloc());
    moves_into_the_block(&disk, &mut changes)
}

fn stays(disk: &GatheredBlocks, changes: &mut Changes) -> Result<(), Fail> {
    takes(disk, changes, Taken::NoneLeft)?;
    puts_back(disk, changes, 3900)?;
    holds(changes.len() == 0, "a block is changed")
}

/// A list of 51 stands on no volume: nothing is taken from it, and nothing is put back.
#[test]
fn list_of_51_stays(rt: HostRuntime) -> Result<(), Fail> {
    let mut disk = fresh(rt.alloc(), 49)?;
    let _ = disk.blocks.patch(1, 6, &[51, 0]);
    let mut changes = Changes::new(rt.alloc());
    stays(&disk, &mut changes)
}

fn gives_one(disk: &GatheredBlocks, changes: &mut Changes) -> Result<(), Fail> {
    takes(disk, changes, Taken::Block(3950))?;
    takes(disk, changes, Taken::NoneLeft)
}

/// The block that holds a list of 51 is taken, and none after it.
#[test]
fn later_list_of_51_gives_none(rt: HostRuntime) -> Result<(), Fail> {
    let mut disk = fresh(rt.alloc(), 50)?;
    let _ = disk.blocks.patch(3950, 0, &[51, 0]);
    let mut changes = Changes::new(rt.alloc());
    gives_one(&disk, &mut changes)
}
