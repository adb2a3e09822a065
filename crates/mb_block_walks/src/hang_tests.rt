use crate::volumes::{fresh, has_bytes, holds, is_changed};
use mb_bmap::{Hung, Located, address_at, hang};
use mb_gathering::GatheredBlocks;
use mb_iface::Changes;
use std::test::Fail;

/// The addresses of two parts of inode 3, one of them under an index block that has none.
fn has_addresses(disk: &GatheredBlocks, changes: &Changes) -> bool {
    address_at(disk, changes, 3, 138, 0) == Located::At(3990)
        && address_at(disk, changes, 3, 0, 0) == Located::At(3991)
        && address_at(disk, changes, 3, 138, 1) == Located::Missing { level: 1 }
}

fn is_hung(disk: &GatheredBlocks, changes: &mut Changes) -> Result<(), Fail> {
    holds(
        hang(disk, changes, 3, 138, 0, 3990) == Hung::Done,
        "no index block is hung",
    )?;
    holds(
        hang(disk, changes, 3, 0, 0, 3991) == Hung::Done,
        "no part is hung",
    )?;
    holds(
        has_bytes(changes, 3990, 0, &[0; 512]),
        "no zeros are in the index block",
    )?;
    holds(!is_changed(changes, 3991), "the part's block is changed")?;
    holds(has_addresses(disk, changes), "other addresses are there")
}

/// An index block is filled with zeros where it is hung, and a part's block keeps its bytes.
#[test]
fn index_block_is_hung_with_zeros(rt: HostRuntime) -> Result<(), Fail> {
    let mut disk = fresh(rt.alloc(), 0)?;
    disk.blocks.put(3990, &[7; 512])?;
    disk.blocks.put(3991, &[7; 512])?;
    let mut changes = Changes::new(rt.alloc());
    is_hung(&disk, &mut changes)
}

fn is_hung_nowhere(disk: &GatheredBlocks, changes: &mut Changes) -> Result<(), Fail> {
    holds(
        hang(disk, changes, 3, 138, 1, 3990) == Hung::Done,
        "an answer is another one",
    )?;
    holds(
        hang(disk, changes, 3, 16_522, 2, 3990) == Hung::Done,
        "an answer is another one",
    )?;
    holds(changes.len() == 0, "a block is changed")
}

/// Nothing is hung under an index block that is missing.
#[test]
fn nothing_is_hung_under_a_hole(rt: HostRuntime) -> Result<(), Fail> {
    let disk = fresh(rt.alloc(), 0)?;
    let mut changes = Changes::new(rt.alloc());
    is_hung_nowhere(&disk, &mut changes)
}
