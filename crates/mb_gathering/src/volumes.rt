use crate::views::{GatheredBlocks, nothing};
use mb_edge::{Bytes, Disk, Fails, MemDisk};
use mb_mkfs::make;
use std::alloc::Global;
use std::test::Fail;

/// How many blocks and inodes a volume has.
#[derive(Clone, Copy, Drop)]
pub struct Size {
    pub blocks: u16,
    pub inodes: u16,
}

/// The volume of most examples.
pub const SMALL: Size = Size {
    blocks: 100,
    inodes: 16,
};

/// An empty disk with room for so many blocks, no call of which fails.
fn empty_disk(heap: Global, blocks: u16) -> Result<MemDisk, Fail> {
    let none = || Fails::new(heap);
    let room = u32::from(blocks);
    Ok(MemDisk::new(heap, Bytes::new(heap), room, none(), none(), none())?)
}

/// The blocks of the fresh volume of a size, which has the root alone. An error is a size that no
/// volume has, or want of memory.
pub fn fresh(heap: Global, size: Size) -> Result<GatheredBlocks, Fail> {
    let mut disk = empty_disk(heap, size.blocks)?;
    if make(&mut disk, u32::from(size.blocks), u32::from(size.inodes)).is_err() {
        return Err("no volume is made".into());
    }
    whole(heap, &mut disk, size.blocks)
}

/// So many blocks of a disk.
fn whole(heap: Global, disk: &mut MemDisk, blocks: u16) -> Result<GatheredBlocks, Fail> {
    let mut all = nothing(heap);
    let mut bytes = [0; 512];
    for block in 0..blocks {
        if disk.read(u32::from(block), &mut bytes).is_err() {
            return Err("a block is not read".into());
        }
        all.blocks.put(u32::from(block), &bytes)?;
    }
    Ok(all)
}

/// A disk of all blocks of a volume of a size. An error is a block that the size has no room for, or
/// want of memory.
pub fn disk_of(heap: Global, volume: &GatheredBlocks, size: Size) -> Result<MemDisk, Fail> {
    let mut disk = empty_disk(heap, size.blocks)?;
    for place in 0..volume.blocks.len() {
        let (block, bytes) = volume.blocks.at(place);
        if disk.write(block, bytes).is_err() {
            return Err("a block is not written".into());
        }
    }
    Ok(disk)
}
