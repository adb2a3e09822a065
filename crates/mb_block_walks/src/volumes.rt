use mb_alloc::{Hung, Taken, free_block, take_block};
use mb_bmap::{Reached, reach};
use mb_gathering::{GatheredBlocks, gather, nothing};
use mb_iface::Changes;
use std::alloc::Global;
use std::test::Fail;

/// A volume of 4,000 blocks and 16 inodes, of which so many last blocks are free, put back from the
/// last one down.
pub fn fresh(heap: Global, free: u32) -> Result<GatheredBlocks, Fail> {
    let mut disk = nothing(heap);
    for block in 0..4000 {
        disk.blocks.put(block, &[0; 512])?;
    }
    let first = [4, 0, 0, 0, 160, 15, 1, 0];
    let _ = disk.blocks.patch(1, 0, &first);
    let mut made = Changes::new(heap);
    for passed in 0..free.min(3995) {
        match free_block(&disk, &mut made, 3999 - passed) {
            Hung::Done => {}
            _ => return Err("a block is not put back".into()),
        }
    }
    disk.blocks.absorb(made)?;
    Ok(disk)
}

/// A volume with a file, inode 3, of which part 16,522 alone is there: block 3,908, under the index
/// blocks 3,905 to 3,907.
pub fn with_a_deep_part(heap: Global) -> Result<GatheredBlocks, Fail> {
    let mut disk = fresh(heap, 95)?;
    let mut made = Changes::new(heap);
    match reach(&disk, &mut made, 3, 16_522, 4) {
        Reached::At(3908) => {}
        _ => return Err("the part is not reached".into()),
    }
    disk.blocks.absorb(made)?;
    Ok(disk)
}

/// A volume whose i-list, blocks 2 and 3, has 16 inodes, of which 1, 2 and 4 are in use.
pub fn numbered(heap: Global) -> Result<GatheredBlocks, Fail> {
    let mut disk = fresh(heap, 0)?;
    let _ = disk.blocks.patch(2, 0, &[0xed, 0x41]);
    let _ = disk.blocks.patch(2, 64, &[0xed, 0x41]);
    let _ = disk.blocks.patch(2, 192, &[0xa4, 0x81]);
    Ok(disk)
}

/// The same volume with a cache of 100 numbers, which are all of the one inode but for the last four.
pub fn cached(heap: Global, number: u8, last: &[u8; 8]) -> Result<GatheredBlocks, Fail> {
    let mut disk = numbered(heap)?;
    let _ = disk.blocks.patch(1, 208, &[100, 0]);
    for place in 0..96 {
        let _ = disk.blocks.patch(1, 210 + 2 * place, &[number, 0]);
    }
    let _ = disk.blocks.patch(1, 402, last);
    Ok(disk)
}

/// Takes a block, by trying anew with the blocks that are asked for; 0 where none is left.
pub fn take_next(
    disk: &GatheredBlocks,
    view: &mut GatheredBlocks,
    changes: &mut Changes,
) -> Result<u32, Fail> {
    for _ in 0..4 {
        match take_block(view, changes) {
            Taken::Block(block) => return Ok(block),
            Taken::NoneLeft => return Ok(0),
            Taken::Need(need) => gather(disk, view, need)?,
            Taken::NoMemory => return Err("no memory".into()),
        }
    }
    Err("a take asks too often".into())
}

/// That what was looked at holds.
pub fn holds(fact: bool, otherwise: &'static str) -> Result<(), Fail> {
    if fact { Ok(()) } else { Err(otherwise.into()) }
}

/// Whether the new bytes of a block begin so from an offset on.
pub fn has_bytes(changes: &Changes, block: u32, at: usize, bytes: &[u8]) -> bool {
    match changes.get(block) {
        Some(held) => match held.get(at..) {
            Some(rest) => rest.starts_with(bytes),
            None => false,
        },
        None => false,
    }
}

/// Whether a block is changed.
pub fn is_changed(changes: &Changes, block: u32) -> bool {
    changes.get(block).is_some()
}
