use mb_alloc::{Hung, free_block};
use mb_bmap::{Reached, reach};
use mb_gathering::{GatheredBlocks, nothing};
use mb_iface::Changes;
use std::alloc::Global;
use std::test::Fail;

/// A volume of 400 blocks, of which those from 5 on are free, put back from the last one down.
fn fresh(heap: Global) -> Result<GatheredBlocks, Fail> {
    let mut disk = nothing(heap);
    for block in 0..400 {
        disk.blocks.put(block, &[0; 512])?;
    }
    let size = [4, 0, 0, 0, 144, 1, 1, 0];
    let _ = disk.blocks.patch(1, 0, &size);
    let mut made = Changes::new(heap);
    for passed in 0..395 {
        match free_block(&disk, &mut made, 399 - passed) {
            Hung::Done => {}
            _ => return Err("a block is not put back".into()),
        }
    }
    disk.blocks.absorb(made)?;
    Ok(disk)
}

/// Reaches and writes the first parts of a file on a volume of which every block is there.
fn fill(heap: Global, parts: u32) -> Result<(), Fail> {
    let disk = fresh(heap)?;
    let mut changes = Changes::with_room(heap, 400)?;
    for part in 0..parts.min(200) {
        match reach(&disk, &mut changes, 3, part, 1) {
            Reached::At(block) => {
                let _ = changes.patch(block, 0, &[7; 512]);
            }
            _ => return Err("a part is not reached".into()),
        }
    }
    Ok(())
}

#[test]
fn twenty_parts_are_written(rt: HostRuntime) -> Result<(), Fail> {
    fill(rt.alloc(), 20)
}

#[test]
fn a_hundred_and_twenty_parts_are_written(rt: HostRuntime) -> Result<(), Fail> {
    fill(rt.alloc(), 120)
}
