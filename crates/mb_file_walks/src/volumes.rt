use mb_file::{Hung, empty, erase_in, put, read};
use mb_gathering::{GatheredBlocks, SMALL, Size, gather, nothing};
use mb_iface::{Acted, Answer, Asked, Changes, View};
use mb_kinds::{Errno, Octets};
use mb_layout::Dinode;
use mb_word::{long_at, word_at};
use std::alloc::Global;
use std::test::Fail;

/// The fresh volume of 100 blocks and 16 inodes, in which inode 3 is a regular file of no bytes.
pub fn fresh(heap: Global) -> Result<GatheredBlocks, Fail> {
    fresh_of(heap, SMALL)
}

/// The fresh volume of a size, in which inode 3 is a regular file of no bytes.
pub fn fresh_of(heap: Global, size: Size) -> Result<GatheredBlocks, Fail> {
    let mut disk = mb_gathering::fresh(heap, size)?;
    // the mode 0100644, in the third inode of the i-list's first block
    let _ = disk.blocks.patch(2, 128, &[0xa4, 0x81]);
    Ok(disk)
}

/// What an operation came to: its changes are made, or it is refused, with how often it asked.
#[derive(Clone, Copy, Debug, PartialEq, Drop)]
pub enum Ended {
    Done(u32),
    Refused(Errno, u32),
}

/// Puts bytes into inode 3, from a view of nothing.
pub fn put_on(
    heap: Global,
    disk: &mut GatheredBlocks,
    offset: u32,
    bytes: &[u8],
) -> Result<Ended, Fail> {
    let mut view = nothing(heap);
    for asked in 0..400 {
        match put(heap, &view, 3, offset, bytes, 7) {
            Acted::Done { changes, .. } => {
                disk.blocks.absorb(changes)?;
                return Ok(Ended::Done(asked));
            }
            Acted::Refused(error) => return Ok(Ended::Refused(error, asked)),
            Acted::Need(need) => gather(disk, &mut view, need)?,
            Acted::NoMemory => return Err("no memory".into()),
        }
    }
    Err("a put asks too often".into())
}

/// Empties inode 3, from a view of nothing.
pub fn empty_on(heap: Global, disk: &mut GatheredBlocks) -> Result<Ended, Fail> {
    let mut view = nothing(heap);
    for asked in 0..400 {
        match empty(heap, &view, 3, 8) {
            Acted::Done { changes, .. } => {
                disk.blocks.absorb(changes)?;
                return Ok(Ended::Done(asked));
            }
            Acted::Refused(error) => return Ok(Ended::Refused(error, asked)),
            Acted::Need(need) => gather(disk, &mut view, need)?,
            Acted::NoMemory => return Err("no memory".into()),
        }
    }
    Err("an emptying asks too often".into())
}

/// Erases inode 3, from a view of nothing. As long as it asks it has changed no block.
pub fn erase_on(heap: Global, disk: &mut GatheredBlocks) -> Result<(), Fail> {
    let mut view = nothing(heap);
    for _ in 0..400 {
        let mut changes = Changes::new(heap);
        match erase_in(heap, &view, &mut changes, 3) {
            Hung::Done => {
                disk.blocks.absorb(changes)?;
                return Ok(());
            }
            Hung::Need(need) => {
                if changes.len() > 0 {
                    return Err("a block is changed before all are asked for".into());
                }
                gather(disk, &mut view, need)?;
            }
            Hung::NoMemory => return Err("no memory".into()),
        }
    }
    Err("an erasure asks too often".into())
}

/// Reads bytes of inode 3, from a view of nothing.
pub fn read_on(
    heap: Global,
    disk: &GatheredBlocks,
    offset: u32,
    count: u16,
) -> Result<Octets, Fail> {
    let mut view = nothing(heap);
    for _ in 0..400 {
        match read(heap, &view, 3, offset, count) {
            Asked::Found(Answer::Bytes(bytes)) => return Ok(bytes),
            Asked::Need(need) => gather(disk, &mut view, need)?,
            _ => return Err("no bytes are read".into()),
        }
    }
    Err("a read asks too often".into())
}

/// How many blocks an address leads to, so many levels of index blocks down.
fn held_under(disk: &GatheredBlocks, address: u32, levels: u8) -> u32 {
    if address == 0 {
        return 0;
    }
    let mut held = 1u32;
    if levels > 0 {
        if let Some(index) = disk.get(address) {
            for place in 0..128usize {
                let below = held_under(disk, long_at(index, 4 * place), levels - 1);
                held = held.saturating_add(below);
            }
        }
    }
    held
}

/// The blocks in use: the root's, and those that inode 3 holds.
pub fn cost(disk: &GatheredBlocks) -> u32 {
    let Some(inodes) = disk.get(2) else {
        return 0;
    };
    let inode = Dinode::read(inodes, 2);
    let mut held = 1u32;
    for place in 0..13u8 {
        let levels = place.saturating_sub(9);
        held = held.saturating_add(held_under(disk, inode.address(place), levels));
    }
    held
}

/// The blocks of the free chain, list after list.
pub fn free(disk: &GatheredBlocks) -> u32 {
    let mut free = 0u32;
    let mut holder = 1;
    for _ in 0..100 {
        let Some(list) = disk.get(holder) else {
            return free;
        };
        let at = if holder == 1 { 6 } else { 0 };
        let count = u32::from(word_at(list, at));
        let next = long_at(list, at + 2);
        if next == 0 {
            return free.saturating_add(count.saturating_sub(1));
        }
        free = free.saturating_add(count);
        holder = next;
    }
    free
}

/// The size of inode 3.
pub fn size(disk: &GatheredBlocks) -> u32 {
    let Some(inodes) = disk.get(2) else {
        return 0;
    };
    Dinode::read(inodes, 2).size
}
