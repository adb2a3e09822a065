use crate::fields::{address, bytes, long, word};
use crate::marks::{Marks, block_of};
use mb_gathering::GatheredBlocks;
use mb_tree::{Body, Node, Nodes, Parts, PlainSlot, PlainSlots, Tree};
use std::alloc::Global;
use std::test::Fail;

/// How many parts stand under an address, so many levels of index blocks down.
fn span(levels: u8) -> u32 {
    match levels {
        0 => 1,
        1 => 128,
        2 => 16_384,
        _ => 2_097_152,
    }
}

/// The parts from that number on under an address, so many levels of index blocks down; address 0 is a hole. An index block
/// holds an address.
fn add_parts(
    volume: &GatheredBlocks,
    marks: &mut Marks,
    parts: &mut Parts,
    number: u32,
    address: u32,
    levels: u8,
) -> Result<(), Fail> {
    if address == 0 {
        return Ok(());
    }
    marks.hold(address)?;
    let block = block_of(volume, address)?;
    if levels == 0 {
        parts.insert(number, block)?;
        return Ok(());
    }
    if block == [0; 512] {
        return Err("an index block holds no address".into());
    }
    let below = levels - 1;
    let mut number = number;
    for place in 0..128usize {
        add_parts(volume, marks, parts, number, long(&block, 4 * place), below)?;
        number = number.saturating_add(span(below));
    }
    Ok(())
}

/// The parts of the inode at a byte of its block: under ten addresses, and under three of index blocks.
fn parts_of(
    heap: Global,
    volume: &GatheredBlocks,
    marks: &mut Marks,
    block: &[u8; 512],
    at: usize,
) -> Result<Parts, Fail> {
    let mut parts = Parts::new(heap);
    let mut number = 0u32;
    for place in 0..13u8 {
        let levels = place.saturating_sub(9);
        let leads = address(block, at.saturating_add(12 + 3 * usize::from(place)));
        add_parts(volume, marks, &mut parts, number, leads, levels)?;
        number = number.saturating_add(span(levels));
    }
    Ok(parts)
}

/// The slots of a directory of that size, whose parts are exactly those below it.
fn slots_of(heap: Global, parts: &Parts, size: u32) -> Result<PlainSlots, Fail> {
    if parts.keys(heap)?.len() != size.div_ceil(512) as usize {
        return Err("a directory has not the parts below its size".into());
    }
    let mut slots = PlainSlots::new(heap);
    for place in 0..size / 16 {
        let Some(part) = parts.get(place / 32) else {
            return Err("a directory has a hole".into());
        };
        let at = 16 * (place % 32) as usize;
        slots.push(PlainSlot {
            ino: word(part, at),
            name: bytes(part, at + 2),
        })?;
    }
    Ok(slots)
}

/// What the inode at a byte of its block holds, by the kind of its mode.
fn body_of(
    heap: Global,
    volume: &GatheredBlocks,
    marks: &mut Marks,
    block: &[u8; 512],
    at: usize,
) -> Result<Body, Fail> {
    let size = long(block, at.saturating_add(8));
    match word(block, at) & 0o170_000 {
        0o100_000 => Ok(Body::Regular {
            size,
            parts: parts_of(heap, volume, marks, block, at)?,
        }),
        0o040_000 => {
            let parts = parts_of(heap, volume, marks, block, at)?;
            Ok(Body::Directory {
                slots: slots_of(heap, &parts, size)?,
            })
        }
        0o020_000 | 0o060_000 => Ok(Body::Special {
            size,
            area: bytes(block, at.saturating_add(12)),
        }),
        _ => Err("an inode has a mode of no kind".into()),
    }
}

/// The inodes in use of an i-list that ends before a block, the files without a name among them.
fn nodes_of(
    heap: Global,
    volume: &GatheredBlocks,
    marks: &mut Marks,
    end: u16,
) -> Result<Nodes, Fail> {
    let mut nodes = Nodes::new(heap);
    let mut ino = 0u32;
    for number in 2..u32::from(end) {
        let block = block_of(volume, number)?;
        for place in 0..8usize {
            ino = ino.saturating_add(1);
            let at = 64 * place;
            let mode = word(&block, at);
            if mode == 0 {
                continue;
            }
            let node = Node {
                mode,
                nlink: word(&block, at + 2),
                uid: word(&block, at + 4),
                gid: word(&block, at + 6),
                atime: long(&block, at + 52),
                mtime: long(&block, at + 56),
                ctime: long(&block, at + 60),
                body: body_of(heap, volume, marks, &block, at)?,
            };
            nodes.insert(ino, node)?;
        }
    }
    Ok(nodes)
}

/// The tree that the bytes of a volume show, read by V7 filsys(5) alone: neither the file system nor the checker has a part
/// in it. A free block, a part and an index block are each held once.
pub(crate) fn shown_tree(heap: Global, volume: &GatheredBlocks) -> Result<Tree, Fail> {
    let first = block_of(volume, 1)?;
    let end = word(&first, 0);
    let mut marks = Marks::new(heap, u32::from(end), long(&first, 2))?;
    let nodes = nodes_of(heap, volume, &mut marks, end)?;
    marks.hold_free(volume)?;
    Ok(Tree {
        nodes,
        last: end.saturating_sub(2).saturating_mul(8),
        cap: marks.count(),
    })
}
