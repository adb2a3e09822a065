ghost use Rattle.std.specs.Prelude.{◌≤◌};

use mb_fsops::V7;
use mb_gathering::{GatheredBlocks, nothing};
use mb_iface::{Acted, Asked, Changes, FileSys, Need, Opens, Query, View};
use mb_tree::FsOp;
use std::alloc::Global;
use std::test::Fail;

/// How many times an answer may ask for more blocks before it is let go.
const ROUNDS: u32 = 40;

/// Numbers that are drawn one after another, the same ones for the same seed.
#[derive(Drop)]
pub struct HostileDraws {
    state: u64,
}

impl HostileDraws {
    /// The draws of a seed.
    pub fn new(seed: u64) -> HostileDraws {
        HostileDraws { state: seed }
    }

    /// The next number, of 16 bits.
    pub fn next(&mut self) -> u16 {
        self.state = self
            .state
            .wrapping_mul(6_364_136_223_846_793_005)
            .wrapping_add(1_442_695_040_888_963_407);
        (self.state >> 48) as u16
    }

    /// The next byte.
    pub fn byte(&mut self) -> u8 {
        (self.next() % 256) as u8
    }

    /// The next number, of 32 bits, more often a small one than a great one.
    pub fn long(&mut self) -> u32 {
        let low = u32::from(self.next());
        let high = u32::from(self.next());
        match self.next() % 8 {
            0 => low + 65_536 * high,
            1 => low + 65_536 * (high % 64),
            2 => low,
            _ => low % 4096,
        }
    }

    /// The next inode number, mostly one of the first blocks of an i-list.
    pub fn ino(&mut self) -> u16 {
        let drawn = self.next();
        if drawn % 8 == 0 { drawn } else { drawn % 80 }
    }
}

/// Blocks that no file system wrote: the bytes of each are drawn by a seed and its number.
#[derive(Clone, Copy)]
pub struct Wild {
    seed: u64,
}

impl Wild {
    /// The blocks of a seed.
    pub fn new(seed: u64) -> Wild {
        Wild { seed }
    }

    /// The bytes of a block: inodes of files and directories, addresses in a circle or of any size, bytes of
    /// any kind, or the same byte throughout.
    fn bytes(&self, block: u32) -> [u8; 512] {
        let seed = self.seed.wrapping_mul(1_000_003) ^ u64::from(block);
        let mut draws = HostileDraws::new(seed.wrapping_mul(0x9e37_79b9_7f4a_7c15));
        let kind = draws.next() % 8;
        let mut bytes = [0; 512];
        if (2..20).contains(&block) && kind < 6 {
            fill_inodes(&mut draws, &mut bytes);
            return bytes;
        }
        for at in 0..512usize {
            bytes[at] = byte_of(&mut draws, kind, at);
        }
        bytes
    }
}

/// A byte at a place of a block of a kind.
fn byte_of(draws: &mut HostileDraws, kind: u16, at: usize) -> u8 {
    match kind {
        // longs below 64: the addresses of a few blocks, which lead to each other
        0 | 1 | 2 => if at % 4 == 2 { draws.byte() % 64 } else { 0 },
        // longs of any size, near and past the greatest volume
        3 => if at % 4 == 0 {
            draws.byte() % 8
        } else {
            draws.byte()
        },
        // slots with low numbers
        4 => if at % 16 == 0 {
            draws.byte() % 80
        } else if at % 16 == 2 {
            b'a' + draws.byte() % 4
        } else {
            0
        },
        5 => 0xff,
        6 => 0,
        _ => draws.byte(),
    }
}

/// Draws eight inodes: free ones, regular files and directories with addresses of any kind.
fn fill_inodes(draws: &mut HostileDraws, bytes: &mut [u8; 512]) {
    for place in 0..8usize {
        fill_inode(draws, bytes, 64 * place);
    }
}

/// Draws an inode from an offset of a block on: its mode, its links, its size and its addresses.
fn fill_inode(draws: &mut HostileDraws, bytes: &mut [u8; 512], at: usize)
    requires { at ≤ 448 }
{
    bytes[at + 1] = match draws.next() % 4 {
        0 => 0,
        1 => 0x81,
        _ => 0x41,
    };
    bytes[at] = 0xff;
    bytes[at + 2] = draws.byte() % 3;
    let size = draws.long() >> (draws.next() % 6);
    let low = (size % 65_536) as u16;
    let high = (size / 65_536) as u16;
    bytes[at + 8] = (high % 256) as u8;
    bytes[at + 9] = (high / 256) as u8;
    bytes[at + 10] = (low % 256) as u8;
    bytes[at + 11] = (low / 256) as u8;
    for byte in 12..51usize {
        bytes[at + byte] = match draws.next() % 8 {
            0 => draws.byte(),
            1 | 2 => draws.byte() % 64,
            _ => 0,
        };
    }
}

/// Gathers what is asked for, which has to be lacking and within the greatest volume.
fn gather(wild: &Wild, view: &mut GatheredBlocks, need: Need) -> Result<(), Fail> {
    if need.first == 0 || need.first >= 262_144 || need.count == 0 || need.count > 32 {
        return Err("no run of blocks of a volume is asked for".into());
    }
    if view.get(need.first).is_some() {
        return Err("a block is asked for that is there".into());
    }
    for block in need.first..(need.first + need.count).min(262_144) {
        let bytes = wild.bytes(block);
        view.blocks.put(block, &bytes)?;
    }
    Ok(())
}

/// Every changed block is one that a volume can have.
fn are_below(changes: &Changes) -> Result<(), Fail> {
    for place in 0..changes.len() {
        let (block, _bytes) = changes.at(place);
        if block >= 262_144 {
            return Err("a block past the greatest volume is changed".into());
        }
    }
    Ok(())
}

/// A query of a view comes to an answer, or asks for more blocks each time.
fn asks_over(
    heap: Global,
    wild: &Wild,
    view: &mut GatheredBlocks,
    query: &Query,
) -> Result<(), Fail> {
    for _ in 0..ROUNDS {
        match V7.ask(heap, view, query) {
            Asked::Need(need) => gather(wild, view, need)?,
            Asked::NoMemory => return Err("no memory".into()),
            _ => return Ok(()),
        }
    }
    Ok(())
}

/// A query comes to an answer, or asks for more blocks each time.
pub fn asks_well(heap: Global, wild: &Wild, query: &Query) -> Result<(), Fail> {
    asks_over(heap, wild, &mut nothing(heap), query)
}

/// An operation on a view comes to an end, or asks for more blocks each time.
fn acts_over(
    heap: Global,
    wild: &Wild,
    view: &mut GatheredBlocks,
    opens: &Opens,
    op: &FsOp,
    pick: Option<u16>,
) -> Result<(), Fail> {
    for _ in 0..ROUNDS {
        match V7.act(heap, view, opens, op, pick) {
            Acted::Need(need) => gather(wild, view, need)?,
            Acted::NoMemory => return Err("no memory".into()),
            Acted::Refused(_) => return Ok(()),
            Acted::Done { changes, pick: _ } => return are_below(&changes),
        }
    }
    Ok(())
}

/// An operation comes to an end where no file is open, or asks for more blocks each time.
pub fn acts_well(heap: Global, wild: &Wild, op: &FsOp, pick: Option<u16>) -> Result<(), Fail> {
    let opens = Opens::new(heap);
    acts_over(heap, wild, &mut nothing(heap), &opens, op, pick)
}
