ghost use Rattle.std.specs.Prelude.{◌≡◌};
ghost use Rattle.mb_bench.specs.Gathered.{ShowsMore, is_gathered};

use crate::faults::BenchFault;
use mb_edge::{Bytes, Disk, Fails, MemDisk};
use mb_iface::{Changes, Need, View};
use mb_mkfs::make;
use std::alloc::Global;

/// A volume in memory, and which of its blocks are gathered for a call, which sees these alone.
#[derive(Drop)]
pub struct BenchDevice {
    blocks: Vec<[u8; 512]>,
    /// The number of the call for which each block was gathered last, 0 where it never was.
    gathered: Vec<u64>,
    /// The number of the call that is made, from 1 on.
    call: u64,
}

impl View for BenchDevice {
    ghost use Rattle.mb_bench.specs.Gathered.{shown_of};

    ghost shown = { shown_of };

    fn get(&self, block: u32) -> Option<&[u8; 512]> {
        if self.is_gathered(block) {
            self.blocks.get(block as usize)
        } else {
            None
        }
    }
}

impl BenchDevice {
    /// The fresh volume of so many blocks and inodes, of which no block is gathered.
    pub fn fresh(heap: Global, blocks: u16, inodes: u16) -> Result<BenchDevice, BenchFault> {
        let none = || Fails::new(heap);
        let room = u32::from(blocks);
        let mut disk = MemDisk::new(heap, Bytes::new(heap), room, none(), none(), none())?;
        if make(&mut disk, room, u32::from(inodes)).is_err() {
            return Err(BenchFault::Volume);
        }
        let mut device = BenchDevice {
            blocks: Vec::with_capacity(heap, usize::from(blocks))?,
            gathered: vec![in heap; 0; usize::from(blocks)]?,
            call: 1,
        };
        let mut bytes = [0; 512];
        for block in 0..room {
            if disk.read(block, &mut bytes).is_err() {
                return Err(BenchFault::Volume);
            }
            device.blocks.push(bytes)?;
        }
        Ok(device)
    }

    /// Whether a block is gathered.
    fn is_gathered(&self, block: u32) -> bool
        ensures { result ≡ is_gathered self.now block }
    {
        let at = block as usize;
        at < self.gathered.len() && self.gathered[at] == self.call
    }

    /// Gathers a block, where the volume has it.
    fn gather_block(&mut self, block: u32)
        ensures { ShowsMore self.old self.new }
    {
        let call = self.call;
        if let Some(gathered) = self.gathered.get_mut(block as usize) {
            *gathered = call;
        }
    }

    /// Gathers what a call asks for, as far as the volume has it.
    pub fn gather(&mut self, need: &Need)
        ensures { ShowsMore self.old self.new }
    {
        for block in need.first..need.first.saturating_add(need.count) {
            self.gather_block(block);
        }
        for at in 0..7usize {
            let block = need.others.blocks()[at];
            if block == 0 {
                break;
            }
            self.gather_block(block);
        }
    }

    /// Lets go of the blocks that are gathered: another call is made.
    pub fn let_go(&mut self) {
        self.call = self.call.saturating_add(1);
    }

    /// Writes the changed blocks that the volume has.
    pub fn write(&mut self, changes: &Changes) {
        for place in 0..changes.len() {
            let (block, bytes) = changes.at(place);
            if let Some(into) = self.blocks.get_mut(block as usize) {
                *into = *bytes;
            }
        }
    }
}
