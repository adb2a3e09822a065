use crate::fields::{long, word};
use mb_gathering::GatheredBlocks;
use mb_iface::View;
use std::alloc::Global;
use std::test::Fail;

/// The block of that number.
pub(crate) fn block_of(volume: &GatheredBlocks, number: u32) -> Result<[u8; 512], Fail> {
    match volume.get(number) {
        Some(block) => Ok(*block),
        None => Err("a block is not there".into()),
    }
}

/// The blocks of a volume's files, which are those from the i-list's end to the volume's, and which of them something was
/// found to hold.
#[derive(Drop)]
pub(crate) struct Marks {
    first: u32,
    held: Vec<bool>,
    count: u32,
}

impl Marks {
    /// No block is held.
    pub(crate) fn new(heap: Global, first: u32, end: u32) -> Result<Marks, Fail> {
        let blocks = end.saturating_sub(first);
        Ok(Marks {
            first,
            held: vec![in heap; false; blocks as usize]?,
            count: 0,
        })
    }

    /// Marks a block, which has to be one of the files that nothing else holds.
    pub(crate) fn hold(&mut self, block: u32) -> Result<(), Fail> {
        let Some(place) = block.checked_sub(self.first) else {
            return Err("a block of the i-list is held".into());
        };
        match self.held.get_mut(place as usize) {
            Some(held) if *held => return Err("a block is held twice".into()),
            Some(held) => *held = true,
            None => return Err("a block past the volume is held".into()),
        }
        self.count = self.count.saturating_add(1);
        Ok(())
    }

    /// Marks the blocks of a list of free blocks that begins at a byte of a block, and gives the block of the next list, or 0.
    fn hold_list(&mut self, list: &[u8; 512], at: usize) -> Result<u32, Fail> {
        let count = word(list, at);
        if count == 0 {
            return Ok(0);
        }
        if count > 50 {
            return Err("a list of free blocks is too long".into());
        }
        let addresses = at.saturating_add(2);
        for place in 1..usize::from(count) {
            self.hold(long(list, addresses.saturating_add(4 * place)))?;
        }
        Ok(long(list, addresses))
    }

    /// Marks the blocks of the free chain, list after list.
    pub(crate) fn hold_free(&mut self, volume: &GatheredBlocks) -> Result<(), Fail> {
        let first = block_of(volume, 1)?;
        let mut next = self.hold_list(&first, 6)?;
        for _ in 0..self.held.len() {
            if next == 0 {
                return Ok(());
            }
            self.hold(next)?;
            let list = block_of(volume, next)?;
            next = self.hold_list(&list, 0)?;
        }
        Err("the free chain has no end".into())
    }

    /// How many blocks are held.
    pub(crate) fn count(&self) -> u32 {
        self.count
    }
}
