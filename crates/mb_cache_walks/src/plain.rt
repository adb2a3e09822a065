//! A cache in plain lists, as the cache's own words tell it.

use mb_kinds::NoMemory;
use std::alloc::Global;

/// How many blocks the disk has.
pub(crate) const BLOCKS: u32 = 12;

/// Of the writes of the disk each that is a multiple of this fails.
pub(crate) const FAILING: u64 = 5;

/// A page of a block, all bytes of which are alike.
#[derive(Clone, Copy, Debug, PartialEq, Eq, Drop)]
pub(crate) struct Page {
    pub(crate) block: u32,
    pub(crate) byte: u8,
}

/// What is written back, the pages that wait for it, and those over them, with how often each block was installed, and how
/// often the disk was written.
#[derive(Drop)]
pub(crate) struct Plain {
    pub(crate) disk: Vec<u8>,
    pub(crate) sealed: Vec<Page>,
    pub(crate) current: Vec<Page>,
    pub(crate) stamps: Vec<u64>,
    pub(crate) writes: u64,
}

/// Puts a page in the place of its block's page, or behind the others.
pub(crate) fn put(pages: &mut Vec<Page>, page: Page) -> Result<(), NoMemory> {
    for at in 0..pages.len() {
        if let Some(old) = pages.get_mut(at) {
            if old.block == page.block {
                old.byte = page.byte;
                return Ok(());
            }
        }
    }
    pages.push(page)?;
    Ok(())
}

fn byte_of(pages: &[Page], block: u32) -> Option<u8> {
    for page in pages {
        if page.block == block {
            return Some(page.byte);
        }
    }
    None
}

impl Plain {
    /// No page over a disk of ones.
    pub(crate) fn new(alloc: Global) -> Result<Plain, NoMemory> {
        Ok(Plain {
            disk: vec![in alloc; 1; BLOCKS as usize]?,
            sealed: Vec::new(alloc),
            current: Vec::new(alloc),
            stamps: vec![in alloc; 0; BLOCKS as usize]?,
            writes: 0,
        })
    }

    pub(crate) fn install(&mut self, page: Page) -> Result<(), NoMemory> {
        put(&mut self.current, page)?;
        if let Some(stamp) = self.stamps.get_mut(page.block as usize) {
            *stamp = stamp.saturating_add(1);
        }
        Ok(())
    }

    pub(crate) fn seal(&mut self, alloc: Global) -> Result<(), NoMemory> {
        let mut left = Vec::new(alloc);
        for page in self.sealed.as_slice() {
            if byte_of(self.current.as_slice(), page.block).is_none() {
                left.push(*page)?;
            }
        }
        left.extend_from_slice(self.current.as_slice())?;
        self.sealed = left;
        self.current.clear();
        Ok(())
    }

    /// The last page that waits is on the disk.
    pub(crate) fn write_back(&mut self) {
        if let Some(page) = self.sealed.pop() {
            if let Some(byte) = self.disk.get_mut(page.block as usize) {
                *byte = page.byte;
            }
        }
    }

    pub(crate) fn wipe(&mut self, byte: u8) {
        for at in 0..self.current.len() {
            self.replace(at, byte);
        }
    }

    pub(crate) fn replace(&mut self, at: usize, byte: u8) {
        if let Some(page) = self.current.get_mut(at) {
            page.byte = byte;
        }
    }

    /// What a block reads as.
    pub(crate) fn seen(&self, block: u32) -> [u8; 512] {
        let byte = match byte_of(self.current.as_slice(), block) {
            Some(byte) => byte,
            None => match byte_of(self.sealed.as_slice(), block) {
                Some(byte) => byte,
                None => self.disk.get(block as usize).copied().unwrap_or(0),
            },
        };
        [byte; 512]
    }

    pub(crate) fn stamp(&self, block: u32) -> u64 {
        self.stamps.get(block as usize).copied().unwrap_or(0)
    }
}
