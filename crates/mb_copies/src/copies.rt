ghost use Rattle.std.specs.Prelude.{◌≡◌, ◌≤◌, ◌<◌, ◌+◌, ◌-◌, ◌∷◌, ◌++◌, [], ℕ, List, length, drop, OnOk, IsOk, IfSome, IfNone, Some, None, option_copied, nat_eq, slice_get};
ghost use Rattle.std.specs.List.{IsDistinct};
ghost use Rattle.std.specs.Map.{keys_of};
ghost use Rattle.indexmap.specs.IndexMap.{insert_entry};
ghost use Rattle.mb_cache.specs.Kept as copy;
ghost use Rattle.mb_cache.specs.Kept.{kept_at, shown};
ghost use Rattle.mb_copies.specs.Reads.{TakesFrom, renewed, stored};
ghost use Rattle.mb_copies.specs.Stale.{is_fresh, is_same, least_stale, lesser, stale_step};

use crate::kept_blocks::KeptBlock;
use crate::places::Places;
use crate::reads::Reads;
use mb_cache::Cache;
use mb_edge::{Disk, NoMemory};
use mb_iface::Changes;
use std::alloc::Global;
use std::marker::Model;

/// Copies of blocks, each block once. A contract sees the list and the room.
#[derive(Drop)]
pub struct Copies {
    numbers: Places,
    /// The copies of the blocks, in their order, and behind them the room for further ones, so that a copy is made in its
    /// place.
    copies: Vec<KeptBlock>,
}

impl Model for Copies {
    ghost use Rattle.std.specs.Prelude.{ℕ, List, ◌-◌, ◌≤◌, length, min};
    ghost use Rattle.std.specs.List.{zip};
    ghost use Rattle.mb_room.specs.Room.{Roomy};
    ghost use Rattle.mb_cache.specs.Kept as spec;

    ghost Value = { Roomy (ℕ × spec.KeptBlock) };

    ghost view = { λ c. record {
      items = zip c.numbers.items c.copies.items;
      spare = min c.numbers.spare (length c.copies.items - length c.numbers.items);
    } };

    ghost invariant = { λ c. length c.numbers.items ≤ length c.copies.items };
}

/// Makes room for so many more copies behind the first `used`. The only error is want of memory.
fn lengthen(copies: &mut Vec<KeptBlock>, used: usize, more: usize) -> Result<(), NoMemory>
    requires { used ≤ length copies.old.items }
    ensures behind { (blank : List copy.KeptBlock) × (copies.new.items ≡ copies.old.items ++ blank) }
    ensures ok { OnOk result (more ≤ length copies.new.items - used) }
    ensures sure { more ≤ length copies.old.items - used → IsOk result }
{
    let alloc = *copies.allocator();
    'copies: while copies.len() - used < more {
        copies.push(KeptBlock::blank(alloc)?)?;
    }
    Ok(())
}

impl Copies {
    /// No copy; needs no memory.
    pub fn new(alloc: Global) -> Copies
        ensures { result.items ≡ [] }
    {
        Copies {
            numbers: Places::new(alloc),
            copies: Vec::new(alloc),
        }
    }

    /// The copy of a block, with the place where it stands, counted from 0; `None` exactly where there is none.
    pub fn find(&self, block: u32) -> Option<(usize, &KeptBlock)>
        ensures found { IfSome result (λ found. kept_at self.now.items block ≡ Some found.1.now) }
        ensures place { IfSome result (λ found. slice_get (keys_of self.now.items) found.0 ≡ Some block) }
        ensures none { IfNone result (kept_at self.now.items block ≡ None) }
    {
        match self.numbers.find(block) {
            Some(place) => Some((place, &self.copies[place])),
            None => None,
        }
    }

    /// The copy of a block; `None` exactly where there is none.
    pub fn get(&self, block: u32) -> Option<&KeptBlock>
        ensures { option_copied result ≡ kept_at self.now.items block }
    {
        match self.find(block) {
            Some((_place, kept)) => Some(kept),
            None => None,
        }
    }

    /// The blocks, in their order.
    pub fn numbers(&self) -> &[u32]
        ensures keys { result.now ≡ keys_of self.now.items }
    {
        self.numbers.as_slice()
    }

    /// Makes room for so many more copies. Nothing else changes.
    pub fn reserve(&mut self, more: usize) -> Result<(), NoMemory>
        ensures ok { OnOk result (more ≤ self.new.spare) }
        ensures same { self.new.items ≡ self.old.items }
        ensures kept { self.old.spare ≤ self.new.spare }
        ensures sure { more ≤ self.old.spare → IsOk result }
    {
        self.numbers.reserve(more)?;
        lengthen(&mut self.copies, self.numbers.len(), more)
    }

    /// One copy more, in the place of its block's copy where it has one; needs no memory.
    fn put(&mut self, block: u32, kept: &KeptBlock)
        requires { 0 < self.old.spare }
        ensures items { self.new.items ≡ insert_entry nat_eq self.old.items block kept.now }
        ensures spare { self.old.spare ≤ self.new.spare + 1 }
    {
        let place = self.numbers.insert(block);
        self.copies[place].copy_from(kept);
    }

    /// The copies of a list more; needs no memory.
    pub fn store(&mut self, reads: &Reads)
        requires { length reads.now ≤ self.old.spare }
        ensures items { self.new.items ≡ stored self.old.items reads.now }
        ensures spare { self.old.spare ≤ self.new.spare + length reads.now }
    {
        for at in 0..reads.len() {
            let (block, kept) = reads.at(at);
            self.put(block, kept);
        }
    }

    /// One copy more, which a list held at a place, in the place of its block's copy where it has one; what the list holds
    /// behind that place stays. Needs no memory.
    fn put_from(&mut self, reads: &mut Reads, at: usize)
        requires room { 0 < self.old.spare }
        requires at { at < length reads.old }
        ensures items { TakesFrom reads.old at self.old.items self.new.items }
        ensures spare { self.old.spare ≤ self.new.spare + 1 }
        ensures behind { drop (at + 1) reads.new ≡ drop (at + 1) reads.old }
        ensures count { length reads.new ≡ length reads.old }
    {
        let (block, _kept) = reads.at(at);
        let place = self.numbers.insert(block);
        reads.swap(at, &mut self.copies[place]);
    }

    /// The copies of a list more, whose bytes go over from the list, so that none is copied; needs no memory. What the list
    /// holds afterwards is not told, but its room.
    pub fn take(&mut self, reads: &mut Reads)
        requires { length reads.old ≤ self.old.spare }
        ensures items { self.new.items ≡ stored self.old.items reads.old }
        ensures spare { self.old.spare ≤ self.new.spare + length reads.old }
    {
        for at in 0..reads.len() {
            self.put_from(reads, at);
        }
    }

    /// How many blocks have a copy.
    pub fn len(&self) -> usize
        ensures { result ≡ length self.now.items }
    {
        self.numbers.len()
    }

    /// Gives the copy of a block new bytes, where the block has one; needs no memory.
    fn rewrite(&mut self, block: u32, bytes: &[u8; 512])
        ensures { (other : ℕ) → shown self.new.items other ≡ renewed ((block, bytes.now) ∷ []) (shown self.old.items) other }
    {
        if let Some(place) = self.numbers.find(block) {
            self.copies[place].rewrite(bytes);
        }
    }

    /// Gives the copy of each changed block its new bytes, where the block has one; needs no memory.
    pub(crate) fn renew(&mut self, changes: &Changes)
        ensures { (block : ℕ) → shown self.new.items block ≡ renewed changes.now (shown self.old.items) block }
    {
        for at in 0..changes.len() {
            let (block, bytes) = changes.at(at);
            self.rewrite(block, bytes);
        }
    }

    /// Drops all copies, and keeps the room; needs no memory.
    pub fn clear(&mut self)
        ensures items { self.new.items ≡ [] }
        ensures spare { self.old.spare ≤ self.new.spare }
    {
        self.numbers.clear();
    }

    fn is_fresh<D: Disk>(&self, block: u32, page: &KeptBlock, cache: &Cache<D>) -> bool
        ensures { result ≡ is_fresh self.now.items cache.now.stamps (block, page.now) }
    {
        match self.get(block) {
            Some(copy) => copy.is_same(page, cache.stamp(block)),
            None => false,
        }
    }

    fn step<D: Disk>(
        &self,
        least: Option<u32>,
        block: u32,
        page: &KeptBlock,
        cache: &Cache<D>,
    ) -> Option<u32>
        ensures { result ≡ stale_step self.now.items cache.now.stamps least (block, page.now) }
    {
        if self.is_fresh(block, page, cache) {
            least
        } else {
            Some(lesser(least, block))
        }
    }

    /// The least block of the pages that is not kept with the same bytes and the present stamp.
    pub fn least_stale<D: Disk>(&self, pages: &Copies, cache: &Cache<D>) -> Option<u32>
        ensures least { result ≡ least_stale self.now.items cache.now.stamps pages.now.items }
        ensures once { IsDistinct nat_eq (keys_of pages.now.items) }
    {
        let mut least = None;
        let blocks = pages.numbers.as_slice();
        for at in 0..blocks.len() {
            least = self.step(least, blocks[at], &pages.copies[at], cache);
        }
        least
    }
}

fn lesser(least: Option<u32>, block: u32) -> u32
    ensures { result ≡ lesser least block }
{
    match least {
        Some(before) => before.min(block),
        None => block,
    }
}
