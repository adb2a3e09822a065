ghost use Rattle.std.specs.Prelude.{◌≡◌, ◌≤◌, ◌<◌, ◌+◌, ◌++◌, ◌∷◌, [], ℕ, Some, length, drop, take, OnOk, slice_get};
ghost use Rattle.mb_cache.specs.Kept as copy;
ghost use Rattle.mb_cache.specs.State.{ReadHasCause, after_reads, seen};
ghost use Rattle.mb_copies.specs.Reads.{AreRead, numbers};
ghost use Rattle.mb_iface.specs.Needs.{blocks_of};

use crate::kept_blocks::KeptBlock;
use mb_cache::{Cache, ReadFault};
use mb_edge::{Disk, NoMemory};
use mb_iface::Need;
use std::alloc::Global;
use std::marker::Model;

/// Blocks that were read, with their stamps, in order. A contract sees the list; its room is kept from one gathering
/// to the next.
#[derive(Drop)]
pub struct Reads {
    /// The blocks that were read first, and behind them the room of those that were read before.
    items: Vec<(u32, KeptBlock)>,
    /// How many were read.
    count: usize,
}

impl Model for Reads {
    ghost use Rattle.std.specs.Prelude.{◌≤◌, length, take};
    ghost use Rattle.mb_cache.specs.Kept.{CopyList};

    ghost Value = { CopyList };

    ghost view = { λ r. take r.count r.items.items };

    ghost invariant = { λ r. r.count ≤ length r.items.items };
}

/// Makes room for one item behind the first `count`, which stay. The only error is want of memory.
fn reserve_one(items: &mut Vec<(u32, KeptBlock)>, count: usize) -> Result<(), NoMemory>
    requires { count ≤ length items.old.items }
    ensures ok { OnOk result (count < length items.new.items) }
    ensures same { take count items.new.items ≡ take count items.old.items }
    ensures more { length items.old.items ≤ length items.new.items }
{
    if count == items.len() {
        let alloc = *items.allocator();
        items.push((0, KeptBlock::blank(alloc)?))?;
    }
    Ok(())
}

impl Reads {
    /// No block; needs no memory.
    pub fn new(alloc: Global) -> Reads
        ensures { result ≡ [] }
    {
        Reads {
            items: Vec::new(alloc),
            count: 0,
        }
    }

    /// The number of blocks.
    pub fn len(&self) -> usize
        ensures { result ≡ length self.now }
    {
        self.count
    }

    /// The block at a place, with its copy.
    pub fn at(&self, place: usize) -> (u32, &KeptBlock)
        requires { place < length self.now }
        ensures { slice_get self.now place ≡ Some (result.0, result.1.now) }
    {
        let (block, kept) = &self.items[place];
        (*block, kept)
    }

    /// Gives the copy at a place for another one; what stands behind that place stays.
    pub(crate) fn swap(&mut self, place: usize, kept: &mut KeptBlock)
        requires { place < length self.old }
        ensures given { (block : ℕ) (read : copy.KeptBlock) → slice_get self.old place ≡ Some (block, read) → kept.new ≡ read }
        ensures behind { drop (place + 1) self.new ≡ drop (place + 1) self.old }
        ensures count { length self.new ≡ length self.old }
    {
        let (_block, mine) = &mut self.items[place];
        mine.swap(kept);
    }

    /// Takes all blocks out, and keeps the room; needs no memory.
    fn clear(&mut self)
        ensures { self.new ≡ [] }
    {
        self.count = 0;
    }

    /// Reads a block as it is seen, behind the others. It stands in its caller, who reads run and others by it.
    #[inline(always)]
    fn read<D: Disk>(&mut self, cache: &mut Cache<D>, block: u32) -> Result<(), ReadFault>
        ensures rest { cache.new ≡ after_reads cache.old cache.new }
        ensures told { D.told cache.new.disk ≡ D.told cache.old.disk }
        ensures cause { ReadHasCause (D.faults cache.old.disk) (D.faults cache.new.disk) result }
        ensures ok { OnOk result (AreRead (seen D.told cache.old) cache.old.stamps self.old
            → AreRead (seen D.told cache.old) cache.old.stamps self.new) }
        ensures numbers { OnOk result (numbers self.new ≡ numbers self.old ++ block ∷ []) }
    {
        reserve_one(&mut self.items, self.count)?;
        let (number, kept) = &mut self.items[self.count];
        *number = block;
        kept.read(cache, block)?;
        self.count += 1;
        Ok(())
    }

    /// Reads the blocks that are needed as they are seen, the run and then the others, in the place of those before.
    pub fn fetch<D: Disk>(&mut self, cache: &mut Cache<D>, need: Need) -> Result<(), ReadFault>
        requires { need.first + need.count ≤ 4294967295 }
        ensures rest { cache.new ≡ after_reads cache.old cache.new }
        ensures told { D.told cache.new.disk ≡ D.told cache.old.disk }
        ensures cause { ReadHasCause (D.faults cache.old.disk) (D.faults cache.new.disk) result }
        ensures ok { OnOk result (AreRead (seen D.told cache.old) cache.old.stamps self.new) }
        ensures numbers { OnOk result (numbers self.new ≡ blocks_of need) }
    {
        self.clear();
        for at in 0..need.count {
            self.read(cache, need.first + at)?;
        }
        for block in need.others.blocks() {
            if *block != 0 {
                self.read(cache, *block)?;
            }
        }
        Ok(())
    }
}
