ghost use Rattle.std.specs.Prelude.{◌≡◌, ◌≤◌, ◌<◌, ◌+◌, ◌%◌, ◌∷◌, ◌++◌, [], false, length, nat_eq, slice_get, IfSome, IfNone, OnOk, IsOk};
ghost use Rattle.std.specs.List.{IsDistinct, list_any, position_or_len};
ghost use Rattle.indexmap.specs.IndexSet.{insert_key};
ghost use Rattle.mb_copies.specs.Chains.{chain_of};

use mb_edge::NoMemory;
use mb_room::Roomy;
use std::alloc::Global;
use std::marker::Model;

/// How many chains there are.
const CHAINS: usize = 1024;

/// Blocks, each once, in the order in which they came, each of which is found at once: a block is in the chain of its number
/// modulo 1,024, whose blocks are linked from the last one back. A contract sees the list and the room.
#[derive(Drop)]
pub(crate) struct Places {
    blocks: Roomy<u32>,
    /// Beside each block, one more than the place of the block before it in its chain; 0 where it is the first.
    before: Roomy<usize>,
    /// By chain, one more than the place of its last block; 0 where it has none. Empty until there is room for a block.
    last: Vec<usize>,
}

impl Model for Places {
    ghost use Rattle.std.specs.Prelude.{ℕ};
    ghost use Rattle.mb_room.specs.Room.{Roomy};
    ghost use Rattle.mb_copies.specs.Chains.{AreChained, room_for};

    ghost Value = { Roomy ℕ };

    ghost view = { λ p. record { items = p.blocks.items; spare = room_for p.last.items p.blocks.spare p.before.spare } };

    ghost invariant = { λ p. AreChained p.last.items p.before.items p.blocks.items };
}

/// The chain of a block.
fn chain_of(block: u32) -> usize
    ensures chain { result ≡ chain_of block }
    ensures within { result < 1024 }
{
    (block % 1024) as usize
}

impl Places {
    /// No block; needs no memory.
    pub fn new(alloc: Global) -> Places
        ensures { result.items ≡ [] }
    {
        Places {
            blocks: Roomy::new(alloc),
            before: Roomy::new(alloc),
            last: Vec::new(alloc),
        }
    }

    /// How many blocks there are.
    pub fn len(&self) -> usize
        ensures { result ≡ length self.now.items }
    {
        self.blocks.len()
    }

    /// The blocks, in their order.
    pub fn as_slice(&self) -> &[u32]
        ensures list { result.now ≡ self.now.items }
        ensures once { IsDistinct nat_eq self.now.items }
    {
        self.blocks.as_slice()
    }

    /// The place of a block, counted from 0; `None` exactly where it is not there.
    pub fn find(&self, block: u32) -> Option<usize>
        ensures found { IfSome result (λ place. slice_get self.now.items place ≡ Some block) }
        ensures none { IfNone result (list_any (nat_eq block) self.now.items ≡ false) }
        ensures once { IsDistinct nat_eq self.now.items }
    {
        let blocks = self.blocks.as_slice();
        if blocks.is_empty() {
            return None;
        }
        let before = self.before.as_slice();
        let mut link = self.last[chain_of(block)];
        'links: while link > 0 {
            if blocks[link - 1] == block {
                return Some(link - 1);
            }
            link = before[link - 1];
        }
        None
    }

    /// Makes room for so many more blocks. Nothing else changes. The only error is want of memory, and it does not come
    /// where there is room already.
    pub fn reserve(&mut self, more: usize) -> Result<(), NoMemory>
        ensures ok { OnOk result (more ≤ self.new.spare) }
        ensures same { self.new.items ≡ self.old.items }
        ensures kept { self.old.spare ≤ self.new.spare }
        ensures sure { more ≤ self.old.spare → IsOk result }
    {
        if more == 0 {
            return Ok(());
        }
        self.blocks.reserve(more)?;
        self.before.reserve(more)?;
        if self.last.is_empty() {
            self.last.resize(CHAINS, 0)?;
        }
        Ok(())
    }

    /// The place of a block, which comes behind all others where it was not there; needs no memory.
    #[inline(always)]
    pub fn insert(&mut self, block: u32) -> usize
        requires { 0 < self.old.spare }
        ensures place { result ≡ position_or_len (nat_eq block) self.old.items }
        ensures blocks { self.new.items ≡ insert_key nat_eq self.old.items block }
        ensures spare { self.old.spare ≤ self.new.spare + 1 }
    {
        match self.find(block) {
            Some(place) => place,
            None => self.push(block),
        }
    }

    /// Puts a block that is not there behind all others; needs no memory.
    fn push(&mut self, block: u32) -> usize
        requires room { 0 < self.old.spare }
        requires apart { list_any (nat_eq block) self.old.items ≡ false }
        ensures place { result ≡ length self.old.items }
        ensures blocks { self.new.items ≡ self.old.items ++ block ∷ [] }
        ensures spare { self.old.spare ≤ self.new.spare + 1 }
    {
        let chain = chain_of(block);
        self.before.push(self.last[chain]);
        self.blocks.push(block);
        self.last[chain] = self.blocks.len();
        self.blocks.len() - 1
    }

    /// Takes the last block out, and keeps its room; `None` exactly where there is none. Needs no memory.
    fn pop(&mut self) -> Option<u32>
        ensures some { IfSome result (λ block. self.old.items ≡ self.new.items ++ block ∷ []) }
        ensures none { IfNone result (self.new.items ≡ []) }
        ensures spare { self.old.spare ≤ self.new.spare }
    {
        let block = self.blocks.pop()?;
        let before = self.before.pop()?;
        self.last[chain_of(block)] = before;
        Some(block)
    }

    /// Takes all blocks out, from the last one back, and keeps the room; needs no memory.
    pub fn clear(&mut self)
        ensures items { self.new.items ≡ [] }
        ensures spare { self.old.spare ≤ self.new.spare }
    {
        'blocks: while self.pop().is_some() {}
    }
}
