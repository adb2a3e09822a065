ghost use Rattle.std.specs.Prelude.{◌≡◌, ◌≤◌, ◌<◌, ◌+◌, [], OnOk, OnErr, IsOk};
ghost use Rattle.mb_cache.specs.Stamps.{LowersOne, RaisesOne, stamp_of};

use crate::numbers::Numbers;
use mb_edge::NoMemory;
use std::alloc::Global;
use std::marker::Model;

/// How many calls in flight pin each block. A contract sees the list and the room.
#[derive(Drop)]
pub(crate) struct PinMap {
    counts: Numbers,
    // how often a block was pinned, since the beginning
    total: u64,
}

impl Model for PinMap {
    ghost use Rattle.std.specs.Prelude.{ℕ, List, ◌^◌, ◌-◌, ◌≤◌, min};
    ghost use Rattle.mb_room.specs.Room.{Roomy};
    ghost use Rattle.mb_cache.specs.Stamps.{stamp_of};

    ghost Value = { Roomy (ℕ × ℕ) };

    ghost view = { λ s. record { items = s.counts.items; spare = min s.counts.spare (2 ^ 64 - 1 - s.total) } };

    ghost invariant = { λ s. (block : ℕ) → stamp_of s.counts.items block ≤ s.total };
}

impl PinMap {
    /// No pin; needs no memory.
    pub fn new(alloc: Global) -> PinMap
        ensures { result.items ≡ [] }
    {
        PinMap {
            counts: Numbers::new(alloc),
            total: 0,
        }
    }

    /// Makes room for pins on so many more blocks. Nothing else changes.
    pub fn reserve(&mut self, more: usize) -> Result<(), NoMemory>
        ensures ok { OnOk result (more ≤ self.new.spare) }
        ensures same { self.new.items ≡ self.old.items }
        ensures kept { self.old.spare ≤ self.new.spare }
        ensures sure { more ≤ self.old.spare → IsOk result }
    {
        if (u64::MAX - self.total) < more as u64 {
            return Err(NoMemory);
        }
        self.counts.reserve(more)
    }

    /// One pin more on a block.
    pub fn pin(&mut self, block: u32) -> Result<(), NoMemory>
        ensures ok { OnOk result (RaisesOne self.old.items self.new.items block) }
        ensures err { OnErr result (self.new.items ≡ self.old.items) }
        ensures sure { 0 < self.old.spare → IsOk result }
        ensures spare { self.old.spare ≤ self.new.spare + 1 }
    {
        if self.total == u64::MAX {
            return Err(NoMemory);
        }
        self.counts.raise(block)?;
        self.total += 1;
        Ok(())
    }

    /// One pin less on a block; needs no memory.
    pub fn unpin(&mut self, block: u32)
        requires { 0 < stamp_of self.old.items block }
        ensures pins { LowersOne self.old.items self.new.items block }
        ensures spare { self.old.spare ≤ self.new.spare }
    {
        self.counts.lower(block);
    }
}
