ghost use Rattle.std.specs.Prelude.{◌≡◌, ◌≤◌, ◌<◌, ◌+◌, [], ℕ, length, OnOk, IsOk};
ghost use Rattle.mb_cache.specs.Stamps.{stamp_of, raised, raised_by};

use crate::numbers::Numbers;
use mb_edge::NoMemory;
use mb_iface::Changes;
use std::alloc::Global;
use std::marker::Model;

/// How often each block was installed. A contract sees the list and the room.
#[derive(Drop)]
pub(crate) struct StampMap {
    numbers: Numbers,
}

impl Model for StampMap {
    ghost use Rattle.std.specs.Prelude.{ℕ, List};
    ghost use Rattle.mb_room.specs.Room.{Roomy};

    ghost Value = { Roomy (ℕ × ℕ) };

    ghost view = { λ s. record { items = s.numbers.items; spare = s.numbers.spare } };
}

impl StampMap {
    /// No block was installed; needs no memory.
    pub fn new(alloc: Global) -> StampMap
        ensures { result.items ≡ [] }
    {
        StampMap {
            numbers: Numbers::new(alloc),
        }
    }

    /// The stamp of a block.
    pub fn of(&self, block: u32) -> u64
        ensures { result ≡ stamp_of self.now.items block }
    {
        self.numbers.of(block)
    }

    /// Makes room for the stamps of so many more blocks. Nothing else changes.
    pub fn reserve(&mut self, more: usize) -> Result<(), NoMemory>
        ensures ok { OnOk result (more ≤ self.new.spare) }
        ensures same { self.new.items ≡ self.old.items }
        ensures kept { self.old.spare ≤ self.new.spare }
        ensures sure { more ≤ self.old.spare → IsOk result }
    {
        self.numbers.reserve(more)
    }

    /// One install more of a block; needs no memory.
    pub fn raise(&mut self, block: u32)
        requires { 0 < self.old.spare }
        ensures items { self.new.items ≡ raised self.old.items block }
        ensures spare { self.old.spare ≤ self.new.spare + 1 }
    {
        let Ok(()) = self.numbers.raise(block) else {
            unreachable!()
        };
    }

    /// One install more of each changed block; needs no memory.
    pub fn raise_all(&mut self, changes: &Changes)
        requires { length changes.now ≤ self.old.spare }
        ensures items { self.new.items ≡ raised_by self.old.items changes.now }
        ensures spare { self.old.spare ≤ self.new.spare + length changes.now }
    {
        for at in 0..changes.len() {
            let (block, _) = changes.at(at);
            self.raise(block);
        }
    }
}
