ghost use Rattle.std.specs.Prelude.{◌≡◌, ◌/◌, ◌<◌, ◌≤◌, ◌||◌, Some, IfOk, IsOk, OnErr, OnOk, length, nat_le};
ghost use Rattle.std.specs.Result.{is_err};
ghost use Rattle.mb_edge.specs.Blocks.{CountsBlocks, GivesBlock, IsBlock, WritesBlock, image_of, image_of-past, image_of-sized};
ghost use Rattle.mb_edge.specs.Causes.{HasCause};
ghost use Rattle.mb_edge.specs.Schedule.{after_call, is_due};

use crate::disks::Disk;
use crate::faults::Failed;
use crate::lists::{Bytes, Fails};
use crate::schedules::Schedule;
use crate::stores::Store;
use mb_kinds::NoMemory;
use std::alloc::Global;
use std::marker::Model;

/// The most blocks that a write can reach: 128 MiB of them (this project's limit of a volume).
const MOST: u32 = 262144;

/// A disk in memory that never fails, with room for 262,144 blocks that is taken when it is made. A contract
/// sees the bytes that it holds.
#[derive(Drop)]
pub struct SureDisk {
    store: Store,
}

impl Model for SureDisk {
    ghost use Rattle.std.specs.Prelude.{◌≡◌, List, ℕ};

    ghost Value = { List ℕ };

    ghost view = { λ a. a.store.bytes };

    ghost invariant = { λ a. a.store.room ≡ 262144 };
}

impl SureDisk {
    /// A disk of the whole blocks of `image`, at most 262,144 of them. Bytes after the last whole block belong
    /// to no block.
    pub fn new(alloc: Global, image: Bytes) -> Result<SureDisk, NoMemory>
        requires { length image / 512 ≤ 262144 }
        ensures { IfOk result (λ disk. disk ≡ image) }
    {
        Ok(SureDisk {
            store: Store::new(alloc, image, MOST)?,
        })
    }

    /// The bytes that it holds.
    pub fn bytes(&self) -> &[u8]
        ensures { result.now ≡ self.now }
    {
        self.store.bytes()
    }
}

impl Disk for SureDisk {
    ghost told = { λ disk. Some (image_of disk) };

    ghost faults = { λ _. 0 };

    fn blocks(&mut self) -> Result<u32, Failed>
        ensures count { IfOk result (λ count. CountsBlocks (Some (image_of self.old)) count) }
        ensures told { Some (image_of self.new) ≡ Some (image_of self.old) }
        ensures cause { HasCause 0 0 result }
        ensures same { self.new ≡ self.old }
        ensures sure { IsOk result }
    {
        Ok(self.store.blocks())
    }

    fn read(&mut self, block: u32, into: &mut [u8; 512]) -> Result<(), Failed>
        ensures bytes { OnOk result (GivesBlock (Some (image_of self.old)) block into.new) }
        ensures block { OnOk result (IsBlock into.new) }
        ensures told { Some (image_of self.new) ≡ Some (image_of self.old) }
        ensures cause { HasCause 0 0 result }
        ensures same { self.new ≡ self.old }
        ensures sure { IsOk result }
    {
        self.store.read(block, into);
        Ok(())
    }

    fn write(&mut self, block: u32, from: &[u8; 512]) -> Result<(), Failed>
        requires { block < 262144 }
        ensures bytes { WritesBlock (Some (image_of self.old)) (Some (image_of self.new)) result block from.now }
        ensures cause { HasCause 0 0 result }
        ensures sure { IsOk result }
    {
        self.store.write(block, from);
        Ok(())
    }

    ghost past = { image_of-past };

    ghost sized = { image_of-sized };
}

/// A disk in memory whose stated calls fail. Its room is taken when it is made, and a write past the room is
/// a fault. A write that fails changes no byte.
#[derive(Drop)]
pub struct MemDisk {
    store: Store,
    blocks: Schedule,
    reads: Schedule,
    writes: Schedule,
    faults: u64,
}

impl Model for MemDisk {
    ghost use Rattle.mb_edge.specs.Memory.{Device};

    ghost Value = { Device };

    ghost view = { λ a. record { bytes = a.store.bytes; room = a.store.room; blocks = a.blocks; reads = a.reads; writes = a.writes; faults = a.faults } };
}

impl MemDisk {
    /// A disk of the whole blocks of `image` with room for so many blocks, which holds them. It fails the
    /// calls of each list, numbered from 1 over that kind of call. Bytes after the last whole block belong to
    /// no block, and stay as they are until a write extends the disk.
    pub fn new(
        alloc: Global,
        image: Bytes,
        room: u32,
        blocks: Fails,
        reads: Fails,
        writes: Fails,
    ) -> Result<MemDisk, NoMemory>
        requires { length image / 512 ≤ room }
        ensures { IfOk result (λ disk. disk ≡ record { bytes = image; room = room; blocks = record { made = 0; fails = blocks }; reads = record { made = 0; fails = reads }; writes = record { made = 0; fails = writes }; faults = 0 }) }
    {
        Ok(MemDisk {
            store: Store::new(alloc, image, room)?,
            blocks: Schedule::new(blocks),
            reads: Schedule::new(reads),
            writes: Schedule::new(writes),
            faults: 0,
        })
    }

    /// The bytes that it holds.
    pub fn bytes(&self) -> &[u8]
        ensures { result.now ≡ self.now.bytes }
    {
        self.store.bytes()
    }
}

impl Disk for MemDisk {
    ghost told = { λ disk. Some (image_of disk.bytes) };

    ghost faults = { λ disk. disk.faults };

    fn blocks(&mut self) -> Result<u32, Failed>
        ensures count { IfOk result (λ count. CountsBlocks (Some (image_of self.old.bytes)) count) }
        ensures told { Some (image_of self.new.bytes) ≡ Some (image_of self.old.bytes) }
        ensures cause { HasCause self.old.faults self.new.faults result }
        ensures due { is_err result ≡ is_due self.old.blocks }
        ensures next { self.new ≡ record self.old { blocks = after_call self.old.blocks; faults = self.new.faults } }
    {
        if self.blocks.next_fails() {
            self.faults = self.faults.saturating_add(1);
            return Err(Failed);
        }
        Ok(self.store.blocks())
    }

    fn read(&mut self, block: u32, into: &mut [u8; 512]) -> Result<(), Failed>
        ensures bytes { OnOk result (GivesBlock (Some (image_of self.old.bytes)) block into.new) }
        ensures block { OnOk result (IsBlock into.new) }
        ensures told { Some (image_of self.new.bytes) ≡ Some (image_of self.old.bytes) }
        ensures cause { HasCause self.old.faults self.new.faults result }
        ensures due { is_err result ≡ is_due self.old.reads }
        ensures next { self.new ≡ record self.old { reads = after_call self.old.reads; faults = self.new.faults } }
    {
        if self.reads.next_fails() {
            self.faults = self.faults.saturating_add(1);
            return Err(Failed);
        }
        self.store.read(block, into);
        Ok(())
    }

    fn write(&mut self, block: u32, from: &[u8; 512]) -> Result<(), Failed>
        requires { block < 262144 }
        ensures bytes { WritesBlock (Some (image_of self.old.bytes)) (Some (image_of self.new.bytes)) result block from.now }
        ensures cause { HasCause self.old.faults self.new.faults result }
        ensures due { is_err result ≡ (is_due self.old.writes || nat_le self.old.room block) }
        ensures next { self.new ≡ record self.old { bytes = self.new.bytes; writes = after_call self.old.writes; faults = self.new.faults } }
        ensures kept { OnErr result (self.new.bytes ≡ self.old.bytes) }
    {
        if self.writes.next_fails() || block >= self.store.room() {
            self.faults = self.faults.saturating_add(1);
            return Err(Failed);
        }
        self.store.write(block, from);
        Ok(())
    }

    ghost past = { λ disk. image_of-past disk.bytes };

    ghost sized = { λ disk. image_of-sized disk.bytes };
}
