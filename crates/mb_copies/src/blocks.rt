ghost use Rattle.std.specs.Prelude.{◌≡◌, ◌≤◌, ◌<◌, ◌+◌, [], ℕ, List, Some, length, OnOk, OnErr, option_copied};
ghost use Rattle.mb_cache.specs.State.{ReadHasCause, after_reads, seen};
ghost use Rattle.mb_cache.specs.Kept.{shown};
ghost use Rattle.mb_kinds.specs.Changed.{changed};
ghost use Rattle.mb_tree.specs.Views.{IsPart, over};
ghost use Rattle.mb_copies.specs.Reads.{GathersSeen};

use crate::copies::Copies;
use crate::reads::Reads;
use mb_cache::{Cache, ReadFault};
use mb_edge::Disk;
use mb_iface::{Changes, Need, View};
use std::alloc::Global;
use std::marker::Model;

/// Blocks as they are seen, gathered for operations that are done again: they are not pinned, and kept for no call. A
/// contract sees their copies, each block once.
pub struct Blocks {
    copies: Copies,
    reads: Reads,
}

// written out, so that a crate above which lets it go checks one call
impl Drop for Blocks {
    fn drop(self) {
        let Blocks {
            copies: _,
            reads: _,
        } = self;
    }
}

impl Model for Blocks {
    ghost use Rattle.mb_cache.specs.Kept.{CopyList};

    ghost Value = { CopyList };

    ghost view = { λ b. b.copies.items };
}

impl Blocks {
    /// No block; needs no memory.
    pub fn new(alloc: Global) -> Blocks
        ensures { result ≡ [] }
    {
        Blocks {
            copies: Copies::new(alloc),
            reads: Reads::new(alloc),
        }
    }

    /// Gathers what is needed, as it is seen. `Device` comes only where the disk's count of faults rose; on an error
    /// nothing has changed but the disk and the clean pages.
    pub fn gather<D: Disk>(&mut self, cache: &mut Cache<D>, need: Need) -> Result<(), ReadFault>
        requires first { need.first < 262144 }
        requires count { need.count ≤ 32 }
        ensures ok { OnOk result (GathersSeen (seen D.told cache.old) need self.old self.new) }
        ensures err { OnErr result (self.new ≡ self.old) }
        ensures rest { cache.new ≡ after_reads cache.old cache.new }
        ensures told { D.told cache.new.disk ≡ D.told cache.old.disk }
        ensures cause { ReadHasCause (D.faults cache.old.disk) (D.faults cache.new.disk) result }
    {
        self.reads.fetch(cache, need)?;
        self.copies.reserve(self.reads.len())?;
        self.copies.take(&mut self.reads);
        Ok(())
    }

    /// Goes with an install: the changed ones of the blocks have their new bytes. At most 128 blocks stay; where there are
    /// more, none does. Needs no memory.
    pub fn follow(&mut self, changes: &Changes)
        ensures part { (blocks : ℕ → List ℕ) → IsPart (shown self.old) blocks
            → IsPart (shown self.new) (over blocks (changed changes.now)) }
        ensures few { length self.new ≤ 128 }
    {
        self.copies.renew(changes);
        if self.copies.len() > 128 {
            self.copies.clear();
        }
    }

    /// Drops all blocks, and keeps the room; needs no memory.
    pub fn clear(&mut self)
        ensures { self.new ≡ [] }
    {
        self.copies.clear();
    }
}

impl View for Blocks {
    ghost use Rattle.mb_cache.specs.Kept.{shown};

    ghost shown = { λ b. shown b };

    fn get(&self, block: u32) -> Option<&[u8; 512]> {
        match self.copies.get(block) {
            Some(kept) => Some(kept.bytes()),
            None => None,
        }
    }
}
