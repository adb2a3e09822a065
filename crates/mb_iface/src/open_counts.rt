ghost use Rattle.std.specs.Prelude.{◌≡◌, ◌<◌, ℕ, OnOk, OnErr, IfOk, Some, None, Decides};
ghost use Rattle.std.specs.FinMap as fin;
ghost use Rattle.mb_iface.specs.OpenCounts.{count_of, with_count, AreCounts};

use std::alloc::{AllocError, Global};
use std::collections::BTreeMap;
use std::marker::Model;

/// How many open files there are on each inode, for the inodes with at least one. A contract sees the
/// finite map.
#[derive(Drop)]
pub struct Opens {
    counts: BTreeMap<u16, u32>,
}

impl Model for Opens {
    ghost use Rattle.std.specs.Prelude.{ℕ};
    ghost use Rattle.std.specs.FinMap as fin;
    ghost use Rattle.std.specs.Ordering.{nat_cmp};
    ghost use Rattle.std.specs.Coded.{coded_ℕ};
    ghost use Rattle.mb_iface.specs.OpenCounts.{AreCounts};

    ghost Value = { fin.FinMap nat_cmp ℕ };

    ghost coded = { fin.code coded_ℕ coded_ℕ };

    ghost view = { λ o. fin.from_entries o.counts.entries };

    ghost invariant = { λ o. AreCounts (fin.from_entries o.counts.entries) };
}

impl Opens {
    /// No open file; needs no memory.
    pub fn new(alloc: Global) -> Opens
        ensures { result ≡ fin.empty }
    {
        Opens {
            counts: BTreeMap::new(alloc),
        }
    }

    /// The number of open files on an inode.
    pub fn count(&self, ino: u16) -> u32
        ensures count { result ≡ count_of self.now ino }
        ensures list { AreCounts self.now }
    {
        match self.counts.get(&ino) {
            Some(count) => *count,
            None => 0,
        }
    }

    /// Sets the number of open files on an inode; at 0 the inode leaves the map. The only error is
    /// want of memory, for an inode that had none; the map is then as before.
    pub fn set(&mut self, ino: u16, count: u32) -> Result<(), AllocError>
        ensures ok { OnOk result (self.new ≡ with_count self.old ino count) }
        ensures absent { OnErr result (fin.get self.old ino ≡ None) }
        ensures err { OnErr result (self.new ≡ self.old) }
    {
        if count == 0 {
            let _ = self.counts.remove(&ino);
            return Ok(());
        }
        self.counts.insert(ino, count)?;
        Ok(())
    }

    /// Whether there are as many open files on each inode here as there.
    pub fn same(&self, other: &Opens) -> bool
        ensures counts { Decides result ((ino : ℕ) → count_of self.now ino ≡ count_of other.now ino) }
        ensures maps { Decides result (self.now ≡ other.now) }
    {
        if self.counts.len() != other.counts.len() {
            return false;
        }
        self.counts == other.counts
    }

    /// The same counts again. The only error is want of memory.
    pub fn copy(&self) -> Result<Opens, AllocError>
        ensures { IfOk result (λ copy. copy ≡ self.now) }
    {
        Ok(Opens {
            counts: self.counts.clone()?,
        })
    }
}
