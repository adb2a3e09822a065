ghost use Rattle.std.specs.Prelude.{◌≡◌, ◌∷◌, ◌++◌, ◌+◌, ◌<◌, ◌≤◌, [], Some, length, OnOk, IsOk, slice_get};

use mb_edge::NoMemory;
use mb_room::Roomy;
use mb_tree::FsOp;
use std::alloc::Global;
use std::marker::Model;

/// An operation as it is logged: with the number of the inode that it made, `None` where it made none.
#[derive(Drop)]
pub struct Logged {
    pub op: FsOp,
    pub pick: Option<u16>,
}

/// The operations since the last checkpoint, in the order in which they were done. A contract sees the list and
/// the room.
#[derive(Drop)]
pub struct Oplog {
    ops: Roomy<Logged>,
}

impl Model for Oplog {
    ghost use Rattle.std.specs.Coded.{codes, coded_ℕ};
    ghost use Rattle.mb_oplog.specs.contracts.oplogs.Logged as logged;
    ghost use Rattle.mb_room.specs.Room.{Roomy};
    ghost use Rattle.mb_oplog.specs.declared.oplogs.Logged.{Logged};

    ghost Value = { Roomy Logged };

    ghost view = { λ log. log.ops };
}

impl Oplog {
    /// The empty log; needs no memory.
    pub fn new(alloc: Global) -> Oplog
        ensures { result.items ≡ [] }
    {
        Oplog {
            ops: Roomy::new(alloc),
        }
    }

    /// Makes room for so many more operations. Nothing else changes. The only error is want of memory, and it
    /// does not come where there is room already.
    pub fn reserve(&mut self, more: u32) -> Result<(), NoMemory>
        ensures ok { OnOk result (more ≤ self.new.spare) }
        ensures same { self.new.items ≡ self.old.items }
        ensures kept { self.old.spare ≤ self.new.spare }
        ensures sure { more ≤ self.old.spare → IsOk result }
    {
        self.ops.reserve(more as usize)
    }

    /// Appends an operation; needs no memory.
    pub fn push(&mut self, op: FsOp, pick: Option<u16>)
        requires { 0 < self.old.spare }
        ensures items { self.new.items ≡ self.old.items ++ (record { op = op; pick = pick }) ∷ [] }
        ensures spare { self.old.spare ≤ self.new.spare + 1 }
    {
        self.ops.push(Logged { op, pick });
    }

    /// The operation at a place, from 0.
    pub fn get(&self, at: u32) -> &Logged
        requires { at < length self.now.items }
        ensures { slice_get self.now.items at ≡ Some result.now }
    {
        &self.ops.as_slice()[at as usize]
    }

    /// How many operations there are.
    pub fn len(&self) -> u32
        requires { length self.now.items < 4294967296 }
        ensures { result ≡ length self.now.items }
    {
        self.ops.len() as u32
    }

    /// Drops all operations and keeps the room; needs no memory.
    pub fn clear(&mut self)
        ensures items { self.new.items ≡ [] }
        ensures spare { self.old.spare + length self.old.items ≤ self.new.spare }
    {
        self.ops.clear();
    }
}
