ghost use Rattle.std.specs.Prelude.{◌≡◌, ◌∷◌, ◌++◌, ◌+◌, ◌<◌, ◌≤◌, [], OnOk, OnErr, IsOk, IfSome, IfNone};

use mb_edge::NoMemory;
use mb_room::Roomy;
use std::alloc::Global;
use std::marker::Model;

/// What a call in flight did that is taken back when the call is unwound.
#[derive(Clone, Copy, Debug, PartialEq, Eq, Drop)]
pub enum Undo {
    /// It entered.
    Entered,
    /// It pinned this block.
    Pinned(u32),
    /// It reserved this descriptor, one of 3 to 19.
    Reserved(u16),
    /// It took the right to commit alone.
    Floor,
}

/// What a call in flight did that is taken back. A contract sees the list, the newest step last, and the room.
#[derive(Drop)]
pub struct Ulog {
    steps: Roomy<Undo>,
}

impl Model for Ulog {
    ghost use Rattle.mb_room.specs.Room.{Roomy};
    ghost use Rattle.mb_gate.specs.declared.ulogs.Undo.{Undo};

    ghost Value = { Roomy Undo };

    ghost view = { λ log. log.steps };
}

impl Ulog {
    /// The empty log; needs no memory.
    pub fn new(alloc: Global) -> Ulog
        ensures { result.items ≡ [] }
    {
        Ulog {
            steps: Roomy::new(alloc),
        }
    }

    /// Makes room for so many more steps. Nothing else changes. The only error is want of memory, and it does not
    /// come where there is room already.
    pub fn reserve(&mut self, more: usize) -> Result<(), NoMemory>
        ensures ok { OnOk result (more ≤ self.new.spare) }
        ensures same { self.new.items ≡ self.old.items }
        ensures kept { self.old.spare ≤ self.new.spare }
        ensures sure { more ≤ self.old.spare → IsOk result }
    {
        self.steps.reserve(more)
    }

    /// Adds the newest step. The only error is want of memory, which does not come where there is room; the log is
    /// then as before.
    pub fn push(&mut self, step: Undo) -> Result<(), NoMemory>
        ensures ok { OnOk result (self.new.items ≡ self.old.items ++ step ∷ []) }
        ensures err { OnErr result (self.new.items ≡ self.old.items) }
        ensures sure { 0 < self.old.spare → IsOk result }
        ensures spare { self.old.spare ≤ self.new.spare + 1 }
    {
        self.steps.reserve(1)?;
        self.steps.push(step);
        Ok(())
    }

    /// Takes the newest step out, which leaves room for it; `None` exactly where the log is empty. Needs no memory.
    pub fn pop(&mut self) -> Option<Undo>
        ensures some { IfSome result (λ step. self.old.items ≡ self.new.items ++ step ∷ []) }
        ensures spare { IfSome result (λ step. self.old.spare + 1 ≤ self.new.spare) }
        ensures none { IfNone result (self.old.items ≡ []) }
        ensures same { IfNone result (self.new ≡ self.old) }
    {
        self.steps.pop()
    }
}
