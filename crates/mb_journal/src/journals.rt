ghost use Rattle.std.specs.Prelude.{◌≡◌, ◌∷◌, ◌++◌, ◌+◌, ◌<◌, ◌≤◌, [], ℕ, Some, length, slice_get, OnErr, OnOk, IsOk};
ghost use Rattle.mb_folds.specs.Folded.{folded};
ghost use Rattle.mb_core_spec.specs.Events.{Leaves, booked, logged_op, marked};
ghost use Rattle.mb_core_spec.specs.Histories.{picked_ops};
ghost use Rattle.mb_core_spec.specs.Recovery.{checkpointed, with_fault};
ghost use Rattle.mb_journal.specs.Room.{HasEntryRoom, KeepsRoom, LeavesFault};

use mb_core_spec::Step;
use mb_edge::NoMemory;
use mb_kinds::{Entry, FaultRecord, Ticket};
use mb_oplog::{Logged, Oplog};
use mb_room::Roomy;
use mb_tree::FsOp;
use std::alloc::Global;
use std::marker::Model;

/// The history, the fault records, the event trace and the log of operations of a core, and at how many entries its last
/// checkpoint was taken. A contract sees a `JournalState`.
pub struct Journal {
    history: Roomy<Entry>,
    records: Roomy<FaultRecord>,
    trail: Roomy<Step>,
    oplog: Oplog,
    sealed_at: u32,
}

// written out, so that a crate above which lets a journal go checks one call
impl Drop for Journal {
    fn drop(self) {
        let Journal {
            history: _,
            records: _,
            trail: _,
            oplog: _,
            sealed_at: _,
        } = self;
    }
}

impl Model for Journal {
    ghost use Rattle.std.specs.Coded.{codes, coded_ℕ};
    ghost use Rattle.mb_core_spec.specs.State.{JournalState};

    ghost Value = { JournalState };

    ghost view = { λ j. record {
      history = j.history.items;
      records = j.records.items;
      trail = j.trail.items;
      oplog = j.oplog.items;
      sealed_at = j.sealed_at;
      room = record { oplog = j.oplog.spare; history = j.history.spare; records = j.records.spare; trail = j.trail.spare };
    } };
}

impl Journal {
    /// The empty journal, of a checkpoint at no entry; needs no memory.
    pub fn new(alloc: Global) -> Journal
        ensures { result ≡ record { history = []; records = []; trail = []; oplog = []; sealed_at = 0; room = result.room } }
    {
        Journal {
            history: Roomy::new(alloc),
            records: Roomy::new(alloc),
            trail: Roomy::new(alloc),
            oplog: Oplog::new(alloc),
            sealed_at: 0,
        }
    }

    /// The entries of the answered calls, in order.
    pub fn history(&self) -> &[Entry]
        ensures { result.now ≡ self.now.history }
    {
        self.history.as_slice()
    }

    /// The fault records, in order; they are numbered from 1.
    pub fn records(&self) -> &[FaultRecord]
        ensures { result.now ≡ self.now.records }
    {
        self.records.as_slice()
    }

    /// The event trace.
    pub fn trail(&self) -> &[Step]
        ensures { result.now ≡ self.now.trail }
    {
        self.trail.as_slice()
    }

    /// At how many entries the last checkpoint was taken; 0 before the first.
    pub fn sealed_at(&self) -> u32
        ensures { result ≡ self.now.sealed_at }
    {
        self.sealed_at
    }

    /// How many operations the log has: those since the last checkpoint, as they were logged or folded.
    pub fn logged(&self) -> u32
        requires { length self.now.oplog < 4294967296 }
        ensures { result ≡ length self.now.oplog }
    {
        self.oplog.len()
    }

    /// The operation at a place of the log, from 0.
    pub fn operation(&self, at: u32) -> &Logged
        requires { at < length self.now.oplog }
        ensures { slice_get self.now.oplog at ≡ Some result.now }
    {
        self.oplog.get(at)
    }

    /// Makes room for a call that enters or finishes: an entry and an operation for each of eight callers, a fault, and
    /// twelve steps of the trace. Nothing else changes. The only error is want of memory, and it does not come where
    /// there is room already.
    pub fn reserve_entry(&mut self) -> Result<(), NoMemory>
        ensures same { self.new ≡ record self.old { room = self.new.room } }
        ensures ok { OnOk result (HasEntryRoom self.new.room) }
        ensures kept { KeepsRoom self.old.room self.new.room }
        ensures sure { HasEntryRoom self.old.room → IsOk result }
    {
        self.oplog.reserve(8)?;
        self.history.reserve(8)?;
        self.records.reserve(1)?;
        self.trail.reserve(12)?;
        Ok(())
    }

    /// Makes room for the entries of eight calls in flight. Nothing else changes. The only error is want of memory, and
    /// it does not come where there is room already.
    pub fn reserve_answers(&mut self) -> Result<(), NoMemory>
        ensures same { self.new ≡ record self.old { room = record self.old.room { history = self.new.room.history } } }
        ensures ok { OnOk result (8 ≤ self.new.room.history) }
        ensures kept { self.old.room.history ≤ self.new.room.history }
        ensures sure { 8 ≤ self.old.room.history → IsOk result }
    {
        self.history.reserve(8)
    }

    /// Makes room for so many steps of the trace. Nothing else changes. The only error is want of memory, and it does
    /// not come where there is room already.
    pub fn reserve_steps(&mut self, steps: usize) -> Result<(), NoMemory>
        ensures same { self.new ≡ record self.old { room = record self.old.room { trail = self.new.room.trail } } }
        ensures ok { OnOk result (steps ≤ self.new.room.trail) }
        ensures kept { self.old.room.trail ≤ self.new.room.trail }
        ensures sure { steps ≤ self.old.room.trail → IsOk result }
    {
        self.trail.reserve(steps)
    }

    /// Makes room for a fault in a recovery: its record, its step of the trace and the step that follows. Nothing else
    /// changes. The only error is want of memory, and it does not come where there is room already.
    pub fn reserve_fault(&mut self) -> Result<(), NoMemory>
        ensures same { self.new ≡ record self.old { room = self.new.room } }
        ensures ok { OnOk result ((1 ≤ self.new.room.records) × (2 ≤ self.new.room.trail)) }
        ensures kept { KeepsRoom self.old.room self.new.room }
        ensures sure { 1 ≤ self.old.room.records → 2 ≤ self.old.room.trail → IsOk result }
    {
        self.records.reserve(1)?;
        self.trail.reserve(2)?;
        Ok(())
    }

    /// One step of the trace more; needs no memory.
    pub fn mark(&mut self, step: Step)
        requires { 0 < self.old.room.trail }
        ensures marked { self.new ≡ record (marked self.old step) { room = self.new.room } }
        ensures room { Leaves self.old.room self.new.room 1 0 }
    {
        self.trail.push(step);
    }

    /// One entry more, of a call that ends without a step of the trace; needs no memory.
    pub fn answer(&mut self, entry: Entry)
        requires { 0 < self.old.room.history }
        ensures answered { self.new ≡ record self.old { history = self.old.history ++ entry ∷ []; room = self.new.room } }
        ensures room { Leaves self.old.room self.new.room 0 1 }
    {
        self.history.push(entry);
    }

    /// The entry of a call that is logged, with its operation and the number of the inode that the operation made; needs
    /// no memory.
    pub fn log(&mut self, entry: Entry, op: Option<FsOp>, pick: Option<u16>, ticket: Ticket)
        requires oplog { 0 < self.old.room.oplog }
        requires history { 0 < self.old.room.history }
        requires trail { 0 < self.old.room.trail }
        ensures logged { self.new ≡ record (booked self.old entry (logged_op op pick) ticket) { room = self.new.room } }
        ensures room { Leaves self.old.room self.new.room 1 1 }
    {
        self.history.push(entry);
        if let Some(op) = op {
            self.oplog.push(op, pick);
        }
        self.trail.push(Step::Logged(ticket));
    }

    /// One fault more, with its step of the trace; gives its number, from 1. Needs no memory.
    pub fn record(&mut self, fault: FaultRecord) -> u32
        requires records { 0 < self.old.room.records }
        requires trail { 0 < self.old.room.trail }
        requires few { length self.old.records < 4294967295 }
        ensures recorded { self.new ≡ record (with_fault self.old fault) { room = self.new.room } }
        ensures number { result ≡ length self.old.records + 1 }
        ensures room { LeavesFault self.old.room self.new.room }
    {
        let number = self.records.len() as u32 + 1;
        self.records.push(fault);
        self.trail.push(Step::Struck(number));
        number
    }

    /// Folds the log of operations, before a recovery does it again. Nothing else changes. The only error is want of
    /// memory, and nothing has changed then.
    pub fn fold(&mut self, alloc: Global) -> Result<(), NoMemory>
        requires { length self.old.oplog < 4294967296 }
        ensures same { self.new ≡ record self.old {
          oplog = self.new.oplog;
          room = record self.old.room { oplog = self.new.room.oplog };
        } }
        ensures ok { OnOk result (picked_ops self.new.oplog ≡ folded (picked_ops self.old.oplog)) }
        ensures err { OnErr result (self.new ≡ self.old) }
        ensures kept { self.old.room.oplog ≤ self.new.room.oplog }
    {
        mb_oplog_fold::fold(alloc, &mut self.oplog)
    }

    /// A checkpoint at the present number of entries: the log is empty after it. Needs no memory.
    pub fn seal(&mut self)
        requires trail { 0 < self.old.room.trail }
        requires few { length self.old.history < 4294967296 }
        ensures sealed { self.new ≡ record (checkpointed self.old) { room = self.new.room } }
        ensures room { Leaves self.old.room self.new.room 1 0 }
        ensures log { self.old.room.oplog ≤ self.new.room.oplog }
    {
        let entries = self.history.len() as u32;
        self.oplog.clear();
        self.sealed_at = entries;
        self.trail.push(Step::Sealed(entries));
    }
}
