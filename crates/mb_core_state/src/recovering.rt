ghost use Rattle.std.specs.Prelude.{◌≡◌, ◌<◌, ◌≤◌, ◌+◌, length, nat_lt, OnOk, OnErr, IsOk};
ghost use Rattle.mb_core_spec.specs.Events.{Leaves, with_room};
ghost use Rattle.mb_core_spec.specs.Recovery.{dropping, failing, flushing, resuming};
ghost use Rattle.mb_cache.specs.State.{Flushes};
ghost use Rattle.mb_core_spec.specs.Callers.{insiders};
ghost use Rattle.mb_core_state.specs.Answers.{phase_of};
ghost use Rattle.mb_core_state.specs.Redoing.{Reopens, SealsAll};
ghost use Rattle.mb_journal.specs.Room.{KeepsRoom};

use crate::answers::Phase;
use crate::fields::Fields;
use mb_cache::Flushed;
use mb_core_spec::{Stage, Step};
use mb_edge::{Disk, NoMemory};
use mb_iface::FileSys;
use std::alloc::Global;

impl<F: FileSys, D: Disk> Fields<F, D> {
    /// The next step of a recovery; `Idle` exactly where none is in progress.
    pub fn phase(&self) -> Phase
        requires { length self.now.journal.oplog < 4294967296 }
        ensures { result ≡ phase_of self.now.stage (nat_lt 0 (insiders self.now.callers)) (length self.now.journal.oplog) }
    {
        match self.stage {
            Stage::Running | Stage::Failed => Phase::Idle,
            Stage::Struck => {
                if self.callers.insiders() > 0 {
                    Phase::Unwind
                } else {
                    Phase::Drop
                }
            }
            Stage::Again => Phase::Drop,
            Stage::Dropped => Phase::Remount,
            Stage::Remounted => Phase::Reopen,
            Stage::Restored(done) => {
                if done < self.journal.logged() {
                    Phase::Replay(done + 1)
                } else {
                    Phase::Resume
                }
            }
        }
    }

    /// The dirty pages are dropped; needs no memory.
    #[tactic(auto, using(crate::proofs::Kept::none_seen))]
    pub fn drop_pages(&mut self)
        requires { 0 < self.old.journal.room.trail }
        ensures dropped { self.new ≡ with_room (dropping self.old) self.new }
        ensures room { Leaves self.old.journal.room self.new.journal.room 1 0 }
    {
        self.kept.clear();
        self.cache.drop_current();
        self.journal.mark(Step::Dropped);
        self.stage = Stage::Dropped;
    }

    /// The volume is given up; needs no memory.
    #[tactic(auto, using(crate::proofs::Kept::none_seen))]
    pub fn give_up(&mut self)
        requires room { 0 < self.old.journal.room.trail }
        requires few { length self.old.journal.records < 4294967296 }
        ensures failed { self.new ≡ with_room (failing self.old) self.new }
        ensures room { Leaves self.old.journal.room self.new.journal.room 1 0 }
    {
        let faults = self.journal.records().len() as u32;
        self.kept.clear();
        self.cache.drop_current();
        self.journal.mark(Step::Failed(faults));
        self.stage = Stage::Failed;
    }

    /// The open files become those of the saved sessions. The only error is want of memory, and nothing has changed then.
    pub fn reopen(&mut self, alloc: Global) -> Result<(), NoMemory>
        ensures ok { OnOk result (Reopens self.old self.new) }
        ensures err { OnErr result (self.new ≡ with_room self.old self.new) }
        ensures room { self.old.journal.room.history ≤ self.new.journal.room.history }
    {
        self.journal.reserve_steps(1)?;
        self.tables.reopen(alloc)?;
        self.journal.mark(Step::Reopened);
        self.stage = Stage::Restored(0);
        Ok(())
    }

    /// The volume runs again. The only error is want of memory, and nothing has changed then.
    pub fn resume(&mut self) -> Result<(), NoMemory>
        ensures ok { OnOk result (self.new ≡ with_room (resuming self.old) self.new) }
        ensures err { OnErr result (self.new ≡ with_room self.old self.new) }
        ensures room { self.old.journal.room.history ≤ self.new.journal.room.history }
    {
        self.journal.reserve_steps(1)?;
        self.journal.mark(Step::Resumed);
        self.stage = Stage::Running;
        Ok(())
    }

    /// A checkpoint is taken. The only error is want of memory, which does not come where there is room for its step of
    /// the trace and ten more; nothing has changed then.
    #[tactic(auto, using(crate::proofs::Kept::none_seen))]
    pub fn seal(&mut self) -> Result<(), NoMemory>
        requires { length self.old.journal.history < 4294967296 }
        ensures ok { OnOk result (SealsAll self.old self.new) }
        ensures err { OnErr result (self.new ≡ with_room self.old self.new) }
        ensures sure { 11 ≤ self.old.journal.room.trail → IsOk result }
        ensures marks { OnOk result ((10 ≤ self.new.journal.room.trail)
            × (self.old.journal.room.records ≤ self.new.journal.room.records)) }
        ensures kept { OnErr result (KeepsRoom self.old.journal.room self.new.journal.room) }
        ensures room { self.old.journal.room.history ≤ self.new.journal.room.history }
    {
        self.journal.reserve_steps(11)?;
        self.kept.clear();
        self.cache.seal();
        self.tables.seal();
        self.journal.seal();
        Ok(())
    }

    /// Writes one checkpointed page back; needs no memory.
    #[tactic(auto, using(crate::proofs::Kept::none_seen))]
    pub fn flush_one(&mut self) -> Flushed
        ensures flushes { Flushes D.told D.faults self.old.cache self.new.cache result }
        ensures rest { self.new ≡ with_room (flushing self.old self.new.cache.disk self.new.cache.sealed) self.new }
        ensures room { self.new.journal.room ≡ self.old.journal.room }
    {
        self.kept.clear();
        self.cache.flush_one()
    }
}
