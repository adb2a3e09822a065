ghost use Rattle.std.specs.Prelude.{◌≡◌, ◌<◌, ◌≤◌, ◌+◌, ℕ, true, false, None, Some, length, OnOk, OnErr, IfOk, IfErr, IfSome, IsSome};
ghost use Rattle.mb_kinds.specs.Changed.{AreChanges};
ghost use Rattle.mb_cache.specs.State.{ReadHasCause};
ghost use Rattle.mb_journal.specs.Room.{KeepsRoom};
ghost use Rattle.mb_core_spec.specs.Events.{Leaves, with_room};
ghost use Rattle.mb_core_spec.specs.Numbers.{open_flight};
ghost use Rattle.mb_core_state.specs.Mine.{HasMine, OfMine};
ghost use Rattle.mb_core_state.specs.Answers.{with_disk, with_read};
ghost use Rattle.mb_core_state.specs.Redoing.{EndsByDevice, FailsStep, HasOpenRoom, IsReadAnew, IsRemounted, ReplaysNext, StaysBut, ActsSeenFor, IsRedoneFor, IsReplayedFor};
ghost use Rattle.mb_core_state.specs.Rooms.{HasPins};

use crate::acting::act_seen;
use crate::fields::Fields;
use mb_cache::{ReadFault, installs, seen_in_layers};
use mb_core_spec::{Stage, Step};
use mb_edge::{Disk, NoMemory};
use mb_iface::{Changes, FileSys};
use mb_kinds::Reply;
use std::alloc::Global;

impl<F: FileSys, D: Disk> Fields<F, D> {
    /// Whether a caller has a call in flight without an entry.
    fn awaits(&self, caller: u8) -> bool
        requires { caller < length self.now.callers }
        ensures waits { result ≡ true → OfMine self.now caller (λ mine. open_flight mine.flight ≡ mine.flight) }
        ensures there { result ≡ true → HasMine self.now caller (λ mine. IsSome mine.flight) }
        ensures none { result ≡ false → OfMine self.now caller (λ mine. open_flight mine.flight ≡ None) }
    {
        match self.callers.get(caller).flight() {
            Some(flight) => !flight.answered,
            None => false,
        }
    }

    /// The call for which a step of a recovery was made ends with the entry `Device`, where it has none; needs no memory.
    fn end_by_device(&mut self, by: Option<u8>)
        requires caller { IfSome by (λ caller. caller < length self.old.callers) }
        requires pins { IfSome by (HasPins self.old) }
        requires room { IfSome by (HasOpenRoom self.old) }
        ensures ends { EndsByDevice self.old self.new by }
        ensures disk { self.new.cache.disk ≡ self.old.cache.disk }
        ensures room { Leaves self.old.journal.room self.new.journal.room 0 1 }
    {
        let Some(caller) = by else {
            return;
        };
        if self.awaits(caller) {
            self.answer_by(caller, Reply::Device);
        }
    }
}

impl<F: FileSys, D: Disk> Fields<F, D> {
    /// Nothing is kept of what was read, and block 1 is read. `Device` comes only where the disk's count of faults rose.
    #[tactic(auto, using(crate::proofs::Kept::still_seen))]
    fn read_anew(&mut self) -> Result<(), ReadFault>
        ensures rest { self.new ≡ with_read self.old self.new.cache }
        ensures told { D.told self.new.cache.disk ≡ D.told self.old.cache.disk }
        ensures cause { ReadHasCause (D.faults self.old.cache.disk) (D.faults self.new.cache.disk) result }
        ensures anew { IsReadAnew self.new.cache.room.clean }
    {
        self.cache.forget_clean();
        self.cache.read(1, &mut [0; 512])
    }

    /// Nothing is kept of what was read, block 1 is read, and the log is folded. `Device` comes only where the disk's count
    /// of faults rose; on an error nothing has changed but the disk.
    #[tactic(auto, using(crate::proofs::Kept::still_seen))]
    fn start_anew(&mut self, alloc: Global) -> Result<(), ReadFault>
        requires { length self.old.journal.oplog < 4294967296 }
        ensures ok { OnOk result (IsRemounted self.old self.new) }
        ensures err { OnErr result (StaysBut self.old self.new) }
        ensures told { D.told self.new.cache.disk ≡ D.told self.old.cache.disk }
        ensures cause { ReadHasCause (D.faults self.old.cache.disk) (D.faults self.new.cache.disk) result }
        ensures room { self.old.journal.room.history ≤ self.new.journal.room.history }
    {
        self.journal.reserve_steps(1)?;
        self.read_anew()?;
        self.journal.fold(alloc)?;
        self.journal.mark(Step::Remounted);
        self.stage = Stage::Remounted;
        Ok(())
    }

    /// The file system is started anew, where the dirty pages were dropped, and the log is folded. `Device` comes only where
    /// the disk's count of faults rose; the call for which the step is made ends with that entry then, where it has none.
    pub fn remount(&mut self, alloc: Global, by: Option<u8>) -> Result<(), ReadFault>
        requires few { length self.old.journal.oplog < 4294967296 }
        requires caller { IfSome by (λ caller. caller < length self.old.callers) }
        requires pins { IfSome by (HasPins self.old) }
        requires room { IfSome by (HasOpenRoom self.old) }
        ensures ok { OnOk result (IsRemounted self.old self.new) }
        ensures err { IfErr result (FailsStep D.faults self.old self.new by) }
        ensures told { D.told self.new.cache.disk ≡ D.told self.old.cache.disk }
        ensures later { D.faults self.old.cache.disk ≤ D.faults self.new.cache.disk }
        ensures room { OnOk result (self.old.journal.room.history ≤ self.new.journal.room.history) }
    {
        match self.start_anew(alloc) {
            Ok(()) => Ok(()),
            Err(ReadFault::NoMemory) => Err(ReadFault::NoMemory),
            Err(ReadFault::Device) => {
                self.end_by_device(by);
                Err(ReadFault::Device)
            }
        }
    }
}

impl<F: FileSys, D: Disk> Fields<F, D> {
    /// What the file system makes of the operation at a place of the log, over blocks as they are seen. An operation that
    /// it refuses, which comes on no disk that tells a volume, is answered as want of memory.
    fn act_again(&mut self, alloc: Global, done: u32) -> Result<Changes, ReadFault>
        requires { done < length self.old.journal.oplog }
        ensures ok { IfOk result (ActsSeenFor D.told self.old done) }
        ensures rest { self.new ≡ with_read self.old self.new.cache }
        ensures told { D.told self.new.cache.disk ≡ D.told self.old.cache.disk }
        ensures cause { ReadHasCause (D.faults self.old.cache.disk) (D.faults self.new.cache.disk) result }
    {
        let logged = self.journal.operation(done);
        act_seen(
            alloc,
            &self.fs,
            &mut self.cache,
            &mut self.kept,
            self.tables.opens(),
            &logged.op,
            logged.pick,
        )
    }
}

impl<F: FileSys, D: Disk> Fields<F, D> {
    /// Room for an operation that is done again. The only error is want of memory.
    #[tactic(auto, using(crate::proofs::Kept::still_seen))]
    fn reserve_redo(&mut self, blocks: usize) -> Result<(), NoMemory>
        ensures same { self.new ≡ with_room self.old self.new }
        ensures pages { OnOk result (blocks ≤ self.new.cache.room.pages) }
        ensures trail { OnOk result (0 < self.new.journal.room.trail) }
        ensures kept { KeepsRoom self.old.journal.room self.new.journal.room }
    {
        self.cache.reserve(blocks)?;
        self.journal.reserve_steps(1)
    }

    /// The counts of open files follow the operation at a place of the log, and its changes are installed. The only error
    /// is want of memory, and nothing has changed then.
    fn install_again(&mut self, done: u32, changes: &Changes) -> Result<(), NoMemory>
        requires done { done < length self.old.journal.oplog }
        requires last { done < 4294967295 }
        requires pages { length changes.now ≤ self.old.cache.room.pages }
        requires are { AreChanges changes.now }
        requires trail { 0 < self.old.journal.room.trail }
        ensures ok { OnOk result (IsRedoneFor self.old self.new done changes.now) }
        ensures err { OnErr result (self.new ≡ self.old) }
        ensures disk { self.new.cache.disk ≡ self.old.cache.disk }
        ensures room { self.old.journal.room.history ≤ self.new.journal.room.history }
    {
        let logged = self.journal.operation(done);
        self.tables.redo(&logged.op, logged.pick)?;
        installs();
        seen_in_layers();
        self.cache.install(changes);
        self.kept.follow(changes);
        self.journal.mark(Step::Replayed(done + 1));
        self.stage = Stage::Restored(done + 1);
        Ok(())
    }

    /// The changes of an operation that is done again come into the core. The only error is want of memory, and nothing
    /// has changed then.
    fn put_again(&mut self, done: u32, changes: &Changes) -> Result<(), NoMemory>
        requires done { done < length self.old.journal.oplog }
        requires last { done < 4294967295 }
        ensures ok { OnOk result (IsRedoneFor self.old self.new done changes.now) }
        ensures are { OnOk result (AreChanges changes.now) }
        ensures err { OnErr result ((self.new ≡ with_room self.old self.new)
            × KeepsRoom self.old.journal.room self.new.journal.room) }
        ensures disk { self.new.cache.disk ≡ self.old.cache.disk }
        ensures room { self.old.journal.room.history ≤ self.new.journal.room.history }
    {
        let blocks = changes.len();
        self.reserve_redo(blocks)?;
        self.install_again(done, changes)
    }

    /// The operation at a place of the log is done again. `Device` comes only where the disk's count of faults rose; on an
    /// error nothing has changed but the disk.
    fn redo(&mut self, alloc: Global, done: u32) -> Result<(), ReadFault>
        requires done { done < length self.old.journal.oplog }
        requires last { done < 4294967295 }
        ensures ok { OnOk result (IsReplayedFor D.told self.old self.new done) }
        ensures err { OnErr result (StaysBut self.old self.new) }
        ensures told { D.told self.new.cache.disk ≡ D.told self.old.cache.disk }
        ensures cause { ReadHasCause (D.faults self.old.cache.disk) (D.faults self.new.cache.disk) result }
        ensures room { self.old.journal.room.history ≤ self.new.journal.room.history }
    {
        let changes = self.act_again(alloc, done)?;
        self.put_again(done, &changes)?;
        Ok(())
    }

    /// The next operation of the log is done again, where the open files were restored. `Device` comes only where the
    /// disk's count of faults rose; the call for which the step is made ends with that entry then, where it has none.
    /// `NoMemory` comes too where the file system refuses the operation, which it does on no disk that tells a volume.
    pub fn replay_one(&mut self, alloc: Global, by: Option<u8>) -> Result<(), ReadFault>
        requires next { (done : ℕ) × (self.old.stage ≡ Stage.Restored done) × (done < length self.old.journal.oplog) }
        requires few { length self.old.journal.oplog < 4294967296 }
        requires caller { IfSome by (λ caller. caller < length self.old.callers) }
        requires pins { IfSome by (HasPins self.old) }
        requires room { IfSome by (HasOpenRoom self.old) }
        ensures ok { OnOk result (ReplaysNext D.told self.old self.new) }
        ensures err { IfErr result (FailsStep D.faults self.old self.new by) }
        ensures told { D.told self.new.cache.disk ≡ D.told self.old.cache.disk }
        ensures later { D.faults self.old.cache.disk ≤ D.faults self.new.cache.disk }
        ensures room { OnOk result (self.old.journal.room.history ≤ self.new.journal.room.history) }
    {
        let Stage::Restored(done) = self.stage else {
            unreachable!()
        };
        match self.redo(alloc, done) {
            Ok(()) => Ok(()),
            Err(ReadFault::NoMemory) => Err(ReadFault::NoMemory),
            Err(ReadFault::Device) => {
                self.end_by_device(by);
                Err(ReadFault::Device)
            }
        }
    }
}
