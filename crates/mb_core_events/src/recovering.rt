ghost use Rattle.std.specs.Prelude.{◌≡◌, ◌<◌, ◌≤◌, ◌+◌, length, Some, IfErr, IfOk, IfSome, OnOk, OnErr, IsOk};
ghost use Rattle.mb_cache.specs.State.{Flushes};
ghost use Rattle.mb_core_spec.specs.Events.{with_room};
ghost use Rattle.mb_core_spec.specs.Recovery.{dropping, failing, flushing, resuming, striking_again};
ghost use Rattle.mb_core_spec.specs.Right.{Right};
ghost use Rattle.mb_core_state.specs.Redoing.{FailsStep, IsRemounted, Reopens, ReplaysNext, SealsAll};
ghost use Rattle.mb_core_state.specs.Mine.{OfFlight};
ghost use Rattle.mb_core_events.specs.Callings.{HasCall, MayMeetFault, MayReplayNow, Unwinds, phase_now};

use crate::events::Core;
use mb_cache::{Flushed, ReadFault};
use mb_core_spec::Stage;
use mb_core_state::Phase;
use mb_edge::{Disk, Hook, NoMemory};
use mb_iface::FileSys;
use mb_kinds::{Kind, Ticket};
use mb_tables::counts_follow_operations;
use std::alloc::Global;

impl<F: FileSys, D: Disk> Core<F, D> {
    /// Takes a checkpoint: the current pages await their write-back, the sessions are kept, the operation log is cleared. The
    /// only error is want of memory, and it does not come right after a `finish` that answered `Logged`.
    pub fn seal(&mut self) -> Result<(), NoMemory>
        requires { self.old.stage ≡ Stage.Running }
        ensures ok { OnOk result (SealsAll self.old self.new) }
        ensures err { OnErr result (self.new ≡ with_room self.old self.new) }
        ensures sure { 11 ≤ self.old.journal.room.trail → IsOk result }
        ensures right { Right D.told D.faults self.new }
    {
        self.fields.seal()
    }

    /// Writes one checkpointed page back to the disk; `Clean` exactly where none waits, `Device` only where the disk's count of
    /// faults rose, with the page still waiting. Needs no memory.
    pub fn flush_one(&mut self) -> Flushed
        ensures flushes { Flushes D.told D.faults self.old.cache self.new.cache result }
        ensures rest { self.new ≡ with_room (flushing self.old self.new.cache.disk self.new.cache.sealed) self.new }
        ensures right { Right D.told D.faults self.new }
    {
        self.fields.flush_one()
    }

    /// The next step of a recovery; `Idle` exactly where none is in progress.
    pub fn phase(&self) -> Phase
        ensures { result ≡ phase_now self.now }
    {
        self.fields.phase()
    }

    /// The call inside of the least caller is unwound to where it entered; it stays a call in flight, and its ticket is given.
    /// What it took is given back. Needs no memory.
    pub fn unwind(&mut self) -> Ticket
        requires { phase_now self.old ≡ Phase.Unwind }
        ensures unwinds { Unwinds self.old self.new result }
        ensures right { Right D.told D.faults self.new }
    {
        let Some(caller) = self.fields.first_inside() else {
            unreachable!()
        };
        let ticket = self.fields.ticket(caller);
        self.fields.unwind(ticket);
        ticket
    }

    /// The dirty pages are dropped, where at most as many faults struck as are recovered from. Needs no memory.
    pub fn drop_pages(&mut self)
        requires phase { phase_now self.old ≡ Phase.Drop }
        requires few { length self.old.journal.records ≤ self.old.config.limit }
        ensures dropped { self.new ≡ with_room (dropping self.old) self.new }
        ensures right { Right D.told D.faults self.new }
    {
        self.fields.drop_pages();
    }

    /// The volume is given up, where more faults struck than are recovered from. Needs no memory.
    pub fn give_up(&mut self)
        requires phase { phase_now self.old ≡ Phase.Drop }
        requires many { self.old.config.limit < length self.old.journal.records }
        ensures failed { self.new ≡ with_room (failing self.old) self.new }
        ensures right { Right D.told D.faults self.new }
    {
        self.fields.give_up();
    }

    /// The file system is started anew: block 1 is read, and the operation log is folded. `Device` comes only where the disk's
    /// count of faults rose; the call in flight of the caller `by` gets the entry `Device` then, where it has none.
    pub fn remount(&mut self, alloc: Global, by: Option<u8>) -> Result<(), ReadFault>
        requires phase { phase_now self.old ≡ Phase.Remount }
        requires by { IfSome by (λ caller. caller < length self.old.config.callers) }
        ensures ok { OnOk result (IsRemounted self.old self.new) }
        ensures err { IfErr result (FailsStep D.faults self.old self.new by) }
        ensures told { D.told self.new.cache.disk ≡ D.told self.old.cache.disk }
        ensures later { D.faults self.old.cache.disk ≤ D.faults self.new.cache.disk }
        ensures right { Right D.told D.faults self.new }
    {
        self.fields.remount(alloc, by)
    }

    /// The next operation of the log is done again. `Device` comes only where the disk's count of faults rose; the call in flight
    /// of the caller `by` gets the entry `Device` then, where it has none.
    pub fn replay_one(&mut self, alloc: Global, by: Option<u8>) -> Result<(), ReadFault>
        requires phase { MayReplayNow (phase_now self.old) }
        requires by { IfSome by (λ caller. caller < length self.old.config.callers) }
        ensures ok { OnOk result (ReplaysNext D.told self.old self.new) }
        ensures err { IfErr result (FailsStep D.faults self.old self.new by) }
        ensures told { D.told self.new.cache.disk ≡ D.told self.old.cache.disk }
        ensures later { D.faults self.old.cache.disk ≤ D.faults self.new.cache.disk }
        ensures right { Right D.told D.faults self.new }
    {
        counts_follow_operations();
        self.fields.replay_one(alloc, by)
    }

    /// The open files become those of the last checkpoint's sessions. The only error is want of memory, and nothing has changed
    /// then.
    pub fn reopen(&mut self, alloc: Global) -> Result<(), NoMemory>
        requires { phase_now self.old ≡ Phase.Reopen }
        ensures ok { OnOk result (Reopens self.old self.new) }
        ensures err { OnErr result (self.new ≡ with_room self.old self.new) }
        ensures right { Right D.told D.faults self.new }
    {
        self.fields.reopen(alloc)
    }

    /// The volume runs again, once the whole log was done again. The only error is want of memory, and nothing has changed then.
    pub fn resume(&mut self) -> Result<(), NoMemory>
        requires { phase_now self.old ≡ Phase.Resume }
        ensures ok { OnOk result (self.new ≡ with_room (resuming self.old) self.new) }
        ensures err { OnErr result (self.new ≡ with_room self.old self.new) }
        ensures right { Right D.told D.faults self.new }
    {
        self.fields.resume()
    }

    /// A fault that a hook struck in a recovery, at a crossing of a caller's call in flight: it is recorded, its damage is done,
    /// and the recovery begins anew in the same incarnation. Gives the fault's number, from 1. The only error is want of memory,
    /// and nothing has changed then.
    pub fn strike<H: Hook>(
        &mut self,
        caller: u8,
        kind: Kind,
        nth: u32,
        hook: &H,
    ) -> Result<u32, NoMemory>
        requires phase { MayMeetFault (phase_now self.old) }
        requires struck { (of : HasCall self.old caller)
            × (H.struck hook.now ≡ Some (record { caller = caller; ordinal = of.flight.ordinal; kind = kind; nth = nth })) }
        ensures ok { OnOk result (OfFlight self.old caller (λ mine flight.
            self.new ≡ with_room (striking_again self.old caller flight.ordinal kind nth (H.strokes hook.now)) self.new)) }
        ensures number { IfOk result (λ number. number ≡ length self.old.journal.records + 1) }
        ensures err { OnErr result (self.new ≡ with_room self.old self.new) }
        ensures right { Right D.told D.faults self.new }
    {
        let Some(damage) = hook.damage() else {
            unreachable!()
        };
        self.fields.reserve_fault()?;
        let ordinal = self.fields.ordinal_of(caller);
        Ok(self.fields.strike_again(caller, ordinal, kind, nth, damage))
    }
}
