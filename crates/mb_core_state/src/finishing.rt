ghost use Rattle.std.specs.Prelude.{◌≡◌, ◌<◌, ◌≤◌, ◌^◌, ◌-◌, true, Some, length, slice_get, OnOk, OnErr, IfOk, IfErr, IfSome, IfNone, IsSome};
ghost use Rattle.mb_kinds.specs.declared.entries.Flight.{Flight};
ghost use Rattle.mb_tree.specs.Sessions.{HasDescriptorInRange};
ghost use Rattle.mb_core_spec.specs.Events.{Leaves, floor_after, with_room};
ghost use Rattle.mb_core_spec.specs.Flights.{IsMine};
ghost use Rattle.mb_core_spec.specs.State.{CallerState};
ghost use Rattle.mb_journal.specs.Room.{HasEntryRoom, KeepsRoom};
ghost use Rattle.mb_kinds.specs.Changed.{AreChanges};
ghost use Rattle.mb_core_state.specs.Mine.{HasMine, OfMine};
ghost use Rattle.mb_core_state.specs.Answers.{IsPresent};
ghost use Rattle.mb_core_state.specs.Finishing.{Finishes, HolderFlies, IsBusy, putting, FinishesFor, AreFreshIn, IsLeastStaleIn, IsEntryFor, GathersAnew};
ghost use Rattle.mb_core_state.specs.Rooms.{FinishLeaves, HasPins};

use crate::answers::Finished;
use crate::fields::Fields;
use crate::logging::op_and_reply;
use mb_callers::Pages;
use mb_core_spec::{Ready, Step};
use mb_edge::{Disk, NoMemory};
use mb_iface::FileSys;
use mb_kinds::{Entry, Ticket};
use std::alloc::Global;

impl<F: FileSys, D: Disk> Fields<F, D> {
    /// The ticket of the other caller's call that has the right to commit alone; `None` exactly where nobody has it, or
    /// this caller.
    pub(crate) fn busy(&self, caller: u8) -> Option<Ticket>
        requires { HolderFlies self.now.floor self.now.callers }
        ensures some { IfSome result (λ holder. IsBusy self.now caller holder) }
        ensures none { IfNone result (IsMine caller self.now.floor) }
    {
        let Some(holder) = self.floor else {
            return None;
        };
        if holder == caller {
            return None;
        }
        Some(self.ticket(holder))
    }

    /// What a call without its entry comes to is installed, with room for its entry, which is given. The only error is want
    /// of memory, and nothing has changed then.
    fn put_ready(&mut self, alloc: Global, caller: u8, ready: &Ready) -> Result<Entry, NoMemory>
        requires flight { HasMine self.old caller (λ mine. IsSome mine.flight) }
        requires seats { caller < length self.old.tables.sessions }
        requires session { HasDescriptorInRange ready.now.session }
        requires few { self.old.tables.stamp < 2 ^ 64 - 1 }
        ensures ok { OnOk result (self.new
            ≡ with_room (putting self.old caller ready.now.op ready.now.pick ready.now.changes ready.now.session) self.new) }
        ensures entry { IfOk result (IsEntryFor self.old caller ready.now.pick ready.now.reply) }
        ensures err { OnErr result (self.new ≡ with_room self.old self.new) }
        ensures lists { OnOk result (HasEntryRoom self.new.journal.room) }
        ensures changes { OnOk result (AreChanges ready.now.changes) }
        ensures kept { KeepsRoom self.old.journal.room self.new.journal.room }
    {
        self.reserve_log(ready.changes.len())?;
        let entry = self.entry_of(alloc, caller, ready.pick, &ready.reply)?;
        self.put(caller, &ready.op, ready.pick, &ready.changes, ready.session)?;
        Ok(entry)
    }
}

impl<F: FileSys, D: Disk> Fields<F, D> {
    /// A call without its entry finishes over its pages. The answers come in the order `Skip`, `Busy`, `Stale`, `Logged`;
    /// `NoMemory` may come in the place of the last two, and nothing has changed then. After `Logged` a checkpoint is not
    /// refused.
    pub fn finish(
        &mut self,
        alloc: Global,
        ticket: &Ticket,
        pages: &Pages,
        ready: Ready,
    ) -> Finished
        requires flight { HasMine self.old ticket.now.caller (λ mine. IsSome mine.flight) }
        requires inside { IsPresent self.old ticket.now → HasMine self.old ticket.now.caller (λ mine. mine.inside ≡ true) }
        requires pins { HasPins self.old ticket.now.caller }
        requires holder { HolderFlies self.old.floor self.old.callers }
        requires seats { ticket.now.caller < length self.old.tables.sessions }
        requires session { HasDescriptorInRange ready.session }
        requires stamps { self.old.tables.stamp < 2 ^ 64 - 1 }
        ensures finishes { FinishesFor self.old self.new ticket.now pages.now ready result }
        ensures room { FinishLeaves self.old.journal.room self.new.journal.room result }
        ensures changes { result ≡ Finished.Logged → AreChanges ready.changes }
    {
        match self.prepare(alloc, ticket, pages, &ready) {
            Ok(entry) => {
                let (op, reply) = op_and_reply(ready);
                self.book(*ticket, entry, op, reply);
                Finished::Logged
            }
            Err(answer) => answer,
        }
    }

    /// A call without its entry is prepared to be logged over its pages: what it comes to is installed, with room for its
    /// entry, which is given; or else the call's answer.
    fn prepare(
        &mut self,
        alloc: Global,
        ticket: &Ticket,
        pages: &Pages,
        ready: &Ready,
    ) -> Result<Entry, Finished>
        requires flight { HasMine self.old ticket.now.caller (λ mine. IsSome mine.flight) }
        requires inside { IsPresent self.old ticket.now → HasMine self.old ticket.now.caller (λ mine. mine.inside ≡ true) }
        requires pins { HasPins self.old ticket.now.caller }
        requires holder { HolderFlies self.old.floor self.old.callers }
        requires seats { ticket.now.caller < length self.old.tables.sessions }
        requires session { HasDescriptorInRange ready.now.session }
        requires stamps { self.old.tables.stamp < 2 ^ 64 - 1 }
        ensures err { (mine : CallerState) (flight : Flight)
            → slice_get self.old.callers ticket.now.caller ≡ Some mine
            → IfErr result (Finishes self.old self.new ticket.now mine flight pages.now ready.now) }
        ensures unlogged { IfErr result (λ answer. answer ≡ Finished.Logged → ⊥) }
        ensures left { IfErr result (FinishLeaves self.old.journal.room self.new.journal.room) }
        ensures present { OnOk result (IsPresent self.old ticket.now) }
        ensures mine { OnOk result (IsMine ticket.now.caller self.old.floor) }
        ensures fresh { OfMine self.old ticket.now.caller (λ mine.
            OnOk result (AreFreshIn self.old ready.now.shared ticket.now.caller mine pages.now)) }
        ensures put { OnOk result (self.new
            ≡ with_room (putting self.old ticket.now.caller ready.now.op ready.now.pick ready.now.changes ready.now.session) self.new) }
        ensures entry { IfOk result (IsEntryFor self.old ticket.now.caller ready.now.pick ready.now.reply) }
        ensures lists { OnOk result (HasEntryRoom self.new.journal.room) }
        ensures changes { OnOk result (AreChanges ready.now.changes) }
        ensures kept { OnOk result (KeepsRoom self.old.journal.room self.new.journal.room) }
    {
        if ticket.incarnation != self.incarnation {
            return Err(Finished::Skip {
                mine: ticket.incarnation,
                now: self.incarnation,
            });
        }
        if let Some(holder) = self.busy(ticket.caller) {
            return Err(Finished::Busy { holder });
        }
        match self.stale(ticket.caller, ready.shared, pages) {
            Some(block) => match self.gather_anew(ticket, block) {
                Ok(()) => Err(Finished::Stale { block }),
                Err(NoMemory) => Err(Finished::NoMemory),
            },
            None => match self.put_ready(alloc, ticket.caller, ready) {
                Ok(entry) => Ok(entry),
                Err(NoMemory) => Err(Finished::NoMemory),
            },
        }
    }

    /// The least stale block of a call's pages; `None` exactly where nothing is stale.
    fn stale(&self, caller: u8, shared: bool, pages: &Pages) -> Option<u32>
        requires { caller < length self.now.callers }
        ensures none { OfMine self.now caller (λ mine. IfNone result (AreFreshIn self.now shared caller mine pages.now)) }
        ensures some { OfMine self.now caller (λ mine. IfSome result (IsLeastStaleIn self.now shared caller mine pages.now)) }
    {
        let stamp = self.tables.stamp();
        self.callers
            .get(caller)
            .stale_block(&self.cache, stamp, caller, shared, pages)
    }

    /// A call without its entry gathers anew; from its fourth stale answer on it has the right to commit alone. The only error
    /// is want of memory, for its step of the trace and ten more; nothing has changed then.
    fn gather_anew(&mut self, ticket: &Ticket, block: u32) -> Result<(), NoMemory>
        requires inside { HasMine self.old ticket.now.caller (λ mine. mine.inside ≡ true) }
        requires pins { HasPins self.old ticket.now.caller }
        ensures ok { OnOk result (GathersAnew self.old self.new ticket.now block) }
        ensures err { OnErr result (self.new ≡ with_room self.old self.new) }
        ensures marks { OnOk result (10 ≤ self.new.journal.room.trail) }
        ensures kept { (self.old.journal.room.history ≤ self.new.journal.room.history)
            × (self.old.journal.room.records ≤ self.new.journal.room.records) }
        ensures same { OnErr result (KeepsRoom self.old.journal.room self.new.journal.room) }
    {
        self.journal.reserve_steps(11)?;
        self.give_back_copies(*ticket, block);
        Ok(())
    }

    #[tactic(auto, using(crate::proofs::Kept::still_seen))]
    fn give_back_copies(&mut self, ticket: Ticket, block: u32)
        requires inside { HasMine self.old ticket.caller (λ mine. mine.inside ≡ true) }
        requires pins { HasPins self.old ticket.caller }
        requires trail { 0 < self.old.journal.room.trail }
        ensures anew { GathersAnew self.old self.new ticket block }
        ensures room { Leaves self.old.journal.room self.new.journal.room 1 0 }
    {
        let floor = self.floor_after(ticket.caller);
        self.callers
            .get_mut(ticket.caller)
            .gather_anew(&mut self.cache, ticket.caller, floor);
        self.floor = floor;
        self.journal.mark(Step::Stale(ticket, block));
    }

    /// Who has the right to commit alone after one stale answer more to a caller's ticket.
    fn floor_after(&self, caller: u8) -> Option<u8>
        requires { caller < length self.now.callers }
        ensures { OfMine self.now caller (λ mine. result ≡ floor_after caller mine.stales self.now.floor) }
    {
        if self.callers.get(caller).stales() >= 3 {
            Some(caller)
        } else {
            self.floor
        }
    }
}
