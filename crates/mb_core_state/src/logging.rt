ghost use Rattle.std.specs.Prelude.{◌≡◌, ◌<◌, ◌≤◌, ◌^◌, ◌-◌, Some, Ok, length, OnOk, OnErr, IfOk, IsSome};
ghost use Rattle.mb_tree.specs.Sessions.{HasDescriptorInRange};
ghost use Rattle.mb_core_spec.specs.Events.{Leaves, with_room};
ghost use Rattle.mb_journal.specs.Room.{HasEntryRoom, KeepsRoom};
ghost use Rattle.mb_core_state.specs.Mine.{HasMine, OfFlight};
ghost use Rattle.mb_core_state.specs.Finishing.{putting, IsEntryFor, Books};
ghost use Rattle.mb_core_state.specs.Rooms.{HasPins};

use crate::fields::Fields;
use mb_core_spec::Ready;
use mb_edge::{Disk, NoMemory};
use mb_iface::{Changes, FileSys};
use mb_kinds::{Entry, Reply, Ticket};
use mb_tree::{FsOp, SessionChange};
use std::alloc::Global;

impl<F: FileSys, D: Disk> Fields<F, D> {
    /// Room for an entry with so many changed blocks, for what the other calls inside may come to, and for a checkpoint
    /// after it. The only error is want of memory.
    #[tactic(auto, using(crate::proofs::Kept::still_seen))]
    pub(crate) fn reserve_log(&mut self, blocks: usize) -> Result<(), NoMemory>
        ensures same { self.new ≡ with_room self.old self.new }
        ensures pages { OnOk result (blocks ≤ self.new.cache.room.pages) }
        ensures lists { OnOk result (HasEntryRoom self.new.journal.room) }
        ensures kept { KeepsRoom self.old.journal.room self.new.journal.room }
    {
        self.cache.reserve(blocks)?;
        self.journal.reserve_entry()
    }

    /// The changes are installed, and the tables follow. The only error is want of memory, and nothing has changed then.
    #[tactic(auto, using(crate::proofs::Kept::none_seen))]
    pub(crate) fn put(
        &mut self,
        caller: u8,
        op: &Option<FsOp>,
        pick: Option<u16>,
        changes: &Changes,
        session: SessionChange,
    ) -> Result<(), NoMemory>
        requires seats { caller < length self.old.tables.sessions }
        requires session { HasDescriptorInRange session }
        requires few { self.old.tables.stamp < 2 ^ 64 - 1 }
        requires pages { length changes.now ≤ self.old.cache.room.pages }
        ensures ok { OnOk result (self.new ≡ with_room (putting self.old caller op.now pick changes.now session) self.new) }
        ensures err { OnErr result (self.new ≡ self.old) }
        ensures room { self.new.journal.room ≡ self.old.journal.room }
    {
        self.tables.log(caller, op, pick, session)?;
        self.kept.clear();
        self.cache.install(changes);
        Ok(())
    }

    /// The entry of a caller's call in flight, with copies of the call and of its reply.
    pub(crate) fn entry_of(
        &self,
        alloc: Global,
        caller: u8,
        pick: Option<u16>,
        reply: &Reply,
    ) -> Result<Entry, NoMemory>
        requires { HasMine self.now caller (λ mine. IsSome mine.flight) }
        ensures { IfOk result (IsEntryFor self.now caller pick reply.now) }
    {
        let Some(flight) = self.callers.get(caller).flight() else {
            unreachable!()
        };
        let reply = reply.copied(alloc)?;
        let call = flight.call.copied(alloc)?;
        Ok(Entry {
            caller,
            ordinal: flight.ordinal,
            call,
            pick,
            moment: flight.moment,
            reply,
        })
    }

    /// The ordinal and the moment of a caller's call in flight.
    pub(crate) fn numbers(&self, caller: u8) -> (u32, u32)
        requires { HasMine self.now caller (λ mine. IsSome mine.flight) }
        ensures { OfFlight self.now caller (λ mine flight. (result.0 ≡ flight.ordinal) × (result.1 ≡ flight.moment)) }
    {
        let Some(flight) = self.callers.get(caller).flight() else {
            unreachable!()
        };
        (flight.ordinal, flight.moment)
    }

    /// The entry of a call comes into the journal, and what the call took is given back; needs no memory.
    #[tactic(auto, using(crate::proofs::Kept::still_seen))]
    pub(crate) fn book(&mut self, ticket: Ticket, entry: Entry, op: Option<FsOp>, reply: Reply)
        requires flight { HasMine self.old ticket.caller (λ mine. IsSome mine.flight) }
        requires pins { HasPins self.old ticket.caller }
        requires oplog { 0 < self.old.journal.room.oplog }
        requires history { 0 < self.old.journal.room.history }
        requires trail { 0 < self.old.journal.room.trail }
        ensures booked { Books self.old self.new ticket op entry reply }
        ensures room { Leaves self.old.journal.room self.new.journal.room 1 1 }
    {
        self.callers
            .get_mut(ticket.caller)
            .log(&mut self.cache, reply);
        self.give_floor(ticket.caller);
        let pick = entry.pick;
        self.journal.log(entry, op, pick, ticket);
    }
}

/// The operation and the reply of what a call comes to.
pub(crate) fn op_and_reply(ready: Ready) -> (Option<FsOp>, Reply)
    ensures { result ≡ (ready.op, ready.reply) }
{
    let Ready {
        reply,
        op,
        pick: _,
        changes: _,
        session: _,
        shared: _,
    } = ready;
    (op, reply)
}
