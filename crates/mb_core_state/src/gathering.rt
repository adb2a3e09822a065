ghost use Rattle.std.specs.Prelude.{◌≡◌, ◌<◌, ◌≤◌, length, OnOk, OnErr, IsSome};
ghost use Rattle.mb_cache.specs.State.{ReadHasCause};
ghost use Rattle.mb_core_spec.specs.Events.{Leaves};
ghost use Rattle.mb_core_state.specs.Mine.{HasMine};
ghost use Rattle.mb_core_state.specs.Answers.{GathersFor, KeepsGatheredFor, after_gathering};
ghost use Rattle.mb_core_state.specs.Rooms.{HasPins};

use crate::answers::Gathered;
use crate::fields::Fields;
use mb_cache::ReadFault;
use mb_callers::{Pages, TablesNow};
use mb_edge::Disk;
use mb_iface::{FileSys, Need};
use mb_kinds::{Reply, Ticket};
use std::alloc::Global;

impl<F: FileSys, D: Disk> Fields<F, D> {
    /// The call in flight with that ticket gathers blocks, or at block 0 the tables, where the ticket is of the present
    /// incarnation. A call that the disk failed has the entry `Device`, for which there is room.
    pub fn gather(
        &mut self,
        alloc: Global,
        ticket: &Ticket,
        need: Need,
        pages: &mut Pages,
    ) -> Gathered
        requires flight { HasMine self.old ticket.now.caller (λ mine. IsSome mine.flight) }
        requires pins { HasPins self.old ticket.now.caller }
        requires room { 0 < self.old.journal.room.history }
        requires first { need.first < 262144 }
        requires count { need.count ≤ 32 }
        ensures gathers { GathersFor D.told D.faults self.old self.new ticket.now need pages.old pages.new result }
        ensures told { D.told self.new.cache.disk ≡ D.told self.old.cache.disk }
        ensures later { D.faults self.old.cache.disk ≤ D.faults self.new.cache.disk }
        ensures room { Leaves self.old.journal.room self.new.journal.room 0 1 }
        ensures kept { (result ≡ Gathered.Device → ⊥) → self.new.journal.room ≡ self.old.journal.room }
    {
        if ticket.incarnation != self.incarnation {
            return Gathered::Skip {
                mine: ticket.incarnation,
                now: self.incarnation,
            };
        }
        match self.gather_for(alloc, ticket.caller, need, pages) {
            Ok(()) => Gathered::Done,
            Err(ReadFault::NoMemory) => Gathered::NoMemory,
            Err(ReadFault::Device) => {
                self.answer_by(ticket.caller, Reply::Device);
                Gathered::Device
            }
        }
    }

    /// What is asked for is pinned and kept with the caller and in its pages; or nothing changes but the disk.
    #[tactic(auto, using(crate::proofs::Kept::still_seen))]
    fn gather_for(
        &mut self,
        alloc: Global,
        caller: u8,
        need: Need,
        pages: &mut Pages,
    ) -> Result<(), ReadFault>
        requires caller { caller < length self.old.callers }
        requires first { need.first < 262144 }
        requires count { need.count ≤ 32 }
        ensures rest { self.new ≡ after_gathering self.old self.new }
        ensures ok { OnOk result (KeepsGatheredFor D.told self.old self.new caller need pages.old pages.new) }
        ensures err { OnErr result ((self.new.callers ≡ self.old.callers) × (pages.new ≡ pages.old)
            × (self.new.cache.pins ≡ self.old.cache.pins)) }
        ensures told { D.told self.new.cache.disk ≡ D.told self.old.cache.disk }
        ensures cause { ReadHasCause (D.faults self.old.cache.disk) (D.faults self.new.cache.disk) result }
    {
        let tables = TablesNow {
            sessions: self.tables.sessions(),
            opens: self.tables.opens(),
            stamp: self.tables.stamp(),
        };
        let gathered = self
            .callers
            .get_mut(caller)
            .gather(alloc, &mut self.cache, need, &tables, pages);
        let TablesNow {
            sessions: _,
            opens: _,
            stamp: _,
        } = tables;
        gathered
    }
}
