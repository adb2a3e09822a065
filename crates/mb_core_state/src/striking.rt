ghost use Rattle.std.specs.Prelude.{◌≡◌, ◌<◌, ◌≤◌, ◌+◌, length};
ghost use Rattle.mb_core_spec.specs.Recovery.{recorded, striking_again};
ghost use Rattle.mb_journal.specs.Room.{LeavesFault};
ghost use Rattle.mb_core_state.specs.Answers.{IsPresent, Strikes};
ghost use Rattle.mb_core_state.specs.Rooms.{damaged_core};
ghost use Rattle.mb_core_spec.specs.Events.{with_room};

use crate::answers::Fault;
use crate::fields::Fields;
use mb_cache::damage_of_pages;
use mb_core_spec::Stage;
use mb_edge::{Damage, Disk};
use mb_iface::FileSys;
use mb_kinds::{FaultRecord, Kind, Ticket};
use mb_tables::damage_of_counts;

impl<F: FileSys, D: Disk> Fields<F, D> {
    /// A fault strikes the call with that ticket, where the ticket is of the present incarnation; its damage is done and a
    /// recovery begins. Needs no memory.
    pub fn fault(&mut self, ticket: &Ticket, kind: Kind, nth: u32, damage: &Damage) -> Fault
        requires room { IsPresent self.old ticket.now → (0 < self.old.journal.room.records) × (0 < self.old.journal.room.trail) }
        requires few { length self.old.journal.records < 4294967295 }
        requires number { self.old.incarnation ≤ length self.old.journal.records }
        ensures strikes { Strikes self.old self.new ticket.now kind nth damage.now result }
        ensures room { LeavesFault self.old.journal.room self.new.journal.room }
    {
        if ticket.incarnation != self.incarnation {
            return Fault::Skip {
                mine: ticket.incarnation,
                now: self.incarnation,
            };
        }
        let number = self.record_fault(ticket.caller, ticket.ordinal, kind, nth, damage);
        self.incarnation += 1;
        self.stage = Stage::Struck;
        Fault::Struck { number }
    }

    /// A fault strikes a recovery, which then begins anew: it is recorded for the call that recovers, and the incarnation
    /// stays. Gives its number, from 1. Needs no memory.
    pub fn strike_again(
        &mut self,
        caller: u8,
        ordinal: u32,
        kind: Kind,
        nth: u32,
        damage: &Damage,
    ) -> u32
        requires records { 0 < self.old.journal.room.records }
        requires trail { 0 < self.old.journal.room.trail }
        requires few { length self.old.journal.records < 4294967295 }
        ensures struck { self.new ≡ with_room (striking_again self.old caller ordinal kind nth damage.now) self.new }
        ensures number { result ≡ length self.old.journal.records + 1 }
        ensures room { LeavesFault self.old.journal.room self.new.journal.room }
    {
        let number = self.record_fault(caller, ordinal, kind, nth, damage);
        self.stage = Stage::Again;
        number
    }
}

impl<F: FileSys, D: Disk> Fields<F, D> {
    /// A fault is recorded, and its damage done.
    fn record_fault(
        &mut self,
        caller: u8,
        ordinal: u32,
        kind: Kind,
        nth: u32,
        damage: &Damage,
    ) -> u32
        requires records { 0 < self.old.journal.room.records }
        requires trail { 0 < self.old.journal.room.trail }
        requires few { length self.old.journal.records < 4294967295 }
        ensures recorded { self.new ≡ record (damaged_core self.old damage.now) {
          journal = record (recorded self.old.journal caller ordinal kind nth) { room = self.new.journal.room };
        } }
        ensures number { result ≡ length self.old.journal.records + 1 }
        ensures room { LeavesFault self.old.journal.room self.new.journal.room }
    {
        self.damage(damage);
        self.journal.record(FaultRecord {
            caller,
            ordinal,
            kind,
            nth,
        })
    }

    /// The strokes of a fault are done to the current pages and to the counts of open files.
    #[tactic(auto, using(crate::proofs::Kept::none_seen))]
    fn damage(&mut self, damage: &Damage)
        ensures { self.new ≡ damaged_core self.old damage.now }
    {
        damage_of_pages();
        damage_of_counts();
        self.kept.clear();
        self.cache.damage(damage);
        self.tables.damage(damage);
    }
}
