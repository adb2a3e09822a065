ghost use Rattle.std.specs.Prelude.{◌≡◌, ◌≤◌, Some};
ghost use Rattle.mb_core_spec.specs.Events.{ended};
ghost use Rattle.mb_core_spec.specs.Right.{Right};
ghost use Rattle.mb_core_state.specs.Answers.{Strikes, GathersFor, LeavesFor};
ghost use Rattle.mb_core_state.specs.Entering.{EntersFor};
ghost use Rattle.mb_core_state.specs.Finishing.{FinishesFor};
ghost use Rattle.mb_core_state.specs.Mine.{GivesBackBy, OfMine};
ghost use Rattle.mb_core_events.specs.Callings.{CallHasEntry, HasOpenCall, HoldsTicket, IsAsked, IsUnanswered, MayCall, MayFinish};

use mb_callers::Pages;
use mb_core_spec::Ready;
use mb_core_state::{Enter, Fault, Fields, Finished, Gathered, Left};
use mb_edge::{Disk, Hook};
use mb_iface::{FileSys, Need};
use mb_kinds::{Call, Kind, Ticket};
use mb_tables::{counts_follow_operations, tables_move};
use mb_tree::call_allowed;
use std::alloc::Global;
use std::marker::Model;

/// The event core of the restart layer, for up to eight callers in any interleaving. It holds the disk, the pages over it,
/// the callers' sessions and calls in flight, the operation log, the history and the event trace. Each call of it is one
/// event, and a core is always in order (`Right` of `mb_core_spec`).
pub struct Core<F: FileSys, D: Disk> {
    pub(crate) fields: Fields<F, D>,
}

impl<F: FileSys, D: Disk> Model for Core<F, D> {
    ghost use Rattle.std.specs.Coded.{codes, coded_ℕ};
    ghost use Rattle.std.specs.FinMap as fin;
    ghost use Rattle.std.specs.Ordering.{nat_cmp};
    ghost use Rattle.mb_tree.specs.contracts.seats.PlainFile as file;
    ghost use Rattle.mb_core_spec.specs.Right.{Right};
    ghost use Rattle.mb_core_spec.specs.State.{CoreState};

    ghost Value = { CoreState F D };

    ghost coded = { Prim.hlevel (codes, F.code, D.code, fin.code {R = nat_cmp} coded_ℕ coded_ℕ, fin.code {R = nat_cmp} coded_ℕ file.the_row.coded) };

    ghost view = { λ c. c.fields };

    ghost invariant = { λ c. Right D.told D.faults c.fields };
}

impl<F: FileSys, D: Disk> Core<F, D> {
    /// A call begins, or goes on, and goes inside where the volume runs. The answers come in the order `Done` of a call that
    /// has its entry, `Shut`, `Done` of a volume that failed or of a call that met two faults of its own, `Inside`;
    /// `NoMemory` may come in the place of any but the first, and nothing has changed then.
    pub fn enter(&mut self, alloc: Global, caller: u8, call: &Call) -> Enter
        requires { MayCall self.old caller call.now }
        ensures enters { EntersFor self.old self.new caller call.now result }
        ensures right { Right D.told D.faults self.new }
    {
        call_allowed(call);
        self.fields.enter(alloc, caller, call)
    }

    /// A call without its entry gathers blocks, or at block 0 the tables: they are pinned, kept with the call and in its pages.
    /// `Skip` exactly where the ticket is of an earlier incarnation; `Device` only where the disk's count of faults rose, and
    /// the call has the entry `Device` then.
    pub fn gather(
        &mut self,
        alloc: Global,
        ticket: &Ticket,
        need: Need,
        pages: &mut Pages,
    ) -> Gathered
        requires ticket { IsUnanswered self.old ticket.now }
        requires need { IsAsked need }
        ensures gathers { GathersFor D.told D.faults self.old self.new ticket.now need pages.old pages.new result }
        ensures told { D.told self.new.cache.disk ≡ D.told self.old.cache.disk }
        ensures later { D.faults self.old.cache.disk ≤ D.faults self.new.cache.disk }
        ensures right { Right D.told D.faults self.new }
    {
        self.fields.gather(alloc, ticket, need, pages)
    }

    /// A call without its entry finishes over its pages. The answers come in the order `Skip`, `Busy`, `Stale`, `Logged`;
    /// `NoMemory` may come in the place of the last two, and nothing has changed then. After `Logged` a checkpoint is not
    /// refused.
    pub fn finish(
        &mut self,
        alloc: Global,
        ticket: &Ticket,
        pages: &Pages,
        ready: Ready,
    ) -> Finished
        requires { MayFinish self.old ticket.now pages.now ready }
        ensures finishes { FinishesFor self.old self.new ticket.now pages.now ready result }
        ensures sealable { result ≡ Finished.Logged → 11 ≤ self.new.journal.room.trail }
        ensures right { Right D.told D.faults self.new }
    {
        counts_follow_operations();
        tables_move();
        self.fields.finish(alloc, ticket, pages, ready)
    }

    /// A call that has its entry leaves with the entry's reply, and its flight ends. `Skip` exactly where the ticket is of an
    /// earlier incarnation. Needs no memory.
    pub fn leave(&mut self, ticket: &Ticket) -> Left
        requires { CallHasEntry self.old ticket.now }
        ensures leaves { LeavesFor self.old self.new ticket.now result }
        ensures right { Right D.told D.faults self.new }
    {
        self.fields.leave(ticket)
    }

    /// The call in flight of a caller, which has no entry, ends without one; what it took is given back. Needs no memory.
    pub fn quit(&mut self, caller: u8)
        requires { HasOpenCall self.old caller }
        ensures quit { OfMine self.old caller (λ mine. GivesBackBy (ended self.old caller mine) self.old self.new mine) }
        ensures right { Right D.told D.faults self.new }
    {
        self.fields.quit(caller);
    }

    /// A fault that a hook struck, on the call with that ticket: it is recorded, its damage is done to the current pages and
    /// to the counts of open files, and a recovery begins. `Skip` exactly where the ticket is of an earlier incarnation.
    /// Needs no memory.
    pub fn fault<H: Hook>(&mut self, ticket: &Ticket, kind: Kind, nth: u32, hook: &H) -> Fault
        requires holder { HoldsTicket self.old ticket.now }
        requires struck { H.struck hook.now
            ≡ Some (record { caller = ticket.now.caller; ordinal = ticket.now.ordinal; kind = kind; nth = nth }) }
        ensures strikes { Strikes self.old self.new ticket.now kind nth (H.strokes hook.now) result }
        ensures right { Right D.told D.faults self.new }
    {
        let Some(damage) = hook.damage() else {
            unreachable!()
        };
        self.fields.fault(ticket, kind, nth, damage)
    }
}
