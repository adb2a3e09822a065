ghost use Rattle.std.specs.Prelude.{◌≡◌, ◌<◌, Some, length, IsSome};
ghost use Rattle.mb_core_spec.specs.Events.{Leaves, answered_by, ended};
ghost use Rattle.mb_core_spec.specs.Recovery.{unwinding};
ghost use Rattle.mb_core_state.specs.Mine.{EndsWith, GivesBackBy, HasMine, OfFlight, OfMine};
ghost use Rattle.mb_core_state.specs.Answers.{IsPresent, LeavesFor};
ghost use Rattle.mb_core_state.specs.Rooms.{HasPins};

use crate::answers::Left;
use crate::fields::Fields;
use mb_core_spec::Step;
use mb_edge::Disk;
use mb_iface::FileSys;
use mb_kinds::{Entry, Reply, Ticket};

impl<F: FileSys, D: Disk> Fields<F, D> {
    /// The call in flight of a caller ends, and what it took is given back. Gives its reply, where it has its entry. Needs
    /// no memory.
    #[tactic(auto, using(crate::proofs::Kept::still_seen))]
    fn end_call(&mut self, caller: u8) -> Option<Reply>
        requires caller { caller < length self.old.callers }
        requires pins { HasPins self.old caller }
        ensures ended { OfMine self.old caller (λ mine. EndsWith result self.old self.new caller mine) }
        ensures room { self.new.journal.room ≡ self.old.journal.room }
    {
        self.give_floor(caller);
        let (flight, answer) = self.callers.get_mut(caller).end(&mut self.cache);
        if let Some(flight) = flight {
            self.rooms.keep(caller, flight.call);
        }
        answer
    }

    /// The call in flight of a caller ends without an entry, and what it took is given back; needs no memory.
    pub fn quit(&mut self, caller: u8)
        requires caller { caller < length self.old.callers }
        requires pins { HasPins self.old caller }
        ensures quit { OfMine self.old caller (λ mine. GivesBackBy (ended self.old caller mine) self.old self.new mine) }
        ensures room { self.new.journal.room ≡ self.old.journal.room }
    {
        let _ = self.end_call(caller);
    }

    /// The call in flight of a caller that has its entry ends, and its reply is handed out; needs no memory.
    pub fn hand_out(&mut self, caller: u8) -> Reply
        requires answer { HasMine self.old caller (λ mine. IsSome mine.answer) }
        requires pins { HasPins self.old caller }
        ensures ended { OfMine self.old caller (λ mine. EndsWith (Some result) self.old self.new caller mine) }
        ensures room { self.new.journal.room ≡ self.old.journal.room }
    {
        let Some(reply) = self.end_call(caller) else {
            unreachable!()
        };
        reply
    }

    /// A call that has its entry leaves with its reply, where its ticket is of the present incarnation. Needs no memory.
    pub fn leave(&mut self, ticket: &Ticket) -> Left
        requires answer { HasMine self.old ticket.now.caller (λ mine. IsSome mine.answer) }
        requires pins { HasPins self.old ticket.now.caller }
        requires room { IsPresent self.old ticket.now → 0 < self.old.journal.room.trail }
        ensures leaves { LeavesFor self.old self.new ticket.now result }
        ensures room { Leaves self.old.journal.room self.new.journal.room 1 0 }
    {
        if ticket.incarnation != self.incarnation {
            return Left::Skip {
                mine: ticket.incarnation,
                now: self.incarnation,
            };
        }
        let reply = self.hand_out(ticket.caller);
        self.journal.mark(Step::Left(*ticket));
        Left::Left(reply)
    }

    /// A call inside is unwound to where it entered, and stays a call in flight; needs no memory.
    #[tactic(auto, using(crate::proofs::Kept::still_seen))]
    pub fn unwind(&mut self, ticket: Ticket)
        requires caller { ticket.caller < length self.old.callers }
        requires pins { HasPins self.old ticket.caller }
        requires room { 0 < self.old.journal.room.trail }
        ensures unwound { OfMine self.old ticket.caller (λ mine.
            GivesBackBy (unwinding self.old ticket.caller mine ticket) self.old self.new mine) }
        ensures room { Leaves self.old.journal.room self.new.journal.room 1 0 }
    {
        self.callers.get_mut(ticket.caller).unwind(&mut self.cache);
        self.give_floor(ticket.caller);
        self.journal.mark(Step::Unwound(ticket));
    }

    /// The call in flight of a caller ends with an entry that is not the model's step; needs no memory.
    #[tactic(auto, using(crate::proofs::Kept::still_seen))]
    pub fn answer_by(&mut self, caller: u8, answer: Reply)
        requires flight { HasMine self.old caller (λ mine. IsSome mine.flight) }
        requires pins { HasPins self.old caller }
        requires room { 0 < self.old.journal.room.history }
        ensures answered { OfFlight self.old caller (λ mine flight.
            GivesBackBy (answered_by self.old caller mine flight answer) self.old self.new mine) }
        ensures disk { self.new.cache.disk ≡ self.old.cache.disk }
        ensures room { Leaves self.old.journal.room self.new.journal.room 0 1 }
    {
        let (flight, _) = self.callers.get_mut(caller).end(&mut self.cache);
        self.give_floor(caller);
        let Some(flight) = flight else { unreachable!() };
        self.journal.answer(Entry {
            caller,
            ordinal: flight.ordinal,
            call: flight.call,
            pick: None,
            moment: flight.moment,
            reply: answer,
        });
    }
}
