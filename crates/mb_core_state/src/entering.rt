ghost use Rattle.std.specs.Prelude.{◌≡◌, ◌<◌, ◌≤◌, ◌+◌, true, false, None, Some, [], length, slice_get, OnOk, OnErr, IfOk, IfSome, IfNone, IsSome};
ghost use Rattle.mb_kinds.specs.declared.calls.Call.{Call};
ghost use Rattle.mb_core_spec.specs.Callers.{begun};
ghost use Rattle.mb_core_spec.specs.Events.{Leaves, beginning, begins, with_room};
ghost use Rattle.mb_core_spec.specs.State.{CallerState};
ghost use Rattle.mb_journal.specs.Room.{HasEntryRoom, KeepsRoom};
ghost use Rattle.mb_core_state.specs.Mine.{HasMine, OfFlight, OfMine};
ghost use Rattle.mb_core_state.specs.Entering.{BeginsInside, ComesInside, GoesIn, GoesInside, HasEntry, HasTicketNow, IsGivenUp, IsShut, LacksEntry, LacksTicket, MayComeIn, TellsOwnFaults, flight_of, reserved_by, reserves, waiting, EntersFor};
ghost use Rattle.mb_core_state.specs.Rooms.{HasPins};

use crate::answers::Enter;
use crate::fields::Fields;
use mb_core_spec::{Stage, Step};
use mb_edge::{Disk, NoMemory};
use mb_iface::FileSys;
use mb_kinds::{Call, Reply, Ticket};
use std::alloc::Global;

impl<F: FileSys, D: Disk> Fields<F, D> {
    /// Whether a caller has a call in flight that has its entry.
    fn has_entry(&self, caller: u8) -> bool
        requires { caller < length self.now.callers }
        ensures has { result ≡ true → OfMine self.now caller (λ mine. HasEntry mine.flight) }
        ensures lacks { result ≡ false → OfMine self.now caller (λ mine. LacksEntry mine.flight) }
    {
        match self.callers.get(caller).flight() {
            Some(flight) => flight.answered,
            None => false,
        }
    }

    /// Whether a caller has a call in flight.
    fn flies(&self, caller: u8) -> bool
        requires { caller < length self.now.callers }
        ensures flies { result ≡ true → OfMine self.now caller (λ mine. IsSome mine.flight) }
        ensures none { result ≡ false → OfMine self.now caller (λ mine. mine.flight ≡ None) }
    {
        self.callers.get(caller).flight().is_some()
    }

    /// The ticket of a caller's call in flight, where it is of the present incarnation.
    fn present_ticket(&self, caller: u8) -> Option<Ticket>
        requires { caller < length self.now.callers }
        ensures some { OfMine self.now caller (λ mine. IfSome result (HasTicketNow self.now.incarnation mine.flight)) }
        ensures none { OfMine self.now caller (λ mine. IfNone result (LacksTicket self.now.incarnation mine.flight)) }
    {
        let Some(flight) = self.callers.get(caller).flight() else {
            return None;
        };
        match flight.ticket {
            Some(ticket) if ticket.incarnation == self.incarnation => Some(ticket),
            _ => None,
        }
    }

    /// The moment of a call that begins.
    fn next_moment(&self) -> u32
        requires few { length self.now.callers ≤ 8 }
        requires moments { self.now.config.start + begun self.now.callers < 4294967295 }
        ensures { result ≡ self.now.config.start + (begun self.now.callers + 1) }
    {
        let begun = self.callers.begun() as u32;
        self.config.start + (begun + 1)
    }
}

impl<F: FileSys, D: Disk> Fields<F, D> {
    /// A call begins, and waits; needs no memory.
    fn begin_call(&mut self, caller: u8, call: Call)
        requires few { length self.old.callers ≤ 8 }
        requires caller { HasMine self.old caller (λ mine. mine.begun < 4294967295) }
        requires moments { self.old.config.start + begun self.old.callers < 4294967295 }
        ensures begun { OfMine self.old caller (λ mine. self.new ≡ beginning self.old caller mine call) }
        ensures room { self.new.journal.room ≡ self.old.journal.room }
    {
        let moment = self.next_moment();
        self.callers.get_mut(caller).begin(call, moment);
    }

    /// A call in flight waits on, with room for the entries of all calls in flight. The only error is want of memory.
    fn wait_on(&mut self) -> Result<(), NoMemory>
        ensures same { self.new ≡ with_room self.old self.new }
        ensures room { OnOk result (8 ≤ self.new.journal.room.history) }
        ensures kept { KeepsRoom self.old.journal.room self.new.journal.room }
    {
        self.journal.reserve_answers()
    }

    /// A call begins, and waits, with room for the entries of all calls in flight. The only error is want of memory, and
    /// nothing has changed then.
    fn wait_new(&mut self, alloc: Global, caller: u8, call: &Call) -> Result<(), NoMemory>
        requires few { length self.old.callers ≤ 8 }
        requires caller { HasMine self.old caller (λ mine. mine.begun < 4294967295) }
        requires moments { self.old.config.start + begun self.old.callers < 4294967295 }
        ensures ok { OnOk result (OfMine self.old caller (λ mine.
            self.new ≡ with_room (beginning self.old caller mine call.now) self.new)) }
        ensures err { OnErr result (self.new ≡ with_room self.old self.new) }
        ensures room { OnOk result (8 ≤ self.new.journal.room.history) }
        ensures kept { KeepsRoom self.old.journal.room self.new.journal.room }
    {
        self.journal.reserve_answers()?;
        let call = self.rooms.copied(alloc, caller, call)?;
        self.begin_call(caller, call);
        Ok(())
    }

    /// A call waits: it begins where it is not in flight yet. There is room then for the entries of all calls in flight.
    /// The only error is want of memory, and nothing has changed then.
    fn wait(&mut self, alloc: Global, caller: u8, call: &Call) -> Result<(), NoMemory>
        requires few { length self.old.callers ≤ 8 }
        requires ready { HasMine self.old caller (λ mine. MayComeIn self.old mine) }
        ensures ok { OnOk result (OfMine self.old caller (λ mine.
            self.new ≡ with_room (waiting self.old caller mine call.now) self.new)) }
        ensures err { OnErr result (self.new ≡ with_room self.old self.new) }
        ensures room { OnOk result (8 ≤ self.new.journal.room.history) }
        ensures kept { KeepsRoom self.old.journal.room self.new.journal.room }
    {
        if self.flies(caller) {
            self.wait_on()
        } else {
            self.wait_new(alloc, caller, call)
        }
    }

    /// A call ends with an entry that is not the model's step; where it is not in flight yet it begins first. The only
    /// error is want of memory, and nothing has changed then.
    fn give_up_call(
        &mut self,
        alloc: Global,
        caller: u8,
        call: &Call,
        answer: Reply,
    ) -> Result<(), NoMemory>
        requires few { length self.old.callers ≤ 8 }
        requires ready { HasMine self.old caller (λ mine. MayComeIn self.old mine) }
        requires pins { HasPins self.old caller }
        ensures ok { OnOk result (OfMine self.old caller (λ mine. IsGivenUp self.old self.new caller mine call.now answer)) }
        ensures err { OnErr result ((self.new ≡ with_room self.old self.new)
            × KeepsRoom self.old.journal.room self.new.journal.room) }
    {
        self.wait(alloc, caller, call)?;
        self.answer_by(caller, answer);
        Ok(())
    }
}

impl<F: FileSys, D: Disk> Fields<F, D> {
    /// The descriptor that a call reserves.
    fn reserved_by(&self, caller: u8, call: &Call) -> Option<u16>
        requires { caller < length self.now.tables.sessions }
        ensures { result ≡ reserved_by self.now.tables.sessions caller call.now }
    {
        if reserves(call) {
            self.tables.sessions().free_descriptor(caller)
        } else {
            None
        }
    }

    /// A call in flight goes inside, with a new ticket. The only error is want of memory, and nothing has changed then.
    fn go_in_again(&mut self, caller: u8, reserved: Option<u16>) -> Result<Ticket, NoMemory>
        requires flight { HasMine self.old caller (λ mine. IsSome mine.flight) }
        requires empty { OfMine self.old caller (λ mine. mine.undo ≡ []) }
        requires room { 0 < self.old.journal.room.trail }
        ensures ok { IfOk result (λ ticket.
            OfFlight self.old caller (λ mine flight.
            GoesInside self.old self.new caller mine flight ticket reserved)) }
        ensures err { OnErr result (self.new ≡ self.old) }
        ensures room { Leaves self.old.journal.room self.new.journal.room 1 0 }
    {
        let (ordinal, moment) = self.numbers(caller);
        let ticket = Ticket {
            caller,
            ordinal,
            incarnation: self.incarnation,
            moment,
        };
        self.callers.get_mut(caller).go_in(ticket, reserved)?;
        self.journal.mark(Step::Entered(ticket));
        Ok(ticket)
    }

    /// A new call begins and goes inside at once. The only error is want of memory, and nothing has changed then.
    fn go_in_new(
        &mut self,
        caller: u8,
        call: Call,
        reserved: Option<u16>,
    ) -> Result<Ticket, NoMemory>
        requires few { length self.old.callers ≤ 8 }
        requires caller { HasMine self.old caller (λ mine. mine.begun < 4294967295) }
        requires moments { self.old.config.start + begun self.old.callers < 4294967295 }
        requires empty { OfMine self.old caller (λ mine. mine.undo ≡ []) }
        requires room { 0 < self.old.journal.room.trail }
        ensures ok { IfOk result (λ ticket.
            OfMine self.old caller (λ mine.
            BeginsInside self.old self.new caller mine call ticket reserved)) }
        ensures err { OnErr result (self.new ≡ self.old) }
        ensures room { Leaves self.old.journal.room self.new.journal.room 1 0 }
    {
        let moment = self.next_moment();
        let ticket = Ticket {
            caller,
            ordinal: self.callers.get(caller).begun() + 1,
            incarnation: self.incarnation,
            moment,
        };
        self.callers
            .get_mut(caller)
            .begin_inside(call, moment, ticket, reserved)?;
        self.journal.mark(Step::Entered(ticket));
        Ok(ticket)
    }

    /// A call goes inside, with a new ticket: the one in flight, or one that begins. The only error is want of memory, and
    /// nothing has changed then.
    fn take_ticket(
        &mut self,
        alloc: Global,
        caller: u8,
        call: &Call,
        reserved: Option<u16>,
    ) -> Result<Ticket, NoMemory>
        requires few { length self.old.callers ≤ 8 }
        requires ready { (mine : CallerState) × (slice_get self.old.callers caller ≡ Some mine)
            × MayComeIn self.old mine × (mine.undo ≡ []) }
        requires room { 0 < self.old.journal.room.trail }
        ensures ok { IfOk result (λ ticket.
            OfMine self.old caller (λ mine.
            ComesInside self.old self.new caller mine call.now ticket reserved)) }
        ensures err { OnErr result (self.new ≡ self.old) }
        ensures room { Leaves self.old.journal.room self.new.journal.room 1 0 }
    {
        if self.flies(caller) {
            self.go_in_again(caller, reserved)
        } else {
            let call = self.rooms.copied(alloc, caller, call)?;
            self.go_in_new(caller, call, reserved)
        }
    }

    /// Room for a call that enters. The only error is want of memory.
    fn reserve_entry(&mut self) -> Result<(), NoMemory>
        ensures same { self.new ≡ with_room self.old self.new }
        ensures ok { OnOk result (HasEntryRoom self.new.journal.room) }
        ensures kept { KeepsRoom self.old.journal.room self.new.journal.room }
    {
        self.journal.reserve_entry()
    }

    /// A call goes inside with the descriptor that it reserves, and with room for what may come without memory. The only
    /// error is want of memory, and nothing has changed then.
    fn go_in(&mut self, alloc: Global, caller: u8, call: &Call) -> Result<Ticket, NoMemory>
        requires few { length self.old.callers ≤ 8 }
        requires ready { (mine : CallerState) × (slice_get self.old.callers caller ≡ Some mine)
            × MayComeIn self.old mine × (mine.undo ≡ []) }
        requires seats { caller < length self.old.tables.sessions }
        ensures ok { IfOk result (λ ticket.
            OfMine self.old caller (λ mine. GoesIn self.old self.new caller mine call.now ticket)) }
        ensures err { OnErr result ((self.new ≡ with_room self.old self.new)
            × KeepsRoom self.old.journal.room self.new.journal.room) }
    {
        let reserved = self.reserved_by(caller, call);
        self.reserve_entry()?;
        self.take_ticket(alloc, caller, call, reserved)
    }
}

impl<F: FileSys, D: Disk> Fields<F, D> {
    /// The ordinal of a caller's call in flight, or of the one that it begins next.
    fn ordinal(&self, caller: u8) -> u32
        requires { HasMine self.now caller (λ mine. MayComeIn self.now mine) }
        ensures { (mine : CallerState) (given : Call) → slice_get self.now.callers caller ≡ Some mine
            → result ≡ (flight_of self.now mine given).ordinal }
    {
        let mine = self.callers.get(caller);
        match mine.flight() {
            Some(flight) => flight.ordinal,
            None => mine.begun() + 1,
        }
    }

    /// The numbers of the first two faults of its own that a call met which enters.
    fn own_faults(&self, caller: u8) -> Option<(u32, u32)>
        requires ready { HasMine self.now caller (λ mine. MayComeIn self.now mine) }
        requires records { length self.now.journal.records < 4294967296 }
        ensures { TellsOwnFaults self.now caller result }
    {
        let ordinal = self.ordinal(caller);
        self.journal.own_faults(caller, ordinal)
    }
}

impl<F: FileSys, D: Disk> Fields<F, D> {
    /// A call begins, or goes on, and goes inside where the volume runs. The answers come in the order `Done` of a call that
    /// has its entry, `Shut`, `Done` of a volume that failed or of a call that met two faults of its own, `Inside`;
    /// `NoMemory` may come in the place of any but the first, and nothing has changed then. A call that is inside with a
    /// ticket of the present incarnation stays so; an `open`, a `creat` and a `dup` that go inside reserve a descriptor.
    pub fn enter(&mut self, alloc: Global, caller: u8, call: &Call) -> Enter
        requires few { length self.old.callers ≤ 8 }
        requires ready { HasMine self.old caller (λ mine. MayComeIn self.old mine) }
        requires pins { HasPins self.old caller }
        requires seats { caller < length self.old.tables.sessions }
        requires records { length self.old.journal.records < 4294967296 }
        ensures { EntersFor self.old self.new caller call.now result }
    {
        if self.has_entry(caller) {
            return Enter::Done(self.hand_out(caller));
        }
        match self.stage {
            Stage::Running => self.enter_running(alloc, caller, call),
            Stage::Failed => self.enter_failed(alloc, caller, call),
            _ => self.enter_shut(alloc, caller, call),
        }
    }

    fn enter_shut(&mut self, alloc: Global, caller: u8, call: &Call) -> Enter
        requires few { length self.old.callers ≤ 8 }
        requires ready { HasMine self.old caller (λ mine. MayComeIn self.old mine) }
        requires lacks { OfMine self.old caller (λ mine. LacksEntry mine.flight) }
        requires shut { IsShut self.old.stage }
        ensures { EntersFor self.old self.new caller call.now result }
    {
        match self.wait(alloc, caller, call) {
            Ok(()) => Enter::Shut,
            Err(NoMemory) => Enter::NoMemory,
        }
    }

    fn enter_failed(&mut self, alloc: Global, caller: u8, call: &Call) -> Enter
        requires few { length self.old.callers ≤ 8 }
        requires ready { HasMine self.old caller (λ mine. MayComeIn self.old mine) }
        requires pins { HasPins self.old caller }
        requires records { length self.old.journal.records < 4294967296 }
        requires lacks { OfMine self.old caller (λ mine. LacksEntry mine.flight) }
        requires failed { self.old.stage ≡ Stage.Failed }
        ensures { EntersFor self.old self.new caller call.now result }
    {
        let faults = self.journal.records().len() as u32;
        match self.give_up_call(alloc, caller, call, Reply::Failed { faults }) {
            Ok(()) => Enter::Done(Reply::Failed { faults }),
            Err(NoMemory) => Enter::NoMemory,
        }
    }

    fn enter_running(&mut self, alloc: Global, caller: u8, call: &Call) -> Enter
        requires few { length self.old.callers ≤ 8 }
        requires ready { HasMine self.old caller (λ mine. MayComeIn self.old mine) }
        requires pins { HasPins self.old caller }
        requires seats { caller < length self.old.tables.sessions }
        requires records { length self.old.journal.records < 4294967296 }
        requires lacks { OfMine self.old caller (λ mine. LacksEntry mine.flight) }
        requires runs { self.old.stage ≡ Stage.Running }
        ensures { EntersFor self.old self.new caller call.now result }
    {
        if let Some((first, second)) = self.own_faults(caller) {
            return match self.give_up_call(alloc, caller, call, Reply::Restart { first, second }) {
                Ok(()) => Enter::Done(Reply::Restart { first, second }),
                Err(NoMemory) => Enter::NoMemory,
            };
        }
        if let Some(ticket) = self.present_ticket(caller) {
            return Enter::Inside(ticket);
        }
        match self.go_in(alloc, caller, call) {
            Ok(ticket) => Enter::Inside(ticket),
            Err(NoMemory) => Enter::NoMemory,
        }
    }
}

/// Whether a call reserves a descriptor.
fn reserves(call: &Call) -> bool
    ensures { result ≡ reserves call.now }
{
    matches!(
        call,
        Call::Open { .. } | Call::Creat { .. } | Call::Dup { .. }
    )
}
