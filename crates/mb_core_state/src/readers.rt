ghost use Rattle.std.specs.Prelude.{◌≡◌, ◌<◌, ◌≤◌, Some, length, slice_get, option_map, IfSome, IfNone, IsSome, OnOk, true, false};
ghost use Rattle.mb_kinds.specs.declared.faults.Ticket.{Ticket};
ghost use Rattle.mb_core_spec.specs.Callers.{EachCaller};
ghost use Rattle.mb_core_spec.specs.Events.{with_room};
ghost use Rattle.mb_core_spec.specs.State.{CallerState};
ghost use Rattle.mb_core_state.specs.Mine.{HasMine, OfFlight, OfMine};
ghost use Rattle.mb_core_state.specs.Finishing.{HasTicketOf};
ghost use Rattle.mb_journal.specs.Room.{KeepsRoom};

use crate::fields::Fields;
use mb_core_spec::{Config, Stage, Step};
use mb_edge::{Disk, NoMemory};
use mb_iface::FileSys;
use mb_kinds::{Entry, FaultRecord, Ticket};

impl<F: FileSys, D: Disk> Fields<F, D> {
    /// The entries of the answered calls, in order.
    pub fn history(&self) -> &[Entry]
        ensures { result.now ≡ self.now.journal.history }
    {
        self.journal.history()
    }

    /// The fault records, in order; they are numbered from 1.
    pub fn records(&self) -> &[FaultRecord]
        ensures { result.now ≡ self.now.journal.records }
    {
        self.journal.records()
    }

    /// The event trace.
    pub fn trail(&self) -> &[Step]
        ensures { result.now ≡ self.now.journal.trail }
    {
        self.journal.trail()
    }

    /// At how many entries the last checkpoint was taken; 0 before the first.
    pub fn sealed_at(&self) -> u32
        ensures { result ≡ self.now.journal.sealed_at }
    {
        self.journal.sealed_at()
    }

    /// How many operations the log has: those since the last checkpoint, as they were logged or folded.
    pub fn logged(&self) -> u32
        requires { length self.now.journal.oplog < 4294967296 }
        ensures { result ≡ length self.now.journal.oplog }
    {
        self.journal.logged()
    }

    /// How many calls a caller began.
    pub fn begun(&self, caller: u8) -> u32
        requires { caller < length self.now.callers }
        ensures { OfMine self.now caller (λ mine. result ≡ mine.begun) }
    {
        self.callers.get(caller).begun()
    }

    /// Where the volume stands.
    pub fn stage(&self) -> Stage
        ensures { result ≡ self.now.stage }
    {
        self.stage
    }

    /// What it was begun with.
    pub fn config(&self) -> &Config
        ensures { result.now ≡ self.now.config }
    {
        &self.config
    }

    /// A copy of the file system's code.
    pub fn fs(&self) -> F
        ensures { result ≡ self.now.fs }
    {
        self.fs
    }

    /// Gives the disk back.
    pub fn into_disk(self) -> D
        ensures { result ≡ self.cache.disk }
    {
        let Fields {
            first: _,
            fs: _,
            cache,
            tables: _,
            journal: _,
            callers: _,
            floor: _,
            stage: _,
            incarnation: _,
            config: _,
            kept: _,
            rooms: _,
        } = self;
        cache.into_disk()
    }

    /// The caller inside with the least number; `None` exactly where nobody is inside.
    pub fn first_inside(&self) -> Option<u8>
        requires { length self.now.callers ≤ 8 }
        ensures inside { IfSome result (λ at.
            option_map (λ (mine : CallerState). mine.inside) (slice_get self.now.callers at) ≡ Some true) }
        ensures least { IfSome result (λ at. EachCaller (λ other one. one.inside ≡ true → at ≤ other) self.now.callers) }
        ensures none { IfNone result (EachCaller (λ caller mine. mine.inside ≡ false) self.now.callers) }
    {
        self.callers.first_inside()
    }

    /// The ticket of a caller's call in flight.
    pub fn ticket(&self, caller: u8) -> Ticket
        requires { (ticket : Ticket) × HasTicketOf self.now.callers caller ticket }
        ensures { HasTicketOf self.now.callers caller result }
    {
        let Some(flight) = self.callers.get(caller).flight() else {
            unreachable!()
        };
        let Some(ticket) = flight.ticket else {
            unreachable!()
        };
        ticket
    }

    /// The ordinal of a caller's call in flight.
    pub fn ordinal_of(&self, caller: u8) -> u32
        requires { HasMine self.now caller (λ mine. IsSome mine.flight) }
        ensures { OfFlight self.now caller (λ mine flight. result ≡ flight.ordinal) }
    {
        let (ordinal, _) = self.numbers(caller);
        ordinal
    }

    /// Makes room for a fault in a recovery: its record, its step of the trace and the step that follows. Nothing else
    /// changes. The only error is want of memory.
    pub fn reserve_fault(&mut self) -> Result<(), NoMemory>
        ensures same { self.new ≡ with_room self.old self.new }
        ensures ok { OnOk result ((1 ≤ self.new.journal.room.records) × (2 ≤ self.new.journal.room.trail)) }
        ensures kept { KeepsRoom self.old.journal.room self.new.journal.room }
    {
        self.journal.reserve_fault()
    }
}
