ghost use Rattle.std.specs.Prelude.{◌≡◌, ◌≤◌, ◌<◌, ◌+◌, [], ℕ, Some, None, false, true, OnOk, OnErr, IfNone, IfSome, IsSome, min, option_copied};
ghost use Rattle.mb_kinds.specs.declared.entries.Flight.{Flight};
ghost use Rattle.mb_cache.specs.Stamps.{stamp_of};
ghost use Rattle.mb_cache.specs.State.{ReadHasCause, after_pinning, with_pins};
ghost use Rattle.mb_callers.specs.Gathering.{GathersBlocks, GathersTables};
ghost use Rattle.mb_callers.specs.Stale.{AllFresh, IsLeastStale};
ghost use Rattle.mb_callers.specs.Tables.{as_copy};
ghost use Rattle.mb_core_spec.specs.Begun.{idle};
ghost use Rattle.mb_core_spec.specs.Callers.{total};
ghost use Rattle.mb_core_spec.specs.Copies.{LiveTables};
ghost use Rattle.mb_core_spec.specs.Events.{GivesBack, begins_at, first_flight, gathers_anew, goes_in, taken_back, with_entry};
ghost use Rattle.mb_core_spec.specs.Flights.{is_pin};

use crate::gathering::{keep_blocks, keep_tables};
use crate::pages::Pages;
use crate::tables::TablesNow;
use crate::undoing::{give_back, note_entered, note_floor};
use mb_cache::{Cache, ReadFault};
use mb_copies::Reads;
use mb_edge::{Disk, NoMemory};
use mb_gate::Ulog;
use mb_iface::Need;
use mb_kinds::{Call, Flight, Reply, Ticket};
use std::alloc::Global;
use std::marker::Model;

/// What the core keeps of one caller. A contract sees a `CallerState` of `mb_core_spec`; the room of its parts stays
/// from call to call.
#[derive(Drop)]
pub struct CallerState {
    begun: u32,
    flight: Option<Flight>,
    answer: Option<Reply>,
    inside: bool,
    undo: Ulog,
    reserved: Option<u16>,
    stales: u8,
    pages: Pages,
    // what is being gathered
    reads: Reads,
}

/// How many stale answers are counted after one more: up to four.
fn one_stale_more(stales: u8) -> u8
    ensures { result ≡ min (stales + 1) 4 }
{
    if stales < 4 { stales + 1 } else { 4 }
}

impl Model for CallerState {
    ghost use Rattle.std.specs.Coded.{codes, coded_ℕ};
    ghost use Rattle.std.specs.FinMap as fin;
    ghost use Rattle.std.specs.Ordering.{nat_cmp};
    ghost use Rattle.mb_tree.specs.contracts.seats.PlainFile as file;
    ghost use Rattle.mb_core_spec.specs.State as state;
    ghost use Rattle.mb_callers.specs.Gathering.{HasSteps};

    ghost Value = { state.CallerState };

    ghost coded = { Prim.hlevel (codes, fin.code {R = nat_cmp} coded_ℕ coded_ℕ, fin.code {R = nat_cmp} coded_ℕ file.the_row.coded) };

    ghost view = { λ c. record {
      begun = c.begun;
      flight = c.flight;
      answer = c.answer;
      inside = c.inside;
      undo = c.undo.items;
      reserved = c.reserved;
      stales = c.stales;
      pages = c.pages;
    } };

    ghost invariant = { λ c. HasSteps c.inside c.undo };
}

impl CallerState {
    /// A caller that did not begin a call; needs no memory.
    pub fn new(alloc: Global) -> CallerState
        ensures { result ≡ idle }
    {
        CallerState {
            begun: 0,
            flight: None,
            answer: None,
            inside: false,
            undo: Ulog::new(alloc),
            reserved: None,
            stales: 0,
            pages: Pages::new(alloc),
            reads: Reads::new(alloc),
        }
    }

    /// How many calls it began.
    pub fn begun(&self) -> u32
        ensures { result ≡ self.now.begun }
    {
        self.begun
    }

    /// The call in flight.
    pub fn flight(&self) -> Option<&Flight>
        ensures { option_copied result ≡ self.now.flight }
    {
        self.flight.as_ref()
    }

    /// The reply of a call in flight that has its entry.
    pub fn answer(&self) -> Option<&Reply>
        ensures { option_copied result ≡ self.now.answer }
    {
        self.answer.as_ref()
    }

    /// Whether the call in flight is inside.
    pub fn is_inside(&self) -> bool
        ensures { result ≡ self.now.inside }
    {
        self.inside
    }

    /// How often the present ticket was answered that a copy is stale, counted up to four.
    pub fn stales(&self) -> u8
        ensures { result ≡ self.now.stales }
    {
        self.stales
    }

    /// Begins a call, which has the next ordinal and waits to enter; needs no memory.
    pub fn begin(&mut self, call: Call, moment: u32)
        requires { self.old.begun < 4294967295 }
        ensures { self.new ≡ begins_at self.old call moment }
    {
        self.begun += 1;
        self.flight = Some(Flight {
            call,
            ordinal: self.begun,
            moment,
            ticket: None,
            answered: false,
        });
    }

    /// The call in flight enters, with a ticket and the descriptor that it reserved. The only error is want of memory,
    /// and nothing has changed then.
    pub fn go_in(&mut self, ticket: Ticket, reserved: Option<u16>) -> Result<(), NoMemory>
        requires flight { IsSome self.old.flight }
        requires empty { self.old.undo ≡ [] }
        ensures ok { OnOk result ((flight : Flight) → self.old.flight ≡ Some flight
            → self.new ≡ goes_in self.old flight ticket reserved) }
        ensures err { OnErr result (self.new ≡ self.old) }
    {
        self.undo.reserve(3)?;
        note_entered(&mut self.undo, reserved);
        let Some(flight) = self.flight.take() else {
            unreachable!()
        };
        self.flight = Some(Flight {
            ticket: Some(ticket),
            ..flight
        });
        self.inside = true;
        self.reserved = reserved;
        self.stales = 0;
        Ok(())
    }

    /// A call begins, with the next ordinal and that moment, and enters at once with a ticket and the descriptor that it
    /// reserved. The only error is want of memory, and nothing has changed then.
    pub fn begin_inside(
        &mut self,
        call: Call,
        moment: u32,
        ticket: Ticket,
        reserved: Option<u16>,
    ) -> Result<(), NoMemory>
        requires few { self.old.begun < 4294967295 }
        requires empty { self.old.undo ≡ [] }
        ensures ok { OnOk result (self.new
            ≡ goes_in (record self.old { begun = self.old.begun + 1 }) (first_flight call (self.old.begun + 1) moment) ticket reserved) }
        ensures err { OnErr result (self.new ≡ self.old) }
    {
        self.undo.reserve(3)?;
        note_entered(&mut self.undo, reserved);
        self.begun += 1;
        self.flight = Some(Flight {
            call,
            ordinal: self.begun,
            moment,
            ticket: Some(ticket),
            answered: false,
        });
        self.inside = true;
        self.reserved = reserved;
        self.stales = 0;
        Ok(())
    }

    /// Gathers what a call needs into its pages and into what is kept of it, both alike: at block 0 copies of the
    /// tables, else blocks as they are seen, with their stamps. All of it is pinned. `Device` comes only where the disk's
    /// count of faults rose; on an error nothing has changed but the disk and room.
    pub fn gather<D: Disk>(
        &mut self,
        alloc: Global,
        cache: &mut Cache<D>,
        need: Need,
        tables: &TablesNow<'_>,
        pages: &mut Pages,
    ) -> Result<(), ReadFault>
        requires first { need.first < 262144 }
        requires count { need.count ≤ 32 }
        ensures tables { need.first ≡ 0
            → OnOk result (GathersTables cache.old cache.new (as_copy tables.now) self.old self.new pages.old pages.new) }
        ensures blocks { 1 ≤ need.first
            → OnOk result (GathersBlocks D.told cache.old cache.new need self.old self.new pages.old pages.new) }
        ensures err { OnErr result ((self.new ≡ self.old) × (pages.new ≡ pages.old) × (cache.new.pins ≡ cache.old.pins)) }
        ensures rest { cache.new ≡ after_pinning cache.old cache.new }
        ensures told { D.told cache.new.disk ≡ D.told cache.old.disk }
        ensures cause { ReadHasCause (D.faults cache.old.disk) (D.faults cache.new.disk) result }
    {
        if need.first == 0 {
            self.gather_tables(alloc, cache, tables, pages)?;
            Ok(())
        } else {
            self.gather_blocks(cache, need, pages)
        }
    }

    fn gather_tables<D: Disk>(
        &mut self,
        alloc: Global,
        cache: &mut Cache<D>,
        tables: &TablesNow<'_>,
        pages: &mut Pages,
    ) -> Result<(), NoMemory>
        ensures ok { OnOk result (GathersTables cache.old cache.new (as_copy tables.now) self.old self.new pages.old pages.new) }
        ensures err { OnErr result ((self.new ≡ self.old) × (pages.new ≡ pages.old) × (cache.new.pins ≡ cache.old.pins)) }
        ensures rest { cache.new ≡ with_pins cache.old cache.new }
    {
        keep_tables(
            alloc,
            &mut self.undo,
            &mut self.pages.tables,
            &mut pages.tables,
            cache,
            tables,
        )
    }

    fn gather_blocks<D: Disk>(
        &mut self,
        cache: &mut Cache<D>,
        need: Need,
        pages: &mut Pages,
    ) -> Result<(), ReadFault>
        requires first { need.first < 262144 }
        requires count { need.count ≤ 32 }
        ensures ok { OnOk result (GathersBlocks D.told cache.old cache.new need self.old self.new pages.old pages.new) }
        ensures err { OnErr result ((self.new ≡ self.old) × (pages.new ≡ pages.old) × (cache.new.pins ≡ cache.old.pins)) }
        ensures rest { cache.new ≡ after_pinning cache.old cache.new }
        ensures told { D.told cache.new.disk ≡ D.told cache.old.disk }
        ensures cause { ReadHasCause (D.faults cache.old.disk) (D.faults cache.new.disk) result }
    {
        self.reads.fetch(cache, need)?;
        keep_blocks(
            &mut self.undo,
            &mut self.pages.blocks,
            &mut pages.blocks,
            cache,
            &mut self.reads,
        )?;
        Ok(())
    }

    /// The least block of a call's pages that is not kept with the same bytes and the present stamp; block 0 stands for
    /// the tables, of which the caller's own session alone counts where the call is not shared. `stamp` is the tables'
    /// present one. `None` exactly where nothing is stale.
    pub fn stale_block<D: Disk>(
        &self,
        cache: &Cache<D>,
        stamp: u64,
        caller: u8,
        shared: bool,
        pages: &Pages,
    ) -> Option<u32>
        ensures none { (live : LiveTables) → live.stamp ≡ stamp
            → IfNone result (AllFresh shared caller cache.now.stamps live self.now.pages pages.now) }
        ensures some { (live : LiveTables) → live.stamp ≡ stamp
            → IfSome result (IsLeastStale shared caller cache.now.stamps live self.now.pages pages.now) }
    {
        self.pages.stale_block(cache, stamp, caller, shared, pages)
    }

    /// The call in flight gathers anew: its pins and copies are given back, and where its caller now has the right to
    /// commit alone, that is noted. Needs no memory.
    pub fn gather_anew<D: Disk>(&mut self, cache: &mut Cache<D>, caller: u8, floor: Option<u8>)
        requires inside { self.old.inside ≡ true }
        requires pins { (block : ℕ) → total (is_pin block) self.old.undo ≤ stamp_of cache.old.pins block }
        ensures anew { self.new ≡ gathers_anew self.old caller floor }
        ensures rest { cache.new ≡ with_pins cache.old cache.new }
        ensures back { GivesBack cache.old.pins cache.new.pins self.old.undo }
    {
        give_back(&mut self.undo, cache);
        note_entered(&mut self.undo, self.reserved);
        note_floor(&mut self.undo, caller, floor);
        self.pages.clear();
        self.stales = one_stale_more(self.stales);
    }

    /// What the call pinned, reserved and gathered is given back; needs no memory.
    fn take_back<D: Disk>(&mut self, cache: &mut Cache<D>)
        requires pins { (block : ℕ) → total (is_pin block) self.old.undo ≤ stamp_of cache.old.pins block }
        ensures taken { self.new ≡ taken_back self.old }
        ensures rest { cache.new ≡ with_pins cache.old cache.new }
        ensures back { GivesBack cache.old.pins cache.new.pins self.old.undo }
    {
        give_back(&mut self.undo, cache);
        self.reserved = None;
        self.stales = 0;
        self.pages.clear();
    }

    /// The call inside is unwound: what it did is given back, and it stays a call in flight. Needs no memory.
    pub fn unwind<D: Disk>(&mut self, cache: &mut Cache<D>)
        requires pins { (block : ℕ) → total (is_pin block) self.old.undo ≤ stamp_of cache.old.pins block }
        ensures unwound { self.new ≡ taken_back (record self.old { inside = false }) }
        ensures rest { cache.new ≡ with_pins cache.old cache.new }
        ensures back { GivesBack cache.old.pins cache.new.pins self.old.undo }
    {
        self.take_back(cache);
        self.inside = false;
    }

    /// The call in flight has its entry: what it did is given back, and the entry's reply is kept to be handed out.
    /// Needs no memory.
    pub fn log<D: Disk>(&mut self, cache: &mut Cache<D>, reply: Reply)
        requires flight { IsSome self.old.flight }
        requires pins { (block : ℕ) → total (is_pin block) self.old.undo ≤ stamp_of cache.old.pins block }
        ensures logged { (flight : Flight) → self.old.flight ≡ Some flight → self.new ≡ with_entry self.old flight reply }
        ensures rest { cache.new ≡ with_pins cache.old cache.new }
        ensures back { GivesBack cache.old.pins cache.new.pins self.old.undo }
    {
        let Some(flight) = self.flight.take() else {
            unreachable!()
        };
        self.take_back(cache);
        self.flight = Some(Flight {
            answered: true,
            ..flight
        });
        self.answer = Some(reply);
    }

    /// The call in flight ends: what it did is given back, and it is handed out with the reply of its entry, where it
    /// has one. Needs no memory.
    pub fn end<D: Disk>(&mut self, cache: &mut Cache<D>) -> (Option<Flight>, Option<Reply>)
        requires pins { (block : ℕ) → total (is_pin block) self.old.undo ≤ stamp_of cache.old.pins block }
        ensures out { result ≡ (self.old.flight, self.old.answer) }
        ensures ended { self.new ≡ taken_back (record self.old { flight = None; inside = false; answer = None }) }
        ensures rest { cache.new ≡ with_pins cache.old cache.new }
        ensures back { GivesBack cache.old.pins cache.new.pins self.old.undo }
    {
        let out = (self.flight.take(), self.answer.take());
        self.take_back(cache);
        self.inside = false;
        out
    }
}
