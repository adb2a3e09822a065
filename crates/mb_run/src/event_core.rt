ghost use Rattle.std.specs.Prelude.{◌≡◌, ◌<◌, ◌≤◌, ℕ, None, Some, false, true, IfSome, OnErr, OnOk};
ghost use Rattle.mb_core_spec.specs.declared.stages.Stage.TheVariants as stage;
ghost use Rattle.mb_cache.specs.declared.answers.Flushed.TheVariants as flushed;
ghost use Rattle.mb_edge.specs.Causes.{Rose};
ghost use Rattle.mb_run.specs.declared.answers.StepAnswer.TheVariants as stepped;
ghost use Rattle.mb_run.specs.Events.{EntersInSight, FaultsWith, FinishesInSight, FlushesWith, GathersInSight, AsksForLacking, IsCallOf, IsReadyAt, LeavesWith, Quits, WritesBehind, sealed};
ghost use Rattle.mb_run.specs.Lengths.{ComesNoFurther};
ghost use Rattle.mb_run.specs.Pages.{HasTablesFor, IsUnderWay, PerformsOver, has};
ghost use Rattle.mb_run.specs.Recovering.{GoOn, RunsForFlight, Steps};
ghost use Rattle.mb_run.specs.Rising.{RisesWith};
ghost use Rattle.mb_run.specs.Served.{MayEnterInSight};
ghost use Rattle.mb_run.specs.Sights.{SeatHasTicket, IsOrderlyInSight, IsTicketOf, IsWaiting, Sight, limits_of, recovers};

use crate::answers::{EnterAnswer, StepAnswer};
use mb_cache::Flushed;
use mb_callers::Pages;
use mb_calls::{Performed, Performing, ReadyCall};
use mb_core_spec::{Config, Stage};
use mb_core_state::{Fault, Finished, Gathered, Left};
use mb_edge::{Crossings, Hook, NoMemory};
use mb_iface::Need;
use mb_kinds::{Call, Kind, Ticket};
use std::alloc::Global;

/// A core as its driver calls it: each call is one event. `sight` is what a driver sees of it, `faults` the disk's count of
/// faults, and `origin` what the core was begun on, which no event changes. Every event keeps a sight in order
/// (`IsOrderlyInSight`); so checkpoints are taken in time (`AreInTime`), whatever drives it. In a recovery no event but a step of it
/// brings its end further off (`stands`), so that it ends as soon as `recovers_soon` says, whoever's calls come between.
pub trait EventCore {
    /// What a core was begun on: plain data that contracts alone speak of.
    type Origin;

    ghost sight: { Self → Sight };

    ghost faults: { Self → ℕ };

    ghost origin: { Self → Self.Origin };

    /// Where the volume stands.
    fn stage(&self) -> Stage
        ensures { result ≡ (sight self.now).stage };

    /// What the core was begun with.
    fn config(&self) -> &Config
        ensures { limits_of result.now ≡ (sight self.now).config };

    /// How many operations the log has: those since the last checkpoint, as they were logged or folded.
    fn logged(&self) -> u32
        ensures { result ≡ (sight self.now).ops };

    /// How many calls a declared caller began.
    fn begun(&self, caller: u8) -> u32
        requires { caller < (sight self.now).config.callers }
        ensures { result ≡ ((sight self.now).seats caller).begun };

    /// Performs the call of a ticket over its pages, which have the tables, with the file system's code; it goes on where
    /// `way` has it stopped over fewer of them, and begins anew where that is `None`. The core stays as it is, and the ticket
    /// may be of an earlier incarnation.
    fn perform(
        &self,
        alloc: Global,
        pages: &Pages,
        ticket: &Ticket,
        call: &Call,
        way: &mut Option<Performing>,
    ) -> Performed
        requires there { has pages.now 0 ≡ true }
        requires tables { HasTablesFor (sight self.now).config.callers pages.now }
        requires declared { ticket.now.caller < (sight self.now).config.callers }
        requires going { IsUnderWay pages.now ticket.now.caller call.now way.old }
        ensures going { IsUnderWay pages.now ticket.now.caller call.now way.new }
        ensures performs { PerformsOver pages.now ticket.now.caller call.now ticket.now.moment result }
        ensures asked { AsksForLacking pages.now result };

    /// A caller's call enters: the one in flight, or a new one where none is.
    fn enter(&mut self, alloc: Global, caller: u8, call: &Call) -> EnterAnswer
        requires may { MayEnterInSight (sight self.old) caller call.now }
        requires right { IsOrderlyInSight (sight self.old) }
        ensures enters { EntersInSight (sight self.old) (sight self.new) caller call.now result }
        ensures stands { ComesNoFurther (sight self.old) (sight self.new) }
        ensures origin { origin self.new ≡ origin self.old }
        ensures right { IsOrderlyInSight (sight self.new) };

    /// A call inside, without its entry, gathers blocks, or at block 0 the tables.
    fn gather(&mut self, alloc: Global, ticket: &Ticket, need: Need, pages: &mut Pages) -> Gathered
        requires ticket { SeatHasTicket false ((sight self.old).seats ticket.now.caller) ticket.now }
        requires first { need.first < 262144 }
        requires some { 1 ≤ need.count }
        requires count { need.count ≤ 32 }
        requires right { IsOrderlyInSight (sight self.old) }
        ensures gathers { GathersInSight (sight self.old) (sight self.new) ticket.now need pages.old pages.new result }
        ensures stands { ComesNoFurther (sight self.old) (sight self.new) }
        ensures origin { origin self.new ≡ origin self.old }
        ensures right { IsOrderlyInSight (sight self.new) };

    /// A call inside, without its entry, finishes with what was performed over its pages, which have the tables. The
    /// checkpoint that is due once it is logged is taken with it: after `sync(2)`, and where as many operations are logged as
    /// the threshold says.
    fn finish(
        &mut self,
        alloc: Global,
        ticket: &Ticket,
        pages: &Pages,
        call: &Call,
        ready: ReadyCall,
    ) -> Finished
        requires ticket { SeatHasTicket false ((sight self.old).seats ticket.now.caller) ticket.now }
        requires there { has pages.now 0 ≡ true }
        requires tables { HasTablesFor (sight self.old).config.callers pages.now }
        requires call { IsCallOf ((sight self.old).seats ticket.now.caller) call.now }
        requires ready { IsReadyAt (sight self.old) ticket.now pages.now ready }
        requires right { IsOrderlyInSight (sight self.old) }
        ensures finishes { FinishesInSight (sight self.old) (sight self.new) ticket.now pages.now call.now result }
        ensures stands { recovers (sight self.old).stage ≡ true → ComesNoFurther (sight self.old) (sight self.new) }
        ensures origin { origin self.new ≡ origin self.old }
        ensures right { IsOrderlyInSight (sight self.new) };

    /// A call that has its entry leaves, and then one checkpointed page is written back: where the disk fails in that, the
    /// page waits on and the answer stands.
    fn leave(&mut self, ticket: &Ticket) -> Left
        requires ticket { SeatHasTicket true ((sight self.old).seats ticket.now.caller) ticket.now }
        requires right { IsOrderlyInSight (sight self.old) }
        ensures leaves { LeavesWith (sight self.old) (sight self.new) ticket.now result }
        ensures behind { WritesBehind (faults self.old) (faults self.new) (sight self.old) (sight self.new) result }
        ensures later { faults self.old ≤ faults self.new }
        ensures stands { ComesNoFurther (sight self.old) (sight self.new) }
        ensures origin { origin self.new ≡ origin self.old }
        ensures right { IsOrderlyInSight (sight self.new) };

    /// The call is struck at the crossing at which the fault injector answered a fault.
    fn fault<H: Hook>(&mut self, ticket: &Ticket, kind: Kind, nth: u32, hook: &H) -> Fault
        requires ticket { IsTicketOf ((sight self.old).seats ticket.now.caller) ticket.now }
        requires struck { H.struck hook.now
            ≡ Some (record { caller = ticket.now.caller; ordinal = ticket.now.ordinal; kind = kind; nth = nth }) }
        requires right { IsOrderlyInSight (sight self.old) }
        ensures faults { FaultsWith (sight self.old) (sight self.new) ticket.now kind nth result }
        ensures stands { recovers (sight self.old).stage ≡ true → ComesNoFurther (sight self.old) (sight self.new) }
        ensures origin { origin self.new ≡ origin self.old }
        ensures right { IsOrderlyInSight (sight self.new) };

    /// One step of a recovery, run by a call in flight without an entry, whose crossings `by` has, or by nobody; the
    /// fault injector is asked for a call alone, and its count of faults rose where a fault record came.
    fn recover_step<H: Hook>(
        &mut self,
        alloc: Global,
        by: &mut Option<Crossings>,
        hook: &mut H,
    ) -> StepAnswer
        requires by { IfSome by.old (RunsForFlight (sight self.old)) }
        requires right { IsOrderlyInSight (sight self.old) }
        ensures on { GoOn by.old by.new }
        ensures unasked { by.old ≡ None → hook.new ≡ hook.old }
        ensures test { H.test hook.new ≡ H.test hook.old }
        ensures steps { Steps (H.test hook.old) by.old by.new (sight self.old) (sight self.new) result }
        ensures rises { RisesWith (H.faults hook.old) (H.faults hook.new) (sight self.old).records (sight self.new).records }
        ensures device { result ≡ stepped.Device → Rose (faults self.old) (faults self.new) }
        ensures stands { result ≡ stepped.Device → ComesNoFurther (sight self.old) (sight self.new) }
        ensures later { faults self.old ≤ faults self.new }
        ensures origin { origin self.new ≡ origin self.old }
        ensures right { IsOrderlyInSight (sight self.new) };

    /// Ends a call in flight that has no entry, and gives it none.
    fn quit(&mut self, caller: u8)
        requires waits { IsWaiting ((sight self.old).seats caller) }
        requires right { IsOrderlyInSight (sight self.old) }
        ensures quits { Quits caller (sight self.old) (sight self.new) }
        ensures stands { ComesNoFurther (sight self.old) (sight self.new) }
        ensures origin { origin self.new ≡ origin self.old }
        ensures right { IsOrderlyInSight (sight self.new) };

    /// Takes a checkpoint of a running volume. The only error is want of memory, and nothing has changed then.
    fn seal(&mut self) -> Result<(), NoMemory>
        requires runs { (sight self.old).stage ≡ stage.Running }
        requires right { IsOrderlyInSight (sight self.old) }
        ensures ok { OnOk result (sight self.new ≡ sealed (sight self.old) (sight self.new)) }
        ensures err { OnErr result (sight self.new ≡ sight self.old) }
        ensures later { faults self.old ≤ faults self.new }
        ensures origin { origin self.new ≡ origin self.old }
        ensures right { IsOrderlyInSight (sight self.new) };

    /// Writes one checkpointed page back.
    fn flush_one(&mut self) -> Flushed
        requires right { IsOrderlyInSight (sight self.old) }
        ensures flushes { FlushesWith (sight self.old) (sight self.new) result }
        ensures device { result ≡ flushed.Device → Rose (faults self.old) (faults self.new) }
        ensures later { faults self.old ≤ faults self.new }
        ensures stands { ComesNoFurther (sight self.old) (sight self.new) }
        ensures origin { origin self.new ≡ origin self.old }
        ensures right { IsOrderlyInSight (sight self.new) };
}
