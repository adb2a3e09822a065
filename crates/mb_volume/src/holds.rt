ghost use Rattle.std.specs.Prelude.{◌≡◌, ◌<◌, ◌≤◌, true, false, IfNone, IfSome};
ghost use Rattle.mb_calls.specs.declared.performing.Performed.TheVariants as performed;
ghost use Rattle.mb_kinds.specs.declared.faults.Kind.TheVariants as kinds;
ghost use Rattle.mb_run.specs.Pages.{PagesGrowBy, IsUnderWay, PerformsOver, has};
ghost use Rattle.mb_run.specs.Rising.{RisesWith};
ghost use Rattle.mb_run.specs.Sights.{IsWaiting};
ghost use Rattle.mb_run.specs.Tallies.{is_logged};
ghost use Rattle.mb_run.specs.declared.runner.At.TheVariants as at;
ghost use Rattle.mb_turn.specs.Passes.{IsIdle};
ghost use Rattle.mb_volume.specs.Attempts.{new_attempt};
ghost use Rattle.mb_volume.specs.Coming.{ComesOfHold, ComesOfStep, GoesPast, IsStruckAt};
ghost use Rattle.mb_volume.specs.Passing.{IsLater, IsMaking, part_in};
ghost use Rattle.mb_volume.specs.Underway.{GrowsAfter, PlaceHoldsTicket, IsLeftOff, MayCome};

use crate::attempt::Attempt;
use crate::events::{Came, Event};
use crate::performing::{has_tables, perform};
use crate::shared::SharedCore;
use crate::volume::Volume;
use mb_calls::{Performed, Performing, ReadyCall};
use mb_edge::{Disk, Hook, Word};
use mb_iface::{FileSys, Need};
use mb_kinds::{Call, Kind, Ticket};
use mb_run::{At, keep_way};
use mb_turn::Pass;
use std::alloc::Global;
use std::sync::Wait;

impl<F: FileSys, D: Disk> Volume<F, D> {
    /// What the caller keeps of its next call. Its number needs no hold of the turn: nobody else begins a call of this caller.
    pub(crate) fn begin(&self, alloc: Global, pass: &Pass<SharedCore<F, D>>) -> Attempt
        requires most { (part_in pass.now).seat.begun < (part_in pass.now).config.most }
        ensures declared { pass.now.caller < (part_in pass.now).config.callers }
        ensures attempt { result ≡ new_attempt pass.now.caller (part_in pass.now).seat.begun }
    {
        pass.show();
        Attempt::new(alloc, pass.caller(), pass.begun())
    }

    /// One event of the caller's call, in one hold of the turn. It also gives the file system's code as it is then.
    /// It stands in each of its callers, which know the event, so that no event is copied.
    #[inline(always)]
    fn hold<H: Hook, R: Wait>(
        &self,
        rt: &R,
        alloc: Global,
        pass: &mut Pass<SharedCore<F, D>>,
        hook: &mut H,
        attempt: &mut Attempt,
        call: &Call,
        event: Event,
    ) -> (Came, F)
        requires idle { IsIdle self.now.table pass.old }
        requires making { IsMaking call.now (H.test hook.old) pass.old attempt.old false }
        requires may { MayCome call.now (H.test hook.old) (H.struck hook.old)
            (part_in pass.old).seat attempt.old event }
        ensures grown { GrowsAfter event attempt.old.pages attempt.new.pages }
        ensures comes { ComesOfHold self.now.table call.now (H.test hook.old) event (H.faults hook.old) (H.faults hook.new)
            pass.old pass.new attempt.old attempt.new result.0 }
        ensures test { H.test hook.new ≡ H.test hook.old }
    {
        let mut shared = self.turn.take(rt, pass);
        let came = shared.act(alloc, hook, attempt, call, event);
        shared.in_order();
        let code = shared.code();
        self.turn.give(pass, shared);
        (came, code)
    }

    /// Asks the fault injector at the next crossing of a kind, outside the turn, and strikes the call where it says so;
    /// `None` exactly where the call goes on. A call that has its entry is asked where it leaves.
    fn ask<H: Hook, R: Wait>(
        &self,
        rt: &R,
        alloc: Global,
        pass: &mut Pass<SharedCore<F, D>>,
        hook: &mut H,
        attempt: &mut Attempt,
        call: &Call,
        ticket: &Ticket,
        kind: Kind,
    ) -> Option<Came>
        requires idle { IsIdle self.now.table pass.old }
        requires making { IsMaking call.now (H.test hook.old) pass.old attempt.old false }
        requires holds { PlaceHoldsTicket attempt.old.at ticket.now }
        requires leaves { is_logged attempt.old.at ≡ 1 → kind ≡ kinds.Leave }
        ensures passed { IfNone result (GoesPast (H.test hook.old) (H.faults hook.old) (H.faults hook.new)
            pass.old pass.new attempt.old attempt.new kind) }
        ensures struck { IfSome result (IsStruckAt self.now.table call.now
            (H.test hook.old) (H.faults hook.old) (H.faults hook.new) pass.old pass.new attempt.old attempt.new kind) }
        ensures rises { RisesWith (H.faults hook.old) (H.faults hook.new)
            (part_in pass.old).struck (part_in pass.new).struck }
        ensures test { H.test hook.new ≡ H.test hook.old }
    {
        let mut passed = attempt.crossings;
        let crossing = passed.next(kind);
        match hook.cross(&crossing) {
            Word::Go => {
                attempt.crossings = passed;
                None
            }
            Word::Fault => {
                let event = Event::Fault(*ticket, crossing, passed);
                let (came, _) = self.hold(rt, alloc, pass, hook, attempt, call, event);
                Some(came)
            }
        }
    }

    /// The call enters; where it is inside, the fault injector is asked.
    #[tactic(auto, using(crate::proofs::Rising::rises_unasked))]
    fn enter<H: Hook, R: Wait>(
        &self,
        rt: &R,
        alloc: Global,
        pass: &mut Pass<SharedCore<F, D>>,
        hook: &mut H,
        attempt: &mut Attempt,
        call: &Call,
    ) -> Came
        requires idle { IsIdle self.now.table pass.old }
        requires making { IsMaking call.now (H.test hook.old) pass.old attempt.old false }
        requires outside { attempt.old.at ≡ at.Outside }
        ensures comes { ComesOfStep self.now.table call.now (H.test hook.old) (H.faults hook.old) (H.faults hook.new)
            pass.old pass.new attempt.old attempt.new result }
        ensures test { H.test hook.new ≡ H.test hook.old }
    {
        let (came, _) = self.hold(rt, alloc, pass, hook, attempt, call, Event::Enter);
        match came {
            Came::Inside(ticket) => {
                match self.ask(rt, alloc, pass, hook, attempt, call, &ticket, Kind::Enter) {
                    Some(came) => came,
                    None => Came::On,
                }
            }
            other => other,
        }
    }

    /// The fault injector is asked, and blocks are gathered, or at block 0 the tables, and with them the file system's
    /// code.
    fn gather<H: Hook, R: Wait>(
        &self,
        rt: &R,
        alloc: Global,
        pass: &mut Pass<SharedCore<F, D>>,
        hook: &mut H,
        attempt: &mut Attempt,
        call: &Call,
        ticket: &Ticket,
        need: Need,
    ) -> (Came, Option<F>)
        requires idle { IsIdle self.now.table pass.old }
        requires making { IsMaking call.now (H.test hook.old) pass.old attempt.old false }
        requires inside { attempt.old.at ≡ at.Inside ticket.now }
        requires need { (need.first < 262144) × (1 ≤ need.count) × (need.count ≤ 32) }
        ensures grown { IfSome result.1 (λ code. PagesGrowBy need attempt.old.pages attempt.new.pages) }
        ensures comes { ComesOfStep self.now.table call.now (H.test hook.old) (H.faults hook.old) (H.faults hook.new)
            pass.old pass.new attempt.old attempt.new result.0 }
        ensures test { H.test hook.new ≡ H.test hook.old }
    {
        match self.ask(rt, alloc, pass, hook, attempt, call, ticket, Kind::Gather) {
            Some(came) => return (came, None),
            None => {}
        }
        let event = Event::Gather(*ticket, need);
        let (came, code) = self.hold(rt, alloc, pass, hook, attempt, call, event);
        (came, Some(code))
    }

    /// The fault injector is asked, unless it was at this finish, and the call finishes.
    fn finish<H: Hook, R: Wait>(
        &self,
        rt: &R,
        alloc: Global,
        pass: &mut Pass<SharedCore<F, D>>,
        hook: &mut H,
        attempt: &mut Attempt,
        call: &Call,
        ticket: &Ticket,
        ready: ReadyCall,
    ) -> Came
        requires idle { IsIdle self.now.table pass.old }
        requires making { IsMaking call.now (H.test hook.old) pass.old attempt.old false }
        requires inside { attempt.old.at ≡ at.Inside ticket.now }
        requires there { has attempt.old.pages 0 ≡ true }
        requires ready { PerformsOver attempt.old.pages ticket.now.caller call.now ticket.now.moment
            (performed.Ready ready) }
        ensures comes { ComesOfStep self.now.table call.now (H.test hook.old) (H.faults hook.old) (H.faults hook.new)
            pass.old pass.new attempt.old attempt.new result }
        ensures test { H.test hook.new ≡ H.test hook.old }
    {
        if !attempt.asked {
            match self.ask(rt, alloc, pass, hook, attempt, call, ticket, Kind::Finish) {
                Some(came) => return came,
                None => {}
            }
            let event = Event::Finish(*ticket, ready);
            return self.hold(rt, alloc, pass, hook, attempt, call, event).0;
        }
        let event = Event::Finish(*ticket, ready);
        self.hold(rt, alloc, pass, hook, attempt, call, event).0
    }

    /// The fault injector is asked, and the call leaves.
    fn leave<H: Hook, R: Wait>(
        &self,
        rt: &R,
        alloc: Global,
        pass: &mut Pass<SharedCore<F, D>>,
        hook: &mut H,
        attempt: &mut Attempt,
        call: &Call,
        ticket: &Ticket,
    ) -> Came
        requires idle { IsIdle self.now.table pass.old }
        requires making { IsMaking call.now (H.test hook.old) pass.old attempt.old false }
        requires logged { attempt.old.at ≡ at.Logged ticket.now }
        ensures comes { ComesOfStep self.now.table call.now (H.test hook.old) (H.faults hook.old) (H.faults hook.new)
            pass.old pass.new attempt.old attempt.new result }
        ensures test { H.test hook.new ≡ H.test hook.old }
    {
        match self.ask(rt, alloc, pass, hook, attempt, call, ticket, Kind::Leave) {
            Some(came) => return came,
            None => {}
        }
        let event = Event::Leave(*ticket);
        self.hold(rt, alloc, pass, hook, attempt, call, event).0
    }

    /// It gathers what the call asked for, with what it followed of its paths.
    fn gather_on<H: Hook, R: Wait>(
        &self,
        rt: &R,
        alloc: Global,
        pass: &mut Pass<SharedCore<F, D>>,
        hook: &mut H,
        attempt: &mut Attempt,
        call: &Call,
        ticket: &Ticket,
        need: Need,
        way: &mut Option<Performing>,
    ) -> Came
        requires idle { IsIdle self.now.table pass.old }
        requires making { IsMaking call.now (H.test hook.old) pass.old attempt.old false }
        requires inside { attempt.old.at ≡ at.Inside ticket.now }
        requires there { has attempt.old.pages 0 ≡ true }
        requires lacks { has attempt.old.pages need.first ≡ false }
        requires need { (1 ≤ need.first) × (need.first < 262144) × (1 ≤ need.count) × (need.count ≤ 32) }
        requires going { IsUnderWay attempt.old.pages attempt.old.crossings.caller call.now way.old }
        ensures going { IsUnderWay attempt.new.pages attempt.new.crossings.caller call.now way.new }
        ensures comes { ComesOfStep self.now.table call.now (H.test hook.old) (H.faults hook.old) (H.faults hook.new)
            pass.old pass.new attempt.old attempt.new result }
        ensures test { H.test hook.new ≡ H.test hook.old }
    {
        let need = attempt.pages.foresee(call, need);
        keep_way(&attempt.pages, &need, way);
        let (came, code) = self.gather(rt, alloc, pass, hook, attempt, call, ticket, need);
        if code.is_none() {
            *way = None;
        }
        came
    }

    /// The call, which is inside, is performed over what it gathered, outside the turn, and finishes, or it gathers what
    /// is not there yet.
    #[tactic(auto, using(crate::proofs::Rising::rises_same))]
    fn go_on<H: Hook, R: Wait>(
        &self,
        rt: &R,
        alloc: Global,
        pass: &mut Pass<SharedCore<F, D>>,
        hook: &mut H,
        attempt: &mut Attempt,
        code: &mut Option<F>,
        way: &mut Option<Performing>,
        call: &Call,
        ticket: &Ticket,
    ) -> Came
        requires idle { IsIdle self.now.table pass.old }
        requires making { IsMaking call.now (H.test hook.old) pass.old attempt.old false }
        requires inside { attempt.old.at ≡ at.Inside ticket.now }
        requires going { IsUnderWay attempt.old.pages attempt.old.crossings.caller call.now way.old }
        ensures going { IsUnderWay attempt.new.pages attempt.new.crossings.caller call.now way.new }
        ensures comes { ComesOfStep self.now.table call.now (H.test hook.old) (H.faults hook.old) (H.faults hook.new)
            pass.old pass.new attempt.old attempt.new result }
        ensures test { H.test hook.new ≡ H.test hook.old }
    {
        if has_tables(&attempt.pages) {
            if let Some(need) = attempt.foreseen(call) {
                *way = None;
                return self
                    .gather(rt, alloc, pass, hook, attempt, call, ticket, need)
                    .0;
            }
            if let Some(fs) = *code {
                match perform(alloc, &fs, &attempt.pages, ticket, call, way) {
                    Performed::Need(need) => {
                        return self.gather_on(
                            rt, alloc, pass, hook, attempt, call, ticket, need, way,
                        );
                    }
                    Performed::NoMemory => return Came::NoMemory,
                    Performed::Ready(ready) => {
                        *way = None;
                        return self.finish(rt, alloc, pass, hook, attempt, call, ticket, ready);
                    }
                }
            }
        }
        *way = None;
        let tables = Need::tables();
        let (came, gathered) = self.gather(rt, alloc, pass, hook, attempt, call, ticket, tables);
        *code = gathered;
        came
    }

    /// The next step of the caller's call, where it waits for a recovery a step of that.
    #[tactic(auto, using(crate::proofs::Rising::rises_unasked))]
    pub(crate) fn step<H: Hook, R: Wait>(
        &self,
        rt: &R,
        alloc: Global,
        pass: &mut Pass<SharedCore<F, D>>,
        hook: &mut H,
        attempt: &mut Attempt,
        code: &mut Option<F>,
        way: &mut Option<Performing>,
        shut: bool,
        call: &Call,
    ) -> Came
        requires idle { IsIdle self.now.table pass.old }
        requires making { IsMaking call.now (H.test hook.old) pass.old attempt.old shut }
        requires going { IsUnderWay attempt.old.pages attempt.old.crossings.caller call.now way.old }
        ensures going { IsUnderWay attempt.new.pages attempt.new.crossings.caller call.now way.new }
        ensures comes { ComesOfStep self.now.table call.now (H.test hook.old) (H.faults hook.old) (H.faults hook.new)
            pass.old pass.new attempt.old attempt.new result }
        ensures test { H.test hook.new ≡ H.test hook.old }
    {
        if shut {
            *way = None;
            return self
                .hold(rt, alloc, pass, hook, attempt, call, Event::Recover)
                .0;
        }
        match attempt.at {
            At::Outside => {
                *way = None;
                self.enter(rt, alloc, pass, hook, attempt, call)
            }
            At::Inside(ticket) => {
                self.go_on(rt, alloc, pass, hook, attempt, code, way, call, &ticket)
            }
            At::Logged(ticket) => {
                *way = None;
                self.leave(rt, alloc, pass, hook, attempt, call, &ticket)
            }
        }
    }

    /// Ends the caller's call, which has no entry, where it began: it gets none.
    pub(crate) fn give_up<R: Wait>(
        &self,
        rt: &R,
        pass: &mut Pass<SharedCore<F, D>>,
        attempt: &Attempt,
    )
        requires idle { IsIdle self.now.table pass.old }
        requires waits { (part_in pass.old).seat.begun ≡ attempt.now.crossings.ordinal → IsWaiting (part_in pass.old).seat }
        ensures later { IsLater self.now.table pass.old pass.new }
        ensures quits { IsLeftOff attempt.now.crossings.ordinal (part_in pass.old) (part_in pass.new) }
    {
        if pass.begun() == attempt.crossings.ordinal {
            let mut shared = self.turn.take(rt, pass);
            shared.quit(pass.caller());
            self.turn.give(pass, shared);
        }
    }
}
