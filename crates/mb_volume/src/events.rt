ghost use Rattle.std.specs.Prelude.{◌≡◌, ◌<◌, ◌≤◌, true};
ghost use Rattle.mb_calls.specs.declared.performing.Performed.TheVariants as performed;
ghost use Rattle.mb_edge.specs.declared.hooks.Word.TheVariants as word;
ghost use Rattle.mb_run.specs.Pages.{PagesGrowBy, PerformsOver, has};
ghost use Rattle.mb_run.specs.Rising.{RisesWith};
ghost use Rattle.mb_run.specs.Sights.{IsOrderlyInSight, IsWaiting};
ghost use Rattle.mb_run.specs.declared.runner.At.TheVariants as at;
ghost use Rattle.mb_volume.specs.Coming.{ComesOfEvent, ComesUnasked};
ghost use Rattle.mb_volume.specs.Parts.{part_of};
ghost use Rattle.mb_volume.specs.Rising.{RisesAfter, word_for};
ghost use Rattle.mb_volume.specs.declared.events.Event.TheVariants as events;
ghost use Rattle.mb_volume.specs.Underway.{GrowsAfter, PlaceHoldsTicket, IsMetNext, IsOn, MayCome, rolled};

use crate::attempt::Attempt;
use mb_calls::ReadyCall;
use mb_core_state::{Finished, Gathered, Left};
use mb_edge::{Crossing, Crossings, Hook};
use mb_iface::Need;
use mb_kinds::{Call, Reply, Ticket};
use mb_run::{At, EnterAnswer, EventCore, StepAnswer};
use std::alloc::Global;

/// What a caller does with the core in one hold of the turn.
#[derive(Drop)]
pub(crate) enum Event {
    /// The call enters.
    Enter,
    /// It gathers blocks.
    Gather(Ticket, Need),
    /// It finishes with what it performed, and the checkpoint that is due is taken.
    Finish(Ticket, ReadyCall),
    /// It leaves.
    Leave(Ticket),
    /// It is struck at that crossing; the crossings with that one counted.
    Fault(Ticket, Crossing, Crossings),
    /// It makes one step of a recovery.
    Recover,
}

/// What a hold of the turn came to.
#[derive(Drop)]
pub(crate) enum Came {
    /// The call was answered.
    Answered(Reply),
    /// The call entered, with this ticket.
    Inside(Ticket),
    /// The call goes on where it stands.
    On,
    /// A recovery is in progress; the call waits for it.
    Shut,
    /// Another call has the right to commit alone.
    Busy,
    /// There was no memory. The call has no entry.
    NoMemory,
}

/// The call enters.
fn enter<C: EventCore>(alloc: Global, core: &mut C, attempt: &mut Attempt, call: &Call) -> Came
    requires on { IsOn call.now (part_of (C.sight core.old) attempt.old.crossings.caller) attempt.old }
    requires outside { attempt.old.at ≡ at.Outside }
    requires right { IsOrderlyInSight (C.sight core.old) }
    ensures comes { ComesUnasked call.now events.Enter
        (C.sight core.old) (C.sight core.new) attempt.old attempt.new result }
    ensures origin { C.origin core.new ≡ C.origin core.old }
    ensures right { IsOrderlyInSight (C.sight core.new) }
{
    match core.enter(alloc, attempt.crossings.caller, call) {
        EnterAnswer::Done(reply) => Came::Answered(reply),
        EnterAnswer::Shut => Came::Shut,
        EnterAnswer::NoMemory => Came::NoMemory,
        EnterAnswer::Inside(ticket) => {
            attempt.go_in(ticket);
            Came::Inside(ticket)
        }
    }
}

/// The call gathers blocks, or at block 0 the tables.
fn gather<C: EventCore>(
    alloc: Global,
    core: &mut C,
    attempt: &mut Attempt,
    call: &Call,
    ticket: &Ticket,
    need: Need,
) -> Came
    requires on { IsOn call.now (part_of (C.sight core.old) attempt.old.crossings.caller) attempt.old }
    requires inside { attempt.old.at ≡ at.Inside ticket.now }
    requires need { (need.first < 262144) × (1 ≤ need.count) × (need.count ≤ 32) }
    requires right { IsOrderlyInSight (C.sight core.old) }
    ensures grown { PagesGrowBy need attempt.old.pages attempt.new.pages }
    ensures comes { ComesUnasked call.now (events.Gather ticket.now need)
        (C.sight core.old) (C.sight core.new) attempt.old attempt.new result }
    ensures origin { C.origin core.new ≡ C.origin core.old }
    ensures right { IsOrderlyInSight (C.sight core.new) }
{
    let _ = call;
    match core.gather(alloc, ticket, need, &mut attempt.pages) {
        Gathered::Skip { .. } => {
            attempt.back();
            Came::On
        }
        Gathered::Device => {
            attempt.back();
            Came::Answered(Reply::Device)
        }
        Gathered::NoMemory => Came::NoMemory,
        Gathered::Done => Came::On,
    }
}

/// The call finishes with what it performed; the checkpoint that is then due is taken at once.
fn finish<C: EventCore>(
    alloc: Global,
    core: &mut C,
    attempt: &mut Attempt,
    call: &Call,
    ticket: &Ticket,
    ready: ReadyCall,
) -> Came
    requires on { IsOn call.now (part_of (C.sight core.old) attempt.old.crossings.caller) attempt.old }
    requires inside { attempt.old.at ≡ at.Inside ticket.now }
    requires there { has attempt.old.pages 0 ≡ true }
    requires ready { PerformsOver attempt.old.pages ticket.now.caller call.now ticket.now.moment
        (performed.Ready ready) }
    requires right { IsOrderlyInSight (C.sight core.old) }
    ensures comes { ComesUnasked call.now (events.Finish ticket.now ready)
        (C.sight core.old) (C.sight core.new) attempt.old attempt.new result }
    ensures origin { C.origin core.new ≡ C.origin core.old }
    ensures right { IsOrderlyInSight (C.sight core.new) }
{
    let finished = core.finish(alloc, ticket, &attempt.pages, call, ready);
    match finished {
        Finished::Skip { .. } => {
            attempt.back();
            return Came::On;
        }
        Finished::Busy { .. } => {
            attempt.asked = true;
            return Came::Busy;
        }
        Finished::Stale { .. } => {
            attempt.go_in(*ticket);
            return Came::On;
        }
        Finished::NoMemory => return Came::NoMemory,
        Finished::Logged => {
            attempt.at = At::Logged(*ticket);
            return Came::On;
        }
    }
}

/// The call, which has its entry, leaves.
fn leave<C: EventCore>(core: &mut C, attempt: &mut Attempt, call: &Call, ticket: &Ticket) -> Came
    requires on { IsOn call.now (part_of (C.sight core.old) attempt.old.crossings.caller) attempt.old }
    requires logged { attempt.old.at ≡ at.Logged ticket.now }
    requires right { IsOrderlyInSight (C.sight core.old) }
    ensures comes { ComesUnasked call.now (events.Leave ticket.now)
        (C.sight core.old) (C.sight core.new) attempt.old attempt.new result }
    ensures origin { C.origin core.new ≡ C.origin core.old }
    ensures right { IsOrderlyInSight (C.sight core.new) }
{
    let _ = call;
    match core.leave(ticket) {
        Left::Skip { .. } => {
            attempt.back();
            Came::On
        }
        Left::Left(reply) => Came::Answered(reply),
    }
}

/// The call is struck at a crossing at which the fault injector answered a fault.
fn fault<C: EventCore, H: Hook>(
    core: &mut C,
    hook: &H,
    attempt: &mut Attempt,
    call: &Call,
    ticket: &Ticket,
    crossing: &Crossing,
    passed: &Crossings,
) -> Came
    requires on { IsOn call.now (part_of (C.sight core.old) attempt.old.crossings.caller) attempt.old }
    requires holds { PlaceHoldsTicket attempt.old.at ticket.now }
    requires met { IsMetNext (H.test hook.now) (H.struck hook.now) attempt.old crossing.now passed.now }
    requires right { IsOrderlyInSight (C.sight core.old) }
    ensures comes { ComesOfEvent call.now (H.test hook.now) (events.Fault ticket.now crossing.now passed.now)
        (C.sight core.old) (C.sight core.new) attempt.old attempt.new result }
    ensures rises { RisesAfter word.Fault (H.faults hook.now) (H.faults hook.now)
        (C.sight core.old).records (C.sight core.new).records }
    ensures origin { C.origin core.new ≡ C.origin core.old }
    ensures right { IsOrderlyInSight (C.sight core.new) }
{
    let _ = call;
    let _ = core.fault(ticket, crossing.kind, crossing.nth, hook);
    attempt.crossings = *passed;
    attempt.back();
    Came::On
}

/// What a step of a recovery comes to for the call that ran it.
fn rolled(stepped: StepAnswer) -> Came
    ensures { result ≡ rolled stepped }
{
    match stepped {
        StepAnswer::Device => Came::Answered(Reply::Device),
        StepAnswer::NoMemory => Came::NoMemory,
        StepAnswer::Idle | StepAnswer::Failed { .. } | StepAnswer::Resumed => Came::On,
        _ => Came::Shut,
    }
}

/// One step of a recovery, run by the call, which waits for it.
fn recover<C: EventCore, H: Hook>(
    alloc: Global,
    core: &mut C,
    hook: &mut H,
    attempt: &mut Attempt,
    call: &Call,
) -> Came
    requires on { IsOn call.now (part_of (C.sight core.old) attempt.old.crossings.caller) attempt.old }
    requires waits { IsWaiting ((C.sight core.old).seats attempt.old.crossings.caller) }
    requires right { IsOrderlyInSight (C.sight core.old) }
    ensures comes { ComesOfEvent call.now (H.test hook.old) events.Recover
        (C.sight core.old) (C.sight core.new) attempt.old attempt.new result }
    ensures rises { RisesWith (H.faults hook.old) (H.faults hook.new)
        (C.sight core.old).records (C.sight core.new).records }
    ensures test { H.test hook.new ≡ H.test hook.old }
    ensures origin { C.origin core.new ≡ C.origin core.old }
    ensures right { IsOrderlyInSight (C.sight core.new) }
{
    let _ = call;
    let mut by = Some(attempt.crossings);
    let stepped = core.recover_step(alloc, &mut by, hook);
    match stepped {
        // no recovery was in progress, so no fault point was passed
        StepAnswer::Idle => Came::On,
        _ => {
            attempt.keep(&by);
            rolled(stepped)
        }
    }
}

/// One event of a caller's call.
#[inline(always)]
pub(crate) fn act<C: EventCore, H: Hook>(
    alloc: Global,
    core: &mut C,
    hook: &mut H,
    attempt: &mut Attempt,
    call: &Call,
    event: Event,
) -> Came
    requires on { IsOn call.now (part_of (C.sight core.old) attempt.old.crossings.caller) attempt.old }
    requires may { MayCome call.now (H.test hook.old) (H.struck hook.old)
        ((C.sight core.old).seats attempt.old.crossings.caller) attempt.old event }
    requires right { IsOrderlyInSight (C.sight core.old) }
    ensures grown { GrowsAfter event attempt.old.pages attempt.new.pages }
    ensures comes { ComesOfEvent call.now (H.test hook.old) event
        (C.sight core.old) (C.sight core.new) attempt.old attempt.new result }
    ensures rises { RisesAfter (word_for event) (H.faults hook.old) (H.faults hook.new)
        (C.sight core.old).records (C.sight core.new).records }
    ensures grows { H.faults hook.old ≤ H.faults hook.new }
    ensures test { H.test hook.new ≡ H.test hook.old }
    ensures origin { C.origin core.new ≡ C.origin core.old }
    ensures right { IsOrderlyInSight (C.sight core.new) }
{
    match event {
        Event::Enter => enter(alloc, core, attempt, call),
        Event::Gather(ticket, need) => gather(alloc, core, attempt, call, &ticket, need),
        Event::Finish(ticket, ready) => finish(alloc, core, attempt, call, &ticket, ready),
        Event::Leave(ticket) => leave(core, attempt, call, &ticket),
        Event::Fault(ticket, crossing, passed) => {
            fault(core, hook, attempt, call, &ticket, &crossing, &passed)
        }
        Event::Recover => recover(alloc, core, hook, attempt, call),
    }
}
