ghost use Rattle.std.specs.Prelude.{◌≡◌, ◌≢◌, ◌<◌, ◌≤◌, ◌⊎◌, None, Some, IfSome, true, false};
ghost use Rattle.mb_calls.specs.declared.performing.Performed.TheVariants as performed;
ghost use Rattle.mb_core_spec.specs.declared.stages.Stage.TheVariants as stage;
ghost use Rattle.mb_run.specs.Calm.{HoldsNowhere, PassesBy, StepsCalmly};
ghost use Rattle.mb_run.specs.Pages.{PagesGrowBy, IsUnderWay, LacksAll, PerformsOver, has};
ghost use Rattle.mb_run.specs.Served.{Asks, Did, AsksAtEntry, MayStep};
ghost use Rattle.mb_run.specs.Sights.{IsOrderlyInSight, IsTicketOf};
ghost use Rattle.mb_run.specs.Tallies.{IsEntering, IsFinishing, Tallies, TalliedBy};
ghost use Rattle.mb_run.specs.declared.progress.Went.TheVariants as went;
ghost use Rattle.mb_run.specs.declared.runner.At.TheVariants as at;

use crate::answers::EnterAnswer;
use crate::event_core::EventCore;
use crate::progress::Went;
use crate::runner::{At, Runner};
use mb_callers::Pages;
use mb_calls::{Performed, Performing, ReadyCall};
use mb_core_state::{Finished, Gathered, Left};
use mb_edge::{Hook, Word};
use mb_iface::{Need, View};
use mb_jobs::JobCall;
use mb_kinds::{Call, Kind, Ticket};
use std::alloc::Global;

/// Asks the fault injector at the next crossing of a kind, and strikes the call where it says so.
fn is_struck<C: EventCore, H: Hook>(
    core: &mut C,
    hook: &mut H,
    runner: &mut Runner,
    ticket: &Ticket,
    kind: Kind,
) -> bool
    requires mine { (ticket.now.caller ≡ runner.old.crossings.caller) × (ticket.now.ordinal ≡ runner.old.crossings.ordinal) }
    requires ticket { IsTicketOf ((C.sight core.old).seats ticket.now.caller) ticket.now }
    requires right { IsOrderlyInSight (C.sight core.old) }
    ensures asks { Asks (H.test hook.old) (C.sight core.old) (C.sight core.new) runner.old runner.new ticket.now kind result }
    ensures test { H.test hook.new ≡ H.test hook.old }
    ensures origin { C.origin core.new ≡ C.origin core.old }
    ensures right { IsOrderlyInSight (C.sight core.new) }
{
    let at = runner.crossings.next(kind);
    match hook.cross(&at) {
        Word::Go => false,
        Word::Fault => {
            let _ = core.fault(ticket, kind, at.nth, hook);
            runner.back();
            true
        }
    }
}

/// Asks the fault injector of a call that entered just now.
fn go_in<C: EventCore, H: Hook>(
    core: &mut C,
    hook: &mut H,
    runner: &mut Runner,
    calls: &[JobCall],
    call: &Call,
    ticket: &Ticket,
) -> Went
    requires may { MayStep calls.now (H.test hook.old) (C.sight core.old) runner.old call.now }
    requires inside { runner.old.at ≡ at.Inside ticket.now }
    requires present { ticket.now.incarnation ≡ (C.sight core.old).incarnation }
    ensures did { AsksAtEntry calls.now (H.test hook.old) (C.sight core.old) (C.sight core.new) runner.old runner.new result }
    ensures tallied { IsEntering (H.test hook.old) (C.sight core.old) runner.old ticket.now
        → TalliedBy (H.test hook.old) (C.sight core.new) runner.new result }
    ensures calm { HoldsNowhere (H.test hook.old) → PassesBy (C.sight core.old) (C.sight core.new) runner.old runner.new }
    ensures test { H.test hook.new ≡ H.test hook.old }
    ensures origin { C.origin core.new ≡ C.origin core.old }
    ensures right { IsOrderlyInSight (C.sight core.new) }
{
    if is_struck(core, hook, runner, ticket, Kind::Enter) {
        return Went::Back;
    }
    Went::On
}

/// The call enters: the one in flight, or a new one where none is.
pub(crate) fn enter<C: EventCore, H: Hook>(
    alloc: Global,
    core: &mut C,
    hook: &mut H,
    runner: &mut Runner,
    calls: &[JobCall],
    call: &Call,
) -> Went
    requires may { MayStep calls.now (H.test hook.old) (C.sight core.old) runner.old call.now }
    requires outside { runner.old.at ≡ at.Outside }
    ensures did { Did calls.now (H.test hook.old) (C.sight core.old) (C.sight core.new) runner.old runner.new result }
    ensures begins { result ≢ went.NoMemory → ((C.sight core.new).seats runner.old.crossings.caller).begun ≢ 0 }
    ensures calm { result ≢ went.NoMemory
        → StepsCalmly false (H.test hook.old) (C.sight core.old) (C.sight core.new) runner.old runner.new }
    ensures tallied { Tallies (H.test hook.old) (C.sight core.old) (C.sight core.new) runner.old runner.new result }
    ensures test { H.test hook.new ≡ H.test hook.old }
    ensures origin { C.origin core.new ≡ C.origin core.old }
    ensures right { IsOrderlyInSight (C.sight core.new) }
{
    match core.enter(alloc, runner.crossings.caller, call) {
        EnterAnswer::Done(_) => {
            runner.advance();
            return Went::Ended;
        }
        EnterAnswer::Shut => return Went::Shut,
        EnterAnswer::NoMemory => return Went::NoMemory,
        EnterAnswer::Inside(ticket) => {
            runner.at = At::Inside(ticket);
            runner.asked = false;
            runner.pages.clear();
            return go_in(core, hook, runner, calls, call, &ticket);
        }
    }
}

/// The call inside gathers blocks, or at block 0 the tables. It stands in each of its callers: most calls gather several times.
#[inline(always)]
pub(crate) fn gather<C: EventCore, H: Hook>(
    alloc: Global,
    core: &mut C,
    hook: &mut H,
    runner: &mut Runner,
    calls: &[JobCall],
    call: &Call,
    ticket: &Ticket,
    need: Need,
) -> Went
    requires may { MayStep calls.now (H.test hook.old) (C.sight core.old) runner.old call.now }
    requires inside { runner.old.at ≡ at.Inside ticket.now }
    requires lacks { has runner.old.pages need.first ≡ false }
    requires first { need.first < 262144 }
    requires some { 1 ≤ need.count }
    requires count { need.count ≤ 32 }
    ensures grown { PagesGrowBy need runner.old.pages runner.new.pages }
    ensures did { Did calls.now (H.test hook.old) (C.sight core.old) (C.sight core.new) runner.old runner.new result }
    ensures calm { result ≢ went.NoMemory
        → StepsCalmly true (H.test hook.old) (C.sight core.old) (C.sight core.new) runner.old runner.new }
    ensures tallied { Tallies (H.test hook.old) (C.sight core.old) (C.sight core.new) runner.old runner.new result }
    ensures test { H.test hook.new ≡ H.test hook.old }
    ensures origin { C.origin core.new ≡ C.origin core.old }
    ensures right { IsOrderlyInSight (C.sight core.new) }
{
    if is_struck(core, hook, runner, ticket, Kind::Gather) {
        return Went::Back;
    }
    match core.gather(alloc, ticket, need, &mut runner.pages) {
        Gathered::Skip { .. } => {
            runner.back();
            Went::Back
        }
        Gathered::Device => {
            runner.advance();
            Went::Ended
        }
        Gathered::NoMemory => Went::NoMemory,
        Gathered::Done => Went::On,
    }
}

fn finish_now<C: EventCore, H: Hook>(
    alloc: Global,
    core: &mut C,
    hook: &H,
    runner: &mut Runner,
    calls: &[JobCall],
    call: &Call,
    ticket: &Ticket,
    ready: ReadyCall,
) -> Went
    requires may { MayStep calls.now (H.test hook.now) (C.sight core.old) runner.old call.now }
    requires inside { runner.old.at ≡ at.Inside ticket.now }
    requires there { has runner.old.pages 0 ≡ true }
    requires ready { PerformsOver runner.old.pages ticket.now.caller call.now ticket.now.moment (performed.Ready ready) }
    ensures did { Did calls.now (H.test hook.now) (C.sight core.old) (C.sight core.new) runner.old runner.new result }
    ensures tallied { IsFinishing (H.test hook.now) (C.sight core.old) runner.old ticket.now
        → TalliedBy (H.test hook.now) (C.sight core.new) runner.new result }
    ensures origin { C.origin core.new ≡ C.origin core.old }
    ensures right { IsOrderlyInSight (C.sight core.new) }
{
    let finished = core.finish(alloc, ticket, &runner.pages, call, ready);
    match finished {
        Finished::Skip { .. } => {
            runner.back();
            return Went::Back;
        }
        Finished::Busy { holder } => {
            runner.asked = true;
            return Went::Busy(holder);
        }
        Finished::Stale { .. } => {
            runner.asked = false;
            runner.pages.clear();
            return Went::On;
        }
        Finished::NoMemory => return Went::NoMemory,
        Finished::Logged => {
            runner.at = At::Logged(*ticket);
            runner.answered = true;
            return Went::On;
        }
    }
}

fn finish<C: EventCore, H: Hook>(
    alloc: Global,
    core: &mut C,
    hook: &mut H,
    runner: &mut Runner,
    calls: &[JobCall],
    call: &Call,
    ticket: &Ticket,
    ready: ReadyCall,
) -> Went
    requires may { MayStep calls.now (H.test hook.old) (C.sight core.old) runner.old call.now }
    requires inside { runner.old.at ≡ at.Inside ticket.now }
    requires there { has runner.old.pages 0 ≡ true }
    requires ready { PerformsOver runner.old.pages ticket.now.caller call.now ticket.now.moment (performed.Ready ready) }
    ensures did { Did calls.now (H.test hook.old) (C.sight core.old) (C.sight core.new) runner.old runner.new result }
    ensures tallied { Tallies (H.test hook.old) (C.sight core.old) (C.sight core.new) runner.old runner.new result }
    ensures test { H.test hook.new ≡ H.test hook.old }
    ensures origin { C.origin core.new ≡ C.origin core.old }
    ensures right { IsOrderlyInSight (C.sight core.new) }
{
    if runner.asked {
        return finish_now(alloc, core, hook, runner, calls, call, ticket, ready);
    }
    if is_struck(core, hook, runner, ticket, Kind::Finish) {
        return Went::Back;
    }
    finish_now(alloc, core, hook, runner, calls, call, ticket, ready)
}

fn leave<C: EventCore, H: Hook>(
    core: &mut C,
    hook: &mut H,
    runner: &mut Runner,
    calls: &[JobCall],
    call: &Call,
    ticket: &Ticket,
) -> Went
    requires may { MayStep calls.now (H.test hook.old) (C.sight core.old) runner.old call.now }
    requires logged { runner.old.at ≡ at.Logged ticket.now }
    ensures did { Did calls.now (H.test hook.old) (C.sight core.old) (C.sight core.new) runner.old runner.new result }
    ensures tallied { Tallies (H.test hook.old) (C.sight core.old) (C.sight core.new) runner.old runner.new result }
    ensures test { H.test hook.new ≡ H.test hook.old }
    ensures origin { C.origin core.new ≡ C.origin core.old }
    ensures right { IsOrderlyInSight (C.sight core.new) }
{
    if is_struck(core, hook, runner, ticket, Kind::Leave) {
        return Went::Back;
    }
    match core.leave(ticket) {
        Left::Skip { .. } => {
            runner.back();
            return Went::Back;
        }
        Left::Left(_) => {
            runner.advance();
            return Went::Ended;
        }
    }
}

/// Whether the tables were gathered.
pub(crate) fn has_tables(pages: &Pages) -> bool
    ensures { result ≡ has pages.now 0 }
{
    pages.opens().is_some()
}

/// Whether none of the blocks is there that are asked for, the first of which is not.
fn lacks_all(pages: &Pages, need: Need) -> bool
    requires lacks { has pages.now need.first ≡ false }
    requires some { 1 ≤ need.first }
    requires first { need.first < 262144 }
    requires count { need.count ≤ 32 }
    ensures { result ≡ true → LacksAll pages.now need }
{
    for block in need.first + 1..need.first + need.count {
        if pages.get(block).is_some() {
            return false;
        }
    }
    for other in need.others.blocks() {
        if *other != 0 && pages.get(*other).is_some() {
            return false;
        }
    }
    true
}

/// Has a call begin anew that asks for a block that is there: its bytes may be others once it is read again.
pub fn keep_way(pages: &Pages, need: &Need, way: &mut Option<Performing>)
    requires lacks { has pages.now need.now.first ≡ false }
    requires some { 1 ≤ need.now.first }
    requires first { need.now.first < 262144 }
    requires count { need.now.count ≤ 32 }
    ensures { (way.new ≡ None) ⊎ ((way.new ≡ way.old) × LacksAll pages.now need.now) }
{
    if way.is_some() && !lacks_all(pages, *need) {
        *way = None;
    }
}

/// Gathers what the call asked for, with what it followed of its paths.
fn gather_on<C: EventCore, H: Hook>(
    alloc: Global,
    core: &mut C,
    hook: &mut H,
    runner: &mut Runner,
    calls: &[JobCall],
    call: &Call,
    ticket: &Ticket,
    need: Need,
    way: &mut Option<Performing>,
) -> Went
    requires may { MayStep calls.now (H.test hook.old) (C.sight core.old) runner.old call.now }
    requires inside { runner.old.at ≡ at.Inside ticket.now }
    requires there { has runner.old.pages 0 ≡ true }
    requires lacks { has runner.old.pages need.first ≡ false }
    requires above { 1 ≤ need.first }
    requires first { need.first < 262144 }
    requires some { 1 ≤ need.count }
    requires count { need.count ≤ 32 }
    requires going { IsUnderWay runner.old.pages runner.old.crossings.caller call.now way.old }
    ensures going { IsUnderWay runner.new.pages runner.new.crossings.caller call.now way.new }
    ensures did { Did calls.now (H.test hook.old) (C.sight core.old) (C.sight core.new) runner.old runner.new result }
    ensures calm { result ≢ went.NoMemory
        → StepsCalmly true (H.test hook.old) (C.sight core.old) (C.sight core.new) runner.old runner.new }
    ensures tallied { Tallies (H.test hook.old) (C.sight core.old) (C.sight core.new) runner.old runner.new result }
    ensures test { H.test hook.new ≡ H.test hook.old }
    ensures origin { C.origin core.new ≡ C.origin core.old }
    ensures right { IsOrderlyInSight (C.sight core.new) }
{
    let need = runner.pages.foresee(call, need);
    keep_way(&runner.pages, &need, way);
    gather(alloc, core, hook, runner, calls, call, ticket, need)
}

/// The call inside, which has the tables, is performed over what it gathered, and finishes, or gathers what it asks for.
fn go_over<C: EventCore, H: Hook>(
    alloc: Global,
    core: &mut C,
    hook: &mut H,
    runner: &mut Runner,
    calls: &[JobCall],
    call: &Call,
    ticket: &Ticket,
    way: &mut Option<Performing>,
) -> Went
    requires may { MayStep calls.now (H.test hook.old) (C.sight core.old) runner.old call.now }
    requires inside { runner.old.at ≡ at.Inside ticket.now }
    requires there { has runner.old.pages 0 ≡ true }
    requires going { IsUnderWay runner.old.pages runner.old.crossings.caller call.now way.old }
    ensures going { IsUnderWay runner.new.pages runner.new.crossings.caller call.now way.new }
    ensures did { Did calls.now (H.test hook.old) (C.sight core.old) (C.sight core.new) runner.old runner.new result }
    ensures calm { result ≢ went.NoMemory
        → StepsCalmly false (H.test hook.old) (C.sight core.old) (C.sight core.new) runner.old runner.new }
    ensures tallied { Tallies (H.test hook.old) (C.sight core.old) (C.sight core.new) runner.old runner.new result }
    ensures test { H.test hook.new ≡ H.test hook.old }
    ensures origin { C.origin core.new ≡ C.origin core.old }
    ensures right { IsOrderlyInSight (C.sight core.new) }
{
    match core.perform(alloc, &runner.pages, ticket, call, way) {
        Performed::Need(need) => {
            gather_on(alloc, core, hook, runner, calls, call, ticket, need, way)
        }
        Performed::NoMemory => Went::NoMemory,
        Performed::Ready(ready) => {
            *way = None;
            finish(alloc, core, hook, runner, calls, call, ticket, ready)
        }
    }
}

/// The call inside gathers the tables, then at once what calls like it looked at, and is performed over that.
fn go_on<C: EventCore, H: Hook>(
    alloc: Global,
    core: &mut C,
    hook: &mut H,
    runner: &mut Runner,
    calls: &[JobCall],
    call: &Call,
    ticket: &Ticket,
    way: &mut Option<Performing>,
) -> Went
    requires may { MayStep calls.now (H.test hook.old) (C.sight core.old) runner.old call.now }
    requires inside { runner.old.at ≡ at.Inside ticket.now }
    requires going { IsUnderWay runner.old.pages runner.old.crossings.caller call.now way.old }
    ensures going { IsUnderWay runner.new.pages runner.new.crossings.caller call.now way.new }
    ensures did { Did calls.now (H.test hook.old) (C.sight core.old) (C.sight core.new) runner.old runner.new result }
    ensures calm { result ≢ went.NoMemory
        → StepsCalmly false (H.test hook.old) (C.sight core.old) (C.sight core.new) runner.old runner.new }
    ensures tallied { Tallies (H.test hook.old) (C.sight core.old) (C.sight core.new) runner.old runner.new result }
    ensures test { H.test hook.new ≡ H.test hook.old }
    ensures origin { C.origin core.new ≡ C.origin core.old }
    ensures right { IsOrderlyInSight (C.sight core.new) }
{
    if !has_tables(&runner.pages) {
        *way = None;
        let tables = Need::tables();
        return gather(alloc, core, hook, runner, calls, call, ticket, tables);
    }
    if let Some(need) = runner.foreseen(call) {
        *way = None;
        return gather(alloc, core, hook, runner, calls, call, ticket, need);
    }
    go_over(alloc, core, hook, runner, calls, call, ticket, way)
}

/// One step of a caller, whose next call is that one: it enters, gathers, finishes or leaves. Where
/// memory suffices the call was begun. `way` is how far the call followed its paths.
pub fn step<C: EventCore, H: Hook>(
    alloc: Global,
    core: &mut C,
    hook: &mut H,
    runner: &mut Runner,
    calls: &[JobCall],
    call: &Call,
    way: &mut Option<Performing>,
) -> Went
    requires may { MayStep calls.now (H.test hook.old) (C.sight core.old) runner.old call.now }
    requires going { IsUnderWay runner.old.pages runner.old.crossings.caller call.now way.old }
    ensures going { IsUnderWay runner.new.pages runner.new.crossings.caller call.now way.new }
    ensures did { Did calls.now (H.test hook.old) (C.sight core.old) (C.sight core.new) runner.old runner.new result }
    ensures begins { result ≢ went.NoMemory → ((C.sight core.new).seats runner.old.crossings.caller).begun ≢ 0 }
    ensures calm { result ≢ went.NoMemory
        → StepsCalmly false (H.test hook.old) (C.sight core.old) (C.sight core.new) runner.old runner.new }
    ensures tallied { Tallies (H.test hook.old) (C.sight core.old) (C.sight core.new) runner.old runner.new result }
    ensures test { H.test hook.new ≡ H.test hook.old }
    ensures origin { C.origin core.new ≡ C.origin core.old }
    ensures right { IsOrderlyInSight (C.sight core.new) }
{
    match runner.at {
        At::Outside => {
            *way = None;
            enter(alloc, core, hook, runner, calls, call)
        }
        At::Inside(ticket) => go_on(alloc, core, hook, runner, calls, call, &ticket, way),
        At::Logged(ticket) => {
            *way = None;
            leave(core, hook, runner, calls, call, &ticket)
        }
    }
}
