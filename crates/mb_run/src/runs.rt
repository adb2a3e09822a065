ghost use Rattle.std.specs.Prelude.{◌≡◌, ◌<◌, ◌≤◌, Some, true, length, option_map, slice_get};
ghost use Rattle.std.specs.List.{AllByRecursion};
ghost use Rattle.mb_edge.specs.declared.crossings.Crossings.{Crossings};
ghost use Rattle.mb_run.specs.Indexes.{IsIndexOf};
ghost use Rattle.mb_run.specs.Lengths.{GoesSince, WentForward};
ghost use Rattle.mb_run.specs.Orders.{AnswersOneMore, IsWhole};
ghost use Rattle.mb_run.specs.Recovering.{GoOn};
ghost use Rattle.mb_run.specs.Runs.{HasTakenFaults};
ghost use Rattle.mb_run.specs.Served.{IsAfter, IsFloorOf, IsResting, IsRunInOrder, CrossingsAreKept, MayGiveUp, MayStep, Ran, RunsRecovery, Rolled, Turns, AllUnderWay, calls_of};
ghost use Rattle.mb_run.specs.Sights.{IsOrderlyInSight, IsWaiting, recovers};
ghost use Rattle.mb_run.specs.Timely.{IsTimely};
ghost use Rattle.mb_run.specs.Tallies.{AreRested, IsBetween, IsTallied, Tallies};
ghost use Rattle.mb_run.specs.declared.runner.At.TheVariants as at;
ghost use Rattle.mb_jobs.specs.declared.jobs.JobCall.{JobCall};

use crate::answers::StepAnswer;
use crate::call_index::{CallIndex, find_call};
use crate::event_core::EventCore;
use crate::progress::{StepEnd, Went};
use crate::runner::Runner;
use crate::steps::step;
use mb_edge::{Crossings, Hook};
use mb_jobs::JobCall;
use mb_kinds::Call;
use std::alloc::Global;

/// The crossings that a step of a recovery passed.
fn keep(runner: &mut Runner, by: &Option<Crossings>)
    requires { GoOn (Some runner.old.crossings) by.now }
    ensures { CrossingsAreKept runner.old by.now runner.new }
{
    match by {
        Some(crossings) => runner.crossings = *crossings,
        None => unreachable!(),
    }
}

/// One step of a recovery, run by a call that waits.
pub(crate) fn roll<C: EventCore, H: Hook>(
    alloc: Global,
    core: &mut C,
    hook: &mut H,
    runner: &mut Runner,
    calls: &[JobCall],
    call: &Call,
) -> Went
    requires may { MayStep calls.now (H.test hook.old) (C.sight core.old) runner.old call.now }
    requires rests { IsResting (C.sight core.old).incarnation runner.old.at }
    requires waits { IsWaiting ((C.sight core.old).seats runner.old.crossings.caller) }
    requires recovered { recovers (C.sight core.old).stage ≡ true }
    ensures rolled { Rolled calls.now (H.test hook.old) (C.sight core.old) (C.sight core.new) runner.old runner.new result }
    ensures forward { WentForward (C.sight core.old) (C.sight core.new) result }
    ensures tallied { Tallies (H.test hook.old) (C.sight core.old) (C.sight core.new) runner.old runner.new result }
    ensures test { H.test hook.new ≡ H.test hook.old }
    ensures origin { C.origin core.new ≡ C.origin core.old }
    ensures right { IsOrderlyInSight (C.sight core.new) }
{
    let mut by = Some(runner.crossings);
    match core.recover_step(alloc, &mut by, hook) {
        StepAnswer::Device => {
            runner.advance();
            return Went::Ended;
        }
        StepAnswer::NoMemory => return Went::NoMemory,
        StepAnswer::Idle => unreachable!(),
        StepAnswer::Failed { .. } => {
            keep(runner, &by);
            return Went::Back;
        }
        StepAnswer::Resumed => {
            keep(runner, &by);
            return Went::Back;
        }
        StepAnswer::Unwound(_) => {
            keep(runner, &by);
            return Went::On;
        }
        StepAnswer::Dropped => {
            keep(runner, &by);
            return Went::On;
        }
        StepAnswer::Remounted => {
            keep(runner, &by);
            return Went::On;
        }
        StepAnswer::Reopened => {
            keep(runner, &by);
            return Went::On;
        }
        StepAnswer::Replayed(_) => {
            keep(runner, &by);
            return Went::On;
        }
        StepAnswer::Again { .. } => {
            keep(runner, &by);
            return Went::On;
        }
    }
}

/// Ends a call that met want of memory, where it was begun: it gets no entry.
pub(crate) fn give_up<C: EventCore>(core: &mut C, runner: &Runner)
    requires { MayGiveUp (C.sight core.old) runner.now }
    ensures origin { C.origin core.new ≡ C.origin core.old }
    ensures right { IsOrderlyInSight (C.sight core.new) }
{
    let caller = runner.crossings.caller;
    if core.begun(caller) > runner.done {
        core.quit(caller);
    }
}

/// A recovery, run by a call that waits. Unless the volume was given up, its steps since it began, or since the last fault that
/// came, are steps forward, of which `recovers_soon` says how many there can be.
pub fn recover<C: EventCore, H: Hook>(
    alloc: Global,
    core: &mut C,
    hook: &mut H,
    runner: &mut Runner,
    calls: &[JobCall],
    call: &Call,
) -> Went
    requires may { MayStep calls.now (H.test hook.old) (C.sight core.old) runner.old call.now }
    requires outside { runner.old.at ≡ at.Outside }
    requires waits { IsWaiting ((C.sight core.old).seats runner.old.crossings.caller) }
    requires recovered { recovers (C.sight core.old).stage ≡ true }
    ensures recovers { RunsRecovery calls.now (H.test hook.old) (C.sight core.old) (C.sight core.new) runner.old runner.new result }
    ensures forward { GoesSince (C.sight core.old) (C.sight core.new) }
    ensures tallied { Tallies (H.test hook.old) (C.sight core.old) (C.sight core.new) runner.old runner.new result }
    ensures test { H.test hook.new ≡ H.test hook.old }
    ensures origin { C.origin core.new ≡ C.origin core.old }
    ensures right { IsOrderlyInSight (C.sight core.new) }
{
    'steps: loop {
        match roll(alloc, core, hook, runner, calls, call) {
            Went::Ended => return Went::Ended,
            Went::Back => return Went::Back,
            Went::On => {}
            Went::NoMemory => return Went::NoMemory,
            Went::Shut => unreachable!(),
            Went::Busy(_) => unreachable!(),
        }
    }
}

/// Runs a caller's call to its end, where nobody else holds the floor. False is want of memory.
pub fn run_holder<C: EventCore, H: Hook>(
    alloc: Global,
    core: &mut C,
    hook: &mut H,
    runner: &mut Runner,
    calls: &[JobCall],
    call: &Call,
) -> bool
    requires may { MayStep calls.now (H.test hook.old) (C.sight core.old) runner.old call.now }
    requires mine { IsFloorOf runner.old.crossings.caller (C.sight core.old).floor }
    ensures ran { Ran calls.now (H.test hook.old) (C.sight core.old) (C.sight core.new) runner.old runner.new result }
    ensures tallied { result ≡ true → IsTallied (H.test hook.old) (C.sight core.old) runner.old runner.old.at
        → IsBetween (H.test hook.old) (C.sight core.new) runner.new }
    ensures test { H.test hook.new ≡ H.test hook.old }
    ensures origin { C.origin core.new ≡ C.origin core.old }
    ensures right { IsOrderlyInSight (C.sight core.new) }
{
    let mut way = None;
    'turns: loop {
        match step(alloc, core, hook, runner, calls, call, &mut way) {
            Went::Ended => return true,
            Went::On => {}
            Went::Back => {}
            Went::NoMemory => {
                give_up(core, runner);
                return false;
            }
            Went::Busy(_) => unreachable!(),
            Went::Shut => match recover(alloc, core, hook, runner, calls, call) {
                Went::Ended => return true,
                Went::NoMemory => {
                    give_up(core, runner);
                    return false;
                }
                Went::Back => way = None,
                Went::On => unreachable!(),
                Went::Shut => unreachable!(),
                Went::Busy(_) => unreachable!(),
            },
        }
    }
}

/// One turn of a call: a step, and the recovery where it has to wait for one.
pub fn turn<C: EventCore, H: Hook>(
    alloc: Global,
    core: &mut C,
    hook: &mut H,
    runner: &mut Runner,
    calls: &[JobCall],
    call: &Call,
) -> StepEnd
    requires { MayStep calls.now (H.test hook.old) (C.sight core.old) runner.old call.now }
    ensures turns { Turns calls.now (H.test hook.old) (C.sight core.old) (C.sight core.new) runner.old runner.new result }
    ensures test { H.test hook.new ≡ H.test hook.old }
    ensures origin { C.origin core.new ≡ C.origin core.old }
    ensures right { IsOrderlyInSight (C.sight core.new) }
{
    let mut way = None;
    match step(alloc, core, hook, runner, calls, call, &mut way) {
        Went::Ended => return StepEnd::Ended,
        Went::On => return StepEnd::Again,
        Went::Back => return StepEnd::Again,
        Went::NoMemory => return StepEnd::NoMemory,
        Went::Busy(holder) => return StepEnd::Busy(holder.caller),
        Went::Shut => match recover(alloc, core, hook, runner, calls, call) {
            Went::Ended => return StepEnd::Ended,
            Went::NoMemory => return StepEnd::NoMemory,
            Went::Back => return StepEnd::Again,
            Went::On => unreachable!(),
            Went::Shut => unreachable!(),
            Went::Busy(_) => unreachable!(),
        },
    }
}

/// Runs a caller's next call to its end; where another call holds the floor, that one's first. False is want of memory.
pub fn run_call<C: EventCore, H: Hook>(
    alloc: Global,
    core: &mut C,
    hook: &mut H,
    runners: &mut [Runner],
    calls: &[JobCall],
    index: &CallIndex,
    caller: u8,
) -> bool
    requires index { IsIndexOf calls.now index.now.places }
    requires underway { AllUnderWay calls.now (H.test hook.old) (C.sight core.old) runners.old }
    requires within { caller < length runners.old }
    ensures whole { result ≡ true
        → IsWhole calls.now (H.test hook.old) 0 (C.sight core.old) (C.sight core.new) runners.old runners.new }
    ensures answered { result ≡ true → AnswersOneMore calls.now caller runners.old runners.new }
    ensures length { length runners.new ≡ length runners.old }
    ensures test { H.test hook.new ≡ H.test hook.old }
    ensures origin { C.origin core.new ≡ C.origin core.old }
    ensures right { IsOrderlyInSight (C.sight core.new) }
{
    'turns: loop {
        let place = runners[caller as usize].done;
        let Some(call) = find_call(calls, index, caller, place) else {
            return true;
        };
        match turn(
            alloc,
            core,
            hook,
            &mut runners[caller as usize],
            calls,
            call,
        ) {
            StepEnd::Ended => return true,
            StepEnd::Again => {}
            StepEnd::NoMemory => {
                give_up(core, &runners[caller as usize]);
                return false;
            }
            StepEnd::Busy(holder) => {
                let holds = runners[holder as usize].done;
                let Some(first) = find_call(calls, index, holder, holds) else {
                    unreachable!();
                };
                if !run_holder(
                    alloc,
                    core,
                    hook,
                    &mut runners[holder as usize],
                    calls,
                    first,
                ) {
                    return false;
                }
            }
        }
    }
}

/// Runs the calls of a job in the order of their indices, each to its end. False is want of memory.
pub fn run_in_order<C: EventCore, H: Hook>(
    alloc: Global,
    core: &mut C,
    hook: &mut H,
    runners: &mut [Runner],
    calls: &[JobCall],
) -> bool
    requires begins { IsAfter calls.now (H.test hook.old) (C.sight core.old) runners.old 0 }
    requires callers { AllByRecursion (λ (made : JobCall). made.caller < length runners.old) calls.now }
    ensures done { result ≡ true → IsRunInOrder calls.now (length runners.old) (H.test hook.old) (C.sight core.new) }
    ensures taken { result ≡ true → AreRested (H.test hook.old) (C.sight core.old) runners.old
        → HasTakenFaults (H.test hook.old) (C.sight core.new).history (C.sight core.new).records }
    ensures config { result ≡ true → (C.sight core.new).config ≡ (C.sight core.old).config }
    ensures seals { result ≡ true → IsTimely 0 (C.sight core.old) (C.sight core.new) }
    ensures test { H.test hook.new ≡ H.test hook.old }
    ensures origin { C.origin core.new ≡ C.origin core.old }
    ensures right { IsOrderlyInSight (C.sight core.new) }
{
    for made in calls {
        if !run_holder(
            alloc,
            core,
            hook,
            &mut runners[made.caller as usize],
            calls,
            &made.call,
        ) {
            return false;
        }
    }
    true
}
