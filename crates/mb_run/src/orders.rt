ghost use Rattle.std.specs.Prelude.{[], ◌∷◌, ◌≡◌, ◌≢◌, ◌<◌, ◌≤◌, IfSome, None, Some, true, false, length};
ghost use Rattle.mb_run.specs.Calm.{IsStill, KeepsCalmly, StartsCalm, StepsCalmly, TurnsCalmly};
ghost use Rattle.mb_run.specs.Drives.{EntersCalmly};
ghost use Rattle.mb_run.specs.Indexes.{IsIndexOf};
ghost use Rattle.mb_run.specs.Letters.{AreLetters, BeginsAlone, BeginsByLetter, HasBegun, HasBegunBy, LacksLetter, letters_of};
ghost use Rattle.mb_run.specs.Orders.{asked_in, ComesNext, HasLetter, IsEarlyAt, HasCallOpen, IsQuiet, IsSealedNow, IsWhole, MayLook, Moved};
ghost use Rattle.mb_run.specs.Served.{Did, MayStep, AllUnderWay};
ghost use Rattle.mb_run.specs.Settling.{KeepsHistory};
ghost use Rattle.mb_run.specs.Sights.{IsOrderlyInSight, recovers};
ghost use Rattle.mb_run.specs.Timely.{IsTimely};
ghost use Rattle.mb_run.specs.declared.progress.Went.TheVariants as went;

use crate::answers::StepAnswer;
use crate::call_index::{CallIndex, find_call};
use crate::event_core::EventCore;
use crate::progress::{Early, Next, Went};
use crate::runner::{At, Runner};
use crate::runs::{give_up, roll};
use crate::steps::{enter, gather, has_tables, step};
use mb_calls::Performed;
use mb_core_spec::Stage;
use mb_edge::Hook;
use mb_iface::Need;
use mb_jobs::{Caller, JobCall};
use mb_kinds::Call;
use std::alloc::Global;

/// What the next fault point of a caller's call is.
fn look<C: EventCore>(alloc: Global, core: &C, runner: &Runner, call: &Call) -> Next
    requires { MayLook (C.sight core.now) runner.now }
    ensures { ComesNext runner.now result }
{
    match runner.at {
        At::Outside => Next::Early(Early::Enter),
        At::Logged(_) => Next::Late,
        At::Inside(ticket) => {
            if !has_tables(&runner.pages) {
                return Next::Early(Early::Gather(ticket, Need::tables()));
            }
            let mut way = None;
            match core.perform(alloc, &runner.pages, &ticket, call, &mut way) {
                Performed::Need(need) => return Next::Early(Early::Gather(ticket, need)),
                Performed::Ready(_) => return Next::Late,
                Performed::NoMemory => return Next::NoMemory,
            }
        }
    }
}

/// One step of a caller, whose next call is that one. False is want of memory; the call then has no entry.
fn step_once<C: EventCore, H: Hook>(
    alloc: Global,
    core: &mut C,
    hook: &mut H,
    runner: &mut Runner,
    calls: &[JobCall],
    call: &Call,
) -> bool
    requires { MayStep calls.now (H.test hook.old) (C.sight core.old) runner.old call.now }
    ensures moved { Moved calls.now (H.test hook.old) (C.sight core.old) (C.sight core.new) runner.old runner.new result }
    ensures begins { result ≡ true → ((C.sight core.new).seats runner.old.crossings.caller).begun ≢ 0 }
    ensures calm { result ≡ true
        → StepsCalmly false (H.test hook.old) (C.sight core.old) (C.sight core.new) runner.old runner.new }
    ensures test { H.test hook.new ≡ H.test hook.old }
    ensures origin { C.origin core.new ≡ C.origin core.old }
    ensures right { IsOrderlyInSight (C.sight core.new) }
{
    let mut way = None;
    match step(alloc, core, hook, runner, calls, call, &mut way) {
        Went::Ended => return true,
        Went::On => return true,
        Went::Back => return true,
        Went::Shut => return true,
        Went::Busy(_) => return true,
        Went::NoMemory => {
            give_up(core, runner);
            return false;
        }
    }
}

/// The step at a fault point of entering or gathering, as `look` found it.
fn step_early<C: EventCore, H: Hook>(
    alloc: Global,
    core: &mut C,
    hook: &mut H,
    runner: &mut Runner,
    calls: &[JobCall],
    call: &Call,
    early: Early,
) -> Went
    requires may { MayStep calls.now (H.test hook.old) (C.sight core.old) runner.old call.now }
    requires ahead { IsEarlyAt runner.old early }
    ensures did { Did calls.now (H.test hook.old) (C.sight core.old) (C.sight core.new) runner.old runner.new result }
    ensures begins { result ≢ went.NoMemory → ((C.sight core.new).seats runner.old.crossings.caller).begun ≢ 0 }
    ensures calm { result ≢ went.NoMemory
        → StepsCalmly true (H.test hook.old) (C.sight core.old) (C.sight core.new) runner.old runner.new }
    ensures test { H.test hook.new ≡ H.test hook.old }
    ensures origin { C.origin core.new ≡ C.origin core.old }
    ensures right { IsOrderlyInSight (C.sight core.new) }
{
    match early {
        Early::Enter => enter(alloc, core, hook, runner, calls, call),
        Early::Gather(ticket, need) => {
            gather(alloc, core, hook, runner, calls, call, &ticket, need)
        }
    }
}

/// Steps of a caller, whose next call is that one, as long as its next fault point is that of entering or gathering: it
/// enters and gathers, and never finishes. They end too after a step with which the call was answered, struck, turned away
/// with an old ticket, or met a recovery. False is want of memory; the call then has no entry.
fn step_to_finish<C: EventCore, H: Hook>(
    alloc: Global,
    core: &mut C,
    hook: &mut H,
    runner: &mut Runner,
    calls: &[JobCall],
    call: &Call,
) -> bool
    requires { MayStep calls.now (H.test hook.old) (C.sight core.old) runner.old call.now }
    ensures moved { Moved calls.now (H.test hook.old) (C.sight core.old) (C.sight core.new) runner.old runner.new result }
    ensures begins { result ≡ true → ((C.sight core.new).seats runner.old.crossings.caller).begun ≢ 0 }
    ensures calm { result ≡ true
        → StepsCalmly true (H.test hook.old) (C.sight core.old) (C.sight core.new) runner.old runner.new }
    ensures test { H.test hook.new ≡ H.test hook.old }
    ensures origin { C.origin core.new ≡ C.origin core.old }
    ensures right { IsOrderlyInSight (C.sight core.new) }
{
    'steps: loop {
        let early = match look(alloc, core, runner, call) {
            Next::Early(early) => early,
            Next::Late => return true,
            Next::NoMemory => {
                give_up(core, runner);
                return false;
            }
        };
        match step_early(alloc, core, hook, runner, calls, call, early) {
            Went::On => {}
            Went::Ended => return true,
            Went::Back => return true,
            Went::Shut => return true,
            Went::Busy(_) => return true,
            Went::NoMemory => {
                give_up(core, runner);
                return false;
            }
        }
    }
}

/// The step of a letter of an order, small or capital; nothing where the caller's list is done. False is want of memory.
fn step_letter<C: EventCore, H: Hook>(
    alloc: Global,
    core: &mut C,
    hook: &mut H,
    runners: &mut [Runner],
    calls: &[JobCall],
    index: &CallIndex,
    caller: u8,
    capital: bool,
) -> bool
    requires index { IsIndexOf calls.now index.now.places }
    requires underway { AllUnderWay calls.now (H.test hook.old) (C.sight core.old) runners.old }
    requires within { caller < length runners.old }
    ensures whole { result ≡ true
        → IsWhole calls.now (H.test hook.old) 0 (C.sight core.old) (C.sight core.new) runners.old runners.new }
    ensures begins { result ≡ true → HasBegun calls.now caller (C.sight core.new) }
    ensures alone { result ≡ true → BeginsAlone (Some caller) (C.sight core.old) (C.sight core.new) }
    ensures calm { result ≡ true
        → TurnsCalmly calls.now (H.test hook.old) capital caller (C.sight core.old) (C.sight core.new) runners.old runners.new }
    ensures length { length runners.new ≡ length runners.old }
    ensures test { H.test hook.new ≡ H.test hook.old }
    ensures origin { C.origin core.new ≡ C.origin core.old }
    ensures right { IsOrderlyInSight (C.sight core.new) }
{
    let place = runners[caller as usize].done;
    let Some(call) = find_call(calls, index, caller, place) else {
        return true;
    };
    if capital {
        return step_to_finish(
            alloc,
            core,
            hook,
            &mut runners[caller as usize],
            calls,
            call,
        );
    }
    step_once(
        alloc,
        core,
        hook,
        &mut runners[caller as usize],
        calls,
        call,
    )
}

fn is_recovering(stage: Stage) -> bool
    ensures { result ≡ recovers stage }
{
    match stage {
        Stage::Running | Stage::Failed => false,
        Stage::Struck | Stage::Again | Stage::Dropped | Stage::Remounted | Stage::Restored(_) =>
            true,
    }
}

/// The first caller that has a call in flight without an entry.
fn first_waiting<C: EventCore>(core: &C, runners: &[Runner]) -> Option<u8>
    requires few { length runners.now ≤ 8 }
    requires callers { length runners.now ≤ (C.sight core.now).config.callers }
    ensures { IfSome result (λ caller. HasCallOpen (C.sight core.now) runners.now caller) }
{
    let mut caller: u8 = 0;
    for runner in runners {
        if !runner.answered {
            if core.begun(caller) > runner.done {
                return Some(caller);
            }
        }
        caller += 1;
    }
    None
}

/// One step of a recovery that nobody's call runs: no fault injector is asked. False is want of memory.
fn recover_alone<C: EventCore, H: Hook>(alloc: Global, core: &mut C, hook: &mut H) -> bool
    requires right { IsOrderlyInSight (C.sight core.old) }
    ensures quiet { IsQuiet (C.sight core.old) (C.sight core.new) }
    ensures seals { IsTimely 0 (C.sight core.old) (C.sight core.new) }
    ensures test { H.test hook.new ≡ H.test hook.old }
    ensures origin { C.origin core.new ≡ C.origin core.old }
    ensures right { IsOrderlyInSight (C.sight core.new) }
{
    let mut by = None;
    match core.recover_step(alloc, &mut by, hook) {
        StepAnswer::NoMemory => return false,
        _ => return true,
    }
}

/// One step of a recovery, run by the first caller that has a call in flight without an entry, or by nobody; nothing where
/// none is in progress. False is want of memory; the call then has no entry.
fn recover_once<C: EventCore, H: Hook>(
    alloc: Global,
    core: &mut C,
    hook: &mut H,
    runners: &mut [Runner],
    calls: &[JobCall],
    index: &CallIndex,
) -> bool
    requires index { IsIndexOf calls.now index.now.places }
    requires underway { AllUnderWay calls.now (H.test hook.old) (C.sight core.old) runners.old }
    ensures whole { result ≡ true
        → IsWhole calls.now (H.test hook.old) 0 (C.sight core.old) (C.sight core.new) runners.old runners.new }
    ensures alone { result ≡ true → BeginsAlone None (C.sight core.old) (C.sight core.new) }
    ensures idle { recovers (C.sight core.old).stage ≡ false → (C.sight core.new ≡ C.sight core.old)
        × (runners.new ≡ runners.old) }
    ensures length { length runners.new ≡ length runners.old }
    ensures test { H.test hook.new ≡ H.test hook.old }
    ensures origin { C.origin core.new ≡ C.origin core.old }
    ensures right { IsOrderlyInSight (C.sight core.new) }
{
    if !is_recovering(core.stage()) {
        return true;
    }
    let Some(caller) = first_waiting(core, runners) else {
        return recover_alone(alloc, core, hook);
    };
    let place = runners[caller as usize].done;
    let Some(call) = find_call(calls, index, caller, place) else {
        unreachable!();
    };
    match roll(
        alloc,
        core,
        hook,
        &mut runners[caller as usize],
        calls,
        call,
    ) {
        Went::NoMemory => {
            give_up(core, &runners[caller as usize]);
            return false;
        }
        _ => return true,
    }
}

/// Takes a checkpoint where the volume runs. False is want of memory.
pub(crate) fn seal_now<C: EventCore>(core: &mut C) -> bool
    requires right { IsOrderlyInSight (C.sight core.old) }
    ensures quiet { IsQuiet (C.sight core.old) (C.sight core.new) }
    ensures sealed { result ≡ true → IsSealedNow (C.sight core.old) (C.sight core.new) }
    ensures keeps { KeepsHistory (C.sight core.old) (C.sight core.new) }
    ensures later { C.faults core.old ≤ C.faults core.new }
    ensures origin { C.origin core.new ≡ C.origin core.old }
    ensures right { IsOrderlyInSight (C.sight core.new) }
{
    match core.stage() {
        Stage::Running => match core.seal() {
            Ok(()) => return true,
            Err(_) => return false,
        },
        _ => return true,
    }
}

/// Writes one checkpointed page back, where the disk does not fail.
fn flush<C: EventCore>(core: &mut C)
    requires right { IsOrderlyInSight (C.sight core.old) }
    ensures quiet { IsQuiet (C.sight core.old) (C.sight core.new) }
    ensures seals { IsTimely 0 (C.sight core.old) (C.sight core.new) }
    ensures still { IsStill (C.sight core.old) (C.sight core.new) }
    ensures origin { C.origin core.new ≡ C.origin core.old }
    ensures right { IsOrderlyInSight (C.sight core.new) }
{
    let _ = core.flush_one();
}

/// The place of the caller with that letter, and nothing where no caller has it.
fn find_letter(callers: &[Caller], letter: u8) -> Option<u8>
    requires few { length callers.now ≤ 8 }
    ensures found { IfSome result (λ caller. HasLetter callers.now letter caller) }
    ensures lacks { result ≡ None → LacksLetter callers.now letter }
{
    let mut place: u8 = 0;
    for caller in callers {
        if caller.letter == letter {
            return Some(place);
        }
        place += 1;
    }
    None
}

/// The step of one character of an order. False is want of memory.
fn step_character<C: EventCore, H: Hook>(
    alloc: Global,
    core: &mut C,
    hook: &mut H,
    runners: &mut [Runner],
    calls: &[JobCall],
    index: &CallIndex,
    callers: &[Caller],
    character: u8,
) -> bool
    requires index { IsIndexOf calls.now index.now.places }
    requires underway { AllUnderWay calls.now (H.test hook.old) (C.sight core.old) runners.old }
    requires callers { length callers.now ≡ length runners.old }
    ensures whole { result ≡ true
        → IsWhole calls.now (H.test hook.old) (asked_in (character ∷ [])) (C.sight core.old) (C.sight core.new) runners.old runners.new }
    ensures letters { result ≡ true → AreLetters (letters_of callers.now)
        → BeginsByLetter (letters_of callers.now) calls.now character (C.sight core.old) (C.sight core.new) }
    ensures calm { result ≡ true
        → KeepsCalmly callers.now calls.now (H.test hook.old) character (C.sight core.old) (C.sight core.new) runners.old runners.new }
    ensures length { length runners.new ≡ length runners.old }
    ensures test { H.test hook.new ≡ H.test hook.old }
    ensures origin { C.origin core.new ≡ C.origin core.old }
    ensures right { IsOrderlyInSight (C.sight core.new) }
{
    if character == b' ' {
        return true;
    }
    if character == b'=' {
        return seal_now(core);
    }
    if character == b'>' {
        flush(core);
        return true;
    }
    if character == b'*' {
        return recover_once(alloc, core, hook, runners, calls, index);
    }
    let capital = character.is_ascii_uppercase();
    let letter = character.to_ascii_lowercase();
    let Some(caller) = find_letter(callers, letter) else {
        return true;
    };
    step_letter(alloc, core, hook, runners, calls, index, caller, capital)
}

/// The steps of an order, one after another. False is want of memory.
pub fn run_order<C: EventCore, H: Hook>(
    alloc: Global,
    core: &mut C,
    hook: &mut H,
    runners: &mut [Runner],
    calls: &[JobCall],
    index: &CallIndex,
    callers: &[Caller],
    order: &[u8],
) -> bool
    requires index { IsIndexOf calls.now index.now.places }
    requires underway { AllUnderWay calls.now (H.test hook.old) (C.sight core.old) runners.old }
    requires callers { length callers.now ≡ length runners.old }
    ensures whole { result ≡ true
        → IsWhole calls.now (H.test hook.old) (asked_in order.now) (C.sight core.old) (C.sight core.new) runners.old runners.new }
    ensures firsts { result ≡ true → AreLetters (letters_of callers.now)
        → HasBegunBy (letters_of callers.now) calls.now [] (C.sight core.old)
        → HasBegunBy (letters_of callers.now) calls.now order.now (C.sight core.new) }
    ensures enters { result ≡ true → StartsCalm callers.now calls.now (C.sight core.old) runners.old
        → EntersCalmly order.now callers.now calls.now (H.test hook.old) (C.sight core.new) }
    ensures length { length runners.new ≡ length runners.old }
    ensures test { H.test hook.new ≡ H.test hook.old }
    ensures origin { C.origin core.new ≡ C.origin core.old }
    ensures right { IsOrderlyInSight (C.sight core.new) }
{
    for character in order {
        if !step_character(
            alloc, core, hook, runners, calls, index, callers, *character,
        ) {
            return false;
        }
    }
    true
}
