ghost use Rattle.std.specs.Prelude.{[], ◌+◌, ◌≡◌, ◌≢◌, ◌<◌, ◌≤◌, true, length};
ghost use Rattle.std.specs.List.{AllByRecursion};
ghost use Rattle.mb_jobs.specs.declared.jobs.JobCall.{JobCall};
ghost use Rattle.mb_run.specs.Calm.{StartsCalm};
ghost use Rattle.mb_run.specs.Drives.{AreNew, EndsDrive, EntersCalmly, IsBegun, IsComplete, IsDriven, IsRunnable};
ghost use Rattle.mb_run.specs.Indexes.{IsIndexOf};
ghost use Rattle.mb_run.specs.Letters.{AreLetters, HasBegunBy, letters_of};
ghost use Rattle.mb_run.specs.Orders.{AreRunOut, ReachesCount, IsWhole, TakesAsked, asked_in};
ghost use Rattle.mb_run.specs.Runs.{FirstsRise};
ghost use Rattle.mb_run.specs.Served.{IsBalanced, AllUnderWay};
ghost use Rattle.mb_run.specs.Sights.{IsOrderlyInSight};
ghost use Rattle.mb_run.specs.Timely.{IsTimely};
ghost use Rattle.mb_run.specs.declared.drives.DriveEnd.TheVariants as end;

use crate::call_index::CallIndex;
use crate::event_core::EventCore;
use crate::orders::run_order;
use crate::runner::Runner;
use crate::runs::{run_call, run_in_order};
use mb_core_spec::Stage;
use mb_edge::Hook;
use mb_jobs::{Caller, Job, JobCall};
use std::alloc::Global;

/// How a run of a job ended.
#[derive(Clone, Copy, Debug, PartialEq, Eq, Drop)]
pub enum DriveEnd {
    /// Each call of the job has its entry, and the volume has not failed.
    AllDone,
    /// Each call of the job has its entry, and the volume has failed.
    VolumeFailed,
    /// A call or a step met want of memory, so there may be calls without an entry.
    NoMemory,
}

/// What a run of a job left.
pub struct Driven<C: EventCore> {
    pub core: C,
    pub end: DriveEnd,
}

/// Runs a caller's next call to its end, where fewer than so many of its calls were answered. False is want of memory.
fn run_up_to<C: EventCore, H: Hook>(
    alloc: Global,
    core: &mut C,
    hook: &mut H,
    runners: &mut [Runner],
    calls: &[JobCall],
    index: &CallIndex,
    caller: u8,
    count: u32,
) -> bool
    requires index { IsIndexOf calls.now index.now.places }
    requires underway { AllUnderWay calls.now (H.test hook.old) (C.sight core.old) runners.old }
    requires within { caller < length runners.old }
    ensures whole { result ≡ true
        → IsWhole calls.now (H.test hook.old) 0 (C.sight core.old) (C.sight core.new) runners.old runners.new }
    ensures reached { result ≡ true → ReachesCount calls.now caller count runners.old runners.new }
    ensures length { length runners.new ≡ length runners.old }
    ensures test { H.test hook.new ≡ H.test hook.old }
    ensures origin { C.origin core.new ≡ C.origin core.old }
    ensures right { IsOrderlyInSight (C.sight core.new) }
{
    if runners[caller as usize].done >= count {
        return true;
    }
    run_call(alloc, core, hook, runners, calls, index, caller)
}

/// Runs the calls that are not answered to their ends, in the order of their indices. False is want of memory.
fn run_out<C: EventCore, H: Hook>(
    alloc: Global,
    core: &mut C,
    hook: &mut H,
    runners: &mut [Runner],
    calls: &[JobCall],
    index: &CallIndex,
) -> bool
    requires index { IsIndexOf calls.now index.now.places }
    requires underway { AllUnderWay calls.now (H.test hook.old) (C.sight core.old) runners.old }
    requires callers { AllByRecursion (λ (made : JobCall). made.caller < length runners.old) calls.now }
    requires few { length runners.old ≤ 8 }
    requires small { length calls.now < 4294967290 }
    ensures whole { result ≡ true
        → IsWhole calls.now (H.test hook.old) 0 (C.sight core.old) (C.sight core.new) runners.old runners.new }
    ensures out { result ≡ true → AreRunOut calls.now runners.new (length calls.now) }
    ensures length { length runners.new ≡ length runners.old }
    ensures test { H.test hook.new ≡ H.test hook.old }
    ensures origin { C.origin core.new ≡ C.origin core.old }
    ensures right { IsOrderlyInSight (C.sight core.new) }
{
    let mut passed = [0u32; 8];
    for made in calls {
        let caller = made.caller as usize;
        let count = passed[caller] + 1;
        passed[caller] = count;
        if !run_up_to(alloc, core, hook, runners, calls, index, made.caller, count) {
            return false;
        }
    }
    true
}

/// Runs a job by an order, and then what that left. False is want of memory.
fn run_by_order<C: EventCore, H: Hook>(
    alloc: Global,
    core: &mut C,
    hook: &mut H,
    runners: &mut [Runner],
    calls: &[JobCall],
    callers: &[Caller],
    order: &[u8],
) -> bool
    requires underway { AllUnderWay calls.now (H.test hook.old) (C.sight core.old) runners.old }
    requires named { AllByRecursion (λ (made : JobCall). made.caller < length runners.old) calls.now }
    requires callers { length callers.now ≡ length runners.old }
    requires few { length runners.old ≤ 8 }
    requires small { length calls.now < 4294967290 }
    requires balanced { IsBalanced (C.sight core.old) }
    ensures complete { result ≡ true → IsComplete calls.now (length runners.old) (H.test hook.old) (C.sight core.new) }
    ensures firsts { result ≡ true → AreLetters (letters_of callers.now)
        → HasBegunBy (letters_of callers.now) calls.now [] (C.sight core.old)
        → FirstsRise order.now (letters_of callers.now) (C.sight core.new).history }
    ensures enters { result ≡ true → StartsCalm callers.now calls.now (C.sight core.old) runners.old
        → EntersCalmly order.now callers.now calls.now (H.test hook.old) (C.sight core.new) }
    ensures config { result ≡ true → (C.sight core.new).config ≡ (C.sight core.old).config }
    ensures seals { result ≡ true → IsTimely (asked_in order.now) (C.sight core.old) (C.sight core.new) }
    ensures asks { result ≡ true → TakesAsked (asked_in order.now) (C.sight core.old) (C.sight core.new) }
    ensures origin { C.origin core.new ≡ C.origin core.old }
    ensures right { IsOrderlyInSight (C.sight core.new) }
{
    let Ok(index) = CallIndex::new(alloc, calls) else {
        return false;
    };
    if !run_order(alloc, core, hook, runners, calls, &index, callers, order) {
        return false;
    }
    run_out(alloc, core, hook, runners, calls, &index)
}

/// Runs a job, by its order where it has one. False is want of memory.
fn run_all<C: EventCore, H: Hook>(
    alloc: Global,
    core: &mut C,
    hook: &mut H,
    runners: &mut [Runner],
    job: &Job,
) -> bool
    requires runnable { IsRunnable job.now }
    requires begun { IsBegun job.now (C.sight core.old) }
    requires runners { AreNew runners.old (length job.now.callers) }
    ensures driven { result ≡ true → IsDriven job.now (H.test hook.old) (C.sight core.old) (C.sight core.new) }
    ensures origin { C.origin core.new ≡ C.origin core.old }
    ensures right { IsOrderlyInSight (C.sight core.new) }
{
    let calls = job.calls.as_slice();
    let callers = job.callers.as_slice();
    match &job.order {
        None => return run_in_order(alloc, core, hook, runners, calls),
        Some(order) => {
            let steps = order.as_slice();
            return run_by_order(alloc, core, hook, runners, calls, callers, steps);
        }
    }
}

fn end_of(stage: Stage, done: bool) -> DriveEnd
    ensures ends { EndsDrive stage result }
    ensures done { result ≢ end.NoMemory → done ≡ true }
{
    if !done {
        return DriveEnd::NoMemory;
    }
    match stage {
        Stage::Failed => DriveEnd::VolumeFailed,
        _ => DriveEnd::AllDone,
    }
}

fn drive_core<C: EventCore, H: Hook>(
    alloc: Global,
    core: &mut C,
    job: &Job,
    hook: &mut H,
) -> DriveEnd
    requires runnable { IsRunnable job.now }
    requires begun { IsBegun job.now (C.sight core.old) }
    ensures driven { result ≢ end.NoMemory → IsDriven job.now (H.test hook.old) (C.sight core.old) (C.sight core.new) }
    ensures ends { EndsDrive (C.sight core.new).stage result }
    ensures origin { C.origin core.new ≡ C.origin core.old }
    ensures right { IsOrderlyInSight (C.sight core.new) }
{
    let mut all = [
        Runner::new(alloc, 0),
        Runner::new(alloc, 1),
        Runner::new(alloc, 2),
        Runner::new(alloc, 3),
        Runner::new(alloc, 4),
        Runner::new(alloc, 5),
        Runner::new(alloc, 6),
        Runner::new(alloc, 7),
    ];
    let count = job.callers.len();
    let done = run_all(alloc, core, hook, &mut all[..count], job);
    end_of(core.stage(), done)
}

/// Runs a job over a core that was begun for it: in list order, or by the job's order and then, in the order of their
/// indices, the calls that are left.
///
/// At every end but `NoMemory` each caller's own entries are its calls of the job, in its order; the moments of `n`
/// entries are `start + 1` to `start + n`, each once, and in list order one after another; by an order, the moments of
/// the callers' first calls rise as their letters first stand in it, and those of callers without a letter in it come
/// last; where the injector faults nowhere and no call was given up, the event trace begins, but for its checkpoints, as the
/// order tells it, with the callers' first calls that enter; and each fault record is at a crossing where the fault injector
/// faults, no two at one whose `nth` is below 4294967295. Where no fault came, as many checkpoints were taken at least as an
/// order asks for. By an order no fault was passed over where a call entered (`TakesWhereItEntered`), as far as its records tell
/// how often it did. In list order, over a core that runs at the beginning, none was anywhere (`TakesFaults`): a call has
/// a record of each crossing where the injector's test holds, as far as its records tell how often it entered, gathered,
/// finished, left and started the file system anew; with a plain reply it met one fault of its own at most. And no fault
/// struck where its call did not come (`AreNear`): a record of Enter has an `nth` of at most one more than its call's records of
/// Enter, Gather and Finish before it, one of Finish of at most one more than those of Finish, one of Leave of 1, and one of Remount
/// of at most as many as its call's records but those of Leave, and one more behind a record of Leave or an entry `Device`.
/// However the job is run, once a call has the failed volume's answer every later entry has it.
pub fn drive<C: EventCore, H: Hook>(alloc: Global, core: C, job: &Job, hook: &mut H) -> Driven<C>
    requires runnable { IsRunnable job.now }
    requires begun { IsBegun job.now (C.sight core) }
    ensures driven { result.end ≢ end.NoMemory → IsDriven job.now (H.test hook.old) (C.sight core) (C.sight result.core) }
    ensures ends { EndsDrive (C.sight result.core).stage result.end }
    ensures origin { C.origin result.core ≡ C.origin core }
    ensures right { IsOrderlyInSight (C.sight result.core) }
{
    let mut core = core;
    let end = drive_core(alloc, &mut core, job, hook);
    Driven { core, end }
}
