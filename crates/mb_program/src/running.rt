ghost use Rattle.std.specs.Prelude.{◌≡◌, ◌≢◌, ◌≤◌, ◌++◌, ℕ, List, length, IfOk};
ghost use Rattle.mb_core_events.specs.Beginning.{IsRefused};
ghost use Rattle.mb_core_spec.specs.Right.{Right};
ghost use Rattle.mb_headline.specs.Laws.{IsBegunFor, IsFitJob};
ghost use Rattle.mb_jobs.specs.declared.jobs.Job.{Job};
ghost use Rattle.mb_print.specs.Transcript.{end_text, failed_text, soak_text, transcript_text};
ghost use Rattle.mb_core_spec.specs.declared.stages.Stage.TheVariants as Stage;
ghost use Rattle.mb_run.specs.CoreSight.{sight_of};
ghost use Rattle.mb_run.specs.Drives.{IsBegun};
ghost use Rattle.mb_run.specs.Sights.{IsOrderlyInSight};
ghost use Rattle.mb_run.specs.declared.drives.DriveEnd.TheVariants as DriveEnd;
ghost use Rattle.mb_program.specs.Held.{HoldsCore, held_disk};
ghost use Rattle.mb_program.specs.Outcomes.{ComesOfCore, ComesOfJob, IsAlone, IsDrivenFor, SaysText, ended_text, told_text, unsettled_text};
ghost use Rattle.mb_program.specs.declared.manners.Manner.{Manner};
ghost use Rattle.mb_program.specs.declared.manners.Manner.TheVariants as manners;

use crate::deciding::{Decided, refused_as};
use crate::finish::Held;
use crate::manners::Manner;
use crate::outcomes::Outcome;
use mb_core_events::{Core, Refusal, State};
use mb_edge::Disk;
use mb_fsops::V7;
use mb_headline::{
    begin_for, drives_apart, drives_keep_order, injectors_for, paths_are_runs, paths_end,
    paths_fail,
};
use mb_jobs::{Job, Text};
use mb_print::{failed_line, last_line, soak_line, transcript_with};
use mb_run::{DriveEnd, Driven, SettleEnd, Settled, drive, settle};
use mb_threads::drive_threads;
use mb_volume_core::VolumeCore;
use std::alloc::{AllocError, Global};
use std::sync::Wait;
use std::thread::Threads;

/// Begins a core over the disk, runs the job with it by one thread, and ends the run, told in that manner. A disk whose image
/// is no volume, or that fails while the image is opened, is given back.
pub fn run_over<D: Disk>(alloc: Global, manner: Manner, disk: D, job: &Job) -> Decided<D>
    requires fit { IsFitJob job.now }
    requires alone { IsAlone manner }
    ensures over { ComesOfJob D.told D.faults manner job.now disk result.held result.outcome }
    ensures later { D.faults disk ≤ D.faults (held_disk result.held) }
{
    match begin_for(alloc, V7, disk, job) {
        Ok(core) => run_begun(alloc, manner, core, job),
        Err(refusal) => refused(alloc, refusal),
    }
}

/// The same, where each caller has a thread of its own. There a caller may wait for another, so it need not return.
pub fn run_by_threads<D: Disk + Send, R: Threads + Wait + Sync>(
    rt: &R,
    alloc: Global,
    disk: D,
    job: &Job,
) -> Decided<D>
    requires fit { IsFitJob job.now }
    ensures over { ComesOfJob D.told D.faults manners.Threads job.now disk result.held result.outcome }
    ensures later { D.faults disk ≤ D.faults (held_disk result.held) }
{
    match begin_for(alloc, V7, disk, job) {
        Ok(core) => run_begun_by_threads(rt, alloc, core, job),
        Err(refusal) => refused(alloc, refusal),
    }
}

// What comes of a job over whose disk no core could be begun.
fn refused<D: Disk>(alloc: Global, refusal: Refusal<D>) -> Decided<D>
    ensures comes { (manner : Manner) (job : Job) (disk : D)
        → IsRefused D.told D.faults disk refusal.fault refusal.disk
        → ComesOfJob D.told D.faults manner job disk result.held result.outcome }
    ensures held { result.held ≡ Held.Disk refusal.disk }
{
    let Refusal { fault, disk } = refusal;
    Decided {
        outcome: refused_as(alloc, fault),
        held: Held::Disk(disk),
    }
}

// Runs a job over a core that was begun for it, and ends the run.
fn run_begun<D: Disk>(alloc: Global, manner: Manner, core: Core<V7, D>, job: &Job) -> Decided<D>
    requires fit { IsFitJob job.now }
    requires alone { IsAlone manner }
    requires begun { IsBegun job.now (sight_of core) }
    ensures core { (disk : D) (fs : V7) → IsBegunFor D.told D.faults fs job.now disk core
        → HoldsCore result.held (λ held.
        ComesOfCore D.told D.faults manner job.now disk held result.outcome) }
    ensures later { D.faults core.first ≤ D.faults (held_disk result.held) }
{
    drives_apart();
    drives_keep_order::<V7, D>();
    let mut hook = job.plan.hook();
    let Driven { core, end } = drive(alloc, VolumeCore { core }, job, &mut hook);
    in_order(&core.core);
    end_run(alloc, manner, core, end, job)
}

// Runs a job over a core that was begun for it, each caller in a thread of its own, and ends the run.
fn run_begun_by_threads<D: Disk + Send, R: Threads + Wait + Sync>(
    rt: &R,
    alloc: Global,
    core: Core<V7, D>,
    job: &Job,
) -> Decided<D>
    requires fit { IsFitJob job.now }
    requires begun { IsBegun job.now (sight_of core) }
    ensures core { (disk : D) (fs : V7) → IsBegunFor D.told D.faults fs job.now disk core
        → HoldsCore result.held (λ held.
        ComesOfCore D.told D.faults manners.Threads job.now disk held result.outcome) }
    ensures later { D.faults core.first ≤ D.faults (held_disk result.held) }
{
    in_order(&core);
    let core = VolumeCore { core };
    let Ok(hooks) = injectors_for(alloc, job) else {
        return held(core, Outcome::OutOfMemory);
    };
    let Driven { core, end } = drive_threads(rt, alloc, core, job, hooks);
    in_order(&core.core);
    end_run(alloc, Manner::Threads, core, end, job)
}

// Ends a run that a driver left: a recovery in progress is made, and the pages are written back.
fn end_run<D: Disk>(
    alloc: Global,
    manner: Manner,
    core: VolumeCore<V7, D>,
    end: DriveEnd,
    job: &Job,
) -> Decided<D>
    requires fit { IsFitJob job.now }
    requires right { IsOrderlyInSight (sight_of core.core) }
    ensures core { (disk : D) (fs : V7) → D.told core.core.first ≡ D.told disk
        → (end ≢ DriveEnd.NoMemory → IsDrivenFor D.told D.faults manner fs job.now disk core.core)
        → HoldsCore result.held (λ held.
        ComesOfCore D.told D.faults manner job.now disk held result.outcome) }
    ensures later { D.faults core.core.first ≤ D.faults (held_disk result.held) }
{
    paths_are_runs::<V7, D>();
    paths_end::<V7, D>();
    paths_fail::<V7, D>();
    in_order(&core.core);
    if end == DriveEnd::NoMemory {
        return held(core, Outcome::OutOfMemory);
    }
    let Settled { core, end } = settle(alloc, core);
    in_order(&core.core);
    match end {
        SettleEnd::Clean => {
            let outcome = ended(alloc, manner, job, &core.core);
            return held(core, outcome);
        }
        SettleEnd::Device => {
            let outcome = unsettled(alloc, manner, job, &core.core);
            return held(core, outcome);
        }
        SettleEnd::NoMemory => return held(core, Outcome::OutOfMemory),
    }
}

// A core is always in order. It does nothing, and shows this to whoever calls it.
fn in_order<D: Disk>(core: &Core<V7, D>)
    ensures { Right D.told D.faults core.now }
{
    core.history();
}

// The core that a run drove.
fn held<D: Disk>(core: VolumeCore<V7, D>, outcome: Outcome) -> Decided<D>
    ensures outcome { result.outcome ≡ outcome }
    ensures held { result.held ≡ Held.Core core.core }
{
    let VolumeCore { core } = core;
    Decided {
        outcome,
        held: Held::Core(core),
    }
}

// What is told of a run to its end, by whether the volume failed.
fn ended<D: Disk>(alloc: Global, manner: Manner, job: &Job, core: &Core<V7, D>) -> Outcome
    ensures failed { core.now.stage ≡ Stage.Failed → SaysText Outcome.GivenUp (told_text manner failed_text job.now core.now) result }
    ensures runs { core.now.stage ≢ Stage.Failed → SaysText Outcome.Ran (told_text manner end_text job.now core.now) result }
{
    match manner {
        Manner::Alone | Manner::Threads => listed(alloc, job, core),
        Manner::Soak => summed_up(alloc, core),
    }
}

// The transcript with its last line, by whether the volume failed.
fn listed<D: Disk>(alloc: Global, job: &Job, core: &Core<V7, D>) -> Outcome
    ensures failed { core.now.stage ≡ Stage.Failed → SaysText Outcome.GivenUp (ended_text failed_text job.now core.now) result }
    ensures runs { core.now.stage ≢ Stage.Failed → SaysText Outcome.Ran (ended_text end_text job.now core.now) result }
{
    let entries = core.history().len() as u64;
    let faults = core.records().len() as u64;
    let sealed = u64::from(core.sealed_at());
    match core.state() {
        State::Failed => match failed_line(alloc, entries, faults, sealed) {
            Ok(line) => match with_line(alloc, job, core, line.as_slice()) {
                Ok(text) => Outcome::GivenUp(text),
                Err(_) => Outcome::OutOfMemory,
            },
            Err(_) => Outcome::OutOfMemory,
        },
        State::Running | State::Recovering => match last_line(alloc, entries, faults, sealed) {
            Ok(line) => match with_line(alloc, job, core, line.as_slice()) {
                Ok(text) => Outcome::Ran(text),
                Err(_) => Outcome::OutOfMemory,
            },
            Err(_) => Outcome::OutOfMemory,
        },
    }
}

// One line for all, by whether the volume failed.
fn summed_up<D: Disk>(alloc: Global, core: &Core<V7, D>) -> Outcome
    ensures failed { core.now.stage ≡ Stage.Failed
        → SaysText Outcome.GivenUp (soak_text core.now.journal.history (length core.now.journal.records) core.now.journal.sealed_at) result }
    ensures runs { core.now.stage ≢ Stage.Failed
        → SaysText Outcome.Ran (soak_text core.now.journal.history (length core.now.journal.records) core.now.journal.sealed_at) result }
{
    let struck = core.records().len() as u64;
    let sealed = u64::from(core.sealed_at());
    let Ok(line) = soak_line(alloc, core.history(), struck, sealed) else {
        return Outcome::OutOfMemory;
    };
    match core.state() {
        State::Failed => Outcome::GivenUp(line),
        State::Running | State::Recovering => Outcome::Ran(line),
    }
}

// What is told of a run in whose end the disk failed.
fn unsettled<D: Disk>(alloc: Global, manner: Manner, job: &Job, core: &Core<V7, D>) -> Outcome
    ensures { SaysText Outcome.Unsettled (unsettled_text manner job.now core.now) result }
{
    let told = match manner {
        Manner::Alone | Manner::Threads => with_line(alloc, job, core, b"disk fault\n"),
        Manner::Soak => the_line(alloc, b"disk fault\n"),
    };
    match told {
        Ok(text) => Outcome::Unsettled(text),
        Err(_) => Outcome::OutOfMemory,
    }
}

// A line alone.
fn the_line(alloc: Global, line: &[u8]) -> Result<Text, AllocError>
    ensures { IfOk result (λ text. text ≡ line.now) }
{
    Ok(Text::from_vec(Vec::from_slice(alloc, line)?))
}

// The transcript with a line behind it.
fn with_line<D: Disk>(
    alloc: Global,
    job: &Job,
    core: &Core<V7, D>,
    line: &[u8],
) -> Result<Text, AllocError>
    ensures { IfOk result (λ text. text ≡ transcript_text job.now core.now.journal.history ++ line.now) }
{
    transcript_with(alloc, job, core.history(), line)
}
