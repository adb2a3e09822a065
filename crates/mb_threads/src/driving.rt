ghost use Rattle.std.specs.Prelude.{◌≡◌, ◌≢◌, [], true, false, length, map, vec_len, vec_capacity};
ghost use Rattle.std.specs.List.{AllByRecursion};
ghost use Rattle.mb_core_spec.specs.Right.{Right};
ghost use Rattle.mb_run.specs.CoreSight.{sight_of};
ghost use Rattle.mb_run.specs.Drives.{EndsDrive, IsBegun, IsDrivenApart, IsRunnable};
ghost use Rattle.mb_run.specs.Sights.{IsOrderlyInSight};
ghost use Rattle.mb_run.specs.declared.drives.DriveEnd.TheVariants as end;
ghost use Rattle.mb_threads.specs.Driven.{test_of};

use crate::worker::{MakeCalls, Worker};
use mb_core_events::Core;
use mb_core_spec::Stage;
use mb_edge::{Disk, Hook};
use mb_iface::FileSys;
use mb_jobs::{Job, JobCall};
use mb_run::{DriveEnd, Driven, EventCore};
use mb_turn::{PassList, each};
use mb_volume::{SharedCore, Volume};
use mb_volume_core::VolumeCore;
use std::alloc::Global;
use std::sync::Wait;
use std::thread::Threads;

/// Runs the calls of a job over a core that was begun for it, each caller in a thread of its own with a fault injector
/// of its own; `hooks` has one for each caller, in their order. Where memory suffices every call of the job has its
/// entry, each caller's in its order, and none is in flight. No checkpoint is taken but where one is due, none is left out behind
/// a `sync`, and once a call has the failed volume's answer every later entry has it. It may wait for its threads.
pub fn drive_threads<
    F: FileSys + Send,
    D: Disk + Send,
    H: Hook + Drop + Send,
    R: Threads + Wait + Sync,
>(
    rt: &R,
    alloc: Global,
    core: VolumeCore<F, D>,
    job: &Job,
    hooks: Vec<H>,
) -> Driven<VolumeCore<F, D>>
    requires runnable { IsRunnable job.now }
    requires begun { IsBegun job.now (sight_of core.core) }
    requires hooks { length hooks.items ≡ length job.now.callers }
    ensures driven { result.end ≢ end.NoMemory
        → IsDrivenApart job.now 0 (test_of (map H.test hooks.items)) (sight_of core.core) (sight_of result.core.core) }
    ensures ends { EndsDrive (sight_of result.core.core).stage result.end }
    ensures first { result.core.core.first ≡ core.core.first }
    ensures config { result.core.core.config ≡ core.core.config }
    ensures right { IsOrderlyInSight (sight_of result.core.core) }
{
    in_order(&core.core);
    let (volume, passes) = match Volume::start(alloc, core) {
        Ok(started) => started,
        Err(core) => {
            return Driven {
                core,
                end: DriveEnd::NoMemory,
            };
        }
    };
    let workers = match Vec::with_capacity(alloc, passes.len()) {
        Ok(workers) => workers,
        Err(_) => {
            return Driven {
                core: volume.close(passes),
                end: DriveEnd::NoMemory,
            };
        }
    };
    let back = match Vec::with_capacity(alloc, passes.len()) {
        Ok(back) => back,
        Err(_) => {
            return Driven {
                core: volume.close(passes),
                end: DriveEnd::NoMemory,
            };
        }
    };
    let workers = employ(passes, hooks, job.calls.as_slice(), workers);
    let workers = each(rt, &MakeCalls { alloc }, &volume, workers);
    let (passes, stopped) = dismiss(workers, back);
    let core = volume.close(passes);
    in_order(&core.core);
    let end = end_of(&core, stopped);
    Driven { core, end }
}

/// A core is always in order. It does nothing, and shows this to whoever calls it.
fn in_order<F: FileSys, D: Disk>(core: &Core<F, D>)
    ensures { Right D.told D.faults core.now }
{
    core.history();
}

/// How a run ended.
fn end_of<F: FileSys, D: Disk>(core: &VolumeCore<F, D>, stopped: bool) -> DriveEnd
    ensures stopped { stopped ≡ true → result ≡ end.NoMemory }
    ensures ends { EndsDrive (sight_of core.now.core).stage result }
    ensures whole { result ≢ end.NoMemory → stopped ≡ false }
{
    if stopped {
        return DriveEnd::NoMemory;
    }
    match core.stage() {
        Stage::Failed => DriveEnd::VolumeFailed,
        _ => DriveEnd::AllDone,
    }
}

/// A worker for each pass, with the fault injector at the same place.
fn employ<'a, F: FileSys, D: Disk, H: Hook + Drop>(
    passes: PassList<SharedCore<F, D>>,
    hooks: Vec<H>,
    calls: &'a [JobCall],
    mut workers: Vec<Worker<'a, F, D, H>>,
) -> Vec<Worker<'a, F, D, H>>
    requires same { length hooks.items ≡ length passes.items }
    requires room { (workers.items ≡ []) × (vec_len workers ≡ 0) × (vec_capacity workers ≡ vec_len passes) }
    ensures passes { map (λ worker. worker.pass) result.items ≡ passes.items }
    ensures hooks { map (λ worker. H.test worker.hook) result.items ≡ map H.test hooks.items }
    ensures calls { AllByRecursion (λ worker. worker.calls.now ≡ calls.now) result.items }
{
    let mut hooks = hooks.into_iter();
    for pass in passes {
        let Some(hook) = hooks.next() else {
            unreachable!()
        };
        workers.push_reserved(Worker {
            pass,
            hook,
            calls,
            stopped: false,
        });
    }
    workers
}

/// The passes of all workers, and whether one of them met want of memory.
fn dismiss<F: FileSys, D: Disk, H: Hook + Drop>(
    workers: Vec<Worker<'_, F, D, H>>,
    mut passes: PassList<SharedCore<F, D>>,
) -> (PassList<SharedCore<F, D>>, bool)
    requires room { (passes.items ≡ []) × (vec_len passes ≡ 0) × (vec_capacity passes ≡ vec_len workers) }
    ensures passes { result.0.items ≡ map (λ worker. worker.pass) workers.entry.items }
    ensures stopped { result.1 ≡ false → AllByRecursion (λ worker. worker.stopped ≡ false) workers.entry.items }
{
    let mut stopped = false;
    for worker in workers {
        let Worker {
            pass,
            hook: _,
            calls: _,
            stopped: one,
        } = worker;
        passes.push_reserved(pass);
        stopped = stopped || one;
    }
    (passes, stopped)
}
