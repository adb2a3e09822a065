ghost use Rattle.std.specs.Prelude.{◌≡◌, ◌≤◌, length, IfOk, IfErr};
ghost use Rattle.mb_core_events.specs.Beginning.{IsRefused, IsUnswept, TellsVolume};
ghost use Rattle.mb_headline.specs.Headline.{IsConfigOf};
ghost use Rattle.mb_headline.specs.Laws.{IsBegunFor, IsFitJob};
ghost use Rattle.mb_run.specs.CoreSight.{sight_of};
ghost use Rattle.mb_run.specs.Drives.{IsBegun};

use mb_check::OpenFault;
use mb_core_events::{Core, Refusal};
use mb_core_spec::Config;
use mb_edge::{Disk, NoMemory};
use mb_iface::FileSys;
use mb_jobs::Job;
use mb_kinds::Creds;
use std::alloc::Global;

/// Begins a core over a disk with what a job asks for; a driver of its callers may then run the job over it. A refusal gives
/// the disk back: `Unsound` where its image is no volume, `Device` only where its count of faults rose, `NoMemory` for want
/// of memory.
pub fn begin_for<F: FileSys, D: Disk>(
    alloc: Global,
    fs: F,
    disk: D,
    job: &Job,
) -> Result<Core<F, D>, Refusal<D>>
    requires { IsFitJob job.now }
    ensures begun { IfOk result (λ core. IsBegun job.now (sight_of core)) }
    ensures over { IfOk result (IsBegunFor D.told D.faults fs job.now disk) }
    ensures volume { IfOk result (λ core. TellsVolume (D.told disk)) }
    ensures unswept { IfOk result (λ core. IsUnswept (D.told disk) core.cache.sealed) }
    ensures refused { IfErr result (λ refusal. IsRefused D.told D.faults disk refusal.fault refusal.disk) }
{
    let Ok(config) = config_of(alloc, job) else {
        let fault = OpenFault::NoMemory;
        return Err(Refusal { fault, disk });
    };
    Core::begin(alloc, fs, disk, config)
}

// What a core is begun with for a job.
fn config_of(alloc: Global, job: &Job) -> Result<Config, NoMemory>
    requires few { length job.now.callers ≤ 8 }
    requires calls { length job.now.calls ≤ 4294967295 }
    ensures config { IfOk result (IsConfigOf job.now) }
    ensures most { IfOk result (λ config. config.most ≡ length job.now.calls) }
{
    let mut creds = Vec::with_capacity(alloc, job.callers.as_slice().len())?;
    for caller in job.callers.as_slice() {
        creds.push(caller.cred)?;
    }
    Ok(Config {
        callers: Creds::from_vec(creds),
        start: job.start,
        threshold: job.threshold,
        limit: job.limit,
        most: job.calls.len() as u32,
    })
}
