use crate::jobs::{Workplace, calls_of, faults_of};
use crate::runs::run;
use mb_headline::injectors_for;
use mb_jobs::job_of;
use mb_run::{DriveEnd, SettleEnd};
use std::alloc::Global;
use std::process::Abort;
use std::sync::Wait;
use std::test::Fail;
use std::thread::Threads;

/// Of each of the eight callers.
const CALLS: u32 = 4_000;

/// A rule for every so many calls: 40 of them in a job.
const BETWEEN_FAULTS: u32 = 800;

// Runs a job of eight callers in threads: its history is the reference model's, and the image that is left is a volume.
fn agrees<R: Threads + Wait + Sync + Abort + AllocGlobal>(
    rt: &R,
    place: Workplace,
    seed: u64,
    faulty: bool,
) -> Result<(), Fail> {
    let alloc: Global = rt.alloc();
    let mut text = calls_of(alloc, seed, CALLS, place)?;
    if faulty {
        text.push_str(faults_of(alloc, 8 * CALLS + 1, BETWEEN_FAULTS)?.as_str())?;
    }
    let job = job_of(alloc, text.as_bytes())?;
    let left = run(rt, &job, injectors_for(alloc, &job)?)?;
    assert_eq!(rt; left.end, DriveEnd::AllDone);
    assert_eq!(rt; left.entries, job.calls.len());
    assert_eq!(rt; left.apart, None);
    assert_eq!(rt; left.records.is_empty(), !faulty);
    assert_eq!(rt; left.settled, SettleEnd::Clean);
    assert!(rt; left.sound);
    Ok(())
}

#[test]
fn eight_callers_in_one_directory(rt: HostRuntime) -> Result<(), Fail> {
    agrees(&rt, Workplace::Root, 1, false)?;
    agrees(&rt, Workplace::Root, 2, true)
}

#[test]
fn eight_callers_in_eight_directories(rt: HostRuntime) -> Result<(), Fail> {
    agrees(&rt, Workplace::Apart, 3, false)?;
    agrees(&rt, Workplace::Apart, 4, true)
}
