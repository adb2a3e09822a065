//! Checks of what a walk left.
use crate::walks::{WalkEnd, job};
use mb_core_spec::Step;
use mb_jobs::Job;
use mb_run::{DriveEnd, SettleEnd};
use std::process::Abort;
use std::test::Fail;

/// How many calls of a job are a caller's.
fn calls_of(job: &Job, caller: u8) -> u32 {
    let mut count = 0u32;
    for made in job.calls.as_slice() {
        if made.caller == caller {
            count = count.saturating_add(1);
        }
    }
    count
}

/// Whether so many calls of a caller were answered.
fn are_answered(left: &WalkEnd, caller: u8, calls: u32) -> bool {
    let answered = left.notes.answered();
    answered.get(usize::from(caller)).copied() == Some(calls)
}

/// Whether a caller has so many entries, in its order.
fn are_in_order(entries: &[(u8, u32)], caller: u8, calls: u32) -> bool {
    let mut last = 0u32;
    for (by, ordinal) in entries {
        if *by == caller {
            last = last.saturating_add(1);
            if *ordinal != last {
                return false;
            }
        }
    }
    last == calls
}

fn each_answered_once<R: Abort>(rt: &R, job: &Job, left: &WalkEnd) {
    assert!(rt; left.end != DriveEnd::NoMemory);
    assert!(rt; left.told.entries.len() == job.calls.len());
    for caller in 0u8..8 {
        let calls = calls_of(job, caller);
        assert!(rt; are_answered(left, caller, calls));
        assert!(rt; are_in_order(left.told.entries.as_slice(), caller, calls));
    }
}

/// Each call of a job's text was answered once, and has its one entry, in its caller's order.
pub fn all_answered_once<R: Abort + AllocGlobal>(
    rt: &R,
    text: &str,
    left: &WalkEnd,
) -> Result<(), Fail> {
    let job = job(rt.alloc(), text)?;
    each_answered_once(rt, &job, left);
    Ok(())
}

/// The history is the reference model's, but for the calls that a fault or the disk ended, and the image is a volume.
pub fn is_legal<R: Abort>(rt: &R, left: &WalkEnd) -> Result<(), Fail> {
    let apart = &left.told.apart;
    assert!(rt; apart.is_none(), "{apart:?}");
    assert!(rt; left.settled[1] == SettleEnd::Clean);
    assert!(rt; left.sound);
    Ok(())
}

/// How often a trace says that a copy was stale.
pub fn stale(trail: &[Step]) -> usize {
    let mut count = 0usize;
    for step in trail {
        if matches!(step, Step::Stale(_, _)) {
            count = count.saturating_add(1);
        }
    }
    count
}

/// How often a trace says that a call was unwound.
pub fn unwound(trail: &[Step]) -> usize {
    let mut count = 0usize;
    for step in trail {
        if matches!(step, Step::Unwound(_)) {
            count = count.saturating_add(1);
        }
    }
    count
}

/// How often a trace says that an operation was done again.
pub fn replayed(trail: &[Step]) -> usize {
    let mut count = 0usize;
    for step in trail {
        if matches!(step, Step::Replayed(_)) {
            count = count.saturating_add(1);
        }
    }
    count
}
