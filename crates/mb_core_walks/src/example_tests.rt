use crate::checks::{all_answered_once, is_legal, replayed, stale, unwound};
use crate::examples::{
    Example, FAILING_REMOUNT, FLOOR_TAKEN, FOLDED_RUN, LIMIT_PASSED, RACED_CREAT, RESUMED_BY_OTHER,
    STRUCK_TWICE, TWO_CALLERS_WIPED,
};
use crate::walks::{Failing, NOTHING_FAILS, WalkEnd, walk};
use std::alloc::Global;
use std::process::Abort;
use std::test::Fail;

/// The end of a walk: no recovery is in progress, a checkpoint is taken, and each page is written; and all of it once more.
const END: &str = "- idle\nseal\nclean\n- idle\nseal\nclean\n";

/// The same of a volume that was given up.
const GIVEN_UP: &str = "- idle\nclean\n- idle\nclean\n";

/// The events were answered as the example says, with that end.
fn is_answered<R: Abort + AllocGlobal>(
    rt: &R,
    example: Example,
    left: &WalkEnd,
    end: &str,
) -> Result<(), Fail> {
    let events = format!(in rt.alloc(); "{}{end}", example.events)?;
    assert_eq!(rt; left.notes.lines(), Some(events.as_str()));
    Ok(())
}

/// The faults and the steps are as many as the example says.
fn counts_so<R: Abort>(rt: &R, example: Example, left: &WalkEnd) {
    assert!(rt; left.told.records.len() == example.faults);
    assert!(rt; stale(&left.told.trail) == example.stale);
    assert!(rt; unwound(&left.told.trail) == example.unwound);
    assert!(rt; replayed(&left.told.trail) == example.replayed);
}

/// What a walk left is what the example says, with that end.
fn went<R: Abort + AllocGlobal>(
    rt: &R,
    example: Example,
    left: &WalkEnd,
    end: &str,
) -> Result<(), Fail> {
    is_answered(rt, example, left, end)?;
    assert_eq!(rt;
        str::from_utf8(left.told.transcript.as_slice())?,
        example.lines
    );
    counts_so(rt, example, left);
    all_answered_once(rt, example.job, left)?;
    is_legal(rt, left)
}

/// The walk goes as the example says, with that end.
fn goes<R: Abort + AllocGlobal>(
    rt: &R,
    example: Example,
    failing: Failing,
    end: &str,
) -> Result<(), Fail> {
    let Ok(left) = walk(rt.alloc(), example.job, failing)? else {
        return Err("the volume is not opened".into());
    };
    went(rt, example, &left, end)
}

/// Whether a volume is opened on a disk that fails at one of its reads.
fn is_opened(alloc: Global, read: u64) -> Result<bool, Fail> {
    let reads = [read];
    let failing = Failing {
        reads: &reads,
        ..NOTHING_FAILS
    };
    let left = walk(alloc, "calls = []", failing)?;
    Ok(left.is_ok())
}

/// The number of the disk's first read after the opening.
fn first_read(alloc: Global) -> Result<u64, Fail> {
    for read in 1..500 {
        if is_opened(alloc, read)? {
            return Ok(read);
        }
    }
    Err("the opening does not end".into())
}

/// The same over a disk whose first read after the opening fails.
fn goes_on_a_failing_disk<R: Abort + AllocGlobal>(rt: &R, example: Example) -> Result<(), Fail> {
    let reads = [first_read(rt.alloc())?];
    let failing = Failing {
        reads: &reads,
        ..NOTHING_FAILS
    };
    goes(rt, example, failing, END)
}

#[test]
fn raced_creat(rt: HostRuntime) -> Result<(), Fail> {
    goes(&rt, RACED_CREAT, NOTHING_FAILS, END)
}

#[test]
fn floor_taken(rt: HostRuntime) -> Result<(), Fail> {
    goes(&rt, FLOOR_TAKEN, NOTHING_FAILS, END)
}

#[test]
fn two_callers_wiped(rt: HostRuntime) -> Result<(), Fail> {
    goes(&rt, TWO_CALLERS_WIPED, NOTHING_FAILS, END)
}

#[test]
fn struck_twice(rt: HostRuntime) -> Result<(), Fail> {
    goes(&rt, STRUCK_TWICE, NOTHING_FAILS, END)
}

#[test]
fn limit_passed(rt: HostRuntime) -> Result<(), Fail> {
    goes(&rt, LIMIT_PASSED, NOTHING_FAILS, GIVEN_UP)
}

#[test]
fn folded_run(rt: HostRuntime) -> Result<(), Fail> {
    goes(&rt, FOLDED_RUN, NOTHING_FAILS, END)
}

#[test]
fn failing_remount(rt: HostRuntime) -> Result<(), Fail> {
    goes_on_a_failing_disk(&rt, FAILING_REMOUNT)
}

#[test]
fn resumed_by_other(rt: HostRuntime) -> Result<(), Fail> {
    goes_on_a_failing_disk(&rt, RESUMED_BY_OTHER)
}
