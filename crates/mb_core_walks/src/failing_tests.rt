use crate::checks::{all_answered_once, is_legal};
use crate::examples::{
    Example, FAILING_REMOUNT, FLOOR_TAKEN, FOLDED_RUN, LIMIT_PASSED, RACED_CREAT, RESUMED_BY_OTHER,
    STRUCK_TWICE, TWO_CALLERS_WIPED,
};
use crate::walks::{Failing, NOTHING_FAILS, WalkEnd, walk};
use mb_check::OpenFault;
use mb_run::SettleEnd;
use std::alloc::Global;
use std::process::Abort;
use std::test::Fail;

/// More calls of one kind than a walk makes.
const MOST: u64 = 500;

/// So many reads that are not met after the last one are tried.
const LATER: u32 = 8;

/// A walk over a disk that never fails.
fn plain(alloc: Global, example: Example) -> Result<WalkEnd, Fail> {
    match walk(alloc, example.job, NOTHING_FAILS)? {
        Ok(left) => Ok(left),
        Err(_) => Err("the volume is not opened".into()),
    }
}

/// What holds of a walk over a disk of which one call failed, or none: each call was answered once, the history is the
/// model's but for what a fault or the disk ended, and at most one event was answered so.
fn is_allowed<R: Abort + AllocGlobal>(
    rt: &R,
    example: Example,
    left: &WalkEnd,
) -> Result<(), Fail> {
    all_answered_once(rt, example.job, left)?;
    is_legal(rt, left)?;
    assert!(rt; left.notes.failed() <= 1);
    assert!(rt; left.told.ended_by_disk <= left.notes.failed());
    Ok(())
}

/// Both walks came to the same.
fn is_same<R: Abort>(rt: &R, left: &WalkEnd, wanted: &WalkEnd) -> Result<(), Fail> {
    assert!(rt; left.notes.lines() == wanted.notes.lines());
    assert!(rt; left.told.transcript == wanted.told.transcript);
    assert!(rt; left.told.trail == wanted.told.trail);
    assert!(rt; left.told.records == wanted.told.records);
    assert!(rt; left.image == wanted.image);
    Ok(())
}

/// Whether a walk met the failing read that it was allowed to meet.
fn has_met<R: Abort + AllocGlobal>(
    rt: &R,
    example: Example,
    left: &WalkEnd,
    wanted: &WalkEnd,
) -> Result<bool, Fail> {
    is_allowed(rt, example, left)?;
    if left.notes.failed() == 0 {
        is_same(rt, left, wanted)?;
    }
    Ok(left.notes.failed() == 1)
}

/// One walk over a disk that fails at one of its reads: whether it met the failing read. In the opening the volume is
/// refused then; later one event is answered so, and no other.
fn meets_read<R: Abort + AllocGlobal>(
    rt: &R,
    example: Example,
    wanted: &WalkEnd,
    read: u64,
) -> Result<bool, Fail> {
    let reads = [read];
    let failing = Failing {
        reads: &reads,
        ..NOTHING_FAILS
    };
    match walk(rt.alloc(), example.job, failing)? {
        Err(fault) => {
            assert_eq!(rt; fault, OpenFault::Device);
            Ok(true)
        }
        Ok(left) => has_met(rt, example, &left, wanted),
    }
}

fn meets_each_read<R: Abort + AllocGlobal>(
    rt: &R,
    example: Example,
    wanted: &WalkEnd,
) -> Result<(), Fail> {
    let mut unmet = 0u32;
    for read in 1..MOST {
        if meets_read(rt, example, wanted, read)? {
            assert_eq!(rt; unmet, 0, "read {read}");
        } else {
            unmet = unmet.saturating_add(1);
        }
        if unmet == LATER {
            return Ok(());
        }
    }
    Err("the walk does not end its reads".into())
}

/// The disk fails at each of its reads in turn, until there are no more: of two reads the earlier one is met where the later
/// one is, so that no failing read goes unseen.
fn fails_at_each_read<R: Abort + AllocGlobal>(rt: &R, example: Example) -> Result<(), Fail> {
    let wanted = plain(rt.alloc(), example)?;
    meets_each_read(rt, example, &wanted)
}

/// Whether a walk went on from a failing write; one that met none came to the same as one over a disk that never fails.
fn has_gone_on<R: Abort + AllocGlobal>(
    rt: &R,
    example: Example,
    left: &WalkEnd,
    wanted: &WalkEnd,
) -> Result<bool, Fail> {
    is_allowed(rt, example, left)?;
    assert!(rt; left.told.transcript == wanted.told.transcript);
    assert!(rt; left.image == wanted.image);
    if left.notes.failed() == 0 {
        is_same(rt, left, wanted)?;
        return Ok(false);
    }
    assert!(rt; left.settled[0] == SettleEnd::Device);
    assert!(rt; left.told.ended_by_disk == 0);
    Ok(true)
}

/// One walk over a disk that fails at one of its writes: whether it met the failing write.
fn meets_write<R: Abort + AllocGlobal>(
    rt: &R,
    example: Example,
    wanted: &WalkEnd,
    write: u64,
) -> Result<bool, Fail> {
    let writes = [write];
    let failing = Failing {
        writes: &writes,
        ..NOTHING_FAILS
    };
    match walk(rt.alloc(), example.job, failing)? {
        Err(_) => Err("the volume is not opened".into()),
        Ok(left) => has_gone_on(rt, example, &left, wanted),
    }
}

fn meets_each_write<R: Abort + AllocGlobal>(
    rt: &R,
    example: Example,
    wanted: &WalkEnd,
) -> Result<(), Fail> {
    for write in 1..MOST {
        let is_met = meets_write(rt, example, wanted, write)?;
        if !is_met {
            return Ok(());
        }
    }
    Err("the walk does not end its writes".into())
}

/// The disk fails at each of its writes in turn: they all come at the end, which goes on from there.
fn fails_at_each_write<R: Abort + AllocGlobal>(rt: &R, example: Example) -> Result<(), Fail> {
    let wanted = plain(rt.alloc(), example)?;
    meets_each_write(rt, example, &wanted)
}

/// One walk over a disk that does not tell its size once: whether it was asked for it then, and the volume was refused.
fn meets_size<R: Abort + AllocGlobal>(
    rt: &R,
    example: Example,
    wanted: &WalkEnd,
    size: u64,
) -> Result<bool, Fail> {
    let sizes = [size];
    let failing = Failing {
        sizes: &sizes,
        ..NOTHING_FAILS
    };
    match walk(rt.alloc(), example.job, failing)? {
        Err(fault) => {
            assert_eq!(rt; fault, OpenFault::Device);
            Ok(true)
        }
        Ok(left) => {
            is_same(rt, &left, wanted)?;
            Ok(false)
        }
    }
}

fn meets_each_size<R: Abort + AllocGlobal>(
    rt: &R,
    example: Example,
    wanted: &WalkEnd,
) -> Result<(), Fail> {
    for size in 1..MOST {
        let is_met = meets_size(rt, example, wanted, size)?;
        if !is_met {
            return Ok(());
        }
    }
    Err("the opening does not end".into())
}

/// The disk does not tell its size.
fn fails_to_tell_its_size<R: Abort + AllocGlobal>(rt: &R, example: Example) -> Result<(), Fail> {
    let wanted = plain(rt.alloc(), example)?;
    meets_each_size(rt, example, &wanted)
}

fn fails_at_each_call<R: Abort + AllocGlobal>(rt: &R, example: Example) -> Result<(), Fail> {
    fails_to_tell_its_size(rt, example)?;
    fails_at_each_read(rt, example)?;
    fails_at_each_write(rt, example)
}

#[test]
fn raced_creat(rt: HostRuntime) -> Result<(), Fail> {
    fails_at_each_call(&rt, RACED_CREAT)
}

#[test]
fn floor_taken(rt: HostRuntime) -> Result<(), Fail> {
    fails_at_each_call(&rt, FLOOR_TAKEN)
}

#[test]
fn two_callers_wiped(rt: HostRuntime) -> Result<(), Fail> {
    fails_at_each_call(&rt, TWO_CALLERS_WIPED)
}

#[test]
fn struck_twice(rt: HostRuntime) -> Result<(), Fail> {
    fails_at_each_call(&rt, STRUCK_TWICE)
}

#[test]
fn limit_passed(rt: HostRuntime) -> Result<(), Fail> {
    fails_at_each_call(&rt, LIMIT_PASSED)
}

#[test]
fn folded_run(rt: HostRuntime) -> Result<(), Fail> {
    fails_at_each_call(&rt, FOLDED_RUN)
}

#[test]
fn failing_remount(rt: HostRuntime) -> Result<(), Fail> {
    fails_at_each_call(&rt, FAILING_REMOUNT)
}

#[test]
fn resumed_by_other(rt: HostRuntime) -> Result<(), Fail> {
    fails_at_each_call(&rt, RESUMED_BY_OTHER)
}
