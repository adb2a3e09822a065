use crate::trials::{End, FailingCalls, NOTHING_FAILS, checked, fresh, printed, run, tells};
use crate::volumes::{hello_volume, put};
use std::alloc::{AllocError, Global};
use std::process::Abort;
use std::test::Fail;

// The job of the number 1, of 20 calls and 6 faults, by the generator's table with a PCG32 written apart from the program.
const SOAK_JOB: &str = r#"
callers = ["a 0 0", "b 0 0"]
calls = [
    "b close 6", "b stat /g9", "a read 5 171", "b read 4 273", "a creat /g12 644", "b stat /g4",
    "b fill 4 400 197", "a read 4 49", "a stat /g5", "b unlink /g6", "b close 3", "b stat /g4",
    "a creat /g12 644", "b stat /g1", "b stat /g3", "a read 3 164", "b fill 6 83 18",
    "b open /g0 rw", "a unlink /g9", "a lseek 5 2477 0",
]
faults = [
    "19 gather 0 1 wipe 54", "2 finish 0 1 wipe 200", "20 leave 0 1 wipe 210",
    "18 enter 0 1 wipe 77", "20 leave 0 1 wipe 245", "15 leave 0 1 wipe 225",
]
"#;

// By hand: all but the two `creat` are refused; five calls are struck, one of them where two rules meet, none twice.
const SOAK_LINE: &str = "soak entries 22 faults 5 refused 18 restarts 0 seal 22\n";

fn ended_well<R: Abort>(rt: &R, end: &End, image: &[u8]) -> Result<(), Fail> {
    assert_eq!(rt; end.status, 0);
    assert!(rt; end.image.as_slice() == image);
    Ok(())
}

// That the job of the number leaves that image.
fn listed_job_leaves<R: Abort + AllocGlobal>(rt: &R, image: &[u8]) -> Result<(), Fail> {
    let alloc = rt.alloc();
    let listed = run(alloc, &["run", "v"], fresh(alloc)?, SOAK_JOB, NOTHING_FAILS)?;
    ended_well(rt, &listed, image)
}

fn is_the_run_of_its_job<R: Abort + AllocGlobal>(rt: &R, end: &End) -> Result<(), Fail> {
    printed(rt, end, 0, SOAK_LINE)?;
    listed_job_leaves(rt, &end.image)?;
    checked(rt, &end.image, 0, "sound nodes 2 held 1 free 95\n")
}

#[test]
fn a_soak_is_the_run_of_its_job(rt: HostRuntime) -> Result<(), Fail> {
    let alloc = rt.alloc();
    let words = ["soak", "v", "1", "20", "6"];
    let end = run(alloc, &words, fresh(alloc)?, "", NOTHING_FAILS)?;
    is_the_run_of_its_job(&rt, &end)
}

fn long_soak(alloc: Global) -> Result<End, Fail> {
    let words = ["soak", "v", "1", "1000", "20"];
    run(alloc, &words, fresh(alloc)?, "", NOTHING_FAILS)
}

fn are_alike<R: Abort>(rt: &R, one: &End, other: &End) -> Result<(), Fail> {
    assert_eq!(rt; one.status, 0);
    assert!(rt; one.printed.starts_with(b"soak entries 1002 faults "));
    assert!(rt; one.printed == other.printed);
    assert!(rt; one.image == other.image);
    Ok(())
}

fn is_like_another<R: Abort + AllocGlobal>(rt: &R, one: &End) -> Result<(), Fail> {
    let other = long_soak(rt.alloc())?;
    are_alike(rt, one, &other)
}

#[test]
fn two_soaks_of_a_number_are_alike(rt: HostRuntime) -> Result<(), Fail> {
    let one = long_soak(rt.alloc())?;
    is_like_another(&rt, &one)
}

// The volume of the example with another size of its list of inodes.
fn broken_volume(alloc: Global) -> Result<Vec<u8>, AllocError> {
    let mut broken = hello_volume(alloc)?;
    put(&mut broken, 512, b"\xff\xff");
    Ok(broken)
}

fn refuses<R: Abort>(rt: &R, end: &End, told: &End, broken: &[u8]) -> Result<(), Fail> {
    assert_eq!(rt; end.status, 3);
    assert!(rt; end.printed == told.printed);
    assert!(rt; end.image.as_slice() == broken);
    Ok(())
}

fn is_refused_as_told<R: Abort + AllocGlobal>(
    rt: &R,
    broken: &[u8],
    told: &End,
) -> Result<(), Fail> {
    let alloc = rt.alloc();
    let words = ["soak", "v", "1", "1", "0"];
    let end = run(
        alloc,
        &words,
        broken.to_vec(alloc)?,
        "calls = [",
        NOTHING_FAILS,
    )?;
    refuses(rt, &end, told, broken)
}

fn is_refused_as_checked<R: Abort + AllocGlobal>(rt: &R, broken: &[u8]) -> Result<(), Fail> {
    let alloc = rt.alloc();
    let told = run(
        alloc,
        &["check", "v"],
        broken.to_vec(alloc)?,
        "",
        NOTHING_FAILS,
    )?;
    is_refused_as_told(rt, broken, &told)
}

// A soak reads no job, and refuses an image as `check` does.
#[test]
fn a_soak_over_what_is_no_volume(rt: HostRuntime) -> Result<(), Fail> {
    let broken = broken_volume(rt.alloc())?;
    is_refused_as_checked(&rt, &broken)
}

#[test]
fn a_soak_over_a_disk_that_fails(rt: HostRuntime) -> Result<(), Fail> {
    let words = ["soak", "v", "1", "1", "0"];
    let failing = FailingCalls {
        reads: &[1],
        ..NOTHING_FAILS
    };
    tells(
        &rt,
        &words,
        fresh(rt.alloc())?,
        "",
        failing,
        5,
        "disk fault\n",
    )
}
