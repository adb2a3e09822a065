use crate::example_files::{WIPED_JOB, WIPED_TEXT};
use crate::example_tests::HI_JOB;
use crate::trials::{
    End, NOTHING_FAILS, checked, ends_with, expect, expect_fresh, fresh, image_after, is_fresh,
    keeps, leaves, prints, prints_without_its_first_read, replays, replays_and_leaves,
    replays_nothing, run,
};
use crate::volumes::{HELLO_CTIME_LOW, HELLO_MODE, hello_volume, is_changed_volume};
use mb_core_spec::Step;
use mb_kinds::{FaultRecord, Kind};
use std::alloc::{AllocError, Global};
use std::process::Abort;
use std::test::Fail;

// The job of the example with a line more.
fn hi_job(alloc: Global, line: &str) -> Result<String, AllocError> {
    format!(in alloc; "{HI_JOB}\n{line}\n")
}

const HI_STRUCK: &str = "\
1 a creat /f 644 = 3
2 a text 3 hi = 2
3 a close 3 = 0
4 a exit = 0
end 4 faults 1 seal 4
";

fn is_changed_once<R: Abort + AllocGlobal>(rt: &R, image: &[u8]) -> Result<(), Fail> {
    assert_eq!(rt; image.len(), 51200);
    assert!(rt; image[1152..].starts_with(b"\xa0\x81"));
    assert!(rt; image[1212..].starts_with(b"\0\0\x03\0"));
    assert!(rt;
        is_changed_volume(rt.alloc(), image, 0o640, 3)?,
        "nothing else changed"
    );
    Ok(())
}

#[test]
fn chmod_wiped(rt: HostRuntime) -> Result<(), Fail> {
    let end = expect(&rt, hello_volume(rt.alloc())?, WIPED_JOB, 0, WIPED_TEXT)?;
    is_changed_once(&rt, &end.image)
}

#[test]
fn wiped_at_gather(rt: HostRuntime) -> Result<(), Fail> {
    let job = hi_job(rt.alloc(), "faults = ['2 gather 0 1 wipe 255']")?;
    let end = expect_fresh(&rt, job.as_str(), 0, HI_STRUCK)?;
    replays_and_leaves(&rt, &end, &[1], "sound nodes 2 held 2 free 94\n")
}

fn has_the_name_once<R: Abort + AllocGlobal>(rt: &R, image: &[u8]) -> Result<(), Fail> {
    assert_eq!(rt; image.len(), 51200);
    assert!(rt;
        image[2080..].starts_with(b"\x03\0f\0\0"),
        "the third slot of the root"
    );
    assert!(rt;
        image[2096..].starts_with(&[0; 464]),
        "the name stands once"
    );
    checked(rt, image, 0, "sound nodes 2 held 2 free 94\n")
}

#[test]
fn wiped_at_leave(rt: HostRuntime) -> Result<(), Fail> {
    let job = hi_job(rt.alloc(), "faults = ['1 leave 0 1 wipe 0']")?;
    let image = image_after(&rt, job.as_str(), 0, HI_STRUCK)?;
    has_the_name_once(&rt, &image)
}

#[test]
fn reused_inode(rt: HostRuntime) -> Result<(), Fail> {
    let job = "\
calls = ['a creat /x 644', 'a creat /y 644', 'a close 3', 'a unlink /x', 'a creat /z 600', 'a stat /y', 'a stat /z']
faults = ['6 enter 0 1 wipe 170']
";
    let lines = "\
1 a creat /x 644 = 3
2 a creat /y 644 = 4
3 a close 3 = 0
4 a unlink /x = 0
5 a creat /z 600 = 3
6 a stat /y = ino 4 mode 100644 nlink 1 uid 0 gid 0 size 0 atime 2 mtime 2 ctime 2
7 a stat /z = ino 3 mode 100600 nlink 1 uid 0 gid 0 size 0 atime 5 mtime 5 ctime 5
8 a exit = 0
end 8 faults 1 seal 8
";
    let end = expect_fresh(&rt, job, 0, lines)?;
    let wanted = [1, 2, 3, 4, 5];
    replays(&rt, &end, &wanted)
}

fn prints_with_fault<R: Abort + AllocGlobal>(
    rt: &R,
    calls: &str,
    fault: &str,
    lines: &str,
) -> Result<(), Fail> {
    let job = format!(in rt.alloc(); "{calls}\nfaults = ['{fault}']\n")?;
    prints(rt, job.as_str(), 0, lines)
}

// The second of two numbers that were freed is picked first.
#[test]
fn relayed_later(rt: HostRuntime) -> Result<(), Fail> {
    let calls =
        "calls = ['a creat /x 644', 'a creat /y 644', 'a close 3', 'a close 4', 'a unlink /x', 'a unlink /y', 'a creat /z 644', 'a stat /z']";
    let lines = "\
1 a creat /x 644 = 3
2 a creat /y 644 = 4
3 a close 3 = 0
4 a close 4 = 0
5 a unlink /x = 0
6 a unlink /y = 0
7 a creat /z 644 = 3
8 a stat /z = ino 4 mode 100644 nlink 1 uid 0 gid 0 size 0 atime 7 mtime 7 ctime 7
9 a exit = 0
end 9 faults 1 seal 9
";
    for fault in ["7 enter 0 1 wipe 0", "8 enter 0 1 wipe 0"] {
        prints_with_fault(&rt, calls, fault, lines)?;
    }
    Ok(())
}

// A mode that was set twice is set once, and writes that meet are one: a Create, a SetMode and two Puts are done again.
#[test]
fn folded_run(rt: HostRuntime) -> Result<(), Fail> {
    let job = "\
threshold = 4096
calls = ['a creat /f 644', 'a chmod /f 600', 'a chmod /f 640', 'a text 3 ab', 'a text 3 cd', 'a lseek 3 0 0',
    'a text 3 e', 'a stat /f']
faults = ['8 enter 0 1 wipe 4']
";
    let lines = "\
1 a creat /f 644 = 3
2 a chmod /f 600 = 0
3 a chmod /f 640 = 0
4 a text 3 ab = 2
5 a text 3 cd = 2
6 a lseek 3 0 0 = 0
7 a text 3 e = 1
8 a stat /f = ino 3 mode 100640 nlink 1 uid 0 gid 0 size 4 atime 1 mtime 7 ctime 7
9 a exit = 0
end 9 faults 1 seal 9
";
    let end = expect_fresh(&rt, job, 0, lines)?;
    let wanted = [1, 2, 3, 4];
    replays_and_leaves(&rt, &end, &wanted, "sound nodes 2 held 2 free 94\n")
}

// Each recovery folds what the one before left, with the operations that came since; one that a fault cut off does too.
#[test]
fn a_folded_log_is_folded_again(rt: HostRuntime) -> Result<(), Fail> {
    let job = "\
calls = ['a creat /f 644', 'a text 3 ab', 'a text 3 cd', 'a text 3 ef', 'a stat /f']
faults = ['4 enter 0 1 wipe 4', '5 enter 0 1 wipe 4', '5 replay 1 1 wipe 4']
";
    let lines = "\
1 a creat /f 644 = 3
2 a text 3 ab = 2
3 a text 3 cd = 2
4 a text 3 ef = 2
5 a stat /f = ino 3 mode 100644 nlink 1 uid 0 gid 0 size 6 atime 1 mtime 4 ctime 4
6 a exit = 0
end 6 faults 3 seal 6
";
    let end = expect_fresh(&rt, job, 0, lines)?;
    let wanted = [1, 2, 1, 1, 2];
    replays_and_leaves(&rt, &end, &wanted, "sound nodes 2 held 2 free 94\n")
}

#[test]
fn unlinked_open(rt: HostRuntime) -> Result<(), Fail> {
    let job = "\
calls = ['a creat /f 644', 'a open /f r', 'a unlink /f', 'a text 3 lost', 'a read 4 8', 'a close 3', 'a close 4',
    'a creat /g 644', 'a fstat 3']
faults = ['5 enter 0 1 wipe 255 count 3 0']
";
    let lines = "\
1 a creat /f 644 = 3
2 a open /f r = 4
3 a unlink /f = 0
4 a text 3 lost = 4
5 a read 4 8 = 4 6c6f7374
6 a close 3 = 0
7 a close 4 = 0
8 a creat /g 644 = 3
9 a fstat 3 = ino 3 mode 100644 nlink 1 uid 0 gid 0 size 0 atime 8 mtime 8 ctime 8
10 a exit = 0
end 10 faults 1 seal 10
";
    prints(&rt, job, 0, lines)
}

#[test]
fn struck_twice(rt: HostRuntime) -> Result<(), Fail> {
    let job = "\
calls = ['a creat /f 644', 'a text 3 hi', 'a text 3 yo', 'a open /f r', 'a read 4 9']
faults = ['2 gather 0 2 wipe 9']
";
    let lines = "\
1 a creat /f 644 = 3
2 a text 3 hi = EIO restart 1 2
3 a text 3 yo = 2
4 a open /f r = 4
5 a read 4 9 = 2 796f
6 a exit = 0
end 6 faults 2 seal 6
";
    prints(&rt, job, 0, lines)
}

fn fails_as_it_was<R: Abort + AllocGlobal>(rt: &R, end: &End) -> Result<(), Fail> {
    replays(rt, end, &[1])?;
    assert!(rt; is_fresh(rt.alloc(), &end.image)?);
    Ok(())
}

#[test]
fn limit_passed(rt: HostRuntime) -> Result<(), Fail> {
    let job = "\
calls = ['a creat /f 644', 'a text 3 hi', 'a close 3', 'a open /f r', 'a stat /f']
limit = 1
faults = ['4 gather 0 1', '4 replay 1 1']
";
    let lines = "\
1 a creat /f 644 = 3
2 a text 3 hi = 2
3 a close 3 = 0
4 a open /f r = FAILED 2
5 a stat /f = FAILED 2
6 a exit = FAILED 2
failed 6 faults 2 seal 0
";
    let end = expect_fresh(&rt, job, 4, lines)?;
    fails_as_it_was(&rt, &end)
}

// That an image is the one that is left by a run which ends at its sync(2).
fn ends_at_its_sync<R: Abort + AllocGlobal>(rt: &R, image: &[u8]) -> Result<(), Fail> {
    let job = "calls = ['a creat /f 644', 'a text 3 hi', 'a sync']";
    let lines = "\
1 a creat /f 644 = 3
2 a text 3 hi = 2
3 a sync = 0
4 a exit = 0
end 4 faults 0 seal 4
";
    let left = image_after(rt, job, 0, lines)?;
    assert!(rt; left.as_slice() == image);
    Ok(())
}

// What was there at a sync(2) that was answered is in the image, though the volume fails later: as after a run that ends there.
#[test]
fn a_sync_outlives_the_volume(rt: HostRuntime) -> Result<(), Fail> {
    let job = "\
calls = ['a creat /f 644', 'a text 3 hi', 'a sync', 'a text 3 ho', 'a stat /f']
limit = 0
faults = ['5 enter 0 1']
";
    let lines = "\
1 a creat /f 644 = 3
2 a text 3 hi = 2
3 a sync = 0
4 a text 3 ho = 2
5 a stat /f = FAILED 1
6 a exit = FAILED 1
failed 6 faults 1 seal 3
";
    let image = image_after(&rt, job, 4, lines)?;
    ends_at_its_sync(&rt, &image)
}

/// A job whose volume fails after its first call, of which a checkpoint was taken.
pub const FAILED_JOB: &str = "\
calls = ['a creat /f 644', 'a text 3 hi']
threshold = 1
limit = 0
faults = ['2 enter 0 1 wipe 9']
";

#[test]
fn a_volume_that_failed_is_left_as_it_was_at_its_checkpoint(rt: HostRuntime) -> Result<(), Fail> {
    let lines = "\
1 a creat /f 644 = 3
2 a text 3 hi = FAILED 1
3 a exit = FAILED 1
failed 3 faults 1 seal 1
";
    leaves(&rt, FAILED_JOB, 4, lines, "sound nodes 2 held 1 free 95\n")
}

// The first fault at one kind of fault point of the second call of the one caller.
fn first_of_second(kind: Kind) -> FaultRecord {
    FaultRecord {
        caller: 0,
        ordinal: 2,
        kind,
        nth: 1,
    }
}

fn recovery_is_struck<R: Abort + AllocGlobal>(rt: &R, end: &End) -> Result<(), Fail> {
    let wanted = [
        first_of_second(Kind::Gather),
        first_of_second(Kind::Remount),
        first_of_second(Kind::Replay),
    ];
    assert_eq!(rt; end.records.as_slice(), wanted.as_slice());
    replays_and_leaves(rt, end, &[1], "sound nodes 2 held 2 free 94\n")
}

// The faults of a recovery are not the call's own.
#[test]
fn faults_strike_a_recovery_too(rt: HostRuntime) -> Result<(), Fail> {
    let job = hi_job(
        rt.alloc(),
        "faults = ['2 gather 0 1 wipe 255', '2 remount 0 1 wipe 0', '2 replay 0 1 count 3 0 wipe 170']",
    )?;
    let lines = "\
1 a creat /f 644 = 3
2 a text 3 hi = 2
3 a close 3 = 0
4 a exit = 0
end 4 faults 3 seal 4
";
    let end = expect_fresh(&rt, job.as_str(), 0, lines)?;
    recovery_is_struck(&rt, &end)
}

fn is_sealed<R: Abort>(rt: &R, trail: &[Step]) -> Result<(), Fail> {
    assert!(rt; replays_nothing(trail));
    assert!(rt; trail.contains(&Step::Sealed(1)));
    Ok(())
}

#[test]
fn sealed_before_fault(rt: HostRuntime) -> Result<(), Fail> {
    let job = "\
threshold = 1
calls = ['a creat /f 644', 'a sync', 'a text 3 hi']
faults = ['3 enter 0 1 wipe 1']
";
    let lines = "\
1 a creat /f 644 = 3
2 a sync = 0
3 a text 3 hi = 2
4 a exit = 0
end 4 faults 1 seal 4
";
    let end = expect_fresh(&rt, job, 0, lines)?;
    is_sealed(&rt, &end.trail)
}

fn push_long_job(job: &mut String) -> Result<(), AllocError> {
    job.push_str(
        "threshold = 4096\nfaults = ['4003 enter 0 1 wipe 1']\ncalls = ['a creat /f 644', 'a sync'",
    )?;
    for _ in 0..4000 {
        job.push_str(", 'a text 3 x'")?;
    }
    job.push_str(", 'a close 3']\n")
}

fn long_job(alloc: Global) -> Result<String, AllocError> {
    let mut job = String::new(alloc);
    push_long_job(&mut job)?;
    Ok(job)
}

fn push_write(lines: &mut String, alloc: Global, moment: u32) -> Result<(), AllocError> {
    let line = format!(in alloc; "{moment} a text 3 x = 1\n")?;
    lines.push_str(line.as_str())
}

fn push_long_text(lines: &mut String, alloc: Global) -> Result<(), AllocError> {
    lines.push_str("1 a creat /f 644 = 3\n2 a sync = 0\n")?;
    for moment in 3..4003 {
        push_write(lines, alloc, moment)?;
    }
    lines.push_str("4003 a close 3 = 0\n4004 a exit = 0\nend 4004 faults 1 seal 4004\n")
}

fn long_text(alloc: Global) -> Result<String, AllocError> {
    let mut lines = String::new(alloc);
    push_long_text(&mut lines, alloc)?;
    Ok(lines)
}

fn long_run<R: Abort + AllocGlobal>(rt: &R) -> Result<End, Fail> {
    let job = long_job(rt.alloc())?;
    let lines = long_text(rt.alloc())?;
    expect_fresh(rt, job.as_str(), 0, lines.as_str())
}

// The 4,000 writes since the checkpoint are one that is done again.
#[test]
fn long_log(rt: HostRuntime) -> Result<(), Fail> {
    let end = long_run(&rt)?;
    replays_and_leaves(&rt, &end, &[1], "sound nodes 2 held 9 free 87\n")
}

#[test]
fn failing_remount(rt: HostRuntime) -> Result<(), Fail> {
    let job = "calls = ['a stat /', 'a stat /']\nfaults = ['1 enter 0 1']";
    let lines = "\
1 a stat / = EIO device
2 a stat / = ino 2 mode 040777 nlink 2 uid 0 gid 0 size 32 atime 0 mtime 0 ctime 0
3 a exit = 0
end 3 faults 1 seal 3
";
    prints_without_its_first_read(&rt, job, lines)
}

#[test]
fn resumed_by_other(rt: HostRuntime) -> Result<(), Fail> {
    let job =
        "callers = ['a 0 0', 'b 0 0']\ncalls = ['a stat /', 'b stat /']\nfaults = ['1 enter 0 1']";
    let lines = "\
1 a stat / = EIO device
2 b stat / = ino 2 mode 040777 nlink 2 uid 0 gid 0 size 32 atime 0 mtime 0 ctime 0
3 a exit = 0
4 b exit = 0
end 4 faults 1 seal 4
";
    prints_without_its_first_read(&rt, job, lines)
}

#[test]
fn two_rules_at_one_fault_point_are_one_fault(rt: HostRuntime) -> Result<(), Fail> {
    let job =
        "calls = ['a open /hello r']\nfaults = ['1 finish 0 1 wipe 7', '1 finish 0 1 wipe 8']";
    let lines = "1 a open /hello r = 3\n2 a exit = 0\nend 2 faults 1 seal 2\n";
    let volume = hello_volume(rt.alloc())?;
    keeps(&rt, &["run", "v"], &volume, job, NOTHING_FAILS, 0, lines)
}

// That a job ends so, and leaves a fresh volume as it is.
fn keeps_a_fresh_one<R: Abort + AllocGlobal>(rt: &R, job: &str, lines: &str) -> Result<(), Fail> {
    let image = fresh(rt.alloc())?;
    keeps(rt, &["run", "v"], &image, job, NOTHING_FAILS, 0, lines)
}

fn is_answered<R: Abort + AllocGlobal>(
    rt: &R,
    fault: &str,
    reply: &str,
    faults: u8,
) -> Result<(), Fail> {
    let job = format!(in rt.alloc(); "calls = ['a open / r']\nfaults = ['{fault}']")?;
    let lines = format!(in rt.alloc();
        "1 a open / r = {reply}\n2 a exit = 0\nend 2 faults {faults} seal 2\n"
    )?;
    keeps_a_fresh_one(rt, job.as_str(), lines.as_str())
}

// Where faults may strike one call at every fault point, and what it is answered then.
#[test]
fn each_fault_point_is_one_of_a_call(rt: HostRuntime) -> Result<(), Fail> {
    for (fault, reply, faults) in [
        ("1 enter 0 1", "3", 1),
        ("1 gather 0 1", "3", 1),
        ("1 finish 0 1", "3", 1),
        ("1 leave 0 1", "3", 1),
        ("1 enter 1 1", "3", 0),
        ("1 leave 1 1", "3", 0),
        ("1 remount 0 1", "3", 0),
        ("1 replay 0 1", "3", 0),
        ("1 enter 0 2", "EIO restart 1 2", 2),
        ("1 gather 0 2", "EIO restart 1 2", 2),
        ("1 finish 0 2", "EIO restart 1 2", 2),
        ("1 leave 0 2", "3", 1),
        ("1 finish 0 1 wipe 0 page 0 7 count 2 9", "3", 1),
    ] {
        is_answered(&rt, fault, reply, faults)?;
    }
    Ok(())
}

fn push_fault(job: &mut String, alloc: Global, call: u32) -> Result<(), AllocError> {
    let text = format!(in alloc; "'{call} finish 0 1 wipe 255', ")?;
    job.push_str(text.as_str())
}

fn push_many_faults(job: &mut String, alloc: Global) -> Result<(), AllocError> {
    job.push_str("calls = [")?;
    for _ in 0..255 {
        job.push_str("'a chmod /hello 600', ")?;
    }
    job.push_str("]\nfaults = [")?;
    for call in 1..256u32 {
        push_fault(job, alloc, call)?;
    }
    job.push_str("]")
}

// 255 calls of chmod, each with a fault that wipes the pages.
fn many_faults(alloc: Global) -> Result<String, AllocError> {
    let mut job = String::new(alloc);
    push_many_faults(&mut job, alloc)?;
    Ok(job)
}

fn run_with_many_faults(alloc: Global) -> Result<End, Fail> {
    let job = many_faults(alloc)?;
    run(
        alloc,
        &["run", "v"],
        hello_volume(alloc)?,
        job.as_str(),
        NOTHING_FAILS,
    )
}

fn has_the_last_change<R: Abort>(rt: &R, image: &[u8]) -> Result<(), Fail> {
    assert_eq!(rt; image.len(), 51200);
    assert_eq!(rt; image[HELLO_MODE], 0x80);
    assert_eq!(rt; image[HELLO_CTIME_LOW], 255, "the moment of the last call");
    Ok(())
}

fn has_recovered_from_all<R: Abort>(rt: &R, end: &End) -> Result<(), Fail> {
    ends_with(rt, end, 0, b"256 a exit = 0\nend 256 faults 255 seal 256\n")?;
    has_the_last_change(rt, &end.image)
}

#[test]
fn as_many_faults_as_there_may_be_are_recovered_from(rt: HostRuntime) -> Result<(), Fail> {
    let end = run_with_many_faults(rt.alloc())?;
    has_recovered_from_all(&rt, &end)
}
