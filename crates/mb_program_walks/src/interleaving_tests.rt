use crate::example_files::{TWO_CALLERS_JOB, TWO_CALLERS_SOUND, TWO_CALLERS_TEXT};
use crate::trials::{
    End, NOTHING_FAILS, checked, ends_with, expect_fresh, fresh, is_stale, leaves, prints,
    replays_and_leaves, run, stales_and_leaves, unwinds,
};
use mb_core_spec::Step;
use mb_kinds::{FaultRecord, Kind};
use std::alloc::{AllocError, Global};
use std::process::Abort;
use std::test::Fail;

// That the fault struck the first of the two, and that both were unwound.
fn both_are_unwound<R: Abort + AllocGlobal>(rt: &R, end: &End) -> Result<(), Fail> {
    let record = FaultRecord {
        caller: 0,
        ordinal: 1,
        kind: Kind::Gather,
        nth: 1,
    };
    assert_eq!(rt; end.records.as_slice(), [record].as_slice());
    unwinds(rt, end, &[0, 1])?;
    checked(rt, &end.image, 0, "sound nodes 3 held 1 free 95\n")
}

#[test]
fn two_callers_wiped(rt: HostRuntime) -> Result<(), Fail> {
    let job = "\
callers = ['a 0 0', 'b 0 0']
calls = ['a creat /x 644', 'b creat /y 644']
faults = ['1 gather 0 1 wipe 7']
order = 'bbaa'
";
    let lines = "\
1 a creat /x 644 = 3
2 b creat /y 644 = 3
3 a exit = 0
4 b exit = 0
end 4 faults 1 seal 4
";
    let end = expect_fresh(&rt, job, 0, lines)?;
    both_are_unwound(&rt, &end)
}

#[test]
fn raced_creat(rt: HostRuntime) -> Result<(), Fail> {
    let job = "\
callers = ['a 0 0', 'b 0 0']
calls = ['a creat /f 644', 'b creat /f 644']
order = 'AB'
";
    let lines = "\
1 a creat /f 644 = 3
2 b creat /f 644 = 3
3 a exit = 0
4 b exit = 0
end 4 faults 0 seal 4
";
    let end = expect_fresh(&rt, job, 0, lines)?;
    stales_and_leaves(&rt, &end, &[1], "sound nodes 2 held 1 free 95\n")
}

#[test]
fn floor_taken(rt: HostRuntime) -> Result<(), Fail> {
    let job = "\
callers = ['a 0 0', 'b 0 0']
calls = ['a creat /x 644', 'b creat /p 644', 'b creat /q 644', 'b creat /r 644', 'b creat /s 644', 'b creat /t 644']
order = 'A Bbba A Bbba A Bbba A Bbba A Bb'
";
    let lines = "\
1 b creat /p 644 = 3
2 b creat /q 644 = 4
3 b creat /r 644 = 5
4 b creat /s 644 = 6
5 a creat /x 644 = 3
6 b creat /t 644 = 7
7 a exit = 0
8 b exit = 0
end 8 faults 0 seal 8
";
    let end = expect_fresh(&rt, job, 0, lines)?;
    let wanted = [0, 0, 0, 0, 1];
    stales_and_leaves(&rt, &end, &wanted, "sound nodes 7 held 1 free 95\n")
}

fn is_sealed_once<R: Abort + AllocGlobal>(rt: &R, end: &End) -> Result<(), Fail> {
    assert!(rt; end.trail.contains(&Step::Sealed(1)));
    replays_and_leaves(rt, end, &[1, 2], "sound nodes 2 held 2 free 94\n")
}

// `=` takes a checkpoint: what was answered before it is not done again. `>` writes a page back, and `*` makes a step of a
// recovery, where there is one.
#[test]
fn an_order_takes_checkpoints(rt: HostRuntime) -> Result<(), Fail> {
    let job = "\
calls = ['a creat /f 644', 'a text 3 hi', 'a open /f r', 'a read 4 9']
faults = ['4 enter 0 1 wipe 3']
order = '*Aaa = Aaa >>>>> *'
";
    let lines = "\
1 a creat /f 644 = 3
2 a text 3 hi = 2
3 a open /f r = 4
4 a read 4 9 = 2 6869
5 a exit = 0
end 5 faults 1 seal 5
";
    let end = expect_fresh(&rt, job, 0, lines)?;
    is_sealed_once(&rt, &end)
}

// Who reads needs leave of the mode; moments follow the callers' first letters in the order.
#[test]
fn callers_have_their_own_identities_and_moments(rt: HostRuntime) -> Result<(), Fail> {
    let job = "\
callers = ['a 0 0', 'b 5 6']
calls = ['a creat /x 600', 'b open /x r', 'b umask 77', 'b creat /y 666', 'b stat /y', 'a stat /x']
start = 1000
order = 'ba'
";
    let lines = "\
1 a creat /x 600 = 3
2 b open /x r = EACCES
3 b umask 77 = 0
4 b creat /y 666 = 3
5 b stat /y = ino 4 mode 100600 nlink 1 uid 5 gid 6 size 0 atime 1004 mtime 1004 ctime 1004
6 a stat /x = ino 3 mode 100600 nlink 1 uid 0 gid 0 size 0 atime 1002 mtime 1002 ctime 1002
7 a exit = 0
8 b exit = 0
end 8 faults 0 seal 8
";
    prints(&rt, job, 0, lines)
}

// The session of `examples/two-callers`.
#[test]
fn two_callers_are_struck_four_times(rt: HostRuntime) -> Result<(), Fail> {
    leaves(&rt, TWO_CALLERS_JOB, 0, TWO_CALLERS_TEXT, TWO_CALLERS_SOUND)
}

fn push_eight_callers(job: &mut String) -> Result<(), AllocError> {
    job.push_str(
        "callers = ['a 0 0', 'b 0 0', 'c 0 0', 'd 0 0', 'e 0 0', 'f 0 0', 'g 0 0', 'h 0 0']\n",
    )?;
    job.push_str(
        "calls = ['a creat /1 644', 'b creat /2 644', 'c creat /3 644', 'd creat /4 644', ",
    )?;
    job.push_str("'e creat /5 644', 'f creat /6 644', 'g creat /7 644', 'h creat /8 644']\n")?;
    job.push_str("faults = ['2 gather 1 1 wipe 255', '5 finish 0 1 wipe 0']\norder = '")?;
    for _ in 0..100 {
        job.push_str("abcdefgh**")?;
    }
    job.push_str("'\n")
}

// The job of eight callers, each of whom makes a file, by an order that goes round.
fn eight_callers_job(alloc: Global) -> Result<String, AllocError> {
    let mut job = String::new(alloc);
    push_eight_callers(&mut job)?;
    Ok(job)
}

fn run_of_eight(alloc: Global) -> Result<End, Fail> {
    let job = eight_callers_job(alloc)?;
    run(
        alloc,
        &["run", "v"],
        fresh(alloc)?,
        job.as_str(),
        NOTHING_FAILS,
    )
}

fn eight_have_stepped<R: Abort + AllocGlobal>(rt: &R, end: &End) -> Result<(), Fail> {
    ends_with(rt, end, 0, b"\nend 16 faults 2 seal 16\n")?;
    assert!(rt; is_stale(&end.trail));
    checked(rt, &end.image, 0, "sound nodes 9 held 1 free 95\n")
}

// Each of eight callers makes a file, all of them step by step at the same time: as each name is a change of the root, one
// caller after another is done. Faults strike the second and the fifth, and the recoveries go on between the steps.
#[test]
fn eight_callers_step_at_the_same_time(rt: HostRuntime) -> Result<(), Fail> {
    let end = run_of_eight(rt.alloc())?;
    eight_have_stepped(&rt, &end)
}
