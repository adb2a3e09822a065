ghost use Rattle.std.specs.Prelude.{◌≤◌, length};

use mb_jobs::{Caller, Job, JobCall, JobFault, Text, job_of};
use mb_kinds::{Call, Cred, Entry, Errno, Octets, Reply, Seq, Stat};
use mb_plan::Plan;
use mb_print::{failed_line, last_line, soak_line, text_of_cause, transcript};
use std::alloc::{AllocError, Global};
use std::process::Abort;

const READ_HELLO: &[u8] =
    b"calls = [\"a open /hello r\", \"a read 3 9\", \"a read 3 9\", \"a open /nope r\", \"a close 3\"]";

const STAT_AND_SYNC: &[u8] = b"calls = [\"a stat /\", \"a sync\", \"a sync\"]";

fn answered(caller: u8, reply: Reply) -> Entry {
    Entry {
        caller,
        ordinal: 1,
        call: Call::Sync,
        pick: None,
        moment: 1,
        reply,
    }
}

fn got(alloc: Global, bytes: &[u8]) -> Result<Reply, AllocError>
    requires { length bytes.now ≤ 65535 }
{
    Ok(Reply::Got(Octets::from_vec(bytes.to_vec(alloc)?)))
}

fn add(history: &mut Vec<Entry>, caller: u8, reply: Reply) -> Result<(), AllocError> {
    history.push(answered(caller, reply))?;
    Ok(())
}

fn add_hello(alloc: Global, history: &mut Vec<Entry>) -> Result<(), AllocError> {
    add(history, 0, Reply::Num(3))?;
    add(history, 0, got(alloc, b"hello")?)?;
    add(history, 0, got(alloc, b"")?)?;
    add(history, 0, Reply::Refused(Errno::ENOENT))?;
    add(history, 0, Reply::Num(0))?;
    add(history, 0, Reply::Num(0))
}

fn hello_history(alloc: Global) -> Result<Vec<Entry>, AllocError> {
    let mut history = Vec::new(alloc);
    add_hello(alloc, &mut history)?;
    Ok(history)
}

/// A history is printed as these lines.
fn is_printed<R: Abort + AllocGlobal>(
    rt: &R,
    job: &Job,
    history: &[Entry],
    lines: &[u8],
) -> Result<(), JobFault> {
    let text = transcript(rt.alloc(), job, history)?;
    assert!(rt; text.as_slice() == lines);
    Ok(())
}

fn hello_is_printed<R: Abort + AllocGlobal>(rt: &R, job: &Job) -> Result<(), JobFault> {
    let history = hello_history(rt.alloc())?;
    let lines =
        b"1 a open /hello r = 3\n2 a read 3 9 = 5 68656c6c6f\n3 a read 3 9 = 0\n4 a open /nope r = ENOENT\n5 a close 3 = 0\n6 a exit = 0\n";
    is_printed(rt, job, &history, lines)
}

#[test]
fn prints_a_history(rt: HostRuntime) -> Result<(), JobFault> {
    let job = job_of(rt.alloc(), READ_HELLO)?;
    hello_is_printed(&rt, &job)
}

fn last_is_printed<R: Abort + AllocGlobal>(rt: &R) -> Result<(), AllocError> {
    let last = last_line(rt.alloc(), 6, 0, 6)?;
    assert_eq!(rt; last.as_slice(), b"end 6 faults 0 seal 6\n".as_slice());
    Ok(())
}

fn failed_is_printed<R: Abort + AllocGlobal>(rt: &R) -> Result<(), AllocError> {
    let failed = failed_line(rt.alloc(), 6, 2, 0)?;
    assert_eq!(rt; failed.as_slice(), b"failed 6 faults 2 seal 0\n".as_slice());
    Ok(())
}

#[test]
fn prints_the_last_lines(rt: HostRuntime) -> Result<(), AllocError> {
    last_is_printed(&rt)?;
    failed_is_printed(&rt)
}

fn add_callers(callers: &mut Vec<Caller>) -> Result<(), AllocError> {
    let cred = Cred { uid: 0, gid: 0 };
    for letter in [b'a', b'b'] {
        callers.push(Caller { letter, cred })?;
    }
    Ok(())
}

fn two(alloc: Global) -> Result<Seq<Caller>, AllocError> {
    let mut callers = Vec::new(alloc);
    add_callers(&mut callers)?;
    Ok(Seq::from_vec(callers))
}

fn call_of(alloc: Global, caller: u8, text: &[u8]) -> Result<JobCall, AllocError> {
    let text = Text::from_vec(text.to_vec(alloc)?);
    Ok(JobCall {
        caller,
        text,
        call: Call::Sync,
    })
}

fn add_calls(alloc: Global, calls: &mut Vec<JobCall>) -> Result<(), AllocError> {
    for (caller, text) in [
        (0, b"creat /x 644".as_slice()),
        (1, b"creat /s 644".as_slice()),
        (1, b"creat /t 644".as_slice()),
        (0, b"exit".as_slice()),
        (1, b"exit".as_slice()),
    ] {
        calls.push(call_of(alloc, caller, text)?)?;
    }
    Ok(())
}

fn calls_of_two(alloc: Global) -> Result<Seq<JobCall>, AllocError> {
    let mut calls = Vec::new(alloc);
    add_calls(alloc, &mut calls)?;
    Ok(Seq::from_vec(calls))
}

fn two_callers(alloc: Global) -> Result<Job, AllocError> {
    let callers = two(alloc)?;
    let calls = calls_of_two(alloc)?;
    Ok(Job {
        callers,
        calls,
        plan: Plan::new(alloc),
        order: None,
        start: 0,
        threshold: 64,
        limit: 255,
    })
}

fn add_numbers(history: &mut Vec<Entry>) -> Result<(), AllocError> {
    for (caller, number) in [(1, 6), (0, 3), (1, 7), (0, 0), (1, 0)] {
        add(history, caller, Reply::Num(number))?;
    }
    Ok(())
}

fn numbers_are_printed<R: Abort + AllocGlobal>(rt: &R, job: &Job) -> Result<(), JobFault> {
    let mut history = Vec::new(rt.alloc());
    add_numbers(&mut history)?;
    let lines =
        b"1 b creat /s 644 = 6\n2 a creat /x 644 = 3\n3 b creat /t 644 = 7\n4 a exit = 0\n5 b exit = 0\n";
    is_printed(rt, job, &history, lines)
}

#[test]
fn gives_each_caller_its_own_texts(rt: HostRuntime) -> Result<(), JobFault> {
    let job = two_callers(rt.alloc())?;
    numbers_are_printed(&rt, &job)
}

fn add_each_reply(history: &mut Vec<Entry>) -> Result<(), AllocError> {
    let root = Stat {
        ino: 2,
        mode: 0o40777,
        nlink: 2,
        uid: 0,
        gid: 0,
        size: 32,
        atime: 0,
        mtime: 0,
        ctime: 0,
    };
    add(history, 0, Reply::Info(root))?;
    add_restart(history)?;
    add(history, 0, Reply::Device)?;
    add(history, 0, Reply::Failed { faults: 2 })
}

fn each_reply_is_printed<R: Abort + AllocGlobal>(rt: &R, job: &Job) -> Result<(), JobFault> {
    let mut history = Vec::new(rt.alloc());
    add_each_reply(&mut history)?;
    let lines =
        b"1 a stat / = ino 2 mode 040777 nlink 2 uid 0 gid 0 size 32 atime 0 mtime 0 ctime 0\n2 a sync = EIO restart 1 2\n3 a sync = EIO device\n4 a exit = FAILED 2\n";
    is_printed(rt, job, &history, lines)
}

#[test]
fn prints_each_reply(rt: HostRuntime) -> Result<(), JobFault> {
    let job = job_of(rt.alloc(), STAT_AND_SYNC)?;
    each_reply_is_printed(&rt, &job)
}

fn add_restart(history: &mut Vec<Entry>) -> Result<(), AllocError> {
    let restart = Reply::Restart {
        first: 1,
        second: 2,
    };
    add(history, 0, restart)
}

fn restarted_history(alloc: Global) -> Result<Vec<Entry>, AllocError> {
    let mut history = hello_history(alloc)?;
    add_restart(&mut history)?;
    Ok(history)
}

fn whole_is_printed<R: Abort + AllocGlobal>(rt: &R, history: &[Entry]) -> Result<(), AllocError> {
    let line = soak_line(rt.alloc(), history, 2, 7)?;
    assert_eq!(rt;
        line.as_slice(),
        b"soak entries 7 faults 2 refused 1 restarts 1 seal 7\n".as_slice()
    );
    Ok(())
}

#[test]
fn prints_the_line_of_a_whole_history(rt: HostRuntime) -> Result<(), AllocError> {
    let history = restarted_history(rt.alloc())?;
    whole_is_printed(&rt, &history)
}

/// The printed cause of a text that is no job.
fn cause(alloc: Global, bytes: &[u8]) -> Result<Text, AllocError> {
    match job_of(alloc, bytes) {
        Ok(_) => Ok(Text::from_vec(Vec::new(alloc))),
        Err(fault) => text_of_cause(alloc, &fault),
    }
}

fn cause_is_printed<R: Abort + AllocGlobal>(
    rt: &R,
    bytes: &[u8],
    line: &[u8],
) -> Result<(), AllocError> {
    let printed = cause(rt.alloc(), bytes)?;
    assert_eq!(rt; printed.as_slice(), line);
    Ok(())
}

/// A text, and its printed cause.
type Row<'a> = (&'a [u8], &'a [u8]);

fn causes_are_printed<R: Abort + AllocGlobal>(rt: &R, table: &[Row<'_>]) -> Result<(), AllocError> {
    for (bytes, line) in table {
        cause_is_printed(rt, bytes, line)?;
    }
    Ok(())
}

#[test]
fn prints_each_cause(rt: HostRuntime) -> Result<(), AllocError> {
    let table = [
        (
            b"calls = [\"a creat /f 888\"]".as_slice(),
            b"job refused: call 1\n".as_slice(),
        ),
        (b"calls = []\ncolor = 1", b"job refused: key color\n"),
        (
            b"calls = [\"a sync\"]\nfaults = [\"9 gather 0 1\"]",
            b"job refused: fault 1\n",
        ),
        (b"calls = []\norder = \"az\"", b"job refused: order 2\n"),
        (b"calls = [", b"job refused: not toml\n"),
    ];
    causes_are_printed(&rt, &table)?;
    let blanks = vec![in rt.alloc(); b' '; 4_194_305]?;
    cause_is_printed(&rt, &blanks, b"job refused: too long\n")
}
