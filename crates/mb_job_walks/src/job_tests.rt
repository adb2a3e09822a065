ghost use Rattle.std.specs.Prelude.{◌≤◌, length};

use mb_edge::Stroke;
use mb_jobs::{Caller, Job, JobCall, JobFault, job_of};
use mb_kinds::{Call, Cred, Kind, Octets, Whence};
use mb_plan::Rule;
use std::alloc::{AllocError, Global};
use std::process::Abort;

/// Three pieces of a text, one after another.
fn joined(alloc: Global, first: &[u8], second: &[u8], third: &[u8]) -> Result<Vec<u8>, AllocError> {
    let mut text = first.to_vec(alloc)?;
    text.extend_from_slice(second)?;
    text.extend_from_slice(third)?;
    Ok(text)
}

/// A piece of a text, so many times.
fn repeated(alloc: Global, piece: &[u8], times: u32) -> Result<Vec<u8>, AllocError> {
    let mut text = Vec::new(alloc);
    for _ in 0..times {
        text.extend_from_slice(piece)?;
    }
    Ok(text)
}

/// The cause why a text is no job.
fn fault_of(alloc: Global, text: &[u8]) -> Option<JobFault> {
    job_of(alloc, text).err()
}

/// The call for whose sake a text is no job.
fn bad_call(alloc: Global, text: &[u8]) -> Option<u32> {
    match fault_of(alloc, text) {
        Some(JobFault::BadCall { index }) => Some(index),
        _ => None,
    }
}

/// The rule for whose sake a text is no job.
fn bad_rule(alloc: Global, text: &[u8]) -> Option<u32> {
    match fault_of(alloc, text) {
        Some(JobFault::BadFault { index }) => Some(index),
        _ => None,
    }
}

/// The place in the order for whose sake a text is no job.
fn bad_place(alloc: Global, text: &[u8]) -> Option<u64> {
    match fault_of(alloc, text) {
        Some(JobFault::BadOrder { place }) => Some(place),
        _ => None,
    }
}

/// The cause why a text with the one call `a LINE` is no job.
fn fault_of_line(alloc: Global, line: &[u8]) -> Result<Option<JobFault>, AllocError> {
    let text = joined(alloc, b"calls = ['a ", line, b"']")?;
    Ok(fault_of(alloc, &text))
}

/// Whether a text with the one call `a LINE` is a job.
fn is_call(alloc: Global, line: &[u8]) -> Result<bool, AllocError> {
    let fault = fault_of_line(alloc, line)?;
    Ok(fault.is_none())
}

/// Whether a text with the one call `a LINE` is no job for the call's sake.
fn is_no_call(alloc: Global, line: &[u8]) -> Result<bool, AllocError> {
    let fault = fault_of_line(alloc, line)?;
    Ok(matches!(fault, Some(JobFault::BadCall { index: 1 })))
}

/// A job's first call.
fn first_call(alloc: Global, job: &Job) -> Result<Call, JobFault> {
    match job.calls.get(0) {
        Some(call) => Ok(call.call.copied(alloc)?),
        None => Ok(Call::Sync),
    }
}

/// The first call of a text.
fn call_of(alloc: Global, text: &[u8]) -> Result<Call, JobFault> {
    let job = job_of(alloc, text)?;
    first_call(alloc, &job)
}

/// The call that the line of a text with the one call `a LINE` writes.
fn call_of_line(alloc: Global, line: &[u8]) -> Result<Call, JobFault> {
    let text = joined(alloc, b"calls = ['a ", line, b"']")?;
    call_of(alloc, &text)
}

fn are_calls<R: Abort + AllocGlobal>(rt: &R, lines: &[&[u8]]) -> Result<(), AllocError> {
    for line in lines {
        let is_taken = is_call(rt.alloc(), line)?;
        assert!(rt; is_taken);
    }
    Ok(())
}

fn are_no_calls<R: Abort + AllocGlobal>(rt: &R, lines: &[&[u8]]) -> Result<(), AllocError> {
    for line in lines {
        let is_refused = is_no_call(rt.alloc(), line)?;
        assert!(rt; is_refused);
    }
    Ok(())
}

#[test]
fn takes_each_verb_at_its_least_and_its_greatest(rt: HostRuntime) -> Result<(), AllocError> {
    let lines = [
        b"open / r".as_slice(),
        b"open /f w",
        b"open \"\" rw",
        b"creat /f 0",
        b"creat /f 777",
        b"mkdir /d 000",
        b"mkdir /d 7",
        b"close 0",
        b"close 65535",
        b"dup 65535",
        b"fstat 65535",
        b"read 0 0",
        b"read 65535 65535",
        b"text 0 x",
        b"text 3   blanks at both ends ",
        b"hex 3 00",
        b"hex 65535 fFAb",
        b"fill 3 0 0",
        b"fill 65535 65535 255",
        b"lseek 3 -2147483648 0",
        b"lseek 3 -1 1",
        b"lseek 3 2147483647 2",
        b"link /a \"\"",
        b"unlink !",
        b"rmdir ~",
        b"chdir \"\"",
        b"stat /a",
        b"chmod /f 0",
        b"chmod /f 7777",
        b"chown /f 0 65535",
        b"chown /f 65535 0",
        b"utime /f 0 2147483647",
        b"utime /f 2147483647 0",
        b"access /f 0",
        b"access /f 7",
        b"umask 0",
        b"umask 777",
        b"sync",
        b"exit",
    ];
    are_calls(&rt, &lines)
}

#[test]
fn refuses_each_verb_past_them(rt: HostRuntime) -> Result<(), AllocError> {
    let lines = [
        b"open /f".as_slice(),
        b"open /f x",
        b"open /f r ",
        b"open  r",
        b"creat /f 8",
        b"creat /f 0644",
        b"creat /f ",
        b"mkdir /d 1000",
        b"close 65536",
        b"close 00",
        b"close -1",
        b"close",
        b"close 3 4",
        b"dup 65536",
        b"fstat 65536",
        b"read 3 65536",
        b"read 3",
        b"text 3 ",
        b"text 3",
        b"text 65536 x",
        b"hex 3 ",
        b"hex 3 012",
        b"hex 3 0g",
        b"fill 3 65536 1",
        b"fill 3 1 256",
        b"fill 3 1",
        b"lseek 3 2147483648 0",
        b"lseek 3 -2147483649 0",
        b"lseek 3 -0 0",
        b"lseek 3 - 0",
        b"lseek 3 0 3",
        b"lseek 3 +1 0",
        b"link /a",
        b"link /a /b /c",
        b"unlink",
        b"rmdir ",
        b"stat /a b",
        b"chmod /f 17777",
        b"chown /f 65536 0",
        b"chown /f 0 65536",
        b"utime /f 2147483648 0",
        b"utime /f 0 2147483648",
        b"access /f 8",
        b"umask 1000",
        b"sync ",
        b"exit 0",
        b"rename /a /b",
        b"",
    ];
    are_no_calls(&rt, &lines)
}

/// Whether a line writes a call.
fn writes(alloc: Global, line: &[u8], wanted: &Call) -> Result<bool, JobFault> {
    let call = call_of_line(alloc, line)?;
    Ok(call == *wanted)
}

/// Whether a line writes the call that writes these bytes.
fn writes_bytes(alloc: Global, line: &[u8], bytes: &[u8]) -> Result<bool, JobFault>
    requires { length bytes.now ≤ 65535 }
{
    let wanted = Call::Write {
        fd: 4,
        bytes: Octets::from_vec(bytes.to_vec(alloc)?),
    };
    writes(alloc, line, &wanted)
}

fn writes_an_offset(alloc: Global) -> Result<bool, JobFault> {
    let wanted = Call::Lseek {
        fd: 3,
        offset: -2_147_483_648,
        whence: Whence::End,
    };
    writes(alloc, b"lseek 3 -2147483648 2", &wanted)
}

fn writes_a_mask(alloc: Global) -> Result<bool, JobFault> {
    let wanted = Call::Umask { mask: 0o22 };
    writes(alloc, b"umask 022", &wanted)
}

#[test]
fn reads_what_the_lines_write(rt: HostRuntime) -> Result<(), JobFault> {
    let alloc = rt.alloc();
    let offset = writes_an_offset(alloc)?;
    assert!(rt; offset);
    let text = writes_bytes(alloc, b"text 4  a b ", b" a b ")?;
    assert!(rt; text);
    let hex = writes_bytes(alloc, b"hex 4 0afF", &[0x0a, 0xff])?;
    assert!(rt; hex);
    let fill = writes_bytes(alloc, b"fill 4 3 7", &[7, 7, 7])?;
    assert!(rt; fill);
    let mask = writes_a_mask(alloc)?;
    assert!(rt; mask);
    Ok(())
}

/// Whether a text is a job whose one call is a line that ends with a piece, so many times.
fn fits(alloc: Global, verb: &[u8], piece: &[u8], times: u32) -> Result<bool, AllocError> {
    let many = repeated(alloc, piece, times)?;
    let line = joined(alloc, verb, &many, b"")?;
    is_call(alloc, &line)
}

fn is_too_long(alloc: Global) -> Result<bool, AllocError> {
    let long = repeated(alloc, b" ", 4_194_305)?;
    let fault = fault_of(alloc, &long);
    Ok(matches!(fault, Some(JobFault::TooLong)))
}

#[test]
fn keeps_the_limits_on_texts(rt: HostRuntime) -> Result<(), AllocError> {
    let alloc = rt.alloc();
    for (times, wanted) in [(65_535, true), (65_536, false)] {
        let text = fits(alloc, b"text 3 ", b"x", times)?;
        assert!(rt; text == wanted);
        let hex = fits(alloc, b"hex 3 ", b"0a", times)?;
        assert!(rt; hex == wanted);
    }
    for (times, wanted) in [(255, true), (256, false)] {
        let path = fits(alloc, b"stat ", b"p", times)?;
        assert!(rt; path == wanted);
    }
    let long = is_too_long(alloc)?;
    assert!(rt; long);
    Ok(())
}

/// A job with so many times a call, and then another text.
fn calls(alloc: Global, piece: &[u8], times: u32, last: &[u8]) -> Result<Vec<u8>, AllocError> {
    let many = repeated(alloc, piece, times)?;
    joined(alloc, b"calls = [", &many, last)
}

/// Whether that one is a job.
fn calls_fit(alloc: Global, piece: &[u8], times: u32, last: &[u8]) -> Result<bool, AllocError> {
    let text = calls(alloc, piece, times, last)?;
    let fault = fault_of(alloc, &text);
    Ok(fault.is_none())
}

/// The call for whose sake it is none.
fn first_past(
    alloc: Global,
    piece: &[u8],
    times: u32,
    last: &[u8],
) -> Result<Option<u32>, AllocError> {
    let text = calls(alloc, piece, times, last)?;
    Ok(bad_call(alloc, &text))
}

#[test]
fn keeps_the_limits_on_lists(rt: HostRuntime) -> Result<(), AllocError> {
    let alloc = rt.alloc();
    let within = calls_fit(alloc, b"'a read 3 65535',", 256, b"'a read 3 256']")?;
    assert!(rt; within);
    let past = first_past(
        alloc,
        b"'a read 3 65535',",
        256,
        b"'a text 3 x', 'a read 3 256']",
    )?;
    assert!(rt; past == Some(258));
    let many = calls_fit(alloc, b"'a sync',", 100_000, b"]")?;
    assert!(rt; many);
    let more = first_past(alloc, b"'a sync',", 100_001, b"]")?;
    assert!(rt; more == Some(100_001));
    Ok(())
}

fn callers_are_read(callers: &[Caller]) -> bool {
    match callers {
        [first, _, _] => first.cred == Cred { uid: 1, gid: 2 },
        _ => false,
    }
}

/// Whether the calls are the four, of which the last one was added.
fn calls_are_read(calls: &[JobCall]) -> bool {
    match calls {
        [first, second, _, added] => {
            first.caller == 2
                && second.caller == 0
                && added.caller == 2
                && added.text.as_slice() == b"exit".as_slice()
        }
        _ => false,
    }
}

fn first_is_read(rule: &Rule) -> bool {
    rule.caller == 2 && rule.ordinal == 2 && rule.kind == Kind::Enter
}

fn second_is_read(rule: &Rule) -> bool {
    rule.caller == 2
        && rule.ordinal == 3
        && rule.kind == Kind::Replay
        && rule.skip == 100_000
        && rule.times == 255
}

fn strokes_are_read(strokes: &[Stroke]) -> bool {
    matches!(
        strokes,
        [
            Stroke::Wipe(7),
            Stroke::Page { nth: 262_143, .. },
            Stroke::Count {
                ino: 65_528,
                count: 65_535
            }
        ]
    )
}

fn rules_are_read(rules: &[Rule]) -> bool {
    match rules {
        [first, second] => {
            first_is_read(first)
                && second_is_read(second)
                && strokes_are_read(second.damage.as_slice())
        }
        _ => false,
    }
}

fn numbers_are_read(job: &Job) -> bool {
    job.start == 1_000_000_000 && job.threshold == 4096 && job.limit == 3
}

fn is_read(rt: &impl Abort, job: &Job) {
    assert!(rt; callers_are_read(job.callers.as_slice()));
    assert!(rt; calls_are_read(job.calls.as_slice()));
    assert!(rt; numbers_are_read(job));
    assert!(rt; rules_are_read(job.plan.as_slice()));
}

#[test]
fn adds_an_exit_for_each_caller_that_has_not_ended(rt: HostRuntime) -> Result<(), JobFault> {
    let text =
        b"callers = ['c 1 2', 'a 0 0', 'b 65535 3']\ncalls = ['b sync', 'c exit', 'b sync']\nlimit = 3\nstart = 1000000000\nthreshold = 4096\norder = 'cC =>*bB'\nfaults = ['3 enter 0 1', '4 replay 100000 255 wipe 7 page 262143 0 count 65528 65535']";
    let job = job_of(rt.alloc(), text)?;
    is_read(&rt, &job);
    Ok(())
}

/// The rule for whose sake a text with that second one is no job.
fn bad_rule_of(alloc: Global, rule: &[u8]) -> Result<Option<u32>, AllocError> {
    let text = joined(
        alloc,
        b"calls = ['a close 3']\nfaults = ['1 enter 0 1', '",
        rule,
        b"']",
    )?;
    Ok(bad_rule(alloc, &text))
}

fn are_no_rules<R: Abort + AllocGlobal>(rt: &R, rules: &[&[u8]]) -> Result<(), AllocError> {
    for rule in rules {
        let refused = bad_rule_of(rt.alloc(), rule)?;
        assert!(rt; refused == Some(2));
    }
    Ok(())
}

#[test]
fn refuses_rules_past_their_ranges(rt: HostRuntime) -> Result<(), AllocError> {
    let rules = [
        b"0 finish 0 1".as_slice(),
        b"3 finish 0 1",
        b"01 finish 0 1",
        b"1 begin 0 1",
        b"1  finish 0 1",
        b"1 finish 0 1 ",
        b"1 finish 100001 1",
        b"1 finish 0 0",
        b"1 finish 0 256",
        b"1 finish 0",
        b"1 finish 0 1 wipe",
        b"1 finish 0 1 wipe 256",
        b"1 finish 0 1 wipe 1 wipe",
        b"1 finish 0 1 page 262144 0",
        b"1 finish 0 1 page 0",
        b"1 finish 0 1 count 0 1",
        b"1 finish 0 1 count 65529 1",
        b"1 finish 0 1 count 1 65536",
        b"",
    ];
    are_no_rules(&rt, &rules)
}

/// Whether that is the key that a text is refused for.
fn is_refused_for(alloc: Global, text: &[u8], key: &[u8]) -> bool {
    match fault_of(alloc, text) {
        Some(JobFault::BadKey { key: bad }) => bad.as_slice() == key,
        _ => false,
    }
}

/// A text, and the key that it is refused for.
type Refused<'a> = (&'a [u8], &'a [u8]);

fn are_refused<R: Abort + AllocGlobal>(rt: &R, table: &[Refused<'_>]) {
    for (text, key) in table {
        assert!(rt; is_refused_for(rt.alloc(), text, key));
    }
}

#[test]
fn names_the_first_bad_key(rt: HostRuntime) -> Result<(), AllocError> {
    let table = [
        (b"".as_slice(), b"calls".as_slice()),
        (b"calls = 1", b"calls"),
        (b"calls = ['a sync', 1]", b"calls"),
        (b"color = 1\ncalls = []", b"color"),
        (b"color = 1", b"calls"),
        (b"bolor = 1", b"bolor"),
        (b"callers = []\nbolor = 1", b"bolor"),
        (b"callers = []\ncalls = []", b"callers"),
        (b"callers = ['a 0 0', 'a 1 1']\ncalls = []", b"callers"),
        (b"callers = ['i 0 0']\ncalls = []", b"callers"),
        (b"callers = ['a  0 0']\ncalls = []", b"callers"),
        (b"callers = ['a 65536 0']\ncalls = []", b"callers"),
        (b"calls = []\nlimit = 256\nstart = -1", b"limit"),
        (b"calls = []\nlimit = 1.0", b"limit"),
        (b"calls = []\nstart = 1000000001", b"start"),
        (b"calls = []\nstart = -1\nthreshold = 0", b"start"),
        (b"calls = []\nthreshold = 0", b"threshold"),
        (b"calls = []\nthreshold = 4097\nzone = 1", b"threshold"),
        (b"calls = []\norder = 1\nplan = 1", b"order"),
        (b"calls = ['b sync']\nfaults = 'x'", b"faults"),
    ];
    are_refused(&rt, &table);
    Ok(())
}

fn is_no_toml(alloc: Global, text: &[u8]) -> bool {
    let fault = fault_of(alloc, text);
    matches!(fault, Some(JobFault::NotToml))
}

fn calls_are_causes(rt: &impl Abort, alloc: Global) {
    let call = bad_call(
        alloc,
        b"calls = ['a creat /f 888']\nfaults = ['']\norder = 'x'",
    );
    assert!(rt; call == Some(1));
    assert!(rt; bad_call(alloc, b"calls = ['b sync']") == Some(1));
    assert!(rt; bad_call(alloc, b"calls = ['a  sync']") == Some(1));
    assert!(rt; bad_call(alloc, b"calls = ['a exit', 'a sync']") == Some(2));
}

fn others_are_causes(rt: &impl Abort, alloc: Global) {
    let rule = bad_rule(
        alloc,
        b"calls = ['a sync']\nfaults = ['9 gather 0 1']\norder = 'x'",
    );
    assert!(rt; rule == Some(1));
    assert!(rt; bad_place(alloc, b"calls = []\norder = 'az'") == Some(2));
    assert!(rt; bad_place(alloc, b"calls = []\norder = 'AB'") == Some(2));
    assert!(rt; is_no_toml(alloc, b"calls = ["));
    assert!(rt; is_no_toml(alloc, b"calls = []\xff"));
}

#[test]
fn answers_the_first_cause(rt: HostRuntime) -> Result<(), AllocError> {
    calls_are_causes(&rt, rt.alloc());
    others_are_causes(&rt, rt.alloc());
    Ok(())
}
