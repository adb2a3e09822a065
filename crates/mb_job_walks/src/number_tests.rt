ghost use Rattle.std.specs.Prelude.{◌≤◌};

use mb_edge::Stroke;
use mb_gen::generate;
use mb_jobs::{Job, JobCall, JobFault, job_of};
use mb_plan::Rule;
use std::alloc::Global;
use std::process::Abort;

// The job of the number 1, of 20 calls and 6 faults. It was written from the table of `generate` by a
// Python program with a PCG32 of its own, after that generator's description (XSH RR 64/32, multiplier
// 6364136223846793005): the increment is 2 * 1 + 1; the state is 0, and after a step it is raised by 1, and
// stepped again. Its first words are 3380776849, 361947764, 3223725655, 2781001427. Begun at the state 42 on
// the stream 54 that program gives 0xa15c02b7, 0x7b47f409, 0xba1d3330, as PCG's own demonstration does.
const BY_HAND: &[u8] = br#"
callers = ["a 0 0", "b 0 0"]
calls = [
    "b close 6", "b stat /g9", "a read 5 171", "b read 4 273", "a creat /g12 644", "b stat /g4",
    "b fill 4 400 197", "a read 4 49", "a stat /g5", "b unlink /g6", "b close 3", "b stat /g4",
    "a creat /g12 644", "b stat /g1", "b stat /g3", "a read 3 164", "b fill 6 83 18",
    "b open /g0 rw", "a unlink /g9", "a lseek 5 2477 0",
]
faults = [
    "19 gather 0 1 wipe 54", "2 finish 0 1 wipe 200", "20 leave 0 1 wipe 210",
    "18 enter 0 1 wipe 77", "20 leave 0 1 wipe 245", "15 leave 0 1 wipe 225",
]
"#;

fn generated(alloc: Global, number: u32, calls: u32, faults: u32) -> Result<Job, JobFault>
    requires some { 1 ≤ calls }
    requires many { calls ≤ 32768 }
    requires few { faults ≤ 255 }
{
    generate(alloc, number, calls, faults).map_err(|_refused| JobFault::NoMemory)
}

fn is_same_call(one: &JobCall, other: &JobCall) -> bool {
    one.caller == other.caller && one.text == other.text && one.call == other.call
}

fn wiped_with(rule: &Rule) -> Option<u8> {
    match rule.damage.as_slice() {
        [Stroke::Wipe(byte)] => Some(*byte),
        _ => None,
    }
}

fn is_same_rule(one: &Rule, other: &Rule) -> bool {
    one.caller == other.caller
        && one.ordinal == other.ordinal
        && one.kind == other.kind
        && one.skip == other.skip
        && one.times == other.times
        && wiped_with(one).is_some()
        && wiped_with(one) == wiped_with(other)
}

fn are_same_calls(rt: &impl Abort, calls: &[JobCall], wanted: &[JobCall]) {
    assert!(rt; calls.len() == 22);
    assert!(rt; wanted.len() == 22);
    for (call, wanted) in calls.iter().zip(wanted.iter()) {
        assert!(rt; is_same_call(call, wanted));
    }
}

fn are_same_rules(rt: &impl Abort, rules: &[Rule], wanted: &[Rule]) {
    assert!(rt; rules.len() == 6);
    assert!(rt; wanted.len() == 6);
    for (rule, wanted) in rules.iter().zip(wanted.iter()) {
        assert!(rt; is_same_rule(rule, wanted));
    }
}

fn has_same_numbers(job: &Job, by_hand: &Job) -> bool {
    job.start == by_hand.start && job.threshold == by_hand.threshold && job.limit == by_hand.limit
}

fn is_same_job(rt: &impl Abort, job: &Job, by_hand: &Job) {
    assert!(rt; job.callers.as_slice() == by_hand.callers.as_slice());
    are_same_calls(rt, job.calls.as_slice(), by_hand.calls.as_slice());
    are_same_rules(rt, job.plan.as_slice(), by_hand.plan.as_slice());
    assert!(rt; job.order.is_none());
    assert!(rt; has_same_numbers(job, by_hand));
}

#[test]
fn makes_the_job_of_a_number(rt: HostRuntime) -> Result<(), JobFault> {
    let job = generated(rt.alloc(), 1, 20, 6)?;
    let by_hand = job_of(rt.alloc(), BY_HAND)?;
    is_same_job(&rt, &job, &by_hand);
    Ok(())
}

/// How many calls and how many rules the job of a number has.
fn sizes_of(alloc: Global, number: u32, calls: u32, faults: u32) -> Result<(usize, usize), JobFault>
    requires some { 1 ≤ calls }
    requires many { calls ≤ 32768 }
    requires few { faults ≤ 255 }
{
    let job = generated(alloc, number, calls, faults)?;
    Ok((job.calls.len(), job.plan.len()))
}

#[test]
fn makes_jobs_of_every_size(rt: HostRuntime) -> Result<(), JobFault> {
    let table = [(0, 1, 0, 2), (4_294_967_295, 32_768, 255, 32_770)];
    for (number, calls, faults, all) in table {
        let sizes = sizes_of(rt.alloc(), number, calls, faults)?;
        let (made, rules) = sizes;
        assert!(rt; made == all && rules == faults as usize);
    }
    Ok(())
}
