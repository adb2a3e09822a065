//! What calls take of the file system alone: a program to be run under a counter of instructions, as `tools/figures`
//! does. Its driver keeps the blocks of a volume in an array, gathers what a call asks for, begins the call once more, and
//! writes what it changes; it keeps no copies, logs nothing and foresees nothing.
//!
//! Its words are a kind of calls, how many files are made beforehand, and how many calls are made then: what a call takes
//! is the difference of two runs. Without words each kind is run once, small. It prints how many calls were made after the
//! files, and how often they asked for blocks.
#![tactic(auto)]

mod benches;
mod devices;
mod faults;
mod jobs;

use jobs::{BenchJob, BenchKind, job_of, name_of, run};
use std::alloc::Global;
use std::process::ExitCode;
use std::{env, io};

/// What is done where no words tell a job.
const ALL: [(BenchKind, u32, u32); 6] = [
    (BenchKind::Make, 0, 200),
    (BenchKind::Path, 200, 100),
    (BenchKind::Stat, 200, 100),
    (BenchKind::Seek, 1, 10),
    (BenchKind::Read, 1, 10),
    (BenchKind::Unlink, 1, 1),
];

/// Does a job and prints a line of it. Answers whether the job came to its end.
fn run_and_tell(rt: &HostRuntime, heap: Global, job: BenchJob) -> io::Result<bool> {
    let BenchJob { kind, made, calls } = job;
    let name = name_of(kind);
    match run(heap, job) {
        Ok(counts) => {
            println!(*rt;
                "{} {} {}: {} calls ask {} times",
                name, made, calls, counts.calls, counts.asks
            )?;
            Ok(true)
        }
        Err(fault) => {
            println!(*rt; "{} {} {}: {}", name, made, calls, fault.text())?;
            Ok(false)
        }
    }
}

/// Does each kind once. Answers whether all of them came to their end.
fn run_all(rt: &HostRuntime, heap: Global) -> io::Result<bool> {
    let mut ended = true;
    for (kind, made, calls) in ALL {
        ended &= run_and_tell(rt, heap, BenchJob { kind, made, calls })?;
    }
    Ok(ended)
}

/// Does what the words say. Answers whether that came to its end.
fn run_words(rt: &HostRuntime, heap: Global) -> io::Result<bool> {
    let mut words = Vec::new(heap);
    for word in env::args(rt)?.skip(1) {
        words.push(word)?;
    }
    if words.is_empty() {
        return run_all(rt, heap);
    }
    match job_of(&words) {
        Some(job) => run_and_tell(rt, heap, job),
        None => {
            println!(*rt;
                "mb_bench KIND FILES CALLS, where KIND is make, path, stat, seek, read or unlink"
            )?;
            Ok(false)
        }
    }
}

fn main(rt: HostRuntime) -> ExitCode {
    match run_words(&rt, rt.alloc()) {
        Ok(true) => ExitCode::SUCCESS,
        _ => ExitCode::FAILURE,
    }
}
