ghost use Rattle.std.specs.Prelude.{◌≡◌, ◌≤◌, ◌≢◌, true, false, Result, Ok, Err, IfOk, IfErr};
ghost use Rattle.mb_commands.specs.Words.{command_of, is_threaded};
ghost use Rattle.mb_edge.specs.Causes.{Rose};
ghost use Rattle.mb_gen.specs.Generator.{generated};
ghost use Rattle.mb_jobs.specs.Job.{GivesJob, job_in};
ghost use Rattle.mb_jobs.specs.declared.jobs.Job.{Job};
ghost use Rattle.mb_jobs.specs.declared.jobs.JobFault.{JobFault};
ghost use Rattle.mb_program.specs.Held.{held_disk};
ghost use Rattle.mb_program.specs.declared.manners.Manner.TheVariants as manners;
ghost use Rattle.mb_program.specs.Outcomes.{ComesOfCheck, ComesOfJob, ComesOfMkfs, ComesOfRunWords, IsDiskFailure, IsJobRefused, IsOutcome, IsRefusal, IsRefusedAs, IsToldAs, OfBytes, reads_job};

use crate::finish::Held;
use crate::manners::Manner;
use crate::outcomes::Outcome;
use crate::running::{run_by_threads, run_over};
use mb_check::{OpenFault, Scan, sound};
use mb_commands::{Command, Made, command_of, make_volume, refused_line, sound_line};
use mb_edge::{Disk, Source, read_whole};
use mb_gen::generate;
use mb_headline::{jobs_are_fit, soaks_are_fit};
use mb_host::Words;
use mb_jobs::{Job, JobFault, job_of};
use mb_print::text_of_cause;
use std::alloc::Global;
use std::sync::Wait;
use std::thread::Threads;

/// What came of the words, the job and the disk, and what is held.
pub struct Decided<D: Disk> {
    pub outcome: Outcome,
    pub held: Held<D>,
}

/// Does what the words ask for, up to what is to be printed, with one thread.
pub fn decide<S: Source, D: Disk>(alloc: Global, words: &Words, job: &mut S, disk: D) -> Decided<D>
    requires { is_threaded (command_of words.now) ≡ false }
    ensures outcome { IsOutcome D.told D.faults words.now (S.left job.old) (S.left job.new)
        disk result.held result.outcome }
    ensures unread { reads_job (command_of words.now) ≡ false → job.new ≡ job.old }
    ensures input { result.outcome ≡ Outcome.InputFault → Rose (S.faults job.old) (S.faults job.new) }
    ensures device { IsDiskFailure result.outcome → Rose (D.faults disk) (D.faults (held_disk result.held)) }
    ensures later { D.faults disk ≤ D.faults (held_disk result.held) }
{
    match command_of(words) {
        None => untouched(disk, Outcome::WordsRefused),
        Some(Command::Mkfs { blocks, inodes }) => make_over(alloc, disk, blocks, inodes),
        Some(Command::Check) => check_over(alloc, disk),
        Some(Command::Run { threads: _ }) => run_job(alloc, job, disk),
        Some(
            Command::Soak {
                number,
                calls,
                faults,
            },
        ) => soak_over(alloc, disk, number, calls, faults),
    }
}

/// Reads the job and runs it, each caller in a thread of its own, up to what is to be printed.
pub fn decide_by_threads<S: Source, D: Disk + Send, R: Threads + Wait + Sync>(
    rt: &R,
    alloc: Global,
    job: &mut S,
    disk: D,
) -> Decided<D>
    ensures comes { ComesOfRunWords D.told D.faults manners.Threads
        (S.left job.old) (S.left job.new) disk result.held result.outcome }
    ensures input { result.outcome ≡ Outcome.InputFault → Rose (S.faults job.old) (S.faults job.new) }
    ensures device { IsDiskFailure result.outcome → Rose (D.faults disk) (D.faults (held_disk result.held)) }
    ensures later { D.faults disk ≤ D.faults (held_disk result.held) }
{
    jobs_are_fit();
    match read_job(alloc, job) {
        Ok(job) => run_by_threads(rt, alloc, disk, &job),
        Err(outcome) => untouched(disk, outcome),
    }
}

// A disk that was not asked.
fn untouched<D: Disk>(disk: D, outcome: Outcome) -> Decided<D>
    ensures outcome { result.outcome ≡ outcome }
    ensures held { result.held ≡ Held.Disk disk }
{
    Decided {
        outcome,
        held: Held::Disk(disk),
    }
}

// Makes a fresh volume.
fn make_over<D: Disk>(alloc: Global, mut disk: D, blocks: u32, inodes: u32) -> Decided<D>
    ensures comes { ComesOfMkfs D.told D.faults disk blocks inodes result.held result.outcome }
    ensures device { IsDiskFailure result.outcome → Rose (D.faults disk) (D.faults (held_disk result.held)) }
    ensures later { D.faults disk ≤ D.faults (held_disk result.held) }
{
    let outcome = match make_volume(alloc, &mut disk, blocks, inodes) {
        Made::Line(line) => Outcome::Made(line),
        Made::BadSizes => Outcome::WordsRefused,
        Made::DiskFault => Outcome::DiskFault,
        Made::NoMemory => Outcome::OutOfMemory,
    };
    Decided {
        outcome,
        held: Held::Disk(disk),
    }
}

// Looks whether the image is a volume.
fn check_over<D: Disk>(alloc: Global, mut disk: D) -> Decided<D>
    ensures comes { ComesOfCheck D.told D.faults disk result.held result.outcome }
    ensures device { IsDiskFailure result.outcome → Rose (D.faults disk) (D.faults (held_disk result.held)) }
    ensures later { D.faults disk ≤ D.faults (held_disk result.held) }
{
    let scanned = sound(alloc, &mut disk);
    Decided {
        outcome: told_as(alloc, scanned),
        held: Held::Disk(disk),
    }
}

// Runs the job that is generated from a number, of so many calls and so many faults.
fn soak_over<D: Disk>(alloc: Global, disk: D, number: u32, calls: u32, faults: u32) -> Decided<D>
    requires some { 1 ≤ calls }
    requires many { calls ≤ 32768 }
    requires few { faults ≤ 255 }
    ensures comes { ComesOfJob D.told D.faults manners.Soak (generated number calls faults) disk result.held result.outcome }
    ensures device { IsDiskFailure result.outcome → Rose (D.faults disk) (D.faults (held_disk result.held)) }
    ensures input { result.outcome ≢ Outcome.InputFault }
    ensures later { D.faults disk ≤ D.faults (held_disk result.held) }
{
    soaks_are_fit();
    match generate(alloc, number, calls, faults) {
        Ok(job) => run_over(alloc, Manner::Soak, disk, &job),
        Err(_) => untouched(disk, Outcome::OutOfMemory),
    }
}

// A scan as the program prints it.
fn told_as(alloc: Global, scanned: Result<Scan, OpenFault>) -> Outcome
    ensures { IsToldAs scanned result }
{
    match scanned {
        Ok(figures) => match sound_line(alloc, figures.nodes, figures.held, figures.free) {
            Ok(line) => Outcome::Checked(line),
            Err(_) => Outcome::OutOfMemory,
        },
        Err(fault) => refused_as(alloc, fault),
    }
}

/// A refusal of the image as the program prints it.
pub fn refused_as(alloc: Global, fault: OpenFault) -> Outcome
    ensures { IsRefusedAs fault result }
{
    match fault {
        OpenFault::Unsound { block, rule } => match refused_line(alloc, block, rule) {
            Ok(line) => Outcome::Unsound(line),
            Err(_) => Outcome::OutOfMemory,
        },
        OpenFault::Device => Outcome::DiskFault,
        OpenFault::NoMemory => Outcome::OutOfMemory,
    }
}

// Reads the job and runs it with one thread.
fn run_job<S: Source, D: Disk>(alloc: Global, job: &mut S, disk: D) -> Decided<D>
    ensures comes { ComesOfRunWords D.told D.faults manners.Alone
        (S.left job.old) (S.left job.new) disk result.held result.outcome }
    ensures input { result.outcome ≡ Outcome.InputFault → Rose (S.faults job.old) (S.faults job.new) }
    ensures device { IsDiskFailure result.outcome → Rose (D.faults disk) (D.faults (held_disk result.held)) }
    ensures later { D.faults disk ≤ D.faults (held_disk result.held) }
{
    jobs_are_fit();
    match read_job(alloc, job) {
        Ok(job) => run_over(alloc, Manner::Alone, disk, &job),
        Err(outcome) => untouched(disk, outcome),
    }
}

// The job that the source holds, or why there is none. What stands behind the job's bytes stays in the source.
fn read_job<S: Source>(alloc: Global, source: &mut S) -> Result<Job, Outcome>
    ensures job { IfOk result (λ job.
        OfBytes (S.left source.old) (S.left source.new) (λ bytes. job_in bytes ≡ Ok job)) }
    ensures refused { IfErr result (IsJobRefused (S.left source.old) (S.left source.new)) }
    ensures input { IfErr result (λ outcome. outcome ≡ Outcome.InputFault → Rose (S.faults source.old) (S.faults source.new)) }
{
    let bytes = match read_whole(alloc, source, 4194305) {
        Ok(bytes) => bytes,
        Err(mb_edge::ReadError::Failed) => return Err(Outcome::InputFault),
        Err(mb_edge::ReadError::NoMemory) => return Err(Outcome::OutOfMemory),
    };
    match job_of(alloc, bytes.as_slice()) {
        Ok(job) => Ok(job),
        Err(fault) => Err(refusal(alloc, &fault)),
    }
}

// The line of a job that is refused.
fn refusal(alloc: Global, fault: &JobFault) -> Outcome
    ensures { (found : Result Job JobFault) → GivesJob (Err fault.now) found → IsRefusal found result }
{
    if let JobFault::NoMemory = fault {
        return Outcome::OutOfMemory;
    }
    match text_of_cause(alloc, fault) {
        Ok(line) => Outcome::JobRefused(line),
        Err(_) => Outcome::OutOfMemory,
    }
}
