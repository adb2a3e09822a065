//! Runs of `membrane` over devices in memory, for the tests.
ghost use Rattle.std.specs.Prelude.{◌≡◌, false, IfOk};
ghost use Rattle.mb_commands.specs.Words.{command_of, is_threaded};

use mb_commands::asks_threads;
use mb_core_spec::Step;
use mb_edge::{Bytes, Fails, MemDisk, MemSink, MemSource, SureSource};
use mb_host::{Word8, Words};
use mb_kinds::FaultRecord;
use mb_program::{Finish, Held, membrane_alone};
use std::alloc::{AllocError, Global};
use std::process::Abort;
use std::test::Fail;

/// The blocks for which the disk of a run has room.
pub const ROOM: u32 = 100;

/// What a run ended with: its status, what it printed, the image that it left, and the event trace and the fault records
/// of the core that it held, which are empty where it held the disk alone.
#[derive(Drop)]
pub struct End {
    pub status: u8,
    pub printed: Vec<u8>,
    pub image: Vec<u8>,
    pub trail: Vec<Step>,
    pub records: Vec<FaultRecord>,
}

/// Which calls of the outside fail, each kind of call numbered from 1: reads of the input; how many blocks the disk has, its
/// reads and its writes; writes of the output.
#[derive(Clone, Copy, Drop)]
pub struct FailingCalls<'a> {
    pub inputs: &'a [u64],
    pub sizes: &'a [u64],
    pub reads: &'a [u64],
    pub writes: &'a [u64],
    pub outputs: &'a [u64],
}

/// Nothing of the outside fails.
pub const NOTHING_FAILS: FailingCalls<'static> = FailingCalls {
    inputs: &[],
    sizes: &[],
    reads: &[],
    writes: &[],
    outputs: &[],
};

fn fails(alloc: Global, calls: &[u64]) -> Result<Fails, AllocError> {
    Ok(Fails::from_vec(calls.to_vec(alloc)?))
}

/// The words after the program's name.
pub fn words(alloc: Global, list: &[&str]) -> Result<Words, AllocError> {
    let mut words = Vec::new(alloc);
    for word in list {
        words.push(Word8::from_vec(word.as_bytes().to_vec(alloc)?))?;
    }
    Ok(Words::from_vec(words))
}

/// The same, where they ask for no threads.
pub fn words_alone(alloc: Global, list: &[&str]) -> Result<Words, Fail>
    ensures { IfOk result (λ words. is_threaded (command_of words) ≡ false) }
{
    let words = words(alloc, list)?;
    if asks_threads(&words) {
        return Err("these words ask for threads".into());
    }
    Ok(words)
}

/// A disk with that image, some calls of which fail.
pub fn disk(alloc: Global, image: Vec<u8>, failing: FailingCalls) -> Result<MemDisk, Fail> {
    if image.len() / 512 > ROOM as usize {
        return Err("the image has more blocks than the disk".into());
    }
    Ok(MemDisk::new(
        alloc,
        Bytes::from_vec(image),
        ROOM,
        fails(alloc, failing.sizes)?,
        fails(alloc, failing.reads)?,
        fails(alloc, failing.writes)?,
    )?)
}

/// An input of that job, some reads of which fail.
pub fn source(alloc: Global, job: &str, failing: &[u64]) -> Result<MemSource, AllocError> {
    let input = Bytes::from_vec(job.as_bytes().to_vec(alloc)?);
    Ok(MemSource::new(input, fails(alloc, failing)?))
}

/// An input of that job which never fails.
pub fn sure_source(alloc: Global, job: &str) -> Result<SureSource, AllocError> {
    let input = Bytes::from_vec(job.as_bytes().to_vec(alloc)?);
    Ok(SureSource::new(input))
}

/// An output, some writes of which fail.
pub fn sink(alloc: Global, failing: &[u64]) -> Result<MemSink, Fail> {
    Ok(MemSink::new(alloc, 1_048_576, fails(alloc, failing)?)?)
}

fn trail_of(alloc: Global, held: &Held<MemDisk>) -> Result<Vec<Step>, AllocError> {
    match held {
        Held::Disk(_) => Ok(Vec::new(alloc)),
        Held::Core(core) => core.trail().to_vec(alloc),
    }
}

fn records_of(alloc: Global, held: &Held<MemDisk>) -> Result<Vec<FaultRecord>, AllocError> {
    match held {
        Held::Disk(_) => Ok(Vec::new(alloc)),
        Held::Core(core) => core.records().to_vec(alloc),
    }
}

// What the core tells of a run.
fn told_by(
    alloc: Global,
    held: &Held<MemDisk>,
) -> Result<(Vec<Step>, Vec<FaultRecord>), AllocError> {
    let trail = trail_of(alloc, held)?;
    Ok((trail, records_of(alloc, held)?))
}

// An end of those parts.
fn end_of(
    alloc: Global,
    status: u8,
    printed: &[u8],
    image: &[u8],
    trail: Vec<Step>,
    records: Vec<FaultRecord>,
) -> Result<End, Fail> {
    Ok(End {
        status,
        printed: printed.to_vec(alloc)?,
        image: image.to_vec(alloc)?,
        trail,
        records,
    })
}

// The same, where they were told.
fn end_where_told(
    alloc: Global,
    status: u8,
    printed: &[u8],
    image: &[u8],
    told: Result<(Vec<Step>, Vec<FaultRecord>), AllocError>,
) -> Result<End, Fail> {
    let (trail, records) = told?;
    end_of(alloc, status, printed, image, trail, records)
}

/// What is left of a run that ended with that status and printed that.
pub fn ended(alloc: Global, status: u8, printed: &[u8], held: Held<MemDisk>) -> Result<End, Fail> {
    let told: Result<_, _> = told_by(alloc, &held);
    let disk = held.into_disk();
    end_where_told(alloc, status, printed, disk.bytes(), told)
}

// The run over a disk, between an input and an output.
fn run_on(
    alloc: Global,
    list: &[&str],
    source: &mut MemSource,
    disk: MemDisk,
    sink: &mut MemSink,
) -> Result<End, Fail> {
    let words = words_alone(alloc, list)?;
    let Finish { status, held } = membrane_alone(alloc, &words, source, disk, sink);
    ended(alloc, status, sink.taken(), held)
}

// The run over an image.
fn run_between(
    alloc: Global,
    list: &[&str],
    source: &mut MemSource,
    image: Vec<u8>,
    failing: FailingCalls,
    sink: &mut MemSink,
) -> Result<End, Fail> {
    let disk = disk(alloc, image, failing)?;
    run_on(alloc, list, source, disk, sink)
}

// The run from an input.
fn run_from(
    alloc: Global,
    list: &[&str],
    source: &mut MemSource,
    image: Vec<u8>,
    failing: FailingCalls,
) -> Result<End, Fail> {
    let mut sink = sink(alloc, failing.outputs)?;
    run_between(alloc, list, source, image, failing, &mut sink)
}

/// Runs the program with those words, which ask for no threads, over that image, with that job as its input.
pub fn run(
    alloc: Global,
    list: &[&str],
    image: Vec<u8>,
    job: &str,
    failing: FailingCalls,
) -> Result<End, Fail> {
    let mut source = source(alloc, job, failing.inputs)?;
    run_from(alloc, list, &mut source, image, failing)
}

/// The volume that the program makes with the words `mkfs v 100 16`.
pub fn fresh(alloc: Global) -> Result<Vec<u8>, Fail> {
    let words = ["mkfs", "v", "100", "16"];
    let end = run(alloc, &words, Vec::new(alloc), "", NOTHING_FAILS)?;
    Ok(end.image)
}

/// That a run printed those lines, and ended with that status.
pub fn printed<R: Abort>(rt: &R, end: &End, status: u8, lines: &str) -> Result<(), Fail> {
    assert_eq!(rt; str::from_utf8(&end.printed)?, lines);
    assert_eq!(rt; end.status, status);
    Ok(())
}

/// That a run printed those lines, ended with that status and left that image.
pub fn left<R: Abort>(
    rt: &R,
    end: &End,
    status: u8,
    lines: &str,
    image: &[u8],
) -> Result<(), Fail> {
    printed(rt, end, status, lines)?;
    assert!(rt; end.image.as_slice() == image);
    Ok(())
}

/// That a run ended with that status, and that what it printed ends so.
pub fn ends_with<R: Abort>(rt: &R, end: &End, status: u8, last: &[u8]) -> Result<(), Fail> {
    assert_eq!(rt; end.status, status);
    assert!(rt; end.printed.ends_with(last));
    Ok(())
}

/// Runs the program as `run` does. It is to end with that status and to print those lines.
pub fn tells<R: Abort + AllocGlobal>(
    rt: &R,
    list: &[&str],
    image: Vec<u8>,
    job: &str,
    failing: FailingCalls,
    status: u8,
    lines: &str,
) -> Result<(), Fail> {
    let end = run(rt.alloc(), list, image, job, failing)?;
    printed(rt, &end, status, lines)
}

/// The same over an image that is to stay as it is.
pub fn keeps<R: Abort + AllocGlobal>(
    rt: &R,
    list: &[&str],
    image: &[u8],
    job: &str,
    failing: FailingCalls,
    status: u8,
    lines: &str,
) -> Result<(), Fail> {
    let end = run(rt.alloc(), list, image.to_vec(rt.alloc())?, job, failing)?;
    left(rt, &end, status, lines, image)
}

/// Runs a job over an image while nothing fails. It is to end with that status and to print those lines.
pub fn expect<R: Abort + AllocGlobal>(
    rt: &R,
    image: Vec<u8>,
    job: &str,
    status: u8,
    lines: &str,
) -> Result<End, Fail> {
    let end = run(rt.alloc(), &["run", "v"], image, job, NOTHING_FAILS)?;
    printed(rt, &end, status, lines)?;
    Ok(end)
}

/// The same over a fresh volume.
pub fn expect_fresh<R: Abort + AllocGlobal>(
    rt: &R,
    job: &str,
    status: u8,
    lines: &str,
) -> Result<End, Fail> {
    expect(rt, fresh(rt.alloc())?, job, status, lines)
}

/// That a job ends so over a fresh volume, of which nothing more is asked.
pub fn prints<R: Abort + AllocGlobal>(
    rt: &R,
    job: &str,
    status: u8,
    lines: &str,
) -> Result<(), Fail> {
    let _end = expect_fresh(rt, job, status, lines)?;
    Ok(())
}

/// The image that a job leaves which ends so over a fresh volume.
pub fn image_after<R: Abort + AllocGlobal>(
    rt: &R,
    job: &str,
    status: u8,
    lines: &str,
) -> Result<Vec<u8>, Fail> {
    let end = expect_fresh(rt, job, status, lines)?;
    Ok(end.image)
}

/// Checks an image, which is to stay as it is, with that status and that line.
pub fn checked<R: Abort + AllocGlobal>(
    rt: &R,
    image: &[u8],
    status: u8,
    line: &str,
) -> Result<(), Fail> {
    keeps(rt, &["check", "v"], image, "", NOTHING_FAILS, status, line)
}

/// That a job over a fresh volume ends so, and that a check of what it leaves prints that line.
pub fn leaves<R: Abort + AllocGlobal>(
    rt: &R,
    job: &str,
    status: u8,
    lines: &str,
    sound: &str,
) -> Result<(), Fail> {
    let end = expect_fresh(rt, job, status, lines)?;
    checked(rt, &end.image, 0, sound)
}

/// That a check of an image prints one line, and a check of what a job without a call leaves of it another.
pub fn opened<R: Abort + AllocGlobal>(
    rt: &R,
    image: &[u8],
    before: &str,
    after: &str,
) -> Result<(), Fail> {
    checked(rt, image, 0, before)?;
    let copy = image.to_vec(rt.alloc())?;
    let end = expect(rt, copy, "calls = []", 0, "end 0 faults 0 seal 0\n")?;
    checked(rt, &end.image, 0, after)
}

/// Whether an image is that of a fresh volume.
pub fn is_fresh(alloc: Global, image: &[u8]) -> Result<bool, Fail> {
    let fresh = fresh(alloc)?;
    Ok(fresh.as_slice() == image)
}

// The status of a run without a call over a copy of that image, one read of which fails.
fn status_without_read(alloc: Global, image: &[u8], read: u64) -> Result<u8, Fail> {
    let reads = [read];
    let failing = FailingCalls {
        reads: &reads,
        ..NOTHING_FAILS
    };
    let end = run(
        alloc,
        &["run", "v"],
        image.to_vec(alloc)?,
        "calls = []",
        failing,
    )?;
    Ok(end.status)
}

/// The number of the disk's first read after the opening: a run without a call makes none.
pub fn first_read(alloc: Global, image: &[u8]) -> Result<u64, Fail> {
    for read in 1..1000 {
        if status_without_read(alloc, image, read)? == 0 {
            return Ok(read);
        }
    }
    Err("the opening does not end".into())
}

/// That a job ends so over a fresh volume whose first read after the opening fails.
pub fn prints_without_its_first_read<R: Abort + AllocGlobal>(
    rt: &R,
    job: &str,
    lines: &str,
) -> Result<(), Fail> {
    let image = fresh(rt.alloc())?;
    let reads = [first_read(rt.alloc(), &image)?];
    let failing = FailingCalls {
        reads: &reads,
        ..NOTHING_FAILS
    };
    tells(rt, &["run", "v"], image, job, failing, 0, lines)
}

/// The numbers of the operations that were replayed, in order.
fn replayed(alloc: Global, trail: &[Step]) -> Result<Vec<u32>, AllocError> {
    let mut numbers = Vec::new(alloc);
    for step in trail {
        if let Step::Replayed(number) = step {
            numbers.push(*number)?;
        }
    }
    Ok(numbers)
}

/// Whether the copies of any caller were stale.
pub fn is_stale(trail: &[Step]) -> bool {
    for step in trail {
        if let Step::Stale(_, _) = step {
            return true;
        }
    }
    false
}

/// Whether no operation was replayed.
pub fn replays_nothing(trail: &[Step]) -> bool {
    for step in trail {
        if let Step::Replayed(_) = step {
            return false;
        }
    }
    true
}

/// The callers whose copies were stale, in order.
fn stale(alloc: Global, trail: &[Step]) -> Result<Vec<u8>, AllocError> {
    let mut callers = Vec::new(alloc);
    for step in trail {
        if let Step::Stale(ticket, _) = step {
            callers.push(ticket.caller)?;
        }
    }
    Ok(callers)
}

/// The callers whose calls were unwound, in order.
fn unwound(alloc: Global, trail: &[Step]) -> Result<Vec<u8>, AllocError> {
    let mut callers = Vec::new(alloc);
    for step in trail {
        if let Step::Unwound(ticket) = step {
            callers.push(ticket.caller)?;
        }
    }
    Ok(callers)
}

fn are_numbers<R: Abort>(rt: &R, found: &[u32], wanted: &[u32]) -> Result<(), Fail> {
    assert_eq!(rt; found, wanted);
    Ok(())
}

fn are_callers<R: Abort>(rt: &R, found: &[u8], wanted: &[u8]) -> Result<(), Fail> {
    assert_eq!(rt; found, wanted);
    Ok(())
}

/// That a run replayed the operations with these numbers.
pub fn replays<R: Abort + AllocGlobal>(rt: &R, end: &End, numbers: &[u32]) -> Result<(), Fail> {
    let found = replayed(rt.alloc(), &end.trail)?;
    are_numbers(rt, &found, numbers)
}

/// That the copies of these callers were stale.
pub fn stales<R: Abort + AllocGlobal>(rt: &R, end: &End, callers: &[u8]) -> Result<(), Fail> {
    let found = stale(rt.alloc(), &end.trail)?;
    are_callers(rt, &found, callers)
}

/// That the calls of these callers were unwound.
pub fn unwinds<R: Abort + AllocGlobal>(rt: &R, end: &End, callers: &[u8]) -> Result<(), Fail> {
    let found = unwound(rt.alloc(), &end.trail)?;
    are_callers(rt, &found, callers)
}

/// That a run replayed these operations, and that a check of what it left prints that line.
pub fn replays_and_leaves<R: Abort + AllocGlobal>(
    rt: &R,
    end: &End,
    numbers: &[u32],
    sound: &str,
) -> Result<(), Fail> {
    replays(rt, end, numbers)?;
    checked(rt, &end.image, 0, sound)
}

/// That the copies of these callers were stale, and that a check of what the run left prints that line.
pub fn stales_and_leaves<R: Abort + AllocGlobal>(
    rt: &R,
    end: &End,
    callers: &[u8],
    sound: &str,
) -> Result<(), Fail> {
    stales(rt, end, callers)?;
    checked(rt, &end.image, 0, sound)
}
