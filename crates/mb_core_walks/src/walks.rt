//! Walks of a job through the events of a core, over the fresh volume of 100 blocks and 16 inodes in memory.
ghost use Rattle.mb_headline.specs.Laws.{IsFitJob};
ghost use Rattle.mb_run.specs.CoreSight.{sight_of};
ghost use Rattle.mb_run.specs.Drives.{IsBegun};

use crate::notes::EventNotes;
use crate::recorder::Recorder;
use mb_check::{OpenFault, sound};
use mb_core_events::{Core, Refusal};
use mb_core_spec::Step;
use mb_edge::{Bytes, Fails, MemDisk};
use mb_fsops::V7;
use mb_headline::{begin_for, jobs_are_fit};
use mb_jobs::{Job, Text, job_of};
use mb_kinds::{Entry, FaultRecord, Reply, Seq};
use mb_mkfs::make;
use mb_model_walks::{Difference, first_difference};
use mb_print::transcript;
use mb_run::{DriveEnd, Driven, SettleEnd, Settled, drive, settle};
use mb_tree::{Body, DOT, DOT_DOT, Machine, Map, Node, PlainSlot, Seat, Tree};
use mb_volume_core::VolumeCore;
use std::alloc::Global;
use std::test::Fail;

const BLOCKS: u32 = 100;

const INODES: u16 = 16;

/// Which calls of the disk fail, each kind numbered from 1: how many blocks it has, its reads, and its writes.
#[derive(Clone, Copy, Drop)]
pub struct Failing<'a> {
    pub sizes: &'a [u64],
    pub reads: &'a [u64],
    pub writes: &'a [u64],
}

/// The disk never fails.
pub const NOTHING_FAILS: Failing<'static> = Failing {
    sizes: &[],
    reads: &[],
    writes: &[],
};

/// What a core tells at the end of a walk.
#[derive(Drop)]
pub struct Told {
    /// The printed history.
    pub transcript: Text,
    /// Each entry's caller, with its place in that caller's list, from 1.
    pub entries: Vec<(u8, u32)>,
    /// How many entries say that the disk failed.
    pub ended_by_disk: u32,
    pub records: Vec<FaultRecord>,
    pub trail: Vec<Step>,
    /// At how many entries the last checkpoint was taken.
    pub sealed_at: u32,
    /// The first entry that is not the reference model's.
    pub apart: Option<Difference>,
}

/// What a walk left.
#[derive(Drop)]
pub struct WalkEnd {
    /// How it ended, before its end was settled.
    pub end: DriveEnd,
    /// What the events were answered.
    pub notes: EventNotes,
    pub told: Told,
    /// How the end of the walk went, and how once it was settled again.
    pub settled: [SettleEnd; 2],
    /// Whether the image is a volume.
    pub sound: bool,
    pub image: Vec<u8>,
}

/// The bytes of a disk on which a volume is made.
fn made(alloc: Global, disk: &mut MemDisk) -> Result<Vec<u8>, Fail> {
    match make(disk, BLOCKS, u32::from(INODES)) {
        Ok(()) => Ok(disk.bytes().to_vec(alloc)?),
        Err(_) => Err("no volume is made".into()),
    }
}

/// The bytes of a fresh volume.
fn fresh(alloc: Global) -> Result<Vec<u8>, Fail> {
    let none = Bytes::from_vec(Vec::new(alloc));
    let never = || Fails::new(alloc);
    let mut disk = MemDisk::new(alloc, none, BLOCKS, never(), never(), never())?;
    made(alloc, &mut disk)
}

fn fails(alloc: Global, calls: &[u64]) -> Result<Fails, Fail> {
    Ok(Fails::from_vec(calls.to_vec(alloc)?))
}

/// A disk with an image, on which these calls fail: how many blocks it has, its reads, and its writes.
fn with_image(
    alloc: Global,
    image: Vec<u8>,
    sizes: Fails,
    reads: Fails,
    writes: Fails,
) -> Result<MemDisk, Fail> {
    if image.len() / 512 > BLOCKS as usize {
        return Err("the volume has more blocks than the disk".into());
    }
    let image = Bytes::from_vec(image);
    Ok(MemDisk::new(alloc, image, BLOCKS, sizes, reads, writes)?)
}

/// A disk with an image, some calls of which fail.
fn disk(alloc: Global, image: Vec<u8>, failing: Failing) -> Result<MemDisk, Fail> {
    let sizes = fails(alloc, failing.sizes)?;
    let reads = fails(alloc, failing.reads)?;
    let writes = fails(alloc, failing.writes)?;
    with_image(alloc, image, sizes, reads, writes)
}

/// Whether an image is a volume.
fn is_volume(alloc: Global, image: &[u8]) -> Result<bool, Fail> {
    let mut disk = disk(alloc, image.to_vec(alloc)?, NOTHING_FAILS)?;
    Ok(sound(alloc, &mut disk).is_ok())
}

/// The two slots of the root.
fn dots(alloc: Global) -> Result<Seq<PlainSlot>, Fail> {
    let mut slots = Seq::new(alloc);
    slots.push(PlainSlot { ino: 2, name: DOT })?;
    slots.push(PlainSlot {
        ino: 2,
        name: DOT_DOT,
    })?;
    Ok(slots)
}

/// The root alone, as it is made.
fn root(alloc: Global) -> Result<Node, Fail> {
    let slots = dots(alloc)?;
    Ok(Node {
        mode: 0o040777,
        nlink: 2,
        uid: 0,
        gid: 0,
        atime: 0,
        mtime: 0,
        ctime: 0,
        body: Body::Directory { slots },
    })
}

/// The tree of that volume: 100 blocks are the boot block, the super-block, 2 blocks of inodes, and 96 that files can have.
fn fresh_tree(alloc: Global) -> Result<Tree, Fail> {
    let root = root(alloc)?;
    let mut nodes = Map::new(alloc);
    nodes.insert(2, root)?;
    Ok(Tree {
        nodes,
        last: INODES,
        cap: 96,
    })
}

/// The sessions of the callers of a job, who begin in the root.
fn fresh_seats(alloc: Global, job: &Job) -> Result<Seq<Seat>, Fail> {
    let mut seats = Seq::new(alloc);
    for caller in job.callers.as_slice() {
        seats.push(Seat::new(caller.cred, 2))?;
    }
    Ok(seats)
}

/// The reference model on that volume, for the callers of a job.
fn fresh_machine(alloc: Global, job: &Job) -> Result<Machine, Fail> {
    let tree = fresh_tree(alloc)?;
    let seats = fresh_seats(alloc, job)?;
    Ok(Machine { tree, seats })
}

/// The job of a text.
pub fn job(alloc: Global, text: &str) -> Result<Job, Fail> {
    Ok(job_of(alloc, text.as_bytes())?)
}

/// Runs a job over a fresh volume on a disk, some calls of which fail, event after event. The end is settled twice: a disk
/// that failed once lets the second through. A volume that cannot be opened is answered with the cause.
pub fn walk(
    alloc: Global,
    text: &str,
    failing: Failing,
) -> Result<Result<WalkEnd, OpenFault>, Fail> {
    jobs_are_fit();
    let job = job_of(alloc, text.as_bytes())?;
    walk_job(alloc, &job, failing)
}

/// The same of a job that was read.
fn walk_job(alloc: Global, job: &Job, failing: Failing) -> Result<Result<WalkEnd, OpenFault>, Fail>
    requires { IsFitJob job.now }
{
    let image = fresh(alloc)?;
    let disk = disk(alloc, image, failing)?;
    match begin_for(alloc, V7, disk, job) {
        Ok(core) => Ok(Ok(walk_over(alloc, core, job)?)),
        Err(Refusal { fault, disk: _ }) => Ok(Err(fault)),
    }
}

/// Each entry's caller, with its place in that caller's list.
fn entries_of(alloc: Global, history: &[Entry]) -> Result<Vec<(u8, u32)>, Fail> {
    let mut entries = Vec::new(alloc);
    for entry in history {
        entries.push((entry.caller, entry.ordinal))?;
    }
    Ok(entries)
}

/// How many entries say that the disk failed.
fn ended_by_disk(history: &[Entry]) -> u32 {
    let mut count = 0u32;
    for entry in history {
        if matches!(entry.reply, Reply::Device) {
            count = count.saturating_add(1);
        }
    }
    count
}

/// The first entry that is not a machine's.
fn apart_from(
    alloc: Global,
    machine: &mut Machine,
    history: &[Entry],
) -> Result<Option<Difference>, Fail> {
    Ok(first_difference(alloc, machine, history)?)
}

/// The first entry that is not the reference model's.
fn first_apart(alloc: Global, job: &Job, history: &[Entry]) -> Result<Option<Difference>, Fail> {
    let mut machine = fresh_machine(alloc, job)?;
    apart_from(alloc, &mut machine, history)
}

/// What a core tells, list by list.
fn tell_lists(
    alloc: Global,
    core: &Core<V7, MemDisk>,
    job: &Job,
    told: &mut Told,
) -> Result<(), Fail> {
    told.transcript = transcript(alloc, job, core.history())?;
    told.entries = entries_of(alloc, core.history())?;
    told.records = core.records().to_vec(alloc)?;
    told.trail = core.trail().to_vec(alloc)?;
    told.apart = first_apart(alloc, job, core.history())?;
    Ok(())
}

/// What a core tells.
fn tell(alloc: Global, core: &Core<V7, MemDisk>, job: &Job) -> Result<Told, Fail> {
    let mut told = Told {
        transcript: Text::from_vec(Vec::new(alloc)),
        entries: Vec::new(alloc),
        ended_by_disk: ended_by_disk(core.history()),
        records: Vec::new(alloc),
        trail: Vec::new(alloc),
        sealed_at: core.sealed_at(),
        apart: None,
    };
    tell_lists(alloc, core, job, &mut told)?;
    Ok(told)
}

/// A core at the end of a walk, with what its events were answered, and how the end went.
struct Ended {
    core: Core<V7, MemDisk>,
    notes: EventNotes,
    end: DriveEnd,
    settled: [SettleEnd; 2],
}

fn walk_to_the_end(alloc: Global, core: Core<V7, MemDisk>, job: &Job) -> Ended
    requires fit { IsFitJob job.now }
    requires begun { IsBegun job.now (sight_of core) }
{
    let mut hook = job.plan.hook();
    let recorder = Recorder {
        core: VolumeCore { core },
        notes: EventNotes::new(alloc),
    };
    let Driven { core, end } = drive(alloc, recorder, job, &mut hook);
    let Settled { core, end: first } = settle(alloc, core);
    let Settled { core, end: second } = settle(alloc, core);
    let Recorder { core, notes } = core;
    let VolumeCore { core } = core;
    Ended {
        core,
        notes,
        end,
        settled: [first, second],
    }
}

/// The image of a disk, and whether it is a volume.
fn image_of(alloc: Global, disk: &MemDisk) -> Result<(bool, Vec<u8>), Fail> {
    let image = disk.bytes().to_vec(alloc)?;
    let sound = is_volume(alloc, &image)?;
    Ok((sound, image))
}

/// What a core told, with the image of its disk.
fn look_at_disk(
    alloc: Global,
    told: Result<Told, Fail>,
    disk: &MemDisk,
) -> Result<(Told, bool, Vec<u8>), Fail> {
    let told = told?;
    let (sound, image) = image_of(alloc, disk)?;
    Ok((told, sound, image))
}

/// What a core left, but for what its events were answered.
fn look_at(
    alloc: Global,
    core: Core<V7, MemDisk>,
    job: &Job,
) -> Result<(Told, bool, Vec<u8>), Fail> {
    let told = tell(alloc, &core, job);
    let disk = core.into_disk();
    look_at_disk(alloc, told, &disk)
}

fn walk_over(alloc: Global, core: Core<V7, MemDisk>, job: &Job) -> Result<WalkEnd, Fail>
    requires fit { IsFitJob job.now }
    requires begun { IsBegun job.now (sight_of core) }
{
    let Ended {
        core,
        notes,
        end,
        settled,
    } = walk_to_the_end(alloc, core, job);
    let (told, sound, image) = look_at(alloc, core, job)?;
    Ok(WalkEnd {
        end,
        notes,
        told,
        settled,
        sound,
        image,
    })
}
