//! Jobs whose callers run in threads of their own, over fresh volumes in memory, beside the reference model.
ghost use Rattle.std.specs.Prelude.{◌≡◌, ℕ, List, Ok};
ghost use Rattle.mb_jobs.specs.Job.{job_in};

use mb_check::sound;
use mb_core_events::Refusal;
use mb_edge::{Bytes, Fails, Hook, MemDisk};
use mb_fsops::V7;
use mb_headline::{begin_for, jobs_are_fit};
use mb_jobs::Job;
use mb_kinds::{FaultRecord, Seq};
use mb_mkfs::make;
use mb_model_walks::{Difference, first_difference};
use mb_run::{DriveEnd, Driven, SettleEnd, Settled, settle};
use mb_threads::drive_threads;
use mb_tree::{Body, DOT, DOT_DOT, Machine, Map, Node, PlainSlot, Seat, Tree};
use mb_volume_core::VolumeCore;
use std::alloc::Global;
use std::sync::Wait;
use std::test::Fail;
use std::thread::Threads;

const BLOCKS: u32 = 512;

const INODES: u16 = 128;

/// What a run left: how it ended, how many entries its history has, its fault records, the first entry that is not the
/// reference model's, how the end of the run went, and whether the image is a volume.
#[derive(Drop)]
pub struct LeftByRun {
    pub end: DriveEnd,
    pub entries: usize,
    pub records: Vec<FaultRecord>,
    pub apart: Option<Difference>,
    pub settled: SettleEnd,
    pub sound: bool,
}

/// A fresh volume of 512 blocks and 128 inodes.
fn fresh(alloc: Global) -> Result<MemDisk, Fail> {
    let none = Bytes::from_vec(Vec::new(alloc));
    let never = || Fails::new(alloc);
    let mut disk = MemDisk::new(alloc, none, BLOCKS, never(), never(), never())?;
    match make(&mut disk, BLOCKS, u32::from(INODES)) {
        Ok(()) => Ok(disk),
        Err(_) => Err("no volume is made".into()),
    }
}

/// The root alone, as it is made.
fn root(alloc: Global) -> Result<Node, Fail> {
    let mut slots = Seq::new(alloc);
    slots.push(PlainSlot { ino: 2, name: DOT })?;
    slots.push(PlainSlot {
        ino: 2,
        name: DOT_DOT,
    })?;
    Ok(Node {
        mode: 0o040777,
        nlink: 2,
        uid: 0,
        gid: 0,
        atime: 0,
        mtime: 0,
        ctime: 0,
        body: Body::Directory { slots },
    })
}

/// The reference model on that volume, for the callers of a job: 512 blocks are the boot block, the super-block, 16 blocks of
/// inodes, and 494 that files can have.
fn fresh_machine(alloc: Global, job: &Job) -> Result<Machine, Fail> {
    let mut nodes = Map::new(alloc);
    nodes.insert(2, root(alloc)?)?;
    let mut seats = Seq::new(alloc);
    for caller in job.callers.as_slice() {
        seats.push(Seat::new(caller.cred, 2))?;
    }
    let tree = Tree {
        nodes,
        last: INODES,
        cap: 494,
    };
    Ok(Machine { tree, seats })
}

/// Runs the callers of a job in threads of their own, over a fresh volume, each with its fault injector.
pub fn run<H: Hook + Send + Drop, R: Threads + Wait + Sync + AllocGlobal>(
    rt: &R,
    job: &Job,
    hooks: Vec<H>,
) -> Result<LeftByRun, Fail>
    requires { (bytes : List ℕ) × (job_in bytes ≡ Ok job.now) }
{
    let alloc: Global = rt.alloc();
    let mut machine = fresh_machine(alloc, job)?;
    if hooks.len() != job.callers.len() {
        return Err("each caller has a fault injector".into());
    }
    jobs_are_fit();
    let core = match begin_for(alloc, V7, fresh(alloc)?, job) {
        Ok(core) => core,
        Err(Refusal { fault: _, disk: _ }) => return Err("no core is begun".into()),
    };
    let Driven { core, end } = drive_threads(rt, alloc, VolumeCore { core }, job, hooks);
    let entries = core.core.history().len();
    let records = core.core.records().to_vec(alloc);
    let apart = first_difference(alloc, &mut machine, core.core.history());
    let Settled { core, end: settled } = settle(alloc, core);
    let VolumeCore { core } = core;
    let mut disk = core.into_disk();
    let sound = sound(alloc, &mut disk).is_ok();
    Ok(LeftByRun {
        end,
        entries,
        records: records?,
        apart: apart?,
        settled,
        sound,
    })
}
