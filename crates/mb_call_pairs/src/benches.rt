ghost use Rattle.std.specs.Prelude.{◌<◌, IfOk, length};
ghost use Rattle.mb_calls.specs.Following.{ViewGrows};
ghost use Rattle.mb_kinds.specs.Changed.{changed};
ghost use Rattle.mb_tree.specs.Sessions.{HasDescriptorInRange};

use mb_calls::{Performed, Performing, ReadyCall, perform, walks_go_on};
use mb_edge::MemDisk;
use mb_fsops::V7;
use mb_gathering::{GatheredBlocks, SMALL, Size, disk_of, fresh, gather, nothing};
use mb_iface::{Changes, Opens};
use mb_kinds::{Call, Cred, Creds, Reply};
use mb_tables::Tables;
use mb_tree::{FsOp, Seat, SessionChange};
use std::alloc::Global;
use std::test::Fail;

/// A volume in memory with its callers' sessions and the counts of their open files.
#[derive(Drop)]
pub(crate) struct Bench {
    heap: Global,
    size: Size,
    disk: GatheredBlocks,
    tables: Tables,
}

/// What a call was answered, the number of the inode that it made, and the operation that it did.
#[derive(Drop)]
pub struct Answered {
    pub reply: Reply,
    pub pick: Option<u16>,
    pub op: Option<FsOp>,
}

/// Gathers what a call asks for; nothing where it met want of memory.
fn gather_for(
    disk: &GatheredBlocks,
    view: &mut GatheredBlocks,
    performed: Performed,
) -> Result<(), Fail>
    ensures { ViewGrows (changed view.old.blocks) (changed view.new.blocks) }
{
    match performed {
        Performed::Need(need) => return gather(disk, view, need),
        Performed::NoMemory => return Ok(()),
        Performed::Ready(_) => return Err("a call that is ready does not go on".into()),
    }
}

/// Goes on with a call until it asks for no block any longer, also where it met want of memory.
fn ready(
    heap: Global,
    disk: &GatheredBlocks,
    seats: &[Seat],
    opens: &Opens,
    caller: u8,
    call: &Call,
    moment: u32,
) -> Result<ReadyCall, Fail>
    requires { caller < length seats.now }
    ensures { IfOk result (λ ready. HasDescriptorInRange ready.session) }
{
    walks_go_on();
    let mut view = nothing(heap);
    let mut performing = Performing::new(&seats[usize::from(caller)]);
    for _ in 0..400 {
        match performing.go(heap, &V7, &view, seats, opens, caller, call, moment) {
            Performed::Ready(ready) => return Ok(ready),
            other => gather_for(disk, &mut view, other)?,
        }
    }
    Err("a call asks too often".into())
}

impl Bench {
    /// The fresh volume of a size, with callers that begin.
    pub(crate) fn new(heap: Global, callers: &Creds, size: Size) -> Result<Bench, Fail> {
        Ok(Bench {
            heap,
            size,
            disk: fresh(heap, size)?,
            tables: Tables::new(heap, callers)?,
        })
    }

    /// The small volume with one caller, of uid 0 and gid 0.
    pub(crate) fn of_root(heap: Global) -> Result<Bench, Fail> {
        let creds = Creds::from_vec([Cred { uid: 0, gid: 0 }].to_vec(heap)?);
        Bench::new(heap, &creds, SMALL)
    }

    /// The blocks of the volume.
    pub(crate) fn volume(&self) -> &GatheredBlocks {
        &self.disk
    }

    /// A disk of the volume.
    pub(crate) fn disk(&self) -> Result<MemDisk, Fail> {
        disk_of(self.heap, &self.disk, self.size)
    }

    /// The sessions of all callers.
    fn seats(&self) -> Result<Vec<Seat>, Fail> {
        let sessions = self.tables.sessions();
        let mut seats = Vec::new(self.heap);
        for caller in 0..sessions.callers() {
            seats.push(sessions.seat(caller).copied())?;
        }
        Ok(seats)
    }

    /// What a call comes to, before anything is changed.
    fn planned(&self, caller: u8, call: &Call, moment: u32) -> Result<ReadyCall, Fail>
        ensures { IfOk result (λ ready. HasDescriptorInRange ready.session) }
    {
        let seats = self.seats()?;
        if usize::from(caller) >= seats.len() {
            return Err("there is no such caller".into());
        }
        let opens = self.tables.opens();
        ready(self.heap, &self.disk, &seats, opens, caller, call, moment)
    }

    /// What a call comes to where all blocks are there from the beginning.
    pub(crate) fn performed(
        &self,
        caller: u8,
        call: &Call,
        moment: u32,
    ) -> Result<Performed, Fail> {
        let seats = self.seats()?;
        if usize::from(caller) >= seats.len() {
            return Err("there is no such caller".into());
        }
        let opens = self.tables.opens();
        Ok(perform(
            self.heap, &V7, &self.disk, &seats, opens, caller, call, moment,
        ))
    }

    /// Does what a call comes to: to its caller's session, the counts of open files and the volume.
    fn follow(
        &mut self,
        caller: u8,
        op: &Option<FsOp>,
        pick: Option<u16>,
        session: SessionChange,
        changes: Changes,
    ) -> Result<(), Fail>
        requires { HasDescriptorInRange session }
    {
        if caller >= self.tables.sessions().callers() || self.tables.stamp() == u64::MAX {
            return Err("a session cannot change".into());
        }
        self.tables.log(caller, op, pick, session)?;
        self.disk.blocks.absorb(changes)?;
        Ok(())
    }

    /// Makes a call.
    pub(crate) fn call(&mut self, caller: u8, call: &Call, moment: u32) -> Result<Answered, Fail> {
        let ReadyCall {
            reply,
            op,
            pick,
            changes,
            session,
            shared: _,
        } = self.planned(caller, call, moment)?;
        self.follow(caller, &op, pick, session, changes)?;
        Ok(Answered { reply, pick, op })
    }
}
