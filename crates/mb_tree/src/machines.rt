ghost use Rattle.std.specs.Prelude.{◌≡◌, ◌<◌, IfOk, OnErr, length, slice_get, Some};
ghost use Rattle.mb_tree.specs.Results.{Gives, Serves};
ghost use Rattle.mb_tree.specs.Plans.{IsPlanFor};
ghost use Rattle.mb_tree.specs.Rows.{row};
ghost use Rattle.mb_tree.specs.Step.{serve, step};

use crate::effects::act;
use crate::file_rows::{close_row, dup_row, exit_row, fstat_row, lseek_row, read_row, write_row};
use crate::nodes::Nodes;
use crate::path_rows::{
    access_row, chdir_row, chmod_row, chown_row, creat_row, link_row, mkdir_row, open_row,
    rmdir_row, stat_row, unlink_row, utime_row,
};
use crate::plans::{CallPlan, answered, changing};
use crate::seats::{Seat, Seats, SessionChange, change_session};
use crate::stops::Stop;
use crate::trees::Tree;
use mb_kinds::{Call, NoMemory, Reply};
use std::alloc::Global;

/// The reference model: a tree and the callers' sessions.
#[derive(Drop)]
pub struct Machine {
    pub tree: Tree,
    pub seats: Seats,
}

/// The plan of a call.
fn row(
    alloc: Global,
    nodes: &Nodes,
    seats: &[Seat],
    seat: &Seat,
    call: &Call,
    moment: u32,
    pick: Option<u16>,
) -> Result<CallPlan, Stop>
    ensures row { Gives (λ plan. plan) result (row nodes.now seats.now seat.now call.now moment pick) }
    ensures ready { IfOk result (λ plan. IsPlanFor seat.now plan) }
{
    match call {
        Call::Open { path, how } => open_row(alloc, nodes, seat, path.as_slice(), *how),
        Call::Creat { path, mode } => creat_row(
            alloc,
            nodes,
            seat,
            path.as_slice(),
            *mode,
            moment,
            pick,
        ),
        Call::Close { fd } => close_row(alloc, seat, *fd),
        Call::Read { fd, count } => read_row(alloc, nodes, seat, *fd, *count),
        Call::Write { fd, bytes } => write_row(alloc, seat, *fd, bytes, moment),
        Call::Lseek { fd, offset, whence } => lseek_row(nodes, seat, *fd, *offset, *whence),
        Call::Dup { fd } => dup_row(seat, *fd),
        Call::Link { from, to } => link_row(
            alloc,
            nodes,
            seat,
            from.as_slice(),
            to.as_slice(),
            moment,
        ),
        Call::Unlink { path } => unlink_row(alloc, nodes, seat, path.as_slice(), moment),
        Call::Mkdir { path, mode } => mkdir_row(alloc, nodes, seat, path.as_slice(), *mode, moment),
        Call::Rmdir { path } => rmdir_row(alloc, nodes, seats, seat, path.as_slice(), moment),
        Call::Chdir { path } => chdir_row(alloc, nodes, seat, path.as_slice()),
        Call::Stat { path } => stat_row(alloc, nodes, seat, path.as_slice()),
        Call::Fstat { fd } => fstat_row(nodes, seat, *fd),
        Call::Chmod { path, mode } => chmod_row(alloc, nodes, seat, path.as_slice(), *mode, moment),
        Call::Chown { path, uid, gid } => chown_row(
            alloc,
            nodes,
            seat,
            path.as_slice(),
            *uid,
            *gid,
            moment,
        ),
        Call::Utime { path, atime, mtime } => utime_row(
            alloc,
            nodes,
            seat,
            path.as_slice(),
            *atime,
            *mtime,
            moment,
        ),
        Call::Access { path, bits } => access_row(alloc, nodes, seat, path.as_slice(), *bits),
        Call::Umask { mask } => Ok(changing(
            Reply::Num(u32::from(seat.umask)),
            SessionChange::Mask {
                mask: *mask & 0o777,
            },
        )),
        Call::Sync => Ok(answered(Reply::Num(0))),
        Call::Exit => exit_row(alloc, seat),
    }
}

impl Machine {
    fn serve(
        &mut self,
        alloc: Global,
        caller: usize,
        call: &Call,
        moment: u32,
        pick: Option<u16>,
    ) -> Result<Reply, Stop>
        requires { caller < length self.old.seats }
        ensures { Serves result self.old self.new (serve self.old caller call.now moment pick) }
    {
        let Some(seat) = self.seats.get(caller) else {
            return Err(Stop::NoMemory);
        };
        let plan = row(
            alloc,
            &self.tree.nodes,
            self.seats.as_slice(),
            seat,
            call,
            moment,
            pick,
        )?;
        act(alloc, &mut self.tree, self.seats.as_slice(), &plan.op, pick)?;
        change_session(&mut self.seats, caller, plan.session);
        Ok(plan.reply)
    }

    /// Makes one call of a declared caller, as V7's section 2 and this project's table of calls have
    /// it: `moment` is the time that the call writes, `pick` the free number of the inode that the call
    /// makes, `None` where it makes none. A refused call leaves the machine as it was, and so does want
    /// of memory, which is the only error.
    pub fn step(
        &mut self,
        alloc: Global,
        caller: u8,
        call: &Call,
        moment: u32,
        pick: Option<u16>,
    ) -> Result<Reply, NoMemory>
        requires { caller < length self.old.seats }
        ensures step { IfOk result (λ reply. step self.old caller call.now moment pick ≡ (reply, self.new)) }
        ensures err { OnErr result (self.new ≡ self.old) }
    {
        match self.serve(alloc, usize::from(caller), call, moment, pick) {
            Ok(reply) => Ok(reply),
            Err(Stop::Refused(error)) => Ok(Reply::Refused(error)),
            Err(Stop::NoMemory) => Err(NoMemory),
        }
    }
}
