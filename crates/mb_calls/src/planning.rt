ghost use Rattle.std.specs.Prelude.{IfOk};
ghost use Rattle.mb_tree.specs.Plans.{IsPlanFor};
ghost use Rattle.mb_tree.specs.Rows.{fstat_row, lseek_row, read_row};
ghost use Rattle.mb_tree.specs.Trees.{IsThere};
ghost use Rattle.mb_calls.specs.Asks.{NearCall, NearFile, NearInode, PlansAlone, PlansRow, TellsBase};
ghost use Rattle.mb_calls.specs.Following.{AreWalks};
ghost use Rattle.mb_calls.specs.Halts.{Needs, SaysOnEach};
ghost use Rattle.mb_calls.specs.Halts.Scope.{lacking};

use crate::asks::{bytes, find, info, place, used};
use crate::decisions::{
    access_asked, chdir_asked, chmod_asked, chown_asked, lseek_asked, open_asked, read_asked,
    stat_asked, unasked, utime_asked,
};
use crate::halts::Halt;
use crate::spots::{creat_spot, link_spot, mkdir_spot, rmdir_spot, unlink_spot};
use crate::walks::PathWalks;
use mb_iface::{FileSys, Opens, View};
use mb_kinds::{Call, Errno, Reply, Whence};
use mb_tree::{
    CallPlan, PlainFile, Seat, SessionChange, answered, changing, close_row, dup_row, exit_row,
    open_file, reads, write_row,
};
use std::alloc::Global;

/// read(2).
fn read_row<F: FileSys, V: View>(
    alloc: Global,
    fs: &F,
    view: &V,
    seat: &Seat,
    fd: u16,
    count: u16,
) -> Result<CallPlan, Halt>
    ensures wants { Needs (lacking (V.shown view.now)) result }
    ensures says { SaysOnEach (V.shown view.now) seat.now result (λ tree. read_row tree.nodes seat.now fd count) }
    ensures near { NearFile (V.shown view.now) seat.now result }
    ensures ready { IfOk result (λ plan. IsPlanFor seat.now plan) }
{
    match open_file(seat, fd) {
        Ok(file) if reads(file.how) => {
            let asked = bytes(alloc, fs, view, file, count);
            read_asked(fd, file, asked)
        }
        _ => Err(Halt::Refused(Errno::EBADF)),
    }
}

/// fstat(2).
fn fstat_row<F: FileSys, V: View>(
    alloc: Global,
    fs: &F,
    view: &V,
    seat: &Seat,
    fd: u16,
) -> Result<CallPlan, Halt>
    ensures wants { Needs (lacking (V.shown view.now)) result }
    ensures says { SaysOnEach (V.shown view.now) seat.now result (λ tree. fstat_row tree.nodes seat.now fd) }
    ensures near { NearFile (V.shown view.now) seat.now result }
    ensures ready { IfOk result (λ plan. IsPlanFor seat.now plan) }
{
    match open_file(seat, fd) {
        Ok(file) => {
            let asked = info(alloc, fs, view, file.ino);
            stat_asked(asked)
        }
        Err(error) => Err(Halt::Refused(error)),
    }
}

/// The plan of a call that asks for the inode to which its path leads. It stands apart, as `plan_of_name` and
/// `plan_of_session` do, so that a call makes room for what is asked for calls of its own kind alone. A call of
/// another kind has no plan here.
#[inline(never)]
fn plan_of_inode<F: FileSys, V: View>(
    alloc: Global,
    fs: &F,
    view: &V,
    seat: &Seat,
    call: &Call,
    moment: u32,
    walks: &PathWalks,
) -> Result<CallPlan, Halt>
    requires going { AreWalks (V.shown view.now) seat.now call.now walks.now }
    ensures wants { Needs (lacking (V.shown view.now)) result }
    ensures says { PlansAlone (V.shown view.now) seat.now call.now moment result }
    ensures near { NearCall (V.shown view.now) seat.now call.now result }
    ensures ready { IfOk result (λ plan. IsPlanFor seat.now plan) }
{
    match call {
        Call::Open { path, how } => {
            let asked = find(alloc, fs, view, seat, path, &walks.first);
            open_asked(seat, asked, *how)
        }
        Call::Chdir { path } => {
            let asked = find(alloc, fs, view, seat, path, &walks.first);
            chdir_asked(seat, asked)
        }
        Call::Stat { path } => {
            let asked = find(alloc, fs, view, seat, path, &walks.first);
            stat_asked(asked)
        }
        Call::Chmod { path, mode } => {
            let asked = find(alloc, fs, view, seat, path, &walks.first);
            chmod_asked(seat, asked, *mode, moment)
        }
        Call::Chown { path, uid, gid } => {
            let asked = find(alloc, fs, view, seat, path, &walks.first);
            chown_asked(seat, asked, *uid, *gid, moment)
        }
        Call::Utime { path, atime, mtime } => {
            let asked = find(alloc, fs, view, seat, path, &walks.first);
            utime_asked(seat, asked, *atime, *mtime, moment)
        }
        Call::Access { path, bits } => {
            let asked = find(alloc, fs, view, seat, path, &walks.first);
            access_asked(seat, asked, *bits)
        }
        _ => Err(Halt::NoMemory),
    }
}

/// The plan of a call that asks for the place of a path. A call of another kind has none here.
#[inline(never)]
fn plan_of_name<F: FileSys, V: View>(
    alloc: Global,
    fs: &F,
    view: &V,
    seats: &[Seat],
    opens: &Opens,
    seat: &Seat,
    call: &Call,
    moment: u32,
    walks: &PathWalks,
) -> Result<CallPlan, Halt>
    requires going { AreWalks (V.shown view.now) seat.now call.now walks.now }
    ensures wants { Needs (lacking (V.shown view.now)) result }
    ensures says { PlansRow (V.shown view.now) opens.now seats.now seat.now call.now moment result }
    ensures near { NearCall (V.shown view.now) seat.now call.now result }
    ensures ready { IfOk result (λ plan. IsPlanFor seat.now plan) }
{
    match call {
        Call::Creat { path, mode } => {
            let spot = place(alloc, fs, view, seat, path, &walks.first);
            creat_spot(seat, *mode, moment, spot)
        }
        Call::Link { from, to } => {
            let asked = find(alloc, fs, view, seat, from, &walks.first);
            let spot = place(alloc, fs, view, seat, to, &walks.second);
            link_spot(seat, moment, asked, spot)
        }
        Call::Unlink { path } => {
            let spot = place(alloc, fs, view, seat, path, &walks.first);
            unlink_spot(seat, moment, spot)
        }
        Call::Mkdir { path, mode } => {
            let spot = place(alloc, fs, view, seat, path, &walks.first);
            mkdir_spot(seat, *mode, moment, spot)
        }
        Call::Rmdir { path } => {
            let spot = place(alloc, fs, view, seat, path, &walks.first);
            let used = used(alloc, fs, view, &spot);
            rmdir_spot(opens, seats, seat, moment, spot, used)
        }
        _ => Err(Halt::NoMemory),
    }
}

/// The plan of a call without a path: on an open file, or on the session alone. A call with one has none here.
#[inline(never)]
fn plan_of_session<F: FileSys, V: View>(
    alloc: Global,
    fs: &F,
    view: &V,
    seat: &Seat,
    call: &Call,
    moment: u32,
) -> Result<CallPlan, Halt>
    ensures wants { Needs (lacking (V.shown view.now)) result }
    ensures says { PlansAlone (V.shown view.now) seat.now call.now moment result }
    ensures near { NearCall (V.shown view.now) seat.now call.now result }
    ensures ready { IfOk result (λ plan. IsPlanFor seat.now plan) }
{
    match call {
        Call::Close { fd } => unasked(close_row(alloc, seat, *fd)),
        Call::Read { fd, count } => read_row(alloc, fs, view, seat, *fd, *count),
        Call::Write { fd, bytes } => unasked(write_row(alloc, seat, *fd, bytes, moment)),
        Call::Dup { fd } => unasked(dup_row(seat, *fd)),
        Call::Fstat { fd } => fstat_row(alloc, fs, view, seat, *fd),
        Call::Lseek { fd, offset, whence } => lseek_row(
            alloc, fs, view, seat, *fd, *offset, *whence,
        ),
        Call::Umask { mask } => Ok(changing(
            Reply::Num(u32::from(seat.umask)),
            SessionChange::Mask {
                mask: *mask & 0o777,
            },
        )),
        Call::Sync => Ok(answered(Reply::Num(0))),
        Call::Exit => unasked(exit_row(alloc, seat)),
        _ => Err(Halt::NoMemory),
    }
}

/// The plan of a call.
pub fn plan_call<F: FileSys, V: View>(
    alloc: Global,
    fs: &F,
    view: &V,
    seats: &[Seat],
    opens: &Opens,
    seat: &Seat,
    call: &Call,
    moment: u32,
    walks: &PathWalks,
) -> Result<CallPlan, Halt>
    requires going { AreWalks (V.shown view.now) seat.now call.now walks.now }
    ensures wants { Needs (lacking (V.shown view.now)) result }
    ensures says { PlansRow (V.shown view.now) opens.now seats.now seat.now call.now moment result }
    ensures near { NearCall (V.shown view.now) seat.now call.now result }
    ensures ready { IfOk result (λ plan. IsPlanFor seat.now plan) }
{
    match call {
        Call::Open { .. }
        | Call::Chdir { .. }
        | Call::Stat { .. }
        | Call::Chmod { .. }
        | Call::Chown { .. }
        | Call::Utime { .. }
        | Call::Access { .. } => plan_of_inode(alloc, fs, view, seat, call, moment, walks),
        Call::Creat { .. }
        | Call::Link { .. }
        | Call::Unlink { .. }
        | Call::Mkdir { .. }
        | Call::Rmdir { .. } => plan_of_name(
            alloc, fs, view, seats, opens, seat, call, moment, walks,
        ),
        _ => plan_of_session(alloc, fs, view, seat, call, moment),
    }
}

/// Where an offset counts from.
fn base_of<F: FileSys, V: View>(
    alloc: Global,
    fs: &F,
    view: &V,
    file: PlainFile,
    whence: Whence,
) -> Result<u32, Halt>
    ensures wants { Needs (lacking (V.shown view.now)) result }
    ensures says { TellsBase (V.shown view.now) file whence result }
    ensures near { NearInode (V.shown view.now) file.ino (λ tree. IsThere tree.nodes file.ino) result }
{
    match whence {
        Whence::Start => Ok(0),
        Whence::Here => Ok(file.offset),
        Whence::End => match info(alloc, fs, view, file.ino) {
            Ok(stat) => Ok(stat.size),
            Err(stop) => Err(stop),
        },
    }
}

/// lseek(2).
fn lseek_row<F: FileSys, V: View>(
    alloc: Global,
    fs: &F,
    view: &V,
    seat: &Seat,
    fd: u16,
    by: i32,
    whence: Whence,
) -> Result<CallPlan, Halt>
    ensures wants { Needs (lacking (V.shown view.now)) result }
    ensures says { SaysOnEach (V.shown view.now) seat.now result (λ tree. lseek_row tree.nodes seat.now fd by whence) }
    ensures near { NearFile (V.shown view.now) seat.now result }
    ensures ready { IfOk result (λ plan. IsPlanFor seat.now plan) }
{
    match open_file(seat, fd) {
        Ok(file) => {
            let asked = base_of(alloc, fs, view, file, whence);
            lseek_asked(fd, by, asked)
        }
        Err(error) => Err(Halt::Refused(error)),
    }
}
