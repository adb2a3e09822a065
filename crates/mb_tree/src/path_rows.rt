ghost use Rattle.std.specs.Prelude.{◌≡◌, IfOk};
ghost use Rattle.mb_tree.specs.Plans.{IsPlanFor};
ghost use Rattle.mb_tree.specs.Results.{Gives};
ghost use Rattle.mb_tree.specs.Rows.{open_row, creat_present, creat_missing, creat_row, link_at, link_row, unlink_named, unlink_row, mkdir_at, mkdir_row, is_busy, rmdir_named, rmdir_row, chdir_row, stat_row, chmod_row, chown_row, utime_row, access_row};

use crate::decisions::{
    access_found, chdir_found, chmod_found, chown_found, creat_found, creat_under, is_current,
    is_dots, link_under, mkdir_under, need, open_found, stat_found, unlink_found, utime_found,
};
use crate::inodes::{is_directory, may};
use crate::lookups::{Placed, find_path, find_place, stat_in, used_in};
use crate::nodes::Nodes;
use crate::operations::FsOp;
use crate::plans::{CallPlan, acting};
use crate::seats::{Seat, count};
use crate::stops::Stop;
use mb_kinds::{Errno, How, Name};
use std::alloc::Global;

/// open(2).
pub fn open_row(
    alloc: Global,
    nodes: &Nodes,
    seat: &Seat,
    path: &[u8],
    how: How,
) -> Result<CallPlan, Stop>
    ensures row { Gives (λ plan. plan) result (open_row nodes.now seat.now path.now how) }
    ensures ready { IfOk result (λ plan. IsPlanFor seat.now plan) }
{
    let stat = find_path(alloc, nodes, seat.cred, seat.cwd, path)?;
    let plan = open_found(seat, &stat, how)?;
    Ok(plan)
}

fn creat_present(nodes: &Nodes, seat: &Seat, moment: u32, ino: u16) -> Result<CallPlan, Stop>
    ensures row { Gives (λ plan. plan) result (creat_present nodes.now seat.now moment ino) }
    ensures ready { IfOk result (λ plan. IsPlanFor seat.now plan) }
{
    let stat = stat_in(nodes, ino)?;
    let plan = creat_found(seat, moment, ino, &stat)?;
    Ok(plan)
}

fn creat_missing(
    nodes: &Nodes,
    seat: &Seat,
    mode: u16,
    moment: u32,
    pick: Option<u16>,
    dir: u16,
    name: Name,
) -> Result<CallPlan, Stop>
    ensures row { Gives (λ plan. plan) result (creat_missing nodes.now seat.now mode moment pick dir name) }
    ensures ready { IfOk result (λ plan. IsPlanFor seat.now plan) }
{
    let parent = stat_in(nodes, dir)?;
    let plan = creat_under(seat, mode, moment, pick, dir, name, &parent)?;
    Ok(plan)
}

/// creat(2).
pub fn creat_row(
    alloc: Global,
    nodes: &Nodes,
    seat: &Seat,
    path: &[u8],
    mode: u16,
    moment: u32,
    pick: Option<u16>,
) -> Result<CallPlan, Stop>
    ensures row { Gives (λ plan. plan) result (creat_row nodes.now seat.now path.now mode moment pick) }
    ensures ready { IfOk result (λ plan. IsPlanFor seat.now plan) }
{
    match find_place(alloc, nodes, seat.cred, seat.cwd, path)? {
        Placed::Itself(ino) => creat_present(nodes, seat, moment, ino),
        Placed::At { ino: Some(ino), .. } => creat_present(nodes, seat, moment, ino),
        Placed::At {
            dir,
            name,
            ino: None,
        } => creat_missing(nodes, seat, mode, moment, pick, dir, name),
    }
}

fn link_at(
    nodes: &Nodes,
    seat: &Seat,
    moment: u32,
    ino: u16,
    placed: Placed,
) -> Result<CallPlan, Stop>
    ensures row { Gives (λ plan. plan) result (link_at nodes.now seat.now moment ino placed) }
    ensures ready { IfOk result (λ plan. IsPlanFor seat.now plan) }
{
    let Placed::At {
        dir,
        name,
        ino: None,
    } = placed
    else {
        return Err(Stop::Refused(Errno::EEXIST));
    };
    let parent = stat_in(nodes, dir)?;
    let plan = link_under(seat, moment, ino, dir, name, &parent)?;
    Ok(plan)
}

/// link(2).
pub fn link_row(
    alloc: Global,
    nodes: &Nodes,
    seat: &Seat,
    from: &[u8],
    to: &[u8],
    moment: u32,
) -> Result<CallPlan, Stop>
    ensures row { Gives (λ plan. plan) result (link_row nodes.now seat.now from.now to.now moment) }
    ensures ready { IfOk result (λ plan. IsPlanFor seat.now plan) }
{
    let stat = find_path(alloc, nodes, seat.cred, seat.cwd, from)?;
    need(!is_directory(stat.mode), Errno::EPERM)?;
    let placed = find_place(alloc, nodes, seat.cred, seat.cwd, to)?;
    link_at(nodes, seat, moment, stat.ino, placed)
}

fn unlink_named(
    nodes: &Nodes,
    seat: &Seat,
    moment: u32,
    dir: u16,
    name: Name,
    ino: u16,
) -> Result<CallPlan, Stop>
    ensures row { Gives (λ plan. plan) result (unlink_named nodes.now seat.now moment dir name ino) }
    ensures ready { IfOk result (λ plan. IsPlanFor seat.now plan) }
{
    let stat = stat_in(nodes, ino)?;
    let parent = stat_in(nodes, dir)?;
    let plan = unlink_found(seat, moment, dir, name, &parent, &stat)?;
    Ok(plan)
}

/// unlink(2).
pub fn unlink_row(
    alloc: Global,
    nodes: &Nodes,
    seat: &Seat,
    path: &[u8],
    moment: u32,
) -> Result<CallPlan, Stop>
    ensures row { Gives (λ plan. plan) result (unlink_row nodes.now seat.now path.now moment) }
    ensures ready { IfOk result (λ plan. IsPlanFor seat.now plan) }
{
    match find_place(alloc, nodes, seat.cred, seat.cwd, path)? {
        Placed::Itself(_) => Err(Stop::Refused(Errno::EPERM)),
        Placed::At { ino: None, .. } => Err(Stop::Refused(Errno::ENOENT)),
        Placed::At {
            dir,
            name,
            ino: Some(ino),
        } => unlink_named(nodes, seat, moment, dir, name, ino),
    }
}

fn mkdir_at(
    nodes: &Nodes,
    seat: &Seat,
    mode: u16,
    moment: u32,
    placed: Placed,
) -> Result<CallPlan, Stop>
    ensures row { Gives (λ plan. plan) result (mkdir_at nodes.now seat.now mode moment placed) }
    ensures ready { IfOk result (λ plan. IsPlanFor seat.now plan) }
{
    let Placed::At {
        dir,
        name,
        ino: None,
    } = placed
    else {
        return Err(Stop::Refused(Errno::EEXIST));
    };
    let parent = stat_in(nodes, dir)?;
    let plan = mkdir_under(seat, mode, moment, dir, name, &parent)?;
    Ok(plan)
}

/// mkdir(1) in one step.
pub fn mkdir_row(
    alloc: Global,
    nodes: &Nodes,
    seat: &Seat,
    path: &[u8],
    mode: u16,
    moment: u32,
) -> Result<CallPlan, Stop>
    ensures row { Gives (λ plan. plan) result (mkdir_row nodes.now seat.now path.now mode moment) }
    ensures ready { IfOk result (λ plan. IsPlanFor seat.now plan) }
{
    let placed = find_place(alloc, nodes, seat.cred, seat.cwd, path)?;
    mkdir_at(nodes, seat, mode, moment, placed)
}

/// Whether a directory is the root, open, or a caller's current directory.
fn is_busy(seats: &[Seat], ino: u16) -> bool
    ensures { result ≡ is_busy seats.now ino }
{
    ino == 2 || count(seats, ino) > 0 || is_current(seats, ino)
}

fn rmdir_named(
    nodes: &Nodes,
    seats: &[Seat],
    seat: &Seat,
    moment: u32,
    dir: u16,
    name: Name,
    ino: u16,
) -> Result<CallPlan, Stop>
    ensures row { Gives (λ plan. plan) result (rmdir_named nodes.now seats.now seat.now moment dir name ino) }
    ensures ready { IfOk result (λ plan. IsPlanFor seat.now plan) }
{
    let stat = stat_in(nodes, ino)?;
    need(is_directory(stat.mode), Errno::ENOTDIR)?;
    need(!is_dots(&name), Errno::EINVAL)?;
    let parent = stat_in(nodes, dir)?;
    need(may(seat.cred, &parent, 2), Errno::EACCES)?;
    need(!is_busy(seats, ino), Errno::EBUSY)?;
    need(used_in(nodes, ino) <= 2, Errno::EEXIST)?;
    Ok(acting(FsOp::RemoveDir { dir, name, moment }))
}

/// rmdir(1) in one step.
pub fn rmdir_row(
    alloc: Global,
    nodes: &Nodes,
    seats: &[Seat],
    seat: &Seat,
    path: &[u8],
    moment: u32,
) -> Result<CallPlan, Stop>
    ensures row { Gives (λ plan. plan) result (rmdir_row nodes.now seats.now seat.now path.now moment) }
    ensures ready { IfOk result (λ plan. IsPlanFor seat.now plan) }
{
    match find_place(alloc, nodes, seat.cred, seat.cwd, path)? {
        Placed::Itself(_) => Err(Stop::Refused(Errno::EBUSY)),
        Placed::At { ino: None, .. } => Err(Stop::Refused(Errno::ENOENT)),
        Placed::At {
            dir,
            name,
            ino: Some(ino),
        } => rmdir_named(nodes, seats, seat, moment, dir, name, ino),
    }
}

/// chdir(2).
pub fn chdir_row(alloc: Global, nodes: &Nodes, seat: &Seat, path: &[u8]) -> Result<CallPlan, Stop>
    ensures row { Gives (λ plan. plan) result (chdir_row nodes.now seat.now path.now) }
    ensures ready { IfOk result (λ plan. IsPlanFor seat.now plan) }
{
    let stat = find_path(alloc, nodes, seat.cred, seat.cwd, path)?;
    let plan = chdir_found(seat, &stat)?;
    Ok(plan)
}

/// stat(2).
pub fn stat_row(alloc: Global, nodes: &Nodes, seat: &Seat, path: &[u8]) -> Result<CallPlan, Stop>
    ensures row { Gives (λ plan. plan) result (stat_row nodes.now seat.now path.now) }
    ensures ready { IfOk result (λ plan. IsPlanFor seat.now plan) }
{
    let stat = find_path(alloc, nodes, seat.cred, seat.cwd, path)?;
    Ok(stat_found(stat))
}

/// chmod(2).
pub fn chmod_row(
    alloc: Global,
    nodes: &Nodes,
    seat: &Seat,
    path: &[u8],
    mode: u16,
    moment: u32,
) -> Result<CallPlan, Stop>
    ensures row { Gives (λ plan. plan) result (chmod_row nodes.now seat.now path.now mode moment) }
    ensures ready { IfOk result (λ plan. IsPlanFor seat.now plan) }
{
    let stat = find_path(alloc, nodes, seat.cred, seat.cwd, path)?;
    let plan = chmod_found(seat, mode, moment, &stat)?;
    Ok(plan)
}

/// chown(2).
pub fn chown_row(
    alloc: Global,
    nodes: &Nodes,
    seat: &Seat,
    path: &[u8],
    uid: u16,
    gid: u16,
    moment: u32,
) -> Result<CallPlan, Stop>
    ensures row { Gives (λ plan. plan) result (chown_row nodes.now seat.now path.now uid gid moment) }
    ensures ready { IfOk result (λ plan. IsPlanFor seat.now plan) }
{
    let stat = find_path(alloc, nodes, seat.cred, seat.cwd, path)?;
    let plan = chown_found(seat, uid, gid, moment, &stat)?;
    Ok(plan)
}

/// utime(2).
pub fn utime_row(
    alloc: Global,
    nodes: &Nodes,
    seat: &Seat,
    path: &[u8],
    atime: u32,
    mtime: u32,
    moment: u32,
) -> Result<CallPlan, Stop>
    ensures row { Gives (λ plan. plan) result (utime_row nodes.now seat.now path.now atime mtime moment) }
    ensures ready { IfOk result (λ plan. IsPlanFor seat.now plan) }
{
    let stat = find_path(alloc, nodes, seat.cred, seat.cwd, path)?;
    let plan = utime_found(seat, atime, mtime, moment, &stat)?;
    Ok(plan)
}

/// access(2).
pub fn access_row(
    alloc: Global,
    nodes: &Nodes,
    seat: &Seat,
    path: &[u8],
    bits: u8,
) -> Result<CallPlan, Stop>
    ensures row { Gives (λ plan. plan) result (access_row nodes.now seat.now path.now bits) }
    ensures ready { IfOk result (λ plan. IsPlanFor seat.now plan) }
{
    let stat = find_path(alloc, nodes, seat.cred, seat.cwd, path)?;
    let plan = access_found(seat, bits, &stat)?;
    Ok(plan)
}
