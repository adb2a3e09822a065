ghost use Rattle.std.specs.Prelude.{IfOk, Some};
ghost use Rattle.mb_tree.specs.Plans.{IsPlanFor};
ghost use Rattle.mb_tree.specs.Rows.{access_found, chdir_found, chmod_found, chown_found, creat_found, creat_under, link_under, lseek_from, mkdir_under, open_found, read_found, rmdir_found, stat_found, unlink_found, utime_found};
ghost use Rattle.mb_tree.specs.declared.seats.Seat.{Seat};
ghost use Rattle.mb_calls.specs.Continuing.{Continues, ContinuesBytes, ContinuesThree, ContinuesTwo, PlansOnFile, StandsFor};

use crate::halts::Halt;
use mb_kinds::{Errno, How, Name, Octets, Stat};
use mb_tree::{
    CallPlan, FsOp, PlainFile, Seat, Stop, access_found, acting, chdir_found, chmod_found,
    chown_found, creat_found, creat_under, is_directory, is_dots, link_under, lseek_from, may,
    mkdir_under, need, open_found, read_found, stat_found, unlink_found, utime_found,
};

/// open(2) of the inode that is asked for.
pub fn open_asked(seat: &Seat, asked: Result<Stat, Halt>, how: How) -> Result<CallPlan, Halt>
    ensures follows { Continues asked result (open_found seat.now how) }
    ensures ready { IfOk result (λ plan. IsPlanFor seat.now plan) }
{
    let stat = asked?;
    let plan = open_found(seat, &stat, how)?;
    Ok(plan)
}

/// creat(2) of a name that is there.
pub fn creat_asked(
    seat: &Seat,
    moment: u32,
    ino: u16,
    asked: Result<Stat, Halt>,
) -> Result<CallPlan, Halt>
    ensures follows { Continues asked result (creat_found seat.now moment ino) }
    ensures ready { IfOk result (λ plan. IsPlanFor seat.now plan) }
{
    let stat = asked?;
    let plan = creat_found(seat, moment, ino, &stat)?;
    Ok(plan)
}

/// creat(2) of a name that is missing. The number 0 stands for the one that is picked when the file is
/// created.
pub fn create_asked(
    seat: &Seat,
    mode: u16,
    moment: u32,
    dir: u16,
    name: Name,
    asked: Result<Stat, Halt>,
) -> Result<CallPlan, Halt>
    ensures follows { Continues asked result (creat_under seat.now mode moment (Some 0) dir name) }
    ensures ready { IfOk result (λ plan. IsPlanFor seat.now plan) }
{
    let parent = asked?;
    let plan = creat_under(seat, mode, moment, Some(0), dir, name, &parent)?;
    Ok(plan)
}

/// link(2) under a name that is missing.
pub fn link_asked(
    seat: &Seat,
    moment: u32,
    dir: u16,
    name: Name,
    ino: u16,
    asked: Result<Stat, Halt>,
) -> Result<CallPlan, Halt>
    ensures follows { Continues asked result (link_under seat.now moment ino dir name) }
    ensures ready { IfOk result (λ plan. IsPlanFor seat.now plan) }
{
    let parent = asked?;
    let plan = link_under(seat, moment, ino, dir, name, &parent)?;
    Ok(plan)
}

/// mkdir(1) in one step, under a name that is missing.
pub fn mkdir_asked(
    seat: &Seat,
    mode: u16,
    moment: u32,
    dir: u16,
    name: Name,
    asked: Result<Stat, Halt>,
) -> Result<CallPlan, Halt>
    ensures follows { Continues asked result (mkdir_under seat.now mode moment dir name) }
    ensures ready { IfOk result (λ plan. IsPlanFor seat.now plan) }
{
    let parent = asked?;
    let plan = mkdir_under(seat, mode, moment, dir, name, &parent)?;
    Ok(plan)
}

/// chdir(2).
pub fn chdir_asked(seat: &Seat, asked: Result<Stat, Halt>) -> Result<CallPlan, Halt>
    ensures follows { Continues asked result (chdir_found seat.now) }
    ensures ready { IfOk result (λ plan. IsPlanFor seat.now plan) }
{
    let stat = asked?;
    let plan = chdir_found(seat, &stat)?;
    Ok(plan)
}

/// chmod(2).
pub fn chmod_asked(
    seat: &Seat,
    asked: Result<Stat, Halt>,
    mode: u16,
    moment: u32,
) -> Result<CallPlan, Halt>
    ensures follows { Continues asked result (chmod_found seat.now mode moment) }
    ensures ready { IfOk result (λ plan. IsPlanFor seat.now plan) }
{
    let stat = asked?;
    let plan = chmod_found(seat, mode, moment, &stat)?;
    Ok(plan)
}

/// chown(2).
pub fn chown_asked(
    seat: &Seat,
    asked: Result<Stat, Halt>,
    uid: u16,
    gid: u16,
    moment: u32,
) -> Result<CallPlan, Halt>
    ensures follows { Continues asked result (chown_found seat.now uid gid moment) }
    ensures ready { IfOk result (λ plan. IsPlanFor seat.now plan) }
{
    let stat = asked?;
    let plan = chown_found(seat, uid, gid, moment, &stat)?;
    Ok(plan)
}

/// utime(2).
pub fn utime_asked(
    seat: &Seat,
    asked: Result<Stat, Halt>,
    atime: u32,
    mtime: u32,
    moment: u32,
) -> Result<CallPlan, Halt>
    ensures follows { Continues asked result (utime_found seat.now atime mtime moment) }
    ensures ready { IfOk result (λ plan. IsPlanFor seat.now plan) }
{
    let stat = asked?;
    let plan = utime_found(seat, atime, mtime, moment, &stat)?;
    Ok(plan)
}

/// access(2).
pub fn access_asked(seat: &Seat, asked: Result<Stat, Halt>, bits: u8) -> Result<CallPlan, Halt>
    ensures follows { Continues asked result (access_found seat.now bits) }
    ensures ready { IfOk result (λ plan. IsPlanFor seat.now plan) }
{
    let stat = asked?;
    let plan = access_found(seat, bits, &stat)?;
    Ok(plan)
}

/// stat(2) and fstat(2).
pub fn stat_asked(asked: Result<Stat, Halt>) -> Result<CallPlan, Halt>
    ensures follows { Continues asked result stat_found }
    ensures ready { (seat : Seat) → IfOk result (λ plan. IsPlanFor seat plan) }
{
    let stat = asked?;
    Ok(stat_found(stat))
}

/// unlink(2); `beside` tells of the directory with the name.
pub fn unlink_asked(
    seat: &Seat,
    moment: u32,
    dir: u16,
    name: Name,
    asked: Result<Stat, Halt>,
    beside: Result<Stat, Halt>,
) -> Result<CallPlan, Halt>
    ensures follows { ContinuesTwo asked beside result (unlink_found seat.now moment dir name) }
    ensures ready { IfOk result (λ plan. IsPlanFor seat.now plan) }
{
    let stat = asked?;
    let parent = beside?;
    let plan = unlink_found(seat, moment, dir, name, &parent, &stat)?;
    Ok(plan)
}

/// rmdir(1) in one step; `busy` says whether the directory is in use, `beside`
/// tells of the directory with the name, `used` how many slots are in use.
pub fn rmdir_asked(
    seat: &Seat,
    moment: u32,
    dir: u16,
    name: Name,
    busy: bool,
    asked: Result<Stat, Halt>,
    beside: Result<Stat, Halt>,
    used: Result<u32, Halt>,
) -> Result<CallPlan, Halt>
    ensures follows { ContinuesThree asked beside used result (rmdir_found seat.now moment dir name busy) }
    ensures ready { IfOk result (λ plan. IsPlanFor seat.now plan) }
{
    let stat = asked?;
    need(is_directory(stat.mode), Errno::ENOTDIR)?;
    need(!is_dots(&name), Errno::EINVAL)?;
    let parent = beside?;
    need(may(seat.cred, &parent, 2), Errno::EACCES)?;
    need(!busy, Errno::EBUSY)?;
    need(used? <= 2, Errno::EEXIST)?;
    Ok(acting(FsOp::RemoveDir { dir, name, moment }))
}

/// lseek(2) from a base.
pub fn lseek_asked(fd: u16, by: i32, asked: Result<u32, Halt>) -> Result<CallPlan, Halt>
    ensures follows { Continues asked result (lseek_from fd by) }
    ensures ready { PlansOnFile fd result }
{
    let base = asked?;
    let plan = lseek_from(fd, by, base)?;
    Ok(plan)
}

/// read(2) of the bytes at the offset of an open file. On a view that is a part of no volume they can go
/// past the greatest `u32`; then the answer is want of memory.
pub fn read_asked(fd: u16, file: PlainFile, asked: Result<Octets, Halt>) -> Result<CallPlan, Halt>
    ensures follows { ContinuesBytes asked result (read_found fd file) }
    ensures ready { PlansOnFile fd result }
{
    let bytes = asked?;
    if u64::from(file.offset) + bytes.as_slice().len() as u64 > u64::from(u32::MAX) {
        return Err(Halt::NoMemory);
    }
    Ok(read_found(fd, file, bytes))
}

/// A row of the reference model that asks nothing.
pub fn unasked(planned: Result<CallPlan, Stop>) -> Result<CallPlan, Halt>
    ensures follows { StandsFor planned result }
    ensures ready { (seat : Seat) → IfOk planned (IsPlanFor seat) → IfOk result (IsPlanFor seat) }
{
    match planned {
        Ok(plan) => Ok(plan),
        Err(stop) => match stop {
            Stop::Refused(error) => Err(Halt::Refused(error)),
            Stop::NoMemory => Err(Halt::NoMemory),
        },
    }
}
