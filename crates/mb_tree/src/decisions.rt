ghost use Rattle.std.specs.Prelude.{◌≡◌, ◌<◌, ◌==◌, ◌+◌, ◌^◌, ◌+ℤ◌, pos, length, IfOk, IsSome, Ok, Some};
ghost use Rattle.std.specs.List.{list_any};
ghost use Rattle.mb_kinds.specs.declared.errors.Errno.TheVariants.{EBADF, EMFILE};
ghost use Rattle.mb_tree.specs.Answers.{need, some};
ghost use Rattle.mb_tree.specs.Plans.{IsPlanFor};
ghost use Rattle.mb_tree.specs.Sessions.{file_on, free_descriptor};
ghost use Rattle.mb_tree.specs.declared.seats.Seat.{Seat};
ghost use Rattle.mb_tree.specs.Rows.{bits_of, masked, is_dots, is_owner, stored, offset_at, open_found, creat_found, creat_under, read_found, lseek_from, link_under, unlink_found, mkdir_under, chdir_found, stat_found, chmod_found, chown_found, utime_found, access_found};

use crate::changes::{DOT, DOT_DOT};
use crate::inodes::{is_directory, is_special, may};
use crate::operations::FsOp;
use crate::plans::{CallPlan, acting, answered, both, changing};
use crate::seats::{PlainFile, Seat, SessionChange, reads, writes};
use mb_kinds::{Cred, Errno, How, Name, Octets, Reply, Stat};

/// The greatest offset of an open file.
const OFFSET: u32 = 2_147_483_647;

/// A line of a row: the error where the test is false.
pub fn need(test: bool, error: Errno) -> Result<(), Errno>
    ensures { result ≡ need test error }
{
    if test { Ok(()) } else { Err(error) }
}

/// The lowest free descriptor, 3 to 19; `EMFILE` where there is none.
pub fn descriptor(seat: &Seat) -> Result<u16, Errno>
    ensures row { result ≡ some (free_descriptor seat.now) EMFILE }
    ensures found { IfOk result (λ fd. free_descriptor seat.now ≡ Some fd) }
{
    match seat.free_descriptor() {
        Some(fd) => Ok(fd),
        None => Err(Errno::EMFILE),
    }
}

/// The open file of a descriptor; `EBADF` for a descriptor without one.
pub fn open_file(seat: &Seat, fd: u16) -> Result<PlainFile, Errno>
    ensures row { result ≡ some (file_on seat.now fd) EBADF }
    ensures found { IfOk result (λ file. IsSome (file_on seat.now fd)) }
{
    match seat.file_on(fd) {
        Some(file) => Ok(file),
        None => Err(Errno::EBADF),
    }
}

/// The permission bits that a direction wants: 4 to read, 2 to write.
pub fn bits_of(how: How) -> u8
    ensures { result ≡ bits_of how }
{
    let read = if reads(how) { 4 } else { 0 };
    let write = if writes(how) { 2 } else { 0 };
    read + write
}

/// The nine permission bits of a mode without those of the session's mask.
pub fn masked(mode: u16, seat: &Seat) -> u16
    ensures { result ≡ masked mode seat.now }
{
    mode & 0o777 & !seat.umask
}

/// The bits of a mode that a caller can set: 07777 for uid 0, for all others without the sticky bit
/// 01000.
pub fn stored(mode: u16, cred: Cred) -> u16
    ensures { result ≡ stored mode cred }
{
    if cred.uid == 0 {
        mode & 0o7777
    } else {
        mode & 0o6777
    }
}

/// Whether the caller is uid 0 or the owner.
pub fn is_owner(cred: Cred, stat: &Stat) -> bool
    ensures { result ≡ is_owner cred stat.now }
{
    cred.uid == 0 || cred.uid == stat.uid
}

/// Whether a name is `.` or `..`.
pub fn is_dots(name: &Name) -> bool
    ensures { result ≡ is_dots name.now }
{
    *name == DOT || *name == DOT_DOT
}

/// Whether a directory is a caller's current one.
pub fn is_current(seats: &[Seat], ino: u16) -> bool
    ensures { result ≡ list_any (λ seat. seat.cwd == ino) seats.now }
{
    seats.iter().any(|seat| seat.cwd == ino)
}

/// An offset so far from a base: 0 to 2,147,483,647, else `None`.
pub fn offset_from(base: u32, by: i32) -> Option<u32>
    ensures { result ≡ offset_at (pos base +ℤ by) }
{
    match u32::try_from(i64::from(base) + i64::from(by)) {
        Ok(offset) if offset <= OFFSET => Some(offset),
        _ => None,
    }
}

/// open(2) of the inode that was found. `EACCES`, `EISDIR` for a directory to be written, `ENXIO` for a
/// special file, `EMFILE`, in this order.
pub fn open_found(seat: &Seat, stat: &Stat, how: How) -> Result<CallPlan, Errno>
    ensures row { result ≡ open_found seat.now how stat.now }
    ensures ready { IfOk result (λ plan. IsPlanFor seat.now plan) }
{
    need(may(seat.cred, stat, bits_of(how)), Errno::EACCES)?;
    need(!(is_directory(stat.mode) && writes(how)), Errno::EISDIR)?;
    need(!is_special(stat.mode), Errno::ENXIO)?;
    let fd = descriptor(seat)?;
    let op = FsOp::Hold { ino: stat.ino };
    Ok(both(
        u32::from(fd),
        op,
        SessionChange::Fresh {
            fd,
            ino: stat.ino,
            how,
        },
    ))
}

/// creat(2) of a name that is there, which leads to the inode with the number `ino`. `EACCES`, `EISDIR`,
/// `ENXIO`, `EMFILE`, in this order.
pub fn creat_found(seat: &Seat, moment: u32, ino: u16, stat: &Stat) -> Result<CallPlan, Errno>
    ensures row { result ≡ creat_found seat.now moment ino stat.now }
    ensures ready { IfOk result (λ plan. IsPlanFor seat.now plan) }
{
    need(may(seat.cred, stat, 2), Errno::EACCES)?;
    need(!is_directory(stat.mode), Errno::EISDIR)?;
    need(!is_special(stat.mode), Errno::ENXIO)?;
    let fd = descriptor(seat)?;
    let op = FsOp::Empty { ino, moment };
    Ok(both(
        u32::from(fd),
        op,
        SessionChange::Fresh {
            fd,
            ino,
            how: How::Writing,
        },
    ))
}

/// creat(2) of a name that is missing under a directory, of which `parent` tells; `pick` is the free
/// number of the new inode, `None` where none is free. `EACCES`, `EMFILE`, `ENOSPC`, in this order.
pub fn creat_under(
    seat: &Seat,
    mode: u16,
    moment: u32,
    pick: Option<u16>,
    dir: u16,
    name: Name,
    parent: &Stat,
) -> Result<CallPlan, Errno>
    ensures row { result ≡ creat_under seat.now mode moment pick dir name parent.now }
    ensures ready { IfOk result (λ plan. IsPlanFor seat.now plan) }
{
    need(may(seat.cred, parent, 2), Errno::EACCES)?;
    let fd = descriptor(seat)?;
    let Some(ino) = pick else {
        return Err(Errno::ENOSPC);
    };
    let Cred { uid, gid } = seat.cred;
    let mode = masked(mode, seat);
    let op = FsOp::Create {
        dir,
        name,
        mode,
        uid,
        gid,
        moment,
    };
    Ok(both(
        u32::from(fd),
        op,
        SessionChange::Fresh {
            fd,
            ino,
            how: How::Writing,
        },
    ))
}

/// read(2) of the bytes that were got at the offset of the descriptor's open file. The offset grows by
/// their number.
pub fn read_found(fd: u16, file: PlainFile, bytes: Octets) -> CallPlan
    requires { file.offset + length bytes < 2 ^ 32 }
    ensures row { read_found fd file bytes ≡ Ok result }
    ensures ready { (seat : Seat) → IsSome (file_on seat fd) → IsPlanFor seat result }
{
    let offset = file.offset + bytes.as_slice().len() as u32;
    changing(Reply::Got(bytes), SessionChange::Move { fd, offset })
}

/// lseek(2) so far from a base. `EINVAL` where the offset is not one of 0 to 2,147,483,647.
pub fn lseek_from(fd: u16, by: i32, base: u32) -> Result<CallPlan, Errno>
    ensures row { result ≡ lseek_from fd by base }
    ensures ready { (seat : Seat) → IsSome (file_on seat fd) → IfOk result (λ plan. IsPlanFor seat plan) }
{
    let Some(offset) = offset_from(base, by) else {
        return Err(Errno::EINVAL);
    };
    Ok(changing(Reply::Num(offset), SessionChange::Move { fd, offset }))
}

/// link(2) of the inode with the number `ino` under a name that is missing in a directory, of which
/// `parent` tells. `EACCES`.
pub fn link_under(
    seat: &Seat,
    moment: u32,
    ino: u16,
    dir: u16,
    name: Name,
    parent: &Stat,
) -> Result<CallPlan, Errno>
    ensures row { result ≡ link_under seat.now moment ino dir name parent.now }
    ensures ready { IfOk result (λ plan. IsPlanFor seat.now plan) }
{
    need(may(seat.cred, parent, 2), Errno::EACCES)?;
    Ok(acting(FsOp::Enlink {
        dir,
        name,
        ino,
        moment,
    }))
}

/// unlink(2) of a name in a directory, of which `parent` tells; `stat` tells of the inode to which it
/// leads. `EACCES`, and `EPERM` for a directory.
pub fn unlink_found(
    seat: &Seat,
    moment: u32,
    dir: u16,
    name: Name,
    parent: &Stat,
    stat: &Stat,
) -> Result<CallPlan, Errno>
    ensures row { result ≡ unlink_found seat.now moment dir name (Ok parent.now) stat.now }
    ensures ready { IfOk result (λ plan. IsPlanFor seat.now plan) }
{
    need(may(seat.cred, parent, 2), Errno::EACCES)?;
    need(!is_directory(stat.mode), Errno::EPERM)?;
    Ok(acting(FsOp::Delink { dir, name, moment }))
}

/// mkdir(1) in one step, under a name that is missing in a directory, of which `parent` tells. `EACCES`.
pub fn mkdir_under(
    seat: &Seat,
    mode: u16,
    moment: u32,
    dir: u16,
    name: Name,
    parent: &Stat,
) -> Result<CallPlan, Errno>
    ensures row { result ≡ mkdir_under seat.now mode moment dir name parent.now }
    ensures ready { IfOk result (λ plan. IsPlanFor seat.now plan) }
{
    need(may(seat.cred, parent, 2), Errno::EACCES)?;
    let Cred { uid, gid } = seat.cred;
    let mode = masked(mode, seat);
    Ok(acting(FsOp::MakeDir {
        dir,
        name,
        mode,
        uid,
        gid,
        moment,
    }))
}

/// chdir(2) to the inode that was found. `ENOTDIR`, `EACCES`, in this order.
pub fn chdir_found(seat: &Seat, stat: &Stat) -> Result<CallPlan, Errno>
    ensures row { result ≡ chdir_found seat.now stat.now }
    ensures ready { IfOk result (λ plan. IsPlanFor seat.now plan) }
{
    need(is_directory(stat.mode), Errno::ENOTDIR)?;
    need(may(seat.cred, stat, 1), Errno::EACCES)?;
    Ok(changing(Reply::Num(0), SessionChange::Cwd { ino: stat.ino }))
}

/// stat(2) and fstat(2) of the inode that was found; never refused.
pub fn stat_found(stat: Stat) -> CallPlan
    ensures row { stat_found stat ≡ Ok result }
    ensures ready { (seat : Seat) → IsPlanFor seat result }
{
    answered(Reply::Info(stat))
}

/// chmod(2) of the inode that was found. `EPERM` for all but its owner and uid 0.
pub fn chmod_found(seat: &Seat, mode: u16, moment: u32, stat: &Stat) -> Result<CallPlan, Errno>
    ensures row { result ≡ chmod_found seat.now mode moment stat.now }
    ensures ready { IfOk result (λ plan. IsPlanFor seat.now plan) }
{
    need(is_owner(seat.cred, stat), Errno::EPERM)?;
    let mode = stored(mode, seat.cred);
    Ok(acting(FsOp::SetMode {
        ino: stat.ino,
        mode,
        moment,
    }))
}

/// chown(2) of the inode that was found. `EPERM` for all but uid 0.
pub fn chown_found(
    seat: &Seat,
    uid: u16,
    gid: u16,
    moment: u32,
    stat: &Stat,
) -> Result<CallPlan, Errno>
    ensures row { result ≡ chown_found seat.now uid gid moment stat.now }
    ensures ready { IfOk result (λ plan. IsPlanFor seat.now plan) }
{
    need(seat.cred.uid == 0, Errno::EPERM)?;
    Ok(acting(FsOp::SetOwner {
        ino: stat.ino,
        uid,
        gid,
        moment,
    }))
}

/// utime(2) of the inode that was found. `EPERM` for all but its owner and uid 0.
pub fn utime_found(
    seat: &Seat,
    atime: u32,
    mtime: u32,
    moment: u32,
    stat: &Stat,
) -> Result<CallPlan, Errno>
    ensures row { result ≡ utime_found seat.now atime mtime moment stat.now }
    ensures ready { IfOk result (λ plan. IsPlanFor seat.now plan) }
{
    need(is_owner(seat.cred, stat), Errno::EPERM)?;
    Ok(acting(FsOp::SetTimes {
        ino: stat.ino,
        atime,
        mtime,
        moment,
    }))
}

/// access(2) of the inode that was found: 4 read, 2 write, 1 search. `EACCES`.
pub fn access_found(seat: &Seat, bits: u8, stat: &Stat) -> Result<CallPlan, Errno>
    ensures row { result ≡ access_found seat.now bits stat.now }
    ensures ready { IfOk result (λ plan. IsPlanFor seat.now plan) }
{
    need(may(seat.cred, stat, bits), Errno::EACCES)?;
    Ok(answered(Reply::Num(0)))
}
