ghost use Rattle.std.specs.Prelude.{◌≡◌, ◌≤◌, ◌+◌, length, IfOk, IsSome};
ghost use Rattle.mb_tree.specs.Plans.{IsPlanFor};
ghost use Rattle.mb_tree.specs.Results.{Gives};
ghost use Rattle.mb_tree.specs.Sessions.{file_on};
ghost use Rattle.mb_tree.specs.Rows.{close_row, read_row, write_row, size_in, base_of, lseek_row, dup_row, fstat_row, exit_row, wrote, exited};
ghost use Rattle.mb_tree.specs.declared.seats.Seat.{Seat};

use crate::decisions::{descriptor, lseek_from, need, open_file, read_found, stat_found};
use crate::lookups::stat_in;
use crate::nodes::Nodes;
use crate::operations::{FsOp, Inos};
use crate::plans::{CallPlan, answered, both, changing};
use crate::seats::{PlainFile, Seat, SessionChange, reads, writes};
use crate::stops::Stop;
use mb_kinds::{Errno, Octets, Reply, Seq, Whence};
use std::alloc::{AllocError, Global};

/// The greatest size of a file in bytes.
const BYTES: u64 = 1_082_201_088;

/// close(2).
pub fn close_row(alloc: Global, seat: &Seat, fd: u16) -> Result<CallPlan, Stop>
    ensures row { Gives (λ plan. plan) result (close_row seat.now fd) }
    ensures ready { IfOk result (λ plan. IsPlanFor seat.now plan) }
{
    let file = open_file(seat, fd)?;
    if seat.is_shared(fd) {
        return Ok(changing(Reply::Num(0), SessionChange::Free { fd }));
    }
    let mut inos: Inos = Seq::new(alloc);
    inos.push(file.ino)?;
    Ok(both(0, FsOp::Release { inos }, SessionChange::Free { fd }))
}

/// read(2).
pub fn read_row(
    alloc: Global,
    nodes: &Nodes,
    seat: &Seat,
    fd: u16,
    count: u16,
) -> Result<CallPlan, Stop>
    ensures row { Gives (λ plan. plan) result (read_row nodes.now seat.now fd count) }
    ensures ready { IfOk result (λ plan. IsPlanFor seat.now plan) }
{
    let file = open_file(seat, fd)?;
    need(reads(file.how), Errno::EBADF)?;
    let Some(node) = nodes.get(u32::from(file.ino)) else {
        return Err(Stop::Refused(Errno::EBADF));
    };
    let bytes = node.body.read(alloc, file.offset, count)?;
    Ok(read_found(fd, file, bytes))
}

/// What a write does that is not refused: with no bytes nothing.
fn wrote(
    alloc: Global,
    fd: u16,
    file: PlainFile,
    bytes: &Octets,
    moment: u32,
) -> Result<CallPlan, AllocError>
    requires { file.offset + length bytes.now ≤ 1082201088 }
    ensures row { IfOk result (λ plan. plan ≡ wrote fd file bytes.now moment) }
    ensures ready { (seat : Seat) → IsSome (file_on seat fd) → IfOk result (λ plan. IsPlanFor seat plan) }
{
    if bytes.as_slice().is_empty() {
        return Ok(answered(Reply::Num(0)));
    }
    let count = bytes.as_slice().len() as u32;
    let op = FsOp::Put {
        ino: file.ino,
        offset: file.offset,
        bytes: bytes.copied(alloc)?,
        moment,
    };
    let offset = file.offset + count;
    Ok(both(count, op, SessionChange::Move { fd, offset }))
}

/// write(2).
pub fn write_row(
    alloc: Global,
    seat: &Seat,
    fd: u16,
    bytes: &Octets,
    moment: u32,
) -> Result<CallPlan, Stop>
    ensures row { Gives (λ plan. plan) result (write_row seat.now fd bytes.now moment) }
    ensures ready { IfOk result (λ plan. IsPlanFor seat.now plan) }
{
    let file = open_file(seat, fd)?;
    need(writes(file.how), Errno::EBADF)?;
    if u64::from(file.offset) + bytes.as_slice().len() as u64 > BYTES {
        return Err(Stop::Refused(Errno::EFBIG));
    }
    let plan = wrote(alloc, fd, file, bytes, moment)?;
    Ok(plan)
}

/// The size of the inode with a number, 0 where there is none.
fn size_in(nodes: &Nodes, ino: u16) -> u32
    ensures { result ≡ size_in nodes.now ino }
{
    match nodes.get(u32::from(ino)) {
        Some(node) => node.body.size(),
        None => 0,
    }
}

/// Where an offset counts from.
fn base_of(nodes: &Nodes, file: PlainFile, whence: Whence) -> u32
    ensures { result ≡ base_of nodes.now file whence }
{
    match whence {
        Whence::Start => 0,
        Whence::Here => file.offset,
        Whence::End => size_in(nodes, file.ino),
    }
}

/// lseek(2).
pub fn lseek_row(
    nodes: &Nodes,
    seat: &Seat,
    fd: u16,
    by: i32,
    whence: Whence,
) -> Result<CallPlan, Stop>
    ensures row { Gives (λ plan. plan) result (lseek_row nodes.now seat.now fd by whence) }
    ensures ready { IfOk result (λ plan. IsPlanFor seat.now plan) }
{
    let file = open_file(seat, fd)?;
    let plan = lseek_from(fd, by, base_of(nodes, file, whence))?;
    Ok(plan)
}

/// dup(2).
pub fn dup_row(seat: &Seat, fd: u16) -> Result<CallPlan, Stop>
    ensures row { Gives (λ plan. plan) result (dup_row seat.now fd) }
    ensures ready { IfOk result (λ plan. IsPlanFor seat.now plan) }
{
    let _file = open_file(seat, fd)?;
    let to = descriptor(seat)?;
    Ok(changing(Reply::Num(u32::from(to)), SessionChange::Twin { fd, to }))
}

/// fstat(2).
pub fn fstat_row(nodes: &Nodes, seat: &Seat, fd: u16) -> Result<CallPlan, Stop>
    ensures row { Gives (λ plan. plan) result (fstat_row nodes.now seat.now fd) }
    ensures ready { IfOk result (λ plan. IsPlanFor seat.now plan) }
{
    let file = open_file(seat, fd)?;
    let stat = stat_in(nodes, file.ino)?;
    Ok(stat_found(stat))
}

/// exit(2).
pub fn exit_row(alloc: Global, seat: &Seat) -> Result<CallPlan, Stop>
    ensures row { Gives (λ plan. plan) result (exit_row seat.now) }
    ensures ready { IfOk result (λ plan. IsPlanFor seat.now plan) }
{
    let inos = seat.inos(alloc)?;
    if inos.as_slice().is_empty() {
        return Ok(changing(Reply::Num(0), SessionChange::Clear));
    }
    Ok(both(0, FsOp::Release { inos }, SessionChange::Clear))
}
