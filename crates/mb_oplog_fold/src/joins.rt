ghost use Rattle.std.specs.Prelude.{◌≡◌, ◌≤◌, ◌+◌, ◌++◌, IfOk, length, true};
ghost use Rattle.mb_folds.specs.Folded as fold;
ghost use Rattle.mb_oplog.specs.Picked.{as_picked};

use crate::copies::copied_op;
use mb_edge::NoMemory;
use mb_kinds::Octets;
use mb_oplog::Logged;
use mb_tree::FsOp;
use std::alloc::Global;

/// The most bytes that one operation puts.
const MOST_BYTES: usize = 65535;

/// Whether an operation puts bytes right behind those that were put into the inode, few enough together.
fn is_behind(ino: u16, offset: u32, bytes: &Octets, next: &FsOp) -> bool
    ensures { result ≡ fold.is_behind ino offset bytes.now next.now }
{
    match next {
        FsOp::Put {
            ino: other,
            offset: from,
            bytes: more,
            ..
        } => {
            let same_inode = *other == ino;
            let length = bytes.as_slice().len();
            let added = more.as_slice().len();
            same_inode && *from as usize == offset as usize + length && length + added <= MOST_BYTES
        }
        _ => false,
    }
}

fn sets_mode(ino: u16, next: &FsOp) -> bool
    ensures { result ≡ fold.sets_mode ino next.now }
{
    match next {
        FsOp::SetMode { ino: other, .. } => *other == ino,
        _ => false,
    }
}

fn sets_owner(ino: u16, next: &FsOp) -> bool
    ensures { result ≡ fold.sets_owner ino next.now }
{
    match next {
        FsOp::SetOwner { ino: other, .. } => *other == ino,
        _ => false,
    }
}

fn sets_times(ino: u16, next: &FsOp) -> bool
    ensures { result ≡ fold.sets_times ino next.now }
{
    match next {
        FsOp::SetTimes { ino: other, .. } => *other == ino,
        _ => false,
    }
}

fn is_one(first: &FsOp, next: &FsOp) -> bool
    ensures { result ≡ fold.is_one first.now next.now }
{
    match first {
        FsOp::Put {
            ino,
            offset,
            bytes,
            ..
        } => is_behind(*ino, *offset, bytes, next),
        FsOp::SetMode { ino, .. } => sets_mode(*ino, next),
        FsOp::SetOwner { ino, .. } => sets_owner(*ino, next),
        FsOp::SetTimes { ino, .. } => sets_times(*ino, next),
        _ => false,
    }
}

/// Whether the next operation is merged with the last one.
pub(crate) fn is_merged(last: &Logged, next: &Logged) -> bool
    ensures { result ≡ fold.is_merged (as_picked last.now) (as_picked next.now) }
{
    last.pick.is_none() && next.pick.is_none() && is_one(&last.op, &next.op)
}

fn appended(bytes: Octets, more: &Octets) -> Result<Octets, NoMemory>
    requires { length bytes + length more.now ≤ 65535 }
    ensures { IfOk result (λ all. all ≡ bytes ++ more.now) }
{
    let mut all = bytes.into_vec();
    all.extend_from_slice(more.as_slice())?;
    Ok(Octets::from_vec(all))
}

fn put_on(
    alloc: Global,
    ino: u16,
    offset: u32,
    bytes: Octets,
    next: &FsOp,
) -> Result<FsOp, NoMemory>
    requires { fold.is_behind ino offset bytes next.now ≡ true }
    ensures { IfOk result (λ one. one ≡ fold.put_on ino offset bytes next.now) }
{
    match next {
        FsOp::Put {
            bytes: more,
            moment,
            ..
        } => Ok(FsOp::Put {
            ino,
            offset,
            bytes: appended(bytes, more)?,
            moment: *moment,
        }),
        other => copied_op(alloc, other),
    }
}

fn joined(alloc: Global, first: FsOp, next: &FsOp) -> Result<FsOp, NoMemory>
    requires { fold.is_one first next.now ≡ true }
    ensures { IfOk result (λ one. one ≡ fold.joined first next.now) }
{
    match first {
        FsOp::Put {
            ino,
            offset,
            bytes,
            ..
        } => put_on(alloc, ino, offset, bytes, next),
        _ => copied_op(alloc, next),
    }
}

/// The one operation that two in a row come to. The only error is want of memory.
pub(crate) fn merged(alloc: Global, last: Logged, next: &Logged) -> Result<Logged, NoMemory>
    requires { fold.is_merged (as_picked last) (as_picked next.now) ≡ true }
    ensures { IfOk result (λ one. as_picked one ≡ fold.merged (as_picked last) (as_picked next.now)) }
{
    Ok(Logged {
        op: joined(alloc, last.op, &next.op)?,
        pick: None,
    })
}
