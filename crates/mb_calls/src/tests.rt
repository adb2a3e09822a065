//! The parts of a call that no volume is needed for: calls whose row asks nothing, the order in which the
//! results of questions are looked at, and where a path is cut.

ghost use Rattle.std.specs.Prelude.{None};

use crate::decisions::create_asked;
use crate::halts::Halt;
use crate::performing::{Performed, ReadyCall, perform};
use crate::spots::link_spot;
use crate::walks::cut;
use mb_iface::{Acted, Asked, FileSys, Need, Opens, Query, View};
use mb_kinds::{Call, Cred, Errno, Path, Reply, Stat};
use mb_tree::{CallPlan, Fds, Files, FsOp, Seat, SessionChange};
use std::alloc::Global;
use std::test::Fail;

/// A view that lacks all blocks.
#[derive(Drop)]
struct NoBlocks;

impl View for NoBlocks {
    ghost shown = { λ v block. None };

    fn get(&self, _block: u32) -> Option<&[u8; 512]> {
        None
    }
}

/// A file system that asks for the super-block, and meets want of memory where it has that.
#[derive(Clone, Copy)]
struct Hungry;

impl FileSys for Hungry {
    fn ask<V: View>(&self, _alloc: Global, view: &V, _query: &Query) -> Asked {
        match view.get(1) {
            Some(_) => Asked::NoMemory,
            None => Asked::Need(Need::one(1)),
        }
    }

    fn act<V: View>(
        &self,
        _alloc: Global,
        view: &V,
        _opens: &Opens,
        _op: &FsOp,
        _pick: Option<u16>,
    ) -> Acted {
        match view.get(1) {
            Some(_) => Acted::NoMemory,
            None => Acted::Need(Need::one(1)),
        }
    }
}

/// A caller in the root.
fn seat() -> Seat {
    Seat {
        cred: Cred { uid: 3, gid: 4 },
        cwd: 2,
        umask: 0o22,
        fds: Fds::new(),
        files: Files::new(),
    }
}

fn stat() -> Stat {
    Stat {
        ino: 7,
        mode: 0o100644,
        nlink: 1,
        uid: 3,
        gid: 4,
        size: 0,
        atime: 0,
        mtime: 0,
        ctime: 0,
    }
}

fn by_one(alloc: Global, call: &Call) -> Performed {
    perform(
        alloc,
        &Hungry,
        &NoBlocks,
        &[seat()],
        &Opens::new(alloc),
        0,
        call,
        5,
    )
}

/// What a call comes to that asks nothing.
fn ready(alloc: Global, call: &Call) -> Result<ReadyCall, Fail> {
    match by_one(alloc, call) {
        Performed::Ready(ready) => Ok(ready),
        _ => Err(Fail::from("it is not ready")),
    }
}

#[test]
fn calls_that_ask_nothing_are_ready_without_a_block(rt: HostRuntime) -> Result<(), Fail> {
    let masked = ready(rt.alloc(), &Call::Umask { mask: 0o7077 })?;
    assert_eq!(rt; masked.reply, Reply::Num(0o22));
    assert!(rt; matches!(masked.session, SessionChange::Mask { mask: 0o77 }));
    assert!(rt; !masked.shared);
    let closed = ready(rt.alloc(), &Call::Close { fd: 3 })?;
    assert_eq!(rt; closed.reply, Reply::Refused(Errno::EBADF));
    assert!(rt; matches!(closed.session, SessionChange::Same));
    assert!(rt; closed.shared);
    let left = ready(rt.alloc(), &Call::Exit)?;
    assert_eq!(rt; left.reply, Reply::Num(0));
    assert!(rt; matches!(left.session, SessionChange::Clear));
    assert!(rt; left.op.is_none());
    assert_eq!(rt; left.changes.len(), 0);
    Ok(())
}

/// The first block that a plan asks for.
fn first_asked(plan: &Result<CallPlan, Halt>) -> Option<u32> {
    match plan {
        Err(Halt::Need(need)) => Some(need.first),
        _ => None,
    }
}

/// What a call asks for.
fn asked_by(performed: &Performed) -> Option<&Need> {
    match performed {
        Performed::Need(need) => Some(need),
        _ => None,
    }
}

#[test]
fn stat_asks_for_what_it_lacks(rt: HostRuntime) -> Result<(), Fail> {
    let path = Path::from_vec(b"a/b".to_vec(rt.alloc())?);
    let performed = by_one(rt.alloc(), &Call::Stat { path });
    let Some(need) = asked_by(&performed) else {
        return Err("nothing is asked for".into());
    };
    assert_eq!(rt; *need, Need::one(1));
    Ok(())
}

#[test]
fn second_path_of_link_does_not_overtake_the_first(rt: HostRuntime) {
    let missing = Err(Halt::Refused(Errno::ENOENT));
    let refused = match link_spot(&seat(), 5, missing, Err(Halt::Need(Need::one(9)))) {
        Err(Halt::Refused(error)) => Some(error),
        _ => None,
    };
    assert_eq!(rt; refused, Some(Errno::ENOENT));
    let first = Err(Halt::Need(Need::one(9)));
    let plan = link_spot(&seat(), 5, first, Err(Halt::Refused(Errno::EACCES)));
    assert_eq!(rt; first_asked(&plan), Some(9));
}

#[test]
fn file_that_is_created_stands_on_number_0(rt: HostRuntime) {
    let parent = Stat {
        mode: 0o040777,
        ..stat()
    };
    let number = match create_asked(
        &seat(),
        0o666,
        5,
        2,
        *b"new\0\0\0\0\0\0\0\0\0\0\0",
        Ok(parent),
    ) {
        Ok(plan) => match plan.session {
            SessionChange::Fresh { fd: 3, ino, .. } => Some(ino),
            _ => None,
        },
        Err(_) => None,
    };
    assert_eq!(rt; number, Some(0));
}

#[test]
fn path_is_cut_before_each_component_but_the_first(rt: HostRuntime) {
    let path = b"/usr//bin/ls/";
    assert_eq!(rt; cut(path, 0), Some(6));
    assert_eq!(rt; cut(path, 6), Some(10));
    assert_eq!(rt; cut(path, 10), None);
    assert_eq!(rt; cut(b"/usr", 0), None);
}
