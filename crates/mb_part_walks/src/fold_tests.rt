ghost use Rattle.std.specs.Prelude.{◌≤◌, length};

use mb_kinds::{NoMemory, Octets};
use mb_oplog::Oplog;
use mb_oplog_fold::fold;
use mb_tree::FsOp;
use std::alloc::Global;

fn put(heap: Global, offset: u32, bytes: &[u8], moment: u32) -> Result<FsOp, NoMemory>
    requires { length bytes.now ≤ 65535 }
{
    let mut own = Vec::new(heap);
    own.extend_from_slice(bytes)?;
    Ok(FsOp::Put {
        ino: 3,
        offset,
        bytes: Octets::from_vec(own),
        moment,
    })
}

fn chmod(mode: u16, moment: u32) -> FsOp {
    FsOp::SetMode {
        ino: 3,
        mode,
        moment,
    }
}

// The mode and the moment of an operation that sets a mode.
fn mode_of(op: &FsOp) -> Option<(u16, u32)> {
    match op {
        FsOp::SetMode { mode, moment, .. } => Some((*mode, *moment)),
        _ => None,
    }
}

// Whether an operation puts these bytes there, at that moment.
fn puts(op: &FsOp, at: u32, all: &[u8], when: u32) -> bool {
    match op {
        FsOp::Put {
            offset,
            bytes,
            moment,
            ..
        } => *offset == at && *moment == when && bytes.as_slice() == all,
        _ => false,
    }
}

#[test]
fn writes_and_modes_in_a_row_become_one(rt: HostRuntime) -> Result<(), NoMemory> {
    let heap = rt.alloc();
    let mut log = Oplog::new(heap);
    log.reserve(5)?;
    log.push(chmod(0o600, 2), None);
    log.push(chmod(0o640, 3), None);
    log.push(put(heap, 0, b"ab", 4)?, None);
    log.push(put(heap, 2, b"cd", 5)?, None);
    log.push(put(heap, 0, b"e", 7)?, None);
    fold(heap, &mut log)?;
    assert_eq!(rt; log.len(), 3);
    assert_eq!(rt; mode_of(&log.get(0).op), Some((0o640, 3)));
    assert!(rt; puts(&log.get(1).op, 0, b"abcd", 5));
    assert!(rt; puts(&log.get(2).op, 0, b"e", 7));
    Ok(())
}
