use crate::hostile::{HostileDraws, Wild, acts_well, asks_well};
use mb_iface::Query;
use mb_kinds::{Cred, Name, Octets, Path};
use mb_tree::{FsOp, Inos};
use std::alloc::Global;
use std::test::Fail;

/// How many seeds of blocks are tried.
const SEEDS: u64 = 60;

/// A short name.
fn name_of(draws: &mut HostileDraws) -> Name {
    let mut name = [0; 14];
    name[0] = b'a' + draws.byte() % 4;
    name
}

/// A path of two components.
fn path_of(heap: Global, draws: &mut HostileDraws) -> Result<Path, Fail> {
    let first = b'a' + draws.byte() % 4;
    let second = b'a' + draws.byte() % 4;
    let text = [b'/', first, b'/', second].to_vec(heap)?;
    if text.len() > 255 || text.contains(&0) {
        return Err("no path is drawn".into());
    }
    Ok(Path::from_vec(text))
}

/// The query with an index of 0 to 4.
fn query_of(heap: Global, draws: &mut HostileDraws, index: u32) -> Result<Query, Fail> {
    let cred = Cred { uid: 0, gid: 0 };
    let cwd = draws.ino();
    let ino = draws.ino();
    let query = match index {
        0 => Query::Find {
            cwd,
            cred,
            path: path_of(heap, draws)?,
        },
        1 => Query::Place {
            cwd,
            cred,
            path: path_of(heap, draws)?,
        },
        2 => Query::Info { ino },
        3 => Query::Bytes {
            ino,
            offset: draws.long(),
            count: draws.next(),
        },
        _ => Query::Used { ino },
    };
    Ok(query)
}

/// Bytes that are written.
fn octets_of(heap: Global, draws: &mut HostileDraws) -> Result<Octets, Fail> {
    let bytes = vec![in heap; 7; usize::from(draws.next() % 2000)]?;
    if bytes.len() > 65_535 {
        return Err("too many bytes are drawn".into());
    }
    Ok(Octets::from_vec(bytes))
}

/// The operation on names with an index of 0 to 4.
fn names_op(draws: &mut HostileDraws, index: u32) -> FsOp {
    let dir = draws.ino();
    let name = name_of(draws);
    let ino = draws.ino();
    let mode = draws.next() % 512;
    let moment = draws.long();
    match index {
        0 => FsOp::Create {
            dir,
            name,
            mode,
            uid: 1,
            gid: 2,
            moment,
        },
        1 => FsOp::MakeDir {
            dir,
            name,
            mode,
            uid: 1,
            gid: 2,
            moment,
        },
        2 => FsOp::RemoveDir { dir, name, moment },
        3 => FsOp::Enlink {
            dir,
            name,
            ino,
            moment,
        },
        _ => FsOp::Delink { dir, name, moment },
    }
}

/// The operation on an inode with an index of 0 to 6.
fn inode_op(heap: Global, draws: &mut HostileDraws, index: u32) -> Result<FsOp, Fail> {
    let ino = draws.ino();
    let moment = draws.long();
    let op = match index {
        0 => FsOp::Empty { ino, moment },
        1 => FsOp::Put {
            ino,
            offset: draws.long(),
            bytes: octets_of(heap, draws)?,
            moment,
        },
        2 => FsOp::SetMode {
            ino,
            mode: draws.next() % 4096,
            moment,
        },
        3 => FsOp::SetOwner {
            ino,
            uid: draws.next(),
            gid: 3,
            moment,
        },
        4 => FsOp::SetTimes {
            ino,
            atime: draws.long(),
            mtime: draws.long(),
            moment,
        },
        5 => FsOp::Hold { ino },
        _ => FsOp::Release {
            inos: Inos::from_vec([ino, draws.ino()].to_vec(heap)?),
        },
    };
    Ok(op)
}

/// The number that is demanded of an operation, or none.
fn pick_of(draws: &mut HostileDraws) -> Option<u16> {
    if draws.next() % 4 == 0 {
        Some(draws.ino())
    } else {
        None
    }
}

/// The next query of an index comes to an answer.
fn asks(heap: Global, wild: &Wild, draws: &mut HostileDraws, index: u32) -> Result<(), Fail> {
    let query = query_of(heap, draws, index)?;
    asks_well(heap, wild, &query)
}

/// Of the blocks of a seed each query comes to an answer.
fn asks_of(heap: Global, seed: u64) -> Result<(), Fail> {
    let wild = Wild::new(seed);
    let mut draws = HostileDraws::new(seed);
    for index in 0..5 {
        asks(heap, &wild, &mut draws, index)?;
    }
    Ok(())
}

/// Whatever bytes stand in the blocks, each query comes to an answer.
#[test]
fn queries_of_any_blocks_are_answered(rt: HostRuntime) -> Result<(), Fail> {
    let heap = rt.alloc();
    for seed in 0..SEEDS {
        asks_of(heap, seed)?;
    }
    Ok(())
}

/// The next operation on names of an index comes to an end.
fn renames(heap: Global, wild: &Wild, draws: &mut HostileDraws, index: u32) -> Result<(), Fail> {
    let op = names_op(draws, index);
    let pick = pick_of(draws);
    acts_well(heap, wild, &op, pick)
}

/// In the blocks of a seed each operation on names comes to an end.
fn renames_in(heap: Global, seed: u64) -> Result<(), Fail> {
    let wild = Wild::new(seed);
    let mut draws = HostileDraws::new(seed);
    for index in 0..5 {
        renames(heap, &wild, &mut draws, index)?;
    }
    Ok(())
}

/// Whatever bytes stand in the blocks, each operation on names comes to an end.
#[test]
fn names_in_any_blocks_are_changed(rt: HostRuntime) -> Result<(), Fail> {
    let heap = rt.alloc();
    for seed in 0..SEEDS {
        renames_in(heap, seed)?;
    }
    Ok(())
}

/// The next operation on an inode of an index comes to an end.
fn changes(heap: Global, wild: &Wild, draws: &mut HostileDraws, index: u32) -> Result<(), Fail> {
    let op = inode_op(heap, draws, index)?;
    acts_well(heap, wild, &op, None)
}

/// In the blocks of a seed each operation on an inode comes to an end.
fn changes_in(heap: Global, seed: u64) -> Result<(), Fail> {
    let wild = Wild::new(seed);
    let mut draws = HostileDraws::new(seed);
    for index in 0..7 {
        changes(heap, &wild, &mut draws, index)?;
    }
    Ok(())
}

/// Whatever bytes stand in the blocks, each operation on an inode comes to an end.
#[test]
fn inodes_in_any_blocks_are_changed(rt: HostRuntime) -> Result<(), Fail> {
    let heap = rt.alloc();
    for seed in 0..SEEDS {
        changes_in(heap, seed)?;
    }
    Ok(())
}
