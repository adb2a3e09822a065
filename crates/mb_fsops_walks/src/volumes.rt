use mb_fsops::V7;
use mb_gathering::{GatheredBlocks, SMALL, gather, nothing};
use mb_iface::{Acted, Answer, Asked, FileSys, Opens, Query};
use mb_kinds::{Cred, Errno, Name, Octets, Path, Stat};
use mb_tree::{FsOp, Inos};
use std::alloc::Global;
use std::test::Fail;

/// The root directory.
pub const ROOT: u16 = 2;

/// A volume in memory with the open files on it.
#[derive(Drop)]
pub struct MemVolume {
    heap: Global,
    blocks: GatheredBlocks,
    opens: Opens,
}

/// What an operation came to.
#[derive(Clone, Copy, Debug, PartialEq, Drop)]
pub enum OperationEnd {
    Done(Option<u16>),
    Refused(Errno),
}

/// The fresh volume of 100 blocks and 16 inodes, which has the root alone.
pub fn fresh(heap: Global) -> Result<MemVolume, Fail> {
    Ok(MemVolume {
        heap,
        blocks: mb_gathering::fresh(heap, SMALL)?,
        opens: Opens::new(heap),
    })
}

/// Asks the file system over a view until it asks for no block any longer.
fn asked_over(volume: &MemVolume, view: &mut GatheredBlocks, query: &Query) -> Result<Asked, Fail> {
    for _ in 0..100 {
        match V7.ask(volume.heap, view, query) {
            Asked::Need(need) => gather(&volume.blocks, view, need)?,
            other => return Ok(other),
        }
    }
    Err("a query asks too often".into())
}

/// Asks the file system until it asks for no block any longer.
fn asked(volume: &MemVolume, query: &Query) -> Result<Asked, Fail> {
    asked_over(volume, &mut nothing(volume.heap), query)
}

/// Lets the file system act over a view until it asks for no block any longer.
fn acted_over(
    volume: &MemVolume,
    view: &mut GatheredBlocks,
    op: &FsOp,
    pick: Option<u16>,
) -> Result<Acted, Fail> {
    for _ in 0..100 {
        match V7.act(volume.heap, view, &volume.opens, op, pick) {
            Acted::Need(need) => gather(&volume.blocks, view, need)?,
            other => return Ok(other),
        }
    }
    Err("an operation asks too often".into())
}

/// Lets the file system act until it asks for no block any longer.
fn acted(volume: &MemVolume, op: &FsOp, pick: Option<u16>) -> Result<Acted, Fail> {
    acted_over(volume, &mut nothing(volume.heap), op, pick)
}

/// Adds the first block of each of an operation's needs, one after another.
fn add_needs(
    volume: &MemVolume,
    view: &mut GatheredBlocks,
    asked: &mut Vec<u32>,
    op: &FsOp,
    pick: Option<u16>,
) -> Result<(), Fail> {
    for _ in 0..100 {
        match V7.act(volume.heap, view, &volume.opens, op, pick) {
            Acted::Need(need) => {
                asked.push(need.first)?;
                gather(&volume.blocks, view, need)?;
            }
            _ => return Ok(()),
        }
    }
    Err("an operation asks too often".into())
}

/// The first block of each of an operation's needs, one after another.
fn asks_for(volume: &MemVolume, op: &FsOp, pick: Option<u16>) -> Result<Vec<u32>, Fail> {
    let mut asked = Vec::new(volume.heap);
    add_needs(volume, &mut nothing(volume.heap), &mut asked, op, pick)?;
    Ok(asked)
}

/// The last of so many blocks that begin with these.
fn last_of(asked: &[u32], count: usize, first: &[u32]) -> Result<u32, Fail> {
    match asked.last() {
        Some(last) if asked.len() == count && asked.starts_with(first) => Ok(*last),
        _ => Err("other blocks are asked for".into()),
    }
}

/// The last of the blocks that an operation asks for, which are so many and begin with these.
pub fn last_need(
    volume: &MemVolume,
    op: &FsOp,
    pick: Option<u16>,
    count: usize,
    first: &[u32],
) -> Result<u32, Fail> {
    let asked = asks_for(volume, op, pick)?;
    last_of(&asked, count, first)
}

/// Does an operation on the volume, with a demanded number or without one.
fn perform(volume: &mut MemVolume, op: &FsOp, pick: Option<u16>) -> Result<OperationEnd, Fail> {
    match acted(volume, op, pick)? {
        Acted::Done { changes, pick } => {
            volume.blocks.blocks.absorb(changes)?;
            Ok(OperationEnd::Done(pick))
        }
        Acted::Refused(error) => Ok(OperationEnd::Refused(error)),
        _ => Err("no end".into()),
    }
}

/// Does an operation, which has to end so.
pub fn ends(volume: &mut MemVolume, op: FsOp, wanted: OperationEnd) -> Result<(), Fail> {
    if perform(volume, &op, None)? == wanted {
        Ok(())
    } else {
        Err("another end".into())
    }
}

/// A name as a slot has it.
fn named(text: &[u8]) -> Name {
    let mut name = [0; 14];
    for (k, byte) in text.iter().enumerate() {
        if k < 14 {
            name[k] = *byte;
        }
    }
    name
}

/// The making of a file under a name of the directory.
pub fn creation(dir: u16, text: &[u8]) -> FsOp {
    FsOp::Create {
        dir,
        name: named(text),
        mode: 0o644,
        uid: 5,
        gid: 6,
        moment: 7,
    }
}

/// Makes a file under a name of a directory.
pub fn creates(
    volume: &mut MemVolume,
    dir: u16,
    text: &[u8],
    wanted: OperationEnd,
) -> Result<(), Fail> {
    ends(volume, creation(dir, text), wanted)
}

/// Makes a file with a demanded number under a name of the root.
pub fn creates_as(volume: &mut MemVolume, text: &[u8], ino: u16) -> Result<(), Fail> {
    if perform(volume, &creation(ROOT, text), Some(ino))? == OperationEnd::Done(Some(ino)) {
        Ok(())
    } else {
        Err("another number".into())
    }
}

/// The making of a directory under a name of the root.
pub fn directory_creation(text: &[u8]) -> FsOp {
    FsOp::MakeDir {
        dir: ROOT,
        name: named(text),
        mode: 0o755,
        uid: 5,
        gid: 6,
        moment: 7,
    }
}

/// Makes a directory under a name of the root.
pub fn makes_dir(volume: &mut MemVolume, text: &[u8], wanted: OperationEnd) -> Result<(), Fail> {
    ends(volume, directory_creation(text), wanted)
}

/// The removal of a directory by its name in the root.
pub fn removal(text: &[u8]) -> FsOp {
    FsOp::RemoveDir {
        dir: ROOT,
        name: named(text),
        moment: 8,
    }
}

/// Removes a directory by its name in the root.
pub fn removes_dir(volume: &mut MemVolume, text: &[u8], wanted: OperationEnd) -> Result<(), Fail> {
    ends(volume, removal(text), wanted)
}

/// Enters a further name of an inode in the root.
pub fn enlinks(
    volume: &mut MemVolume,
    text: &[u8],
    ino: u16,
    wanted: OperationEnd,
) -> Result<(), Fail> {
    let op = FsOp::Enlink {
        dir: ROOT,
        name: named(text),
        ino,
        moment: 8,
    };
    ends(volume, op, wanted)
}

/// Takes a name out of the root.
pub fn delinks(volume: &mut MemVolume, text: &[u8], wanted: OperationEnd) -> Result<(), Fail> {
    let op = FsOp::Delink {
        dir: ROOT,
        name: named(text),
        moment: 8,
    };
    ends(volume, op, wanted)
}

/// Puts bytes into a file.
pub fn puts(volume: &mut MemVolume, ino: u16, offset: u32, text: &[u8]) -> Result<(), Fail> {
    if text.len() > 65_535 {
        return Err("too many bytes".into());
    }
    let op = FsOp::Put {
        ino,
        offset,
        bytes: Octets::from_vec(text.to_vec(volume.heap)?),
        moment: 9,
    };
    ends(volume, op, OperationEnd::Done(None))
}

/// Sets how many open files an inode has.
pub fn counts_open(volume: &mut MemVolume, ino: u16, count: u32) -> Result<(), Fail> {
    volume.opens.set(ino, count)?;
    Ok(())
}

/// Counts one open file on an inode.
pub fn opens(volume: &mut MemVolume, ino: u16) -> Result<(), Fail> {
    counts_open(volume, ino, 1)
}

/// Lets one open file on an inode go, after which it has so many.
pub fn lets_go(volume: &mut MemVolume, ino: u16, left: u32) -> Result<(), Fail> {
    let op = FsOp::Release {
        inos: Inos::from_vec([ino].to_vec(volume.heap)?),
    };
    ends(volume, op, OperationEnd::Done(None))?;
    counts_open(volume, ino, left)
}

/// Lets the one open file on an inode go.
pub fn releases(volume: &mut MemVolume, ino: u16) -> Result<(), Fail> {
    lets_go(volume, ino, 0)
}

/// A path of these bytes.
fn path_of(heap: Global, text: &[u8]) -> Result<Path, Fail> {
    if text.len() > 255 || text.contains(&0) {
        return Err("no path".into());
    }
    Ok(Path::from_vec(text.to_vec(heap)?))
}

/// Finds a path.
fn found(volume: &MemVolume, text: &[u8]) -> Result<Asked, Fail> {
    let query = Query::Find {
        cwd: ROOT,
        cred: Cred { uid: 5, gid: 6 },
        path: path_of(volume.heap, text)?,
    };
    asked(volume, &query)
}

/// Finds the place of a path's last component as the super-user does.
fn placed(volume: &MemVolume, text: &[u8]) -> Result<Asked, Fail> {
    let query = Query::Place {
        cwd: ROOT,
        cred: Cred { uid: 0, gid: 0 },
        path: path_of(volume.heap, text)?,
    };
    asked(volume, &query)
}

/// The directory and the name of a path's last component, as the super-user finds them.
pub fn name_at(volume: &MemVolume, text: &[u8]) -> Result<(u16, Name), Fail> {
    match placed(volume, text)? {
        Asked::Found(Answer::Place { dir, name, .. }) => Ok((dir, name)),
        _ => Err("no place".into()),
    }
}

/// What stat tells of the inode to which a path leads.
pub fn at_path(volume: &MemVolume, text: &[u8]) -> Result<Stat, Fail> {
    match found(volume, text)? {
        Asked::Found(Answer::Node(stat)) => Ok(stat),
        _ => Err("no inode is found".into()),
    }
}

/// A path leads to this inode.
pub fn leads_to(volume: &MemVolume, text: &[u8], ino: u16) -> Result<(), Fail> {
    if at_path(volume, text)?.ino == ino {
        Ok(())
    } else {
        Err("another inode is found".into())
    }
}

/// A path is refused with this error.
pub fn is_refused(volume: &MemVolume, text: &[u8], wanted: Errno) -> Result<(), Fail> {
    match found(volume, text)? {
        Asked::Refused(error) => {
            if error == wanted {
                Ok(())
            } else {
                Err("another error".into())
            }
        }
        _ => Err("the path is there".into()),
    }
}

/// A path leads nowhere.
pub fn is_missing(volume: &MemVolume, text: &[u8]) -> Result<(), Fail> {
    is_refused(volume, text, Errno::ENOENT)
}

/// What stat tells of an inode.
pub fn info(volume: &MemVolume, ino: u16) -> Result<Stat, Fail> {
    match asked(volume, &Query::Info { ino })? {
        Asked::Found(Answer::Node(stat)) => Ok(stat),
        _ => Err("no inode".into()),
    }
}

/// An inode has this mode, so many links and so many bytes.
pub fn is_so(volume: &MemVolume, ino: u16, mode: u16, nlink: u16, size: u32) -> Result<(), Fail> {
    let stat = info(volume, ino)?;
    if stat.mode == mode && stat.nlink == nlink && stat.size == size {
        Ok(())
    } else {
        Err("another mode, count of links or size".into())
    }
}

/// So many slots of a directory are in use.
pub fn counts(volume: &MemVolume, ino: u16, wanted: u32) -> Result<(), Fail> {
    match asked(volume, &Query::Used { ino })? {
        Asked::Found(Answer::Used(count)) => {
            if count == wanted {
                Ok(())
            } else {
                Err("another count".into())
            }
        }
        _ => Err("no count".into()),
    }
}

/// Reads 100 bytes of a file.
fn bytes_at(volume: &MemVolume, ino: u16, offset: u32) -> Result<Asked, Fail> {
    let query = Query::Bytes {
        ino,
        offset,
        count: 100,
    };
    asked(volume, &query)
}

/// These bytes are the wanted ones.
fn are(bytes: &[u8], wanted: &[u8]) -> Result<(), Fail> {
    if bytes == wanted {
        Ok(())
    } else {
        Err("other bytes".into())
    }
}

/// A read of 100 bytes of a file gets these.
pub fn reads(volume: &MemVolume, ino: u16, offset: u32, wanted: &[u8]) -> Result<(), Fail> {
    match bytes_at(volume, ino, offset)? {
        Asked::Found(Answer::Bytes(bytes)) => are(bytes.as_slice(), wanted),
        _ => Err("no bytes".into()),
    }
}
