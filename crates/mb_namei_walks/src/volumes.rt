use mb_gathering::{GatheredBlocks, gather, nothing};
use mb_iface::{Answer, Asked};
use mb_kinds::{Cred, Errno, Path, Stat};
use mb_layout::{Dinode, inode_block, inode_place};
use mb_namei::{find, place, used};
use std::alloc::Global;
use std::test::Fail;

/// Writes an inode whose first ten parts are the blocks from `first` on, as far as its size goes, and
/// whose single index block is `index`.
fn put_inode(
    disk: &mut GatheredBlocks,
    ino: u16,
    mode: u16,
    uid: u16,
    size: u32,
    first: u8,
    index: u8,
) -> Result<(), Fail> {
    let mut area = [0; 40];
    for part in 0..10_usize {
        if size / 512 > part as u32 || size % 512 != 0 && size / 512 == part as u32 {
            area[3 * part + 1] = first.saturating_add(part as u8);
        }
    }
    area[31] = index;
    let inode = Dinode {
        mode,
        nlink: 1,
        uid,
        gid: 1,
        size,
        area,
        atime: 1,
        mtime: 2,
        ctime: 3,
    };
    let block = inode_block(ino);
    let Some(bytes) = disk.blocks.get(block) else {
        return Err("an inode has no block".into());
    };
    let mut whole = *bytes;
    inode.write(&mut whole, inode_place(ino));
    disk.blocks.put(block, &whole)?;
    Ok(())
}

/// Writes a slot of a directory's block.
fn put_slot(disk: &mut GatheredBlocks, block: u32, at: usize, ino: u8, name: &[u8]) {
    let mut slot = [0; 16];
    slot[0] = ino;
    for (k, byte) in name.iter().take(14).enumerate() {
        if k < 14 {
            slot[2 + k] = *byte;
        }
    }
    let _ = disk.blocks.patch(block, 16 * at.min(31), &slot);
}

/// The name of a slot of the large directory: `n` and three digits.
pub fn numbered(at: u32) -> [u8; 4] {
    let digit = |value: u32| b'0' + (value % 10) as u8;
    [b'n', digit(at / 100), digit(at / 10), digit(at)]
}

/// A volume of 120 blocks with 32 inodes. The root is inode 2; `/a` is a directory of inode 3, which
/// only its owner 5 may search, with a file `f` of inode 4, an emptied slot `gone` and a file of a name
/// of 14 bytes; `/big` is a directory of inode 5 with 1,000 slots in 32 blocks.
pub fn volume(heap: Global) -> Result<GatheredBlocks, Fail> {
    let mut disk = nothing(heap);
    for block in 0..120 {
        disk.blocks.put(block, &[0; 512])?;
    }
    let sizes = [6, 0, 0, 0, 120, 0];
    let _ = disk.blocks.patch(1, 0, &sizes);
    put_inode(&mut disk, 2, 0o040755, 0, 96, 10, 0)?;
    put_inode(&mut disk, 3, 0o040700, 5, 96, 11, 0)?;
    put_inode(&mut disk, 4, 0o100644, 5, 0, 0, 0)?;
    put_inode(&mut disk, 5, 0o040755, 0, 16_000, 20, 60)?;
    put_slot(&mut disk, 10, 0, 2, b".");
    put_slot(&mut disk, 10, 1, 2, b"..");
    put_slot(&mut disk, 10, 2, 3, b"a");
    put_slot(&mut disk, 10, 3, 0, b"");
    put_slot(&mut disk, 10, 4, 5, b"big");
    put_slot(&mut disk, 10, 5, 0, b"");
    put_slot(&mut disk, 11, 0, 3, b".");
    put_slot(&mut disk, 11, 1, 2, b"..");
    put_slot(&mut disk, 11, 2, 0, b"gone");
    put_slot(&mut disk, 11, 3, 4, b"f");
    put_slot(&mut disk, 11, 4, 4, b"fourteen-bytes");
    put_slot(&mut disk, 11, 5, 4, b"thirteen-byte");
    for part in 10..32_u8 {
        let address = [0, 0, 20 + part, 0];
        let _ = disk.blocks.patch(60, 4 * (part as usize - 10), &address);
    }
    for at in 0..1000_u32 {
        put_slot(
            &mut disk,
            20 + at / 32,
            (at % 32) as usize,
            4,
            &numbered(at),
        );
    }
    put_slot(&mut disk, 20, 0, 5, b".");
    put_slot(&mut disk, 20, 1, 2, b"..");
    Ok(disk)
}

/// The same volume, where the first 20 blocks of the large directory stand apart: at each second block from
/// 62 on.
pub fn volume_apart(heap: Global) -> Result<GatheredBlocks, Fail> {
    let mut disk = volume(heap)?;
    let addresses = 64 * inode_place(5) as usize + 12;
    for part in 0..20_u8 {
        let Some(bytes) = disk.blocks.get(20 + u32::from(part)) else {
            return Err("a part has no block".into());
        };
        let bytes = *bytes;
        let block = 62 + 2 * part;
        disk.blocks.put(u32::from(block), &bytes)?;
        if part < 10 {
            let at = addresses + 3 * usize::from(part) + 1;
            let _ = disk.blocks.patch(inode_block(5), at, &[block]);
        } else {
            let at = 4 * (usize::from(part) - 10) + 2;
            let _ = disk.blocks.patch(60, at, &[block]);
        }
    }
    Ok(disk)
}

/// What a query came to, once every block that it asked for was gathered.
#[derive(Drop)]
pub enum QueryEnd {
    Found(Answer),
    Refused(Errno),
}

/// A path of these bytes.
pub fn path_of(heap: Global, text: &[u8]) -> Result<Path, Fail> {
    if text.len() > 255 || text.contains(&0) {
        return Err("no path".into());
    }
    Ok(Path::from_vec(text.to_vec(heap)?))
}

/// Finds a path from a view of nothing, and counts the blocks that were asked for.
pub fn find_on(
    heap: Global,
    disk: &GatheredBlocks,
    view: &mut GatheredBlocks,
    uid: u16,
    text: &[u8],
) -> Result<QueryEnd, Fail> {
    let path = path_of(heap, text)?;
    for _ in 0..40 {
        match find(heap, view, 2, Cred { uid, gid: 9 }, &path) {
            Asked::Found(answer) => return Ok(QueryEnd::Found(answer)),
            Asked::Refused(error) => return Ok(QueryEnd::Refused(error)),
            Asked::Need(need) => gather(disk, view, need)?,
            Asked::NoMemory => return Err("no memory".into()),
        }
    }
    Err("a path asks too often".into())
}

/// Finds the place of a path from a view of nothing.
pub fn place_on(
    heap: Global,
    disk: &GatheredBlocks,
    view: &mut GatheredBlocks,
    uid: u16,
    text: &[u8],
) -> Result<QueryEnd, Fail> {
    let path = path_of(heap, text)?;
    for _ in 0..40 {
        match place(heap, view, 3, Cred { uid, gid: 9 }, &path) {
            Asked::Found(answer) => return Ok(QueryEnd::Found(answer)),
            Asked::Refused(error) => return Ok(QueryEnd::Refused(error)),
            Asked::Need(need) => gather(disk, view, need)?,
            Asked::NoMemory => return Err("no memory".into()),
        }
    }
    Err("a place asks too often".into())
}

/// Counts the used slots of a directory from a view of nothing.
pub fn used_on(heap: Global, disk: &GatheredBlocks, ino: u16) -> Result<u32, Fail> {
    let mut view = nothing(heap);
    for _ in 0..40 {
        match used(heap, &view, ino) {
            Asked::Found(Answer::Used(count)) => return Ok(count),
            Asked::Need(need) => gather(disk, &mut view, need)?,
            _ => return Err("another answer".into()),
        }
    }
    Err("a count asks too often".into())
}

/// The inode that a path leads to is this one.
pub fn leads_to(rt: &HostRuntime, text: &[u8], ino: u16) -> Result<(), Fail> {
    let disk = volume(rt.alloc())?;
    match find_on(rt.alloc(), &disk, &mut nothing(rt.alloc()), 5, text)? {
        QueryEnd::Found(Answer::Node(Stat { ino: found, .. })) => {
            if found == ino {
                Ok(())
            } else {
                Err("another inode is found".into())
            }
        }
        _ => Err("no inode is found".into()),
    }
}

/// A path is refused with this error for a caller of this number.
pub fn is_refused(rt: &HostRuntime, uid: u16, text: &[u8], error: Errno) -> Result<(), Fail> {
    let disk = volume(rt.alloc())?;
    match find_on(rt.alloc(), &disk, &mut nothing(rt.alloc()), uid, text)? {
        QueryEnd::Refused(found) => {
            if found == error {
                Ok(())
            } else {
                Err("another error".into())
            }
        }
        QueryEnd::Found(_) => Err("no error".into()),
    }
}
