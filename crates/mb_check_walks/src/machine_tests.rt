use crate::trees::{directory, letter, plain, regular, tree};
use crate::volumes::{Patch, empty, patched};
use mb_check::OpenFault;
use mb_check_tree::machine;
use mb_edge::{Bytes, Fails, MemDisk};
use mb_kinds::{Cred, Creds};
use mb_mkfs::make;
use mb_model_walks::tree_difference;
use mb_tree::{Body, Machine, Node, Seat, Tree};
use std::alloc::Global;
use std::test::Fail;

const CREDS: [Cred; 2] = [Cred { uid: 0, gid: 0 }, Cred { uid: 5, gid: 6 }];

fn creds(heap: Global) -> Result<Creds, Fail> {
    Ok(Creds::from_vec(CREDS.to_vec(heap)?))
}

/// Whether a session is that of a caller who begins in the root.
fn begins(seat: &Seat, cred: &Cred) -> bool {
    seat.cred == *cred
        && seat.cwd == 2
        && seat.umask == 0
        && seat.free_descriptor() == Some(3)
        && seat.files.get(0).is_none()
}

/// The sessions are those of the two callers, who begin in the root.
fn all_begin(machine: &Machine) -> Result<(), Fail> {
    for (at, cred) in CREDS.iter().enumerate() {
        let Some(seat) = machine.seats.get(at) else {
            return Err("a caller has no session".into());
        };
        if !begins(seat, cred) {
            return Err("a session is another".into());
        }
    }
    if machine.seats.len() != 2 {
        return Err("another number of callers".into());
    }
    Ok(())
}

/// What opening a disk for the two callers finds.
fn machine_of(heap: Global, disk: &mut MemDisk) -> Result<Result<Machine, OpenFault>, Fail> {
    let creds = creds(heap)?;
    Ok(machine(heap, disk, &creds))
}

/// The tree that opening a disk for the two callers finds, who begin in the root.
fn opened(heap: Global, disk: &mut MemDisk) -> Result<Result<Tree, OpenFault>, Fail> {
    match machine_of(heap, disk)? {
        Ok(machine) => {
            all_begin(&machine)?;
            Ok(Ok(machine.tree))
        }
        Err(fault) => Ok(Err(fault)),
    }
}

/// Why a disk is not opened; `None` where it is.
fn fault_of(heap: Global, disk: &mut MemDisk) -> Result<Option<OpenFault>, Fail> {
    let found = opened(heap, disk)?;
    Ok(found.err())
}

fn is_same(heap: Global, found: &Tree, wanted: &Tree) -> Result<(), Fail> {
    match tree_difference(heap, found, wanted)? {
        Some(apart) => Err(format!(in heap; "{apart:?}")?.into()),
        None => Ok(()),
    }
}

/// Opening a disk finds this tree.
fn finds(heap: Global, disk: &mut MemDisk, wanted: &Tree) -> Result<(), Fail> {
    match opened(heap, disk)? {
        Ok(found) => is_same(heap, &found, wanted),
        Err(fault) => Err(format!(in heap; "{fault:?}")?.into()),
    }
}

/// The root alone.
fn root_alone(heap: Global, last: u16, cap: u32) -> Result<Tree, Fail> {
    let root = plain(0o040777, 2, directory(heap, 2, 2, &[])?);
    let mut all = Vec::new(heap);
    all.push((2, root))?;
    Ok(tree(heap, last, cap, all)?)
}

/// Opening a disk finds the root alone.
fn finds_root_alone(heap: Global, disk: &mut MemDisk, last: u16, cap: u32) -> Result<(), Fail> {
    let wanted = root_alone(heap, last, cap)?;
    finds(heap, disk, &wanted)
}

/// A volume is made on a disk.
fn make_on(disk: &mut MemDisk, blocks: u32, inodes: u16) -> Result<(), Fail> {
    if make(disk, blocks, u32::from(inodes)).is_err() {
        return Err("no volume was made".into());
    }
    Ok(())
}

/// An empty disk with room for 1,000 blocks.
fn roomy(heap: Global) -> Result<MemDisk, Fail> {
    let none = || Fails::new(heap);
    Ok(MemDisk::new(heap, Bytes::new(heap), 1_000, none(), none(), none())?)
}

fn makes_root_alone(
    heap: Global,
    disk: &mut MemDisk,
    blocks: u32,
    inodes: u16,
    cap: u32,
) -> Result<(), Fail> {
    make_on(disk, blocks, inodes)?;
    finds_root_alone(heap, disk, inodes, cap)
}

fn has_root_alone(heap: Global, blocks: u32, inodes: u16, cap: u32) -> Result<(), Fail> {
    let mut disk = roomy(heap)?;
    makes_root_alone(heap, &mut disk, blocks, inodes, cap)
}

#[test]
fn a_fresh_volume_has_the_root_alone(rt: HostRuntime) -> Result<(), Fail> {
    for (blocks, inodes, cap) in [(100, 16, 96), (4, 8, 1), (5, 16, 1), (1_000, 240, 968)] {
        has_root_alone(rt.alloc(), blocks, inodes, cap)?;
    }
    Ok(())
}

/// Inode 3 is a regular file `a` of 1 link with a part at each level of its addresses, the blocks 5 to 15, and holes between
/// them. The free chain lacks these blocks, and 16 and 17.
const FILE: [Patch; 33] = [
    (1, 6, 33),
    (2, 128, 0xa4),
    (2, 129, 0x81),
    (2, 130, 1),
    (2, 132, 3),
    (2, 135, 1),
    (2, 136, 0x81),
    (2, 138, 0x34),
    (2, 139, 0x12),
    (2, 141, 5),
    (2, 147, 6),
    (5, 0, 0x50),
    (6, 0, 0x51),
    (2, 171, 7),
    (7, 22, 8),
    (8, 0, 0x52),
    (2, 174, 9),
    (9, 6, 10),
    (10, 14, 11),
    (11, 0, 0x53),
    (2, 177, 12),
    (12, 10, 13),
    (13, 2, 14),
    (14, 510, 15),
    (15, 0, 0x54),
    (2, 180, 1),
    (2, 182, 2),
    (2, 184, 3),
    (2, 186, 4),
    (2, 190, 5),
    (4, 32, 3),
    (4, 34, 97),
    (2, 74, 96),
];

/// Inode 4 is a regular file without a name in block 16, inode 6 a special one. Inode 1 has no name either.
const NAMELESS: [Patch; 4] = [(2, 193, 0x80), (2, 205, 16), (2, 321, 0x60), (2, 1, 0x80)];

/// Inode 5 is a character device `c`. Inode 7 is a directory `d` in block 17, with an emptied slot, whose file `z` is the
/// last inode, 16, which the root names `y`.
const OTHERS: [Patch; 23] = [
    (2, 257, 0x20),
    (2, 258, 1),
    (2, 268, 7),
    (2, 307, 9),
    (4, 48, 5),
    (4, 50, 99),
    (2, 385, 0x40),
    (2, 386, 2),
    (2, 394, 64),
    (2, 397, 17),
    (17, 0, 7),
    (17, 2, 46),
    (17, 16, 2),
    (17, 18, 46),
    (17, 19, 46),
    (17, 34, 120),
    (17, 48, 16),
    (17, 50, 122),
    (3, 449, 0x80),
    (3, 450, 2),
    (4, 64, 7),
    (4, 66, 100),
    (2, 66, 3),
];

/// The name `y` of the last inode.
const LAST: [Patch; 2] = [(4, 80, 16), (4, 82, 121)];

/// All but the file `a`.
fn add_others(patches: &mut Vec<Patch>) -> Result<(), Fail> {
    patches.extend_from_slice(&NAMELESS)?;
    patches.extend_from_slice(&OTHERS)?;
    patches.extend_from_slice(&LAST)?;
    Ok(())
}

/// All of them.
fn everything(heap: Global) -> Result<Vec<Patch>, Fail> {
    let mut patches = FILE.to_vec(heap)?;
    add_others(&mut patches)?;
    Ok(patches)
}

/// The volume that has all of them.
fn with_everything(heap: Global) -> Result<MemDisk, Fail> {
    let patches = everything(heap)?;
    patched(heap, &patches)
}

/// The inode of the file `a`.
fn file(heap: Global) -> Result<Node, Fail> {
    let parts = [
        (0, 0x50),
        (2, 0x51),
        (15, 0x52),
        (138 + 128 + 3, 0x53),
        (16522 + 2 * 16384 + 127, 0x54),
    ];
    let body = regular(heap, 0x0081_1234, &parts)?;
    Ok(Node {
        uid: 3,
        gid: 256,
        atime: 0x0001_0002,
        mtime: 0x0003_0004,
        ctime: 5,
        ..plain(0o100644, 1, body)
    })
}

/// The special file.
fn device() -> Node {
    let mut area = [0; 40];
    area[0] = 7;
    area[39] = 9;
    plain(0o020000, 1, Body::Special { size: 0, area })
}

/// The root.
fn root(heap: Global) -> Result<Node, Fail> {
    let named = [
        letter(3, 97),
        letter(5, 99),
        letter(7, 100),
        letter(16, 121),
    ];
    let body = directory(heap, 2, 2, &named)?;
    Ok(plain(0o040777, 3, body))
}

/// The directory `d`.
fn inner(heap: Global) -> Result<Node, Fail> {
    let slots = [letter(0, 120), letter(16, 122)];
    let body = directory(heap, 7, 2, &slots)?;
    Ok(plain(0o040000, 2, body))
}

/// A regular file without bytes.
fn void(heap: Global, nlink: u16) -> Result<Node, Fail> {
    let body = regular(heap, 0, &[])?;
    Ok(plain(0o100000, nlink, body))
}

fn add_nodes(heap: Global, all: &mut Vec<(u32, Node)>) -> Result<(), Fail> {
    all.push((1, void(heap, 0)?))?;
    all.push((2, root(heap)?))?;
    all.push((3, file(heap)?))?;
    all.push((5, device()))?;
    all.push((7, inner(heap)?))?;
    all.push((16, void(heap, 2)?))?;
    Ok(())
}

/// What opening that volume leaves: all but inodes 4 and 6.
fn everything_named(heap: Global) -> Result<Tree, Fail> {
    let mut all = Vec::new(heap);
    add_nodes(heap, &mut all)?;
    Ok(tree(heap, 16, 96, all)?)
}

fn finds_everything(heap: Global, disk: &mut MemDisk) -> Result<(), Fail> {
    let wanted = everything_named(heap)?;
    finds(heap, disk, &wanted)
}

#[test]
fn a_volume_is_read_with_all_that_it_holds(rt: HostRuntime) -> Result<(), Fail> {
    let mut disk = with_everything(rt.alloc())?;
    finds_everything(rt.alloc(), &mut disk)
}

/// Why the fresh volume with these bytes changed is not opened.
fn fault_of_patched(heap: Global, patches: &[Patch]) -> Result<Option<OpenFault>, Fail> {
    let mut disk = patched(heap, patches)?;
    fault_of(heap, &mut disk)
}

#[test]
fn no_volume_is_not_opened(rt: HostRuntime) -> Result<(), Fail> {
    let fault = fault_of_patched(rt.alloc(), &[(2, 66, 3)])?;
    assert_eq!(rt; fault, Some(OpenFault::Unsound { block: 2, rule: 14 }));
    Ok(())
}

/// The fresh volume over a disk that fails one read.
fn failing(heap: Global, read: u64) -> Result<MemDisk, Fail> {
    let reads = Fails::from_vec([read].to_vec(heap)?);
    let mut disk = empty(heap, Fails::new(heap), reads)?;
    make_on(&mut disk, 100, 16)?;
    Ok(disk)
}

/// Why that one is not opened.
fn fault_at(heap: Global, read: u64) -> Result<Option<OpenFault>, Fail> {
    let mut disk = failing(heap, read)?;
    fault_of(heap, &mut disk)
}

fn is_opened_at(heap: Global, read: u64) -> Result<(), Fail> {
    let mut disk = failing(heap, read)?;
    finds_root_alone(heap, &mut disk, 16, 96)
}

// Six reads of the scan, four of the inodes once more, 16 of one inode each, and the root's block.
#[test]
fn a_disk_that_fails_any_read_is_told(rt: HostRuntime) -> Result<(), Fail> {
    for read in 1..28u64 {
        let fault = fault_at(rt.alloc(), read)?;
        assert_eq!(rt; fault, Some(OpenFault::Device), "read {read}");
    }
    is_opened_at(rt.alloc(), 28)
}
