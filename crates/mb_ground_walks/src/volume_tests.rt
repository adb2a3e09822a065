ghost use Rattle.std.specs.Prelude.{◌≤◌};

use mb_edge::{Bytes, Fails, MemDisk};
use mb_layout::{Chain, Dinode, Slot, Super};
use mb_mkfs::{MakeFault, make};
use std::alloc::{AllocError, Global};
use std::process::Abort;
use std::test::Fail;

// A disk of so many blocks in which each byte is 7, with room for 400, whose stated write fails.
fn disk(alloc: Global, blocks: u32, failing: u64) -> Result<MemDisk, Fail>
    requires { blocks ≤ 400 }
{
    let image = Bytes::from_vec(vec![in alloc; 7; 512 * blocks as usize]?);
    let writes = Fails::from_vec([failing].to_vec(alloc)?);
    Ok(MemDisk::new(
        alloc,
        image,
        400,
        Fails::new(alloc),
        Fails::new(alloc),
        writes,
    )?)
}

// The blocks of a volume to which the freeing steps are done one after another (V7 filsys(5)).
#[derive(Drop)]
struct Freeing {
    super_block: Super,
    blocks: Vec<[u8; 512]>,
}

impl Freeing {
    fn volume(alloc: Global, s_isize: u16, s_fsize: u32) -> Result<Vec<u8>, AllocError> {
        let mut freeing = Freeing {
            super_block: Super {
                s_isize,
                s_fsize,
                s_nfree: 1,
                s_free: [0; 50],
                s_ninode: 0,
                s_inode: [0; 100],
            },
            blocks: vec![in alloc; [0; 512]; s_fsize as usize]?,
        };
        let root = u32::from(s_isize);
        for address in (0..s_fsize).rev() {
            if address > root {
                freeing.free(address);
            }
        }
        freeing.put_root(root);
        freeing.image(alloc)
    }

    // A full list moves into the block that is freed, which becomes the first of a new list.
    fn free(&mut self, address: u32) {
        let Super {
            s_nfree,
            s_free,
            ..
        } = self.super_block;
        if s_nfree >= 50 {
            if let Some(block) = self.blocks.get_mut(address as usize) {
                Chain {
                    count: s_nfree,
                    list: s_free,
                }
                .write(block);
            }
            self.super_block.s_nfree = 0;
        }
        let place = self.super_block.s_nfree;
        if place < 50 {
            self.super_block.s_free[place as usize] = address;
            self.super_block.s_nfree = place + 1;
        }
    }

    fn put_root(&mut self, address: u32) {
        let mut area = [0; 40];
        area[0] = (address / 65536 % 256) as u8;
        area[1] = (address % 256) as u8;
        area[2] = (address / 256 % 256) as u8;
        let root = Dinode {
            mode: 0o040777,
            nlink: 2,
            uid: 0,
            gid: 0,
            size: 32,
            area,
            atime: 0,
            mtime: 0,
            ctime: 0,
        };
        if let Some(block) = self.blocks.get_mut(2) {
            root.write(block, 1);
        }
        if let Some(block) = self.blocks.get_mut(address as usize) {
            let mut name = [0; 14];
            name[0] = b'.';
            Slot { ino: 2, name }.write(block, 0);
            name[1] = b'.';
            Slot { ino: 2, name }.write(block, 1);
        }
    }

    fn image(&mut self, alloc: Global) -> Result<Vec<u8>, AllocError> {
        if let Some(block) = self.blocks.get_mut(1) {
            self.super_block.write(block);
        }
        let mut image = Vec::new(alloc);
        for block in &self.blocks {
            image.extend_from_slice(block)?;
        }
        Ok(image)
    }
}

// Whether these bytes stand from a place on.
fn stand_at(bytes: &[u8], at: usize, wanted: &[u8]) -> bool {
    match bytes.get(at..) {
        Some(rest) => rest.starts_with(wanted),
        None => false,
    }
}

fn are_those_of_the_format(rt: &impl Abort, bytes: &[u8]) {
    assert!(rt; bytes.len() == 51200);
    assert!(rt; stand_at(bytes, 512, &[4, 0]), "s_isize");
    assert!(rt; stand_at(bytes, 514, &[0, 0, 100, 0]), "s_fsize");
    assert!(rt; stand_at(bytes, 518, &[46, 0]), "s_nfree");
    assert!(rt; stand_at(bytes, 520, &[0, 0, 50, 0, 0, 0, 49, 0]), "s_free");
    let root = [0xff, 0x41, 2, 0, 0, 0, 0, 0, 0, 0, 0x20, 0, 0, 4, 0];
    assert!(rt; stand_at(bytes, 1088, &root), "the root's inode");
    let list = [50, 0, 0, 0, 0, 0, 0, 0, 99, 0];
    assert!(rt; stand_at(bytes, 25600, &list), "the list in block 50");
}

#[test]
fn the_first_bytes_of_the_volume_of_100_blocks_are_those_of_the_format(
    rt: HostRuntime,
) -> Result<(), Fail> {
    let mut disk = disk(rt.alloc(), 0, 0)?;
    assert_eq!(rt; make(&mut disk, 100, 16), Ok(()));
    are_those_of_the_format(&rt, disk.bytes());
    Ok(())
}

// Whether the bytes are those that the freeing steps leave.
fn is_freed(alloc: Global, s_isize: u16, blocks: u32, bytes: &[u8]) -> Result<bool, AllocError> {
    let wanted = Freeing::volume(alloc, s_isize, blocks)?;
    Ok(bytes == wanted.as_slice())
}

fn is_made_so(
    rt: &impl Abort,
    alloc: Global,
    disk: &mut MemDisk,
    (inodes, s_isize): (u32, u16),
    blocks: u32,
) -> Result<(), Fail> {
    assert_eq!(rt; make(disk, blocks, inodes), Ok(()), "{blocks} {inodes}");
    let is_same = is_freed(alloc, s_isize, blocks, disk.bytes())?;
    assert!(rt; is_same, "{blocks} {inodes}");
    Ok(())
}

fn is_made_on_an_empty_disk<R: Abort + AllocGlobal>(
    rt: &R,
    sizes: (u32, u16),
    blocks: u32,
) -> Result<(), Fail> {
    let mut disk = disk(rt.alloc(), 0, 0)?;
    is_made_so(rt, rt.alloc(), &mut disk, sizes, blocks)
}

fn each_is_made<R: Abort + AllocGlobal>(
    rt: &R,
    sizes: (u32, u16),
    all: &[u32],
) -> Result<(), Fail> {
    for blocks in all {
        is_made_on_an_empty_disk(rt, sizes, *blocks)?;
    }
    Ok(())
}

#[test]
fn each_byte_is_as_the_freeing_steps_leave_it(rt: HostRuntime) -> Result<(), Fail> {
    let all = [
        28, 29, 53, 54, 55, 56, 77, 78, 79, 103, 104, 105, 154, 333, 400u32,
    ];
    each_is_made(&rt, (8, 3), &all)?;
    each_is_made(&rt, (16, 4), &all)?;
    each_is_made(&rt, (200, 27), &all)
}

fn are_refused(rt: &impl Abort, disk: &mut MemDisk) {
    for (blocks, inodes) in [
        (4u32, 16u32),
        (3, 8),
        (100, 0),
        (100, 12),
        (262144, 65536),
        (262145, 16),
        (8193, 65528),
    ] {
        assert_eq!(rt;
            make(disk, blocks, inodes),
            Err(MakeFault::Sizes),
            "{blocks} {inodes}"
        );
    }
}

fn nothing_is_written(rt: &impl Abort, alloc: Global, disk: &mut MemDisk) -> Result<(), Fail> {
    let before = disk.bytes().to_vec(alloc)?;
    are_refused(rt, disk);
    assert!(rt; disk.bytes() == before.as_slice());
    Ok(())
}

fn smallest_alone_is_made(rt: &impl Abort, alloc: Global, disk: &mut MemDisk) -> Result<(), Fail> {
    nothing_is_written(rt, alloc, disk)?;
    assert!(rt; make(disk, 4, 8) == Ok(()), "the smallest");
    Ok(())
}

#[test]
fn other_sizes_are_refused_and_nothing_is_written(rt: HostRuntime) -> Result<(), Fail> {
    let mut disk = disk(rt.alloc(), 3, 0)?;
    smallest_alone_is_made(&rt, rt.alloc(), &mut disk)
}

// Whether the bytes from block 6 on are there, each of them 7.
fn later_blocks_are_kept(bytes: &[u8]) -> bool {
    match bytes.get(6 * 512..) {
        Some(later) => later == [7; 1024].as_slice(),
        None => false,
    }
}

fn keeps_later_blocks(rt: &impl Abort, disk: &mut MemDisk, failing: u64) {
    let wanted = if failing <= 6 {
        Err(MakeFault::Device)
    } else {
        Ok(())
    };
    assert_eq!(rt; make(disk, 6, 16), wanted, "write {failing}");
    assert!(rt; later_blocks_are_kept(disk.bytes()), "write {failing}");
}

fn is_made_or_fails<R: Abort + AllocGlobal>(rt: &R, failing: u64) -> Result<(), Fail> {
    let mut disk = disk(rt.alloc(), 8, failing)?;
    keeps_later_blocks(rt, &mut disk, failing);
    Ok(())
}

#[test]
fn a_disk_that_fails_any_write_keeps_its_later_blocks(rt: HostRuntime) -> Result<(), Fail> {
    for failing in 1..9u64 {
        is_made_or_fails(&rt, failing)?;
    }
    Ok(())
}
