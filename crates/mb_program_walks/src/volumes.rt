use mb_layout::{Chain, Dinode, Slot, Super};
use std::alloc::{AllocError, Global};

/// Where the super-block stands in the image.
const SUPER_BLOCK: usize = 512;

/// Where inode 3, the file, has its mode, its time of change and that time's low word.
pub const HELLO_MODE: usize = 1024 + 2 * 64;

const HELLO_CTIME: usize = HELLO_MODE + 60;

pub const HELLO_CTIME_LOW: usize = HELLO_CTIME + 2;

const DIRECTORY: u16 = 0o040000;

const REGULAR: u16 = 0o100000;

const ROOT_NUMBER: u16 = 2;

const HELLO_NUMBER: u16 = 3;

const ISIZE: u16 = 4;

const FSIZE: u32 = 100;

// A volume of 100 blocks and 16 inodes that is being made (V7 filsys(5), dir(5)).
#[derive(Drop)]
struct Making {
    super_block: Super,
    blocks: Vec<[u8; 512]>,
}

impl Making {
    // A fresh volume: the root has the block after the i-list, and the others are freed from the last one down.
    fn new(alloc: Global) -> Result<Making, AllocError> {
        let mut making = Making {
            super_block: Super {
                s_isize: ISIZE,
                s_fsize: FSIZE,
                s_nfree: 0,
                s_free: [0; 50],
                s_ninode: 0,
                s_inode: [0; 100],
            },
            blocks: vec![in alloc; [0; 512]; 100]?,
        };
        making.put_inode(
            ROOT_NUMBER,
            &inode(DIRECTORY + 0o777, 2, 32, &[u32::from(ISIZE)]),
        );
        making.put_slot(0, ROOT_NUMBER, b".");
        making.put_slot(1, ROOT_NUMBER, b"..");
        for address in (u32::from(ISIZE) + 1..FSIZE).rev() {
            making.free(address);
        }
        Ok(making)
    }

    // A file in the third slot of the root: each part in a block that is taken, or a hole where there is none.
    fn add_hello(&mut self, size: u32, parts: &[Option<[u8; 512]>]) {
        let mut addresses = [0; 10];
        for (address, part) in addresses.iter_mut().zip(parts) {
            if let Some(bytes) = part {
                *address = self.take();
                self.put_block(*address, *bytes);
            }
        }
        self.put_inode(HELLO_NUMBER, &inode(REGULAR + 0o644, 1, size, &addresses));
        self.put_slot(2, HELLO_NUMBER, b"hello");
        self.put_inode(
            ROOT_NUMBER,
            &inode(DIRECTORY + 0o777, 2, 48, &[u32::from(ISIZE)]),
        );
    }

    fn put_inode(&mut self, number: u16, inode: &Dinode) {
        if number > 0 {
            let block = 2 + (number - 1) / 8;
            if let Some(bytes) = self.blocks.get_mut(block as usize) {
                inode.write(bytes, ((number - 1) % 8) as u8);
            }
        }
    }

    fn put_slot(&mut self, place: u8, number: u16, text: &[u8]) {
        let mut name = [0; 14];
        put(&mut name, 0, text);
        if let Some(bytes) = self.blocks.get_mut(ISIZE as usize)
            && place < 32
        {
            Slot { ino: number, name }.write(bytes, place);
        }
    }

    fn put_block(&mut self, address: u32, bytes: [u8; 512]) {
        if let Some(block) = self.blocks.get_mut(address as usize) {
            *block = bytes;
        }
    }

    // A list that is full moves into the block that is freed, which becomes the first of a new list.
    fn free(&mut self, address: u32) {
        let Super {
            s_nfree,
            s_free,
            ..
        } = self.super_block;
        if s_nfree == 0 {
            self.super_block.s_free[0] = 0;
            self.super_block.s_nfree = 1;
        }
        if s_nfree == 50 {
            let mut block = [0; 512];
            Chain {
                count: s_nfree,
                list: s_free,
            }
            .write(&mut block);
            self.put_block(address, block);
            self.super_block.s_nfree = 0;
        }
        let place = self.super_block.s_nfree;
        if place < 50 {
            self.super_block.s_free[place as usize] = address;
            self.super_block.s_nfree = place + 1;
        }
    }

    // The last block of the list, which has more than one; 0 where it has not.
    fn take(&mut self) -> u32 {
        let Super {
            s_nfree,
            s_free,
            ..
        } = self.super_block;
        if s_nfree < 2 || s_nfree > 50 {
            return 0;
        }
        self.super_block.s_nfree = s_nfree - 1;
        s_free[s_nfree as usize - 1]
    }

    fn image(&self, alloc: Global) -> Result<Vec<u8>, AllocError> {
        let mut image = Vec::new(alloc);
        for block in &self.blocks {
            image.extend_from_slice(block)?;
        }
        let mut block = [0; 512];
        self.super_block.write(&mut block);
        put(&mut image, SUPER_BLOCK, &block);
        Ok(image)
    }
}

/// Changes the bytes of an image at a place; none where it has no such place.
pub fn put(image: &mut [u8], at: usize, bytes: &[u8]) {
    if at <= image.len() && bytes.len() <= image.len() - at {
        image[at..at + bytes.len()].copy_from_slice(bytes);
    }
}

// An inode with those direct addresses, of the owner 0.
fn inode(mode: u16, nlink: u16, size: u32, addresses: &[u32]) -> Dinode {
    let mut inode = Dinode {
        mode,
        nlink,
        uid: 0,
        gid: 0,
        size,
        area: [0; 40],
        atime: 0,
        mtime: 0,
        ctime: 0,
    };
    for (place, address) in (0..10).zip(addresses) {
        if place < 10 && *address < FSIZE {
            inode.set_address(place, *address);
        }
    }
    inode
}

/// A fresh volume of 100 blocks and 16 inodes.
pub fn fresh_volume(alloc: Global) -> Result<Vec<u8>, AllocError> {
    Making::new(alloc)?.image(alloc)
}

/// A volume of 100 blocks and 16 inodes with the file `hello` of those parts in its root.
pub fn volume_with(
    alloc: Global,
    size: u32,
    parts: &[Option<[u8; 512]>],
) -> Result<Vec<u8>, AllocError> {
    let mut making = Making::new(alloc)?;
    making.add_hello(size, parts);
    making.image(alloc)
}

/// The volume of the example: its file has five bytes.
pub fn hello_volume(alloc: Global) -> Result<Vec<u8>, AllocError> {
    let mut part = [0; 512];
    put(&mut part, 0, b"hello");
    volume_with(alloc, 5, &[Some(part)])
}

/// The volume of the example after a call at that moment gave those permissions to the file.
pub fn changed_volume(alloc: Global, mode: u16, moment: u8) -> Result<Vec<u8>, AllocError> {
    let mut image = hello_volume(alloc)?;
    put(
        &mut image,
        HELLO_MODE,
        &(REGULAR + mode % 512).to_le_bytes(),
    );
    put(&mut image, HELLO_CTIME, &[0, 0, moment, 0]);
    Ok(image)
}

/// Whether an image is that volume.
pub fn is_changed_volume(
    alloc: Global,
    image: &[u8],
    mode: u16,
    moment: u8,
) -> Result<bool, AllocError> {
    let changed = changed_volume(alloc, mode, moment)?;
    Ok(changed.as_slice() == image)
}
