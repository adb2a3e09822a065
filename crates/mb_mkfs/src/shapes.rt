ghost use Rattle.std.specs.Prelude.{◌≡◌, ◌+◌, ◌≤◌, ◌<◌, IsNone, IfSome};
ghost use Rattle.mb_mkfs.specs.FreeLists.{super_with};
ghost use Rattle.mb_mkfs.specs.Sizes.{AreSizes, isize_for};
ghost use Rattle.mb_mkfs.specs.Volume.{fresh_block, root_inode, with_root_slots};

use crate::free_lists::{first_list, free_count, has_list, list_after};
use mb_kinds::Name;
use mb_layout::{Dinode, Slot, Super};

const ROOT: u16 = 2;

const DOT: Name = [b'.', 0, 0, 0, 0, 0, 0, 0, 0, 0, 0, 0, 0, 0];

const DOT_DOT: Name = [b'.', b'.', 0, 0, 0, 0, 0, 0, 0, 0, 0, 0, 0, 0];

/// The two sizes of a fresh volume, under V7's names: the i-list ends before block `s_isize`, which the root has, and
/// the volume before block `s_fsize`.
#[derive(Clone, Copy)]
pub(crate) struct Shape {
    pub(crate) s_isize: u16,
    pub(crate) s_fsize: u32,
}

impl Shape {
    /// The sizes for so many blocks and inodes, where a volume can be made with them.
    pub(crate) fn new(blocks: u32, inodes: u32) -> Option<Shape>
        ensures sizes { IfSome result (λ shape. AreSizes blocks inodes) }
        ensures isize { IfSome result (λ shape. shape.s_isize ≡ isize_for inodes) }
        ensures fsize { IfSome result (λ shape. shape.s_fsize ≡ blocks) }
        ensures none { IsNone result → AreSizes blocks inodes → ⊥ }
    {
        if inodes == 0 || inodes > 65528 || inodes % 8 != 0 {
            return None;
        }
        if blocks > 262144 || blocks < inodes / 8 + 3 {
            return None;
        }
        Some(Shape {
            s_isize: 2 + (inodes / 8) as u16,
            s_fsize: blocks,
        })
    }

    /// The bytes of a block of the fresh volume.
    #[tactic(auto, using(crate::proofs::Blocks::first_block, crate::proofs::Blocks::second_block, crate::proofs::Blocks::root_block, crate::proofs::Blocks::list_block, crate::proofs::Blocks::plain_block), unfolding(mb_kinds::specs::Image::zeros))]
    pub(crate) fn block(&self, block: u32) -> [u8; 512]
        requires within { block < self.now.s_fsize }
        requires room { self.now.s_isize < self.now.s_fsize }
        requires few { self.now.s_fsize ≤ 262144 }
        ensures { result ≡ fresh_block self.now.s_isize self.now.s_fsize block }
    {
        let Shape { s_isize, s_fsize } = *self;
        let root = u32::from(s_isize);
        let mut bytes = [0; 512];
        if block == 1 {
            self.super_block().write(&mut bytes);
        } else if block == 2 {
            root_inode(s_isize).write(&mut bytes, 1);
        } else if block == root {
            write_root_slots(&mut bytes);
        } else if has_list(s_fsize, root + 1, block) {
            list_after(s_fsize, block).write(&mut bytes);
        }
        bytes
    }

    #[tactic(auto, unfolding(crate::specs::FreeLists::no_numbers))]
    fn super_block(&self) -> Super
        requires room { self.now.s_isize < self.now.s_fsize }
        requires few { self.now.s_fsize ≤ 262144 }
        ensures { result ≡ super_with self.now.s_isize self.now.s_fsize (self.now.s_isize + 1) }
    {
        let Shape { s_isize, s_fsize } = *self;
        let next = u32::from(s_isize) + 1;
        Super {
            s_isize,
            s_fsize,
            s_nfree: free_count(s_fsize, next),
            s_free: first_list(s_fsize, next),
            s_ninode: 0,
            s_inode: [0; 100],
        }
    }
}

#[tactic(auto, unfolding(crate::specs::Volume::no_addresses))]
fn root_inode(s_isize: u16) -> Dinode
    ensures { result ≡ root_inode s_isize }
{
    let mut root = Dinode {
        mode: 0o040777,
        nlink: 2,
        uid: 0,
        gid: 0,
        size: 32,
        area: [0; 40],
        atime: 0,
        mtime: 0,
        ctime: 0,
    };
    root.set_address(0, u32::from(s_isize));
    root
}

fn write_root_slots(bytes: &mut [u8; 512])
    ensures { bytes.new ≡ with_root_slots bytes.old }
{
    let own = Slot {
        ino: ROOT,
        name: DOT,
    };
    own.write(bytes, 0);
    let above = Slot {
        ino: ROOT,
        name: DOT_DOT,
    };
    above.write(bytes, 1);
}
