ghost use Rattle.std.specs.Prelude.{◌≡◌, ◌<◌, IfSome};
ghost use Rattle.mb_word.specs.Fields.{address_of, inode_place};
ghost use Rattle.mb_namei.specs.Addresses.{AreOf, IsAddress, LeadsTo};

use mb_bmap::{Located, address};
use mb_iface::{Changes, View, seen};
use mb_layout::{inode_block, inode_place};
use mb_word::{addr_at, long_at};

/// How many parts the inode itself has the addresses of (V7 filsys(5)).
const DIRECT: u32 = 10;

/// How many parts have their addresses in the inode or in its first index block.
const NEAR: u32 = 138;

/// Where the first parts of a file stand, at hand while several of them are looked at: the bytes of its
/// inode, and those of its first index block where that is there.
#[derive(Clone, Copy, Drop)]
pub(crate) struct Addresses<'a> {
    ino: u16,
    inode: &'a [u8; 512],
    index: Option<&'a [u8; 512]>,
}

/// A block that a volume may have.
fn valid(block: u32) -> Option<u32>
    ensures { IfSome result (λ found. IsAddress block found) }
{
    if block > 0 && block < 262_144 {
        return Some(block);
    }
    None
}

/// An address of an inode, in the bytes of its block.
fn inode_address(inode: &[u8; 512], ino: u16, place: u32) -> Option<u32>
    requires { place < 13 }
    ensures { IfSome result (λ found. IsAddress (address_of inode.now (inode_place ino) place) found) }
{
    valid(addr_at(
        inode,
        64 * usize::from(inode_place(ino)) + 12 + 3 * place as usize,
    ))
}

impl<'a> Addresses<'a> {
    /// The addresses of a file; `None` where its inode's block is not there.
    #[inline(always)]
    pub fn read<V: View>(view: &'a V, changes: &'a Changes, ino: u16) -> Option<Addresses<'a>>
        ensures { IfSome result (AreOf (V.shown view.now) changes.now ino) }
    {
        let inode = seen(view, changes, inode_block(ino))?;
        let index = match inode_address(inode, ino, DIRECT) {
            Some(block) => seen(view, changes, block),
            None => None,
        };
        Some(Addresses { ino, inode, index })
    }

    /// The first index block, where it is not there and some of so many parts stand under it.
    pub fn lacking_index(&self, parts: u32) -> Option<u32>
        ensures { IfSome result (λ block. block < 262144) }
    {
        if parts <= DIRECT || self.index.is_some() {
            return None;
        }
        inode_address(self.inode, self.ino, DIRECT)
    }

    /// The block of one of the first 138 parts, where it has one and its address is at hand.
    #[inline(always)]
    pub fn near(&self, part: u32) -> Option<u32>
        ensures below { IfSome result (λ block. block < 262144) }
        ensures leads { IfSome result (LeadsTo self.now part) }
    {
        if part < DIRECT {
            return inode_address(self.inode, self.ino, part);
        }
        if part < NEAR {
            return valid(long_at(self.index?, 4 * (part - DIRECT) as usize));
        }
        None
    }

    /// The block of a part, where it has one and the blocks on its way are there.
    #[inline(always)]
    pub fn block<V: View>(&self, view: &V, changes: &Changes, part: u32) -> Option<u32>
        requires { part < 2113674 }
        ensures { IfSome result (λ block. block < 262144) }
    {
        if part < NEAR {
            return self.near(part);
        }
        match address(view, changes, self.ino, part) {
            Located::At(block) => valid(block),
            _ => None,
        }
    }
}
