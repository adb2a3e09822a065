ghost use Rattle.std.specs.Prelude.{◌<◌, ◌≤◌};
ghost use Rattle.mb_bmap.specs.Locating.{Locates, LocatesAt};
ghost use Rattle.mb_bmap.specs.Ways.{route_of};

use crate::ways::route;
use mb_iface::{Changes, Need, View, seen};
use mb_layout::{inode_block, inode_place};
use mb_word::{addr_at, long_at};

/// The address of a part of a file, or of an index block on the way to it.
#[derive(Clone, Copy, Debug, PartialEq, Drop)]
pub enum Located {
    /// This block, which is not 0.
    At(u32),
    /// The address at this level of the way is 0, and none at a level before it is; level 0 is the
    /// inode's own address.
    Missing { level: u8 },
    /// The view lacks the inode's block, or an index block on the way.
    Need(Need),
}

/// The address of a part of a file, read down its way (V7 filsys(5)): the block that holds the part,
/// or the level of the first hole. An address of 262,144 or more, which no volume has, is told as a
/// hole. It stands in each of its callers, and so does `address_at`: what a look at a block finds is used
/// there at once.
#[inline(always)]
pub fn address<V: View>(view: &V, changes: &Changes, ino: u16, part: u32) -> Located
    requires { part < 2113674 }
    ensures { Locates (V.shown view.now) changes.now ino part result }
{
    address_at(view, changes, ino, part, route(part).depth)
}

/// The address that stands at a level of the way to a part, level 0 being the inode's: the block of
/// the part at the last level, an index block before it. An address of 262,144 or more is told as a
/// hole.
#[inline(always)]
pub fn address_at<V: View>(view: &V, changes: &Changes, ino: u16, part: u32, last: u8) -> Located
    requires part { part < 2113674 }
    requires last { last ≤ (route_of part).depth }
    ensures { LocatesAt (V.shown view.now) changes.now ino (route_of part) last result }
{
    let way = route(part);
    let holder = inode_block(ino);
    let Some(bytes) = seen(view, changes, holder) else {
        return Located::Need(Need::one(holder));
    };
    let top = 64 * inode_place(ino) as usize + 12 + 3 * way.places[0] as usize;
    let mut here = addr_at(bytes, top);
    for level in 0..last {
        if here == 0 {
            return Located::Missing { level };
        }
        if here >= 262_144 {
            return Located::Missing { level };
        }
        let Some(index) = seen(view, changes, here) else {
            return Located::Need(Need::one(here));
        };
        here = long_at(index, 4 * way.places[usize::from(level) + 1] as usize);
    }
    if here == 0 {
        return Located::Missing { level: last };
    }
    Located::At(here)
}
