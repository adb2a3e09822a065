ghost use Rattle.std.specs.Prelude.{◌≤◌, ◌<◌};
ghost use Rattle.mb_bmap.specs.Reaching.{StepsTop, StepsUnder, ReachesPart};

use crate::ways::route;
use mb_alloc::{Taken, take_zeroed};
use mb_iface::{Changes, Edited, Need, View, edit, seen};
use mb_layout::{inode_block, inode_place};
use mb_word::{addr_at, long_at, put_addr, put_long};

/// The block of a part, once its way is made.
#[derive(Clone, Copy, Debug, PartialEq, Drop)]
pub enum Reached {
    /// This block, which is not 0.
    At(u32),
    /// The free chain has fewer blocks than are missing on the way.
    NoneLeft,
    /// The view lacks block 1, the inode's block, an index block on the way, or a block of the free
    /// chain.
    Need(Need),
    /// Memory was wanted and not given.
    NoMemory,
}

/// The address at one of the thirteen places of an inode: a block taken for it where it is missing.
fn step_top<V: View>(view: &V, changes: &mut Changes, ino: u16, place: u16, wanted: u32) -> Reached
    requires place { place < 13 }
    requires wanted { 1 ≤ wanted }
    ensures { StepsTop (V.shown view.now) changes.old changes.new ino place result }
{
    let holder = inode_block(ino);
    let at = 64 * inode_place(ino) as usize + 12 + 3 * place as usize;
    let Some(bytes) = seen(view, changes, holder) else {
        return Reached::Need(Need::one(holder));
    };
    let address = addr_at(bytes, at);
    if address != 0 {
        return Reached::At(address);
    }
    match take_zeroed(view, changes, wanted) {
        Taken::Block(block) => {
            let mut value = [0; 3];
            put_addr(&mut value, 0, block);
            match edit(view, changes, holder, at, &value) {
                Edited::Done => Reached::At(block),
                Edited::Lacking => Reached::Need(Need::one(holder)),
                Edited::NoMemory => Reached::NoMemory,
            }
        }
        Taken::NoneLeft => Reached::NoneLeft,
        Taken::Need(need) => Reached::Need(need),
        Taken::NoMemory => Reached::NoMemory,
    }
}

/// The address at a place of an index block: a block taken for it where it is missing.
fn step_under<V: View>(
    view: &V,
    changes: &mut Changes,
    index: u32,
    place: u16,
    wanted: u32,
) -> Reached
    requires some { 0 < index }
    requires few { place < 128 }
    requires wanted { 1 ≤ wanted }
    ensures { StepsUnder (V.shown view.now) changes.old changes.new index place result }
{
    if index >= 262_144 {
        return Reached::NoneLeft;
    }
    let at = 4 * place as usize;
    let Some(bytes) = seen(view, changes, index) else {
        return Reached::Need(Need::one(index));
    };
    let address = long_at(bytes, at);
    if address != 0 {
        return Reached::At(address);
    }
    match take_zeroed(view, changes, wanted) {
        Taken::Block(block) => {
            let mut value = [0; 4];
            put_long(&mut value, 0, block);
            match edit(view, changes, index, at, &value) {
                Edited::Done => Reached::At(block),
                Edited::Lacking => Reached::Need(Need::one(index)),
                Edited::NoMemory => Reached::NoMemory,
            }
        }
        Taken::NoneLeft => Reached::NoneLeft,
        Taken::Need(need) => Reached::Need(need),
        Taken::NoMemory => Reached::NoMemory,
    }
}

/// The block of a part of a file, with the index blocks on the way to it (V7 filsys(5)): what is
/// missing is taken from the free chain, filled with zeros and hung, from the inode down. On any other
/// answer than `At` the changes may hold a part of that, and are for letting go: an operation makes
/// them on changes of its own. `wanted` is how many blocks it is going to take, from 1 on: a `Need` of
/// a block to be taken names its neighbours as far as that.
pub fn reach<V: View>(view: &V, changes: &mut Changes, ino: u16, part: u32, wanted: u32) -> Reached
    requires part { part < 2113674 }
    requires wanted { 1 ≤ wanted }
    ensures { ReachesPart (V.shown view.now) changes.old changes.new ino part result }
{
    let way = route(part);
    let mut above = match step_top(view, changes, ino, way.places[0], wanted) {
        Reached::At(block) => block,
        Reached::NoneLeft => return Reached::NoneLeft,
        Reached::Need(need) => return Reached::Need(need),
        Reached::NoMemory => return Reached::NoMemory,
    };
    for level in 0..usize::from(way.depth) {
        match step_under(view, changes, above, way.places[level + 1], wanted) {
            Reached::At(block) => above = block,
            Reached::NoneLeft => return Reached::NoneLeft,
            Reached::Need(need) => return Reached::Need(need),
            Reached::NoMemory => return Reached::NoMemory,
        }
    }
    Reached::At(above)
}
