ghost use Rattle.mb_dirs.specs.Choosing.{Chooses, ChecksNumber, PicksNumberOf};

use mb_alloc::{Picked, pick_inode};
use mb_iface::{Changes, Need, View, seen};
use mb_layout::inode_block;
use mb_word::word_at;

/// The number that a new inode gets.
#[derive(Clone, Copy, Debug, PartialEq, Drop)]
pub enum Chosen {
    /// This one, whose inode is free.
    Number(u16),
    /// No number from 3 to the last is free, or the demanded one is past the i-list.
    NoneLeft,
    /// The view lacks block 1, or a block of the i-list.
    Need(Need),
    /// Memory was wanted and not given.
    NoMemory,
}

/// Chooses the number of a new inode: the demanded one, without a look at the cache of free numbers,
/// in which it stays; where none is demanded V7's pick (alloc(9)), which changes the cache. A demanded
/// number is tested against the size of the i-list alone, so that no block past it is asked for.
pub fn choose_number<V: View>(view: &V, changes: &mut Changes, demanded: Option<u16>) -> Chosen
    ensures { Chooses (V.shown view.now) changes.old changes.new demanded result }
{
    match demanded {
        Some(ino) => check_number(view, changes, ino),
        None => pick_number(view, changes),
    }
}

/// Tests a demanded number against the size of the i-list.
fn check_number<V: View>(view: &V, changes: &Changes, ino: u16) -> Chosen
    ensures { ChecksNumber (V.shown view.now) changes.now ino result }
{
    let Some(bytes) = seen(view, changes, 1) else {
        return Chosen::Need(Need::one(1));
    };
    let size = u32::from(word_at(bytes, 0));
    if ino == 0 || inode_block(ino) >= size {
        return Chosen::NoneLeft;
    }
    Chosen::Number(ino)
}

/// Picks a free number as V7 does.
fn pick_number<V: View>(view: &V, changes: &mut Changes) -> Chosen
    ensures { PicksNumberOf (V.shown view.now) changes.old changes.new result }
{
    match pick_inode(view, changes) {
        Picked::Ino(ino) => Chosen::Number(ino),
        Picked::NoneLeft => Chosen::NoneLeft,
        Picked::Need(need) => Chosen::Need(need),
        Picked::NoMemory => Chosen::NoMemory,
    }
}
