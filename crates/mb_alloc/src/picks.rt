ghost use Rattle.mb_alloc.specs.Numbers.{Picks, PicksCached};
ghost use Rattle.mb_alloc.specs.Scanning.{PicksListed};

use crate::numbers::{Freedom, Scanned, scan, tell_free};
use mb_iface::{Changes, Edited, Need, View, edit, edit_both, seen};
use mb_word::word_at;

/// A number for a new inode.
#[derive(Clone, Copy, Debug, PartialEq, Drop)]
pub enum Picked {
    /// This number, 3 to the last, whose inode is free.
    Ino(u16),
    /// No number from 3 to the last is free.
    NoneLeft,
    /// The view lacks block 1, or a block of the i-list.
    Need(Need),
    /// Memory was wanted and not given.
    NoMemory,
}

/// Picks a number for a new inode as V7 does (alloc(9), filsys(5)): the last cached number that is
/// free, and where none is, the first free number of the i-list, which is scanned for at most 100.
/// The numbers that are passed over leave the cache, and those that the scan found behind the first
/// come into it, the lowest last. The inode itself stays as it is.
pub fn pick_inode<V: View>(view: &V, changes: &mut Changes) -> Picked
    ensures { Picks (V.shown view.now) changes.old changes.new result }
{
    match pick_cached(view, changes) {
        Picked::Ino(ino) => Picked::Ino(ino),
        Picked::NoneLeft => pick_listed(view, changes),
        Picked::Need(need) => Picked::Need(need),
        Picked::NoMemory => Picked::NoMemory,
    }
}

/// Picks the last cached number that is free; those that it passes over leave the cache with it.
/// `NoneLeft` where no cached number is free.
fn pick_cached<V: View>(view: &V, changes: &mut Changes) -> Picked
    ensures { PicksCached (V.shown view.now) changes.old changes.new result }
{
    let Some(bytes) = seen(view, changes, 1) else {
        return Picked::Need(Need::one(1));
    };
    let size = word_at(bytes, 0);
    let count = word_at(bytes, 208);
    if count > 100 {
        return Picked::NoneLeft;
    }
    for passed in 0..count {
        let left = count - 1 - passed;
        let ino = word_at(bytes, 210 + 2 * left as usize);
        match tell_free(view, changes, size, ino) {
            Freedom::Free => {
                let low = [left as u8, 0];
                return match edit(view, changes, 1, 208, &low) {
                    Edited::Done => Picked::Ino(ino),
                    Edited::Lacking => Picked::Need(Need::one(1)),
                    Edited::NoMemory => Picked::NoMemory,
                };
            }
            Freedom::Used => {}
            Freedom::Need(need) => return Picked::Need(need),
        }
    }
    Picked::NoneLeft
}

/// Picks the first free number of the i-list, and makes the others that a scan finds the cache.
fn pick_listed<V: View>(view: &V, changes: &mut Changes) -> Picked
    ensures { PicksListed (V.shown view.now) changes.old changes.new result }
{
    let Some(bytes) = seen(view, changes, 1) else {
        return Picked::Need(Need::one(1));
    };
    let size = word_at(bytes, 0);
    if size < 3 {
        return Picked::NoneLeft;
    }
    if size > 8193 {
        return Picked::NoneLeft;
    }
    let mut list = [0; 200];
    let count = match scan(view, changes, size, &mut list) {
        Scanned::Found(count) => count,
        Scanned::Need(need) => return Picked::Need(need),
    };
    if count == 0 {
        return Picked::NoneLeft;
    }
    let ino = word_at(&list, 198);
    let low = [(count - 1) as u8, 0];
    match edit_both(
        view,
        changes,
        1,
        210,
        &list[200 - 2 * count..198],
        208,
        &low,
    ) {
        Edited::Done => Picked::Ino(ino),
        Edited::Lacking => Picked::Need(Need::one(1)),
        Edited::NoMemory => Picked::NoMemory,
    }
}
