ghost use Rattle.mb_alloc.specs.Inodes.{FreesInode};

use crate::frees::Hung;
use crate::writes::word;
use mb_iface::{Changes, Edited, Need, View, edit, hold_both, seen};
use mb_layout::{inode_block, inode_place};
use mb_word::word_at;

/// Frees an inode, one from 1 to the last: zeros over its 64 bytes, all but byte 51, which holds no
/// address and is kept, and its number into the cache of free numbers, where that has fewer than 100
/// and the number is 3 or more (V7 filsys(5)).
pub fn free_inode<V: View>(view: &V, changes: &mut Changes, ino: u16) -> Hung
    ensures { FreesInode (V.shown view.now) changes.old changes.new ino result }
{
    let holder = inode_block(ino);
    let at = 64 * inode_place(ino) as usize;
    let Some(bytes) = seen(view, changes, 1) else {
        return Hung::Need(Need::one(1));
    };
    let Some(inodes) = seen(view, changes, holder) else {
        return Hung::Need(Need::one(holder));
    };
    let count = word_at(bytes, 208);
    let mut blank = [0; 64];
    blank[51] = inodes[at + 51];
    if count >= 100 || ino < 3 {
        return match edit(view, changes, holder, at, &blank) {
            Edited::Done => Hung::Done,
            Edited::Lacking => Hung::Need(Need::one(holder)),
            Edited::NoMemory => Hung::NoMemory,
        };
    }
    match hold_both(view, changes, holder, 1) {
        Edited::Done => {
            let _ = changes.patch(holder, at, &blank);
            let _ = changes.patch(1, 208, &word(count + 1));
            let _ = changes.patch(1, 210 + 2 * count as usize, &word(ino));
            Hung::Done
        }
        Edited::Lacking => Hung::Need(Need::one(1)),
        Edited::NoMemory => Hung::NoMemory,
    }
}
