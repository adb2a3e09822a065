ghost use Rattle.std.specs.Prelude.{◌<◌};
ghost use Rattle.mb_alloc.specs.Freeing.{Frees};

use crate::writes::write_at;
use mb_iface::{Changes, Edited, Need, View, edit, edit_both, put_and_edit, seen};
use mb_word::{put_long, put_word, word_at};

/// What became of a change of blocks.
#[derive(Clone, Copy, Debug, PartialEq, Drop)]
pub enum Hung {
    /// It is made.
    Done,
    /// The view lacks these blocks; nothing was changed.
    Need(Need),
    /// Memory was wanted and not given; nothing was changed.
    NoMemory,
}

/// Puts a block, one above 1 and below 262,144, back on the free chain (V7 alloc(9), filsys(5)): its
/// address becomes the last of the super-block's list. An empty list gets address 0 first, which ends
/// the chain, and a full one of 50 moves into the block, whose other bytes become zeros. It asks for
/// block 1 alone: that the view has the block handed in, where the list is full, is for the caller to
/// see to.
pub fn free_block<V: View>(view: &V, changes: &mut Changes, block: u32) -> Hung
    requires { block < 262144 }
    ensures { Frees (V.shown view.now) changes.old changes.new block result }
{
    let Some(bytes) = seen(view, changes, 1) else {
        return Hung::Need(Need::one(1));
    };
    let count = word_at(bytes, 6);
    // no count of a volume is above 50
    if count > 50 {
        return Hung::Done;
    }
    if count == 50 {
        let mut held = [0; 512];
        write_at(&mut held, 0, &bytes[6..208]);
        let mut list = [0; 6];
        put_word(&mut list, 0, 1);
        put_long(&mut list, 2, block);
        return match put_and_edit(view, changes, block, &held, 1, 6, &list) {
            Edited::Done => Hung::Done,
            Edited::Lacking => Hung::Need(Need::one(1)),
            Edited::NoMemory => Hung::NoMemory,
        };
    }
    if count == 0 {
        let mut list = [0; 10];
        put_word(&mut list, 0, 2);
        put_long(&mut list, 2, 0);
        put_long(&mut list, 6, block);
        return match edit(view, changes, 1, 6, &list) {
            Edited::Done => Hung::Done,
            Edited::Lacking => Hung::Need(Need::one(1)),
            Edited::NoMemory => Hung::NoMemory,
        };
    }
    let mut address = [0; 4];
    put_long(&mut address, 0, block);
    let more = [(count + 1) as u8, 0];
    match edit_both(view, changes, 1, 8 + 4 * count as usize, &address, 6, &more) {
        Edited::Done => Hung::Done,
        Edited::Lacking => Hung::Need(Need::one(1)),
        Edited::NoMemory => Hung::NoMemory,
    }
}
