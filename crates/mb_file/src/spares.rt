ghost use Rattle.mb_file.specs.Finding.{LacksFree};

use mb_iface::{Changes, Need, View, seen};
use mb_word::{long_at, word_at};

/// The first run of blocks that the view lacks among block 1 and the blocks that so many takes from the
/// free chain give, as far as the chain goes (V7 alloc(9)). An operation that takes blocks asks for it
/// before it begins.
pub fn lacking_free<V: View>(view: &V, changes: &Changes, wanted: u32) -> Option<Need>
    ensures { LacksFree (V.shown view.now) changes.now result }
{
    let Some(first) = seen(view, changes, 1) else {
        return Some(Need::one(1));
    };
    let mut list = first;
    let mut at = 6usize;
    let mut left = word_at(list, 6);
    for passed in 0..wanted {
        if left == 0 {
            return None;
        }
        if left > 50 {
            return None;
        }
        let block = long_at(list, at + 4 * left as usize - 2);
        if block == 0 {
            return None;
        }
        if block >= 262_144 {
            return None;
        }
        let Some(found) = seen(view, changes, block) else {
            return Some(Need::run(view, block, wanted - passed));
        };
        left -= 1;
        if left == 0 {
            list = found;
            at = 0;
            left = word_at(found, 0);
        }
    }
    None
}
