ghost use Rattle.std.specs.Prelude.{◌≤◌};
ghost use Rattle.mb_dirs.specs.PickNeeds.{LacksForPick, LacksInList};

use mb_iface::{Changes, Need, View, seen};
use mb_layout::inode_block;
use mb_word::word_at;

/// What the choice of a new inode's number is sure to look at, or likely to, and the view lacks: block 1,
/// and the block of the demanded number's inode; where none is demanded, the block of the last cached
/// number's inode, or, where no number is cached, blocks of the i-list. An operation asks for it before all
/// else: then it searches its directory about once, chooses a number about once, and scans the i-list about
/// once, whatever it asks for later.
pub fn lacking_number<V: View>(view: &V, changes: &Changes, demanded: Option<u16>) -> Option<Need>
    ensures { LacksForPick (V.shown view.now) changes.now result }
{
    let Some(first) = seen(view, changes, 1) else {
        return Some(Need::one(1));
    };
    let size = u32::from(word_at(first, 0));
    match demanded {
        Some(ino) => lacking_inode(view, size, ino),
        None => lacking_pick(view, size, first),
    }
}

/// What V7's pick of a free number lacks of the i-list, which ends before block `size`, by the bytes of
/// block 1.
fn lacking_pick<V: View>(view: &V, size: u32, first: &[u8; 512]) -> Option<Need>
    requires { size ≤ 65535 }
    ensures { LacksInList (V.shown view.now) size result }
{
    let count = word_at(first, 208);
    if count > 100 {
        return None;
    }
    if count == 0 {
        return lacking_list(view, size);
    }
    lacking_inode(view, size, word_at(first, 208 + 2 * count as usize))
}

/// The block of an inode, where the view lacks it and the i-list, which ends before block `size`, has it.
fn lacking_inode<V: View>(view: &V, size: u32, ino: u16) -> Option<Need>
    ensures { LacksInList (V.shown view.now) size result }
{
    let holder = inode_block(ino);
    if holder >= size {
        return None;
    }
    match view.get(holder) {
        Some(_) => None,
        None => Some(Need::one(holder)),
    }
}

/// The next run of blocks that the view lacks of the i-list, which ends before block `size`, as long as
/// the block before it has no free inode. Where it has one a scan may end there.
fn lacking_list<V: View>(view: &V, size: u32) -> Option<Need>
    requires { size ≤ 65535 }
    ensures { LacksInList (V.shown view.now) size result }
{
    for block in likely_end(view, size)..size {
        match view.get(block) {
            Some(_) => {}
            None => {
                if has_free(view, block - 1) {
                    return None;
                }
                return Some(Need::run(view, block, size - block));
            }
        }
    }
    None
}

/// A block of the i-list, which ends before block `size`, before which the view is likely to have all: of
/// each 32nd one the last that it has, in a row from block 2.
fn likely_end<V: View>(view: &V, size: u32) -> u32
    requires { size ≤ 65535 }
    ensures { 2 ≤ result }
{
    let mut end = 2;
    while end + 32 < size {
        if view.get(end + 32).is_none() {
            return end;
        }
        end += 32;
    }
    end
}

/// Whether a block of the i-list is there and has a free inode; block 1 is none.
fn has_free<V: View>(view: &V, block: u32) -> bool {
    if block < 2 {
        return false;
    }
    let Some(inodes) = view.get(block) else {
        return false;
    };
    for place in 0..8usize {
        if word_at(inodes, 64 * place) == 0 {
            return true;
        }
    }
    false
}
