ghost use Rattle.std.specs.Prelude.{◌≡◌, ◌≢◌, ◌≤◌, ◌<◌, ℕ, true};
ghost use Rattle.mb_word.specs.Fields.{mode_of};
ghost use Rattle.mb_alloc.specs.Numbers.{TellsFree};
ghost use Rattle.mb_alloc.specs.Scanning.{AreUsed, Scans};

use mb_iface::{Changes, Need, View, seen};
use mb_layout::{inode_block, inode_place};
use mb_word::{put_word, word_at};

/// Whether an inode number can be picked.
#[derive(Clone, Copy, Debug, PartialEq, Drop)]
pub enum Freedom {
    /// It is 3 to the last number, and its inode is free.
    Free,
    /// It is below 3, above the last number, or in use.
    Used,
    /// The view lacks the block of its inode.
    Need(Need),
}

/// What a scan of the i-list found.
#[derive(Clone, Copy, Debug, PartialEq, Drop)]
pub(crate) enum Scanned {
    /// So many free numbers.
    Found(usize),
    /// The view lacks a block of the i-list.
    Need(Need),
}

/// Whether a number is 3 to the last and its inode is free, where the i-list ends before block
/// `size`. It asks for the run of blocks of the i-list that the view lacks from the inode's block on.
pub fn tell_free<V: View>(view: &V, changes: &Changes, size: u16, ino: u16) -> Freedom
    ensures { TellsFree (V.shown view.now) changes.now size ino result }
{
    if ino < 3 {
        return Freedom::Used;
    }
    let holder = inode_block(ino);
    if holder >= u32::from(size) {
        return Freedom::Used;
    }
    let Some(inodes) = seen(view, changes, holder) else {
        return Freedom::Need(Need::run(view, holder, u32::from(size) - holder));
    };
    if word_at(inodes, 64 * inode_place(ino) as usize) == 0 {
        Freedom::Free
    } else {
        Freedom::Used
    }
}

/// Whether no inode of a block of the i-list is free.
fn is_full(inodes: &[u8; 512]) -> bool
    ensures { result ≡ true → (place : ℕ) → place < 8 → mode_of inodes.now place ≢ 0 }
{
    for place in 0..8usize {
        if word_at(inodes, 64 * place) == 0 {
            return false;
        }
    }
    true
}

/// Whether a number is the first of a block of the i-list, which ends before block `size`, of which no inode is free.
fn begins_full<V: View>(view: &V, changes: &Changes, size: u16, ino: u16) -> bool
    requires { 3 ≤ ino }
    ensures { result ≡ true → AreUsed (V.shown view.now) changes.now size ino }
{
    let holder = inode_block(ino);
    if inode_place(ino) != 0 || holder >= u32::from(size) {
        return false;
    }
    match seen(view, changes, holder) {
        Some(inodes) => is_full(inodes),
        None => false,
    }
}

/// Scans the i-list, which ends before block `size`, for free numbers from 3 upwards, at most 100 of
/// them, and writes them as words into the list from its end: so they stand there in decreasing order. A block of which no
/// inode is free is looked up once.
pub(crate) fn scan<V: View>(view: &V, changes: &Changes, size: u16, list: &mut [u8; 200]) -> Scanned
    requires some { 3 ≤ size }
    requires few { size ≤ 8193 }
    ensures { Scans (V.shown view.now) changes.now size list.new result }
{
    let end = 8 * (size - 2) + 1;
    let mut count = 0;
    let mut ino = 3;
    'numbers: while ino < end {
        if count == 100 {
            return Scanned::Found(count);
        }
        if begins_full(view, changes, size, ino) {
            ino += 8;
        } else {
            match tell_free(view, changes, size, ino) {
                Freedom::Free => {
                    put_word(list, 198 - 2 * count, ino);
                    count += 1;
                }
                Freedom::Used => {}
                Freedom::Need(need) => return Scanned::Need(need),
            }
            ino += 1;
        }
    }
    Scanned::Found(count)
}
