ghost use Rattle.std.specs.Prelude.{◌<◌, ◌≤◌};
ghost use Rattle.std.specs.List.Sorted.{IsPermutation};
ghost use Rattle.mb_word.specs.Fields.{nfree_of};
ghost use Rattle.mb_file.specs.Freeing.{LacksFirst, LacksHeld, LacksLists, ListsToFree, PutsBack, PutsAllBack};
ghost use Rattle.mb_file.specs.Walking.{under_dinode};

use crate::hangs::{begin_list, hang, hang_each};
use crate::walks::{Collected, collect, index_blocks, lacking_part, lacking_under, parts_of};
use mb_alloc::Hung;
use mb_iface::{Changes, Need, Others, View, seen};
use mb_layout::Dinode;
use mb_word::word_at;
use std::alloc::Global;

/// Puts a block back on the free chain (V7 alloc(9), filsys(5)), on a copy of block 1's bytes: of the
/// changes only the block itself is written, where it gets a full list, and it is asked for there. Block 0
/// and one past 262,143, to which no inode of a volume leads, get none.
fn put_back<V: View>(view: &V, changes: &mut Changes, first: &mut [u8; 512], block: u32) -> Hung
    requires { nfree_of first.old ≤ 50 }
    ensures back { PutsBack (V.shown view.now) changes.old changes.new first.old first.new block result }
    ensures some { 0 < nfree_of first.new }
    ensures count { nfree_of first.new ≤ 50 }
{
    if word_at(first, 6) < 50 {
        hang(first, block);
        return Hung::Done;
    }
    if block == 0 {
        return Hung::Done;
    }
    if block >= 262_144 {
        return Hung::Done;
    }
    let Some(_found) = view.get(block) else {
        return Hung::Need(Need::one(block));
    };
    match changes.put_zeros(block) {
        Ok(()) => {}
        Err(_) => return Hung::NoMemory,
    }
    let _ = changes.patch(block, 0, &first[6..208]);
    begin_list(first, block);
    Hung::Done
}

/// How many blocks are put back before one gets a full list of the chain, where the super-block's list
/// has so many addresses: an empty one gets address 0 first.
fn before_full(count: u16) -> usize
    ensures { result ≤ 49 }
{
    50usize.saturating_sub(usize::from(count).max(1))
}

/// Where blocks of a list stand that are at hand: at the places of its index blocks, and then at its last ones, where
/// the first parts of the file stand.
#[derive(Drop)]
struct AtHand<'a> {
    heads: &'a [u32],
    /// How many of the index blocks' places were given.
    given: usize,
    /// How many of them stand before the end.
    before: usize,
    /// Where the places end that were not given yet.
    end: usize,
}

impl AtHand<'_> {
    /// The next place. It is a guess.
    fn next(&mut self) -> usize {
        if self.given < self.heads.len() {
            self.given += 1;
            return self.heads[self.given - 1] as usize;
        }
        self.end = self.end.saturating_sub(1);
        if self.before > 0
            && self.before <= self.heads.len()
            && self.heads[self.before - 1] as usize == self.end
        {
            self.before -= 1;
            self.end = self.end.saturating_sub(1);
        }
        self.end
    }
}

/// Brings blocks that are at hand to where one of a list gets a full list of the chain, as they are put back: each
/// fiftieth. One that the view has stays there.
fn arrange<V: View>(view: &V, changes: &Changes, list: &mut Vec<u32>, heads: &[u32])
    ensures { IsPermutation list.old.items list.new.items }
{
    let Some(first) = seen(view, changes, 1) else {
        return;
    };
    let before = before_full(word_at(first, 6));
    let mut at_hand = AtHand {
        heads,
        given: 0,
        before: heads.len(),
        end: list.len(),
    };
    let mut at = before;
    while at < list.len() {
        if view.get(list[at]).is_none() {
            let mut from = at_hand.next();
            if from % 50 == before {
                from = at_hand.next();
            }
            if from < list.len() {
                list.swap(from, at);
            }
        }
        at += 50;
    }
}

/// The first run of blocks that the view lacks among block 1 and those of a list that get a full list of
/// the chain, as they are put back one after another.
fn lacking_lists<V: View>(view: &V, changes: &Changes, list: &[u32]) -> Option<Need>
    ensures { LacksLists (V.shown view.now) list.now result }
{
    let Some(first) = seen(view, changes, 1) else {
        return Some(Need::one(1));
    };
    let before = before_full(word_at(first, 6));
    let full = (list.len() + (49 - before)) / 50;
    for passed in 0..full {
        let block = list[before + 50 * passed];
        if block > 0 && block < 262_144 {
            let Some(_found) = view.get(block) else {
                return Some(Need::run(view, block, (full - passed).min(32) as u32));
            };
        }
    }
    None
}

/// How many of a file's first parts are asked for before its blocks are listed, so that with its index blocks as many
/// are there as get a full list of the chain: by its size, as if it had no holes. None for fewer than 50 blocks, and at
/// most 256, for a file may have holes behind them.
fn wanted_parts(size: u32) -> u32 {
    let parts = parts_of(size);
    let index = index_blocks(parts);
    let blocks = parts + index;
    if blocks < 50 {
        return 0;
    }
    ((blocks + 49) / 50).saturating_sub(index).min(256)
}

/// Block 1 and the blocks of addresses to which an inode leads, as far as the view lacks them and a need does not
/// have them in its run.
fn lacking_roots<V: View>(view: &V, changes: &Changes, inode: &Dinode, need: &Need) -> Others {
    let mut others = [0; 15];
    let mut count = 0;
    for place in 9..13u8 {
        let block = if place == 9 { 1 } else { inode.address(place) };
        let is_asked = block >= need.first && block - need.first < need.count;
        if block > 0 && block < 262_144 && !is_asked && seen(view, changes, block).is_none() {
            others[count] = block;
            count += 1;
        }
    }
    Others::of(others)
}

/// The first run of blocks that the view lacks among the first parts of a file of many, which are neighbours in most
/// files: up to a hole, and as far as the index blocks that are there tell them.
fn lacking_parts<V: View>(view: &V, changes: &Changes, inode: &Dinode) -> Option<Need>
    ensures { LacksHeld (V.shown view.now) changes.now inode.now result }
{
    let mut left = wanted_parts(inode.size);
    for place in 0..13u8 {
        if left == 0 {
            return None;
        }
        let address = inode.address(place);
        let need = if place < 10 {
            lacking_part(view, address, &mut left)
        } else {
            lacking_under(view, changes, address, place - 9, &mut left)
        };
        if let Some(need) = need {
            return Some(need);
        }
    }
    None
}

/// What putting an inode's blocks back wants whatever else it wants, as far as the view lacks it: block 1 and the
/// blocks of addresses to which the inode leads, and with them the first blocks of a file of many, for places where
/// a block gets a full list.
fn lacking_first<V: View>(view: &V, changes: &Changes, inode: &Dinode) -> Option<Need>
    ensures { LacksFirst (V.shown view.now) changes.now inode.now result }
{
    let need = match lacking_parts(view, changes, inode) {
        Some(need) => need,
        None => match seen(view, changes, 1) {
            Some(_) => return None,
            None => Need::one(1),
        },
    };
    Some(need.with(lacking_roots(view, changes, inode, &need)))
}

/// The blocks that an inode's addresses lead to, in the order in which they are put back. Everything
/// that putting them back wants is asked for: block 1, the index blocks, and those that get a full list.
pub(crate) fn blocks_to_free<V: View>(
    alloc: Global,
    view: &V,
    changes: &Changes,
    inode: &Dinode,
) -> Collected
    ensures { ListsToFree (V.shown view.now) changes.now (λ ps. under_dinode ps inode.now) result }
{
    if let Some(need) = lacking_first(view, changes, inode) {
        return Collected::Need(need);
    }
    let index = index_blocks(parts_of(inode.size)).min(1_024);
    let Ok(mut heads) = Vec::with_capacity(alloc, index as usize) else {
        return Collected::NoMemory;
    };
    let mut list = match collect(alloc, view, changes, inode, &mut heads) {
        Collected::Blocks(list) => list,
        Collected::Need(need) => return Collected::Need(need),
        Collected::NoMemory => return Collected::NoMemory,
    };
    arrange(view, changes, &mut list, &heads);
    match lacking_lists(view, changes, &list) {
        Some(need) => Collected::Need(need),
        None => Collected::Blocks(list),
    }
}

/// Puts blocks back on the free chain one after another. It wants what `blocks_to_free` asks for. On any
/// other answer than `Done` some of them may be there, and the changes are for letting go.
pub(crate) fn put_all_back<V: View>(view: &V, changes: &mut Changes, list: &[u32]) -> Hung
    ensures { PutsAllBack (V.shown view.now) changes.old changes.new list.now result }
{
    if list.is_empty() {
        return Hung::Done;
    }
    let Some(found) = seen(view, changes, 1) else {
        return Hung::Need(Need::one(1));
    };
    // no count of a volume is above 50
    if word_at(found, 6) > 50 {
        return Hung::Done;
    }
    let mut first = *found;
    // one in fifty gets a full list of the chain, and block 1 is changed; without room each takes its own
    let _ = changes.reserve(list.len() / 50 + 2);
    let mut next = 0;
    while next < list.len() {
        match put_back(view, changes, &mut first, list[next]) {
            Hung::Done => {}
            Hung::Need(need) => return Hung::Need(need),
            Hung::NoMemory => return Hung::NoMemory,
        }
        let room = 50usize.saturating_sub(usize::from(word_at(&first, 6)));
        let end = list.len().min(next + 1 + room);
        hang_each(&mut first, &list[next + 1..end]);
        next = end;
    }
    match changes.put(1, &first) {
        Ok(()) => Hung::Done,
        Err(_) => Hung::NoMemory,
    }
}
