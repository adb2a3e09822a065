ghost use Rattle.std.specs.Prelude.{◌≡◌, ◌<◌, ◌≤◌, length, replicate, take, None, MatchOption};
ghost use Rattle.mb_kinds.specs.Changed.{shown_over};
ghost use Rattle.mb_iface.specs.Pairs.{PutsAndEdits};
ghost use Rattle.mb_alloc.specs.Taking.{Takes, TakesZeroed, TellsNext, IsSuper, IsSuperPlace};

use crate::writes::word;
use mb_iface::{Changes, Edited, Need, View, edit, put_and_edit, seen};
use mb_word::{long_at, word_at};

/// A block taken from the free chain.
#[derive(Clone, Copy, Debug, PartialEq, Drop)]
pub enum Taken {
    /// This block, from 1 on and below 262,144.
    Block(u32),
    /// The chain has no block: the super-block's list is empty, or its last address is 0. Nothing was
    /// changed.
    NoneLeft,
    /// The view lacks block 1, or the taken block where that holds the next list or is to be filled;
    /// nothing was changed.
    Need(Need),
    /// Memory was wanted and not given; nothing was changed.
    NoMemory,
}

/// The next block of the free chain.
#[derive(Clone, Copy, Drop)]
enum Next {
    /// This block, from 1 on and below 262,144, behind so many addresses of the super-block's list;
    /// behind none it holds the next list. And where the super-block stands in the changes, if it does.
    Block {
        block: u32,
        left: u16,
        place: Option<usize>,
    },
    /// The chain has no block.
    NoneLeft,
    /// The view lacks block 1.
    Need(Need),
}

/// The bytes of the super-block, and where it stands in the changes, if it does; `None` exactly where
/// it is neither changed nor in the view.
fn super_block<'a, V: View>(
    view: &'a V,
    changes: &'a Changes,
) -> Option<(&'a [u8; 512], Option<usize>)>
    ensures { MatchOption result (shown_over (V.shown view.now) changes.now 1 ≡ None) (λ found.
        IsSuper (V.shown view.now) changes.now found.0.now found.1) }
{
    match changes.place(1) {
        Some(place) => Some((changes.at(place).1, Some(place))),
        None => {
            let bytes = view.get(1)?;
            Some((bytes, None))
        }
    }
}

/// Tells the next block of the free chain, which stays as it is.
fn next_block<V: View>(view: &V, changes: &Changes) -> Next
    ensures { TellsNext (V.shown view.now) changes.now result }
{
    let Some((bytes, place)) = super_block(view, changes) else {
        return Next::Need(Need::one(1));
    };
    let count = word_at(bytes, 6);
    if count == 0 {
        return Next::NoneLeft;
    }
    // no count of a volume is above 50, nor an address 262,144 or more
    if count > 50 {
        return Next::NoneLeft;
    }
    let block = long_at(bytes, 4 + 4 * count as usize);
    if block == 0 {
        return Next::NoneLeft;
    }
    if block >= 262_144 {
        return Next::NoneLeft;
    }
    let left = count - 1;
    Next::Block { block, left, place }
}

/// Takes the next block from the free chain (V7 alloc(9), filsys(5)): the super-block's list falls by
/// its last address; where that was its only one, the count and the list that the taken block holds
/// are copied in. It asks for the taken block only then. Address 0 in the list's last place ends the
/// chain, and the list stays.
pub fn take_block<V: View>(view: &V, changes: &mut Changes) -> Taken
    ensures { Takes (V.shown view.now) changes.old changes.new result }
{
    let (block, left) = match next_block(view, changes) {
        Next::Block { block, left, .. } => (block, left),
        Next::NoneLeft => return Taken::NoneLeft,
        Next::Need(need) => return Taken::Need(need),
    };
    if left > 0 {
        return match edit(view, changes, 1, 6, &word(left)) {
            Edited::Done => Taken::Block(block),
            Edited::Lacking => Taken::Need(Need::one(1)),
            Edited::NoMemory => Taken::NoMemory,
        };
    }
    let Some(held) = seen(view, changes, block) else {
        return Taken::Need(Need::one(block));
    };
    let list = list_bytes(held);
    match edit(view, changes, 1, 6, &list) {
        Edited::Done => Taken::Block(block),
        Edited::Lacking => Taken::Need(Need::one(1)),
        Edited::NoMemory => Taken::NoMemory,
    }
}

/// Takes the next block from the free chain and fills it with zeros, so it asks for that block where
/// the view lacks it, with its neighbours as far as `wanted` blocks are going to be taken.
pub fn take_zeroed<V: View>(view: &V, changes: &mut Changes, wanted: u32) -> Taken
    requires { 1 ≤ wanted }
    ensures { TakesZeroed (V.shown view.now) changes.old changes.new result }
{
    let (block, left, place) = match next_block(view, changes) {
        Next::Block { block, left, place } => (block, left, place),
        Next::NoneLeft => return Taken::NoneLeft,
        Next::Need(need) => return Taken::Need(need),
    };
    let Some(_found) = view.get(block) else {
        return Taken::Need(Need::run(view, block, wanted));
    };
    if left > 0 {
        return match zero_and_edit(view, changes, place, block, &word(left)) {
            Edited::Done => Taken::Block(block),
            Edited::Lacking => Taken::Need(Need::one(1)),
            Edited::NoMemory => Taken::NoMemory,
        };
    }
    let Some(held) = seen(view, changes, block) else {
        return Taken::Need(Need::one(block));
    };
    let list = list_bytes(held);
    match zero_and_edit(view, changes, place, block, &list) {
        Edited::Done => Taken::Block(block),
        Edited::Lacking => Taken::Need(Need::one(1)),
        Edited::NoMemory => Taken::NoMemory,
    }
}

/// Fills a block with zeros and changes bytes of the super-block's list, its count first, in place where
/// that is changed already; or does neither. It stands in each of its callers, so that a count is stored
/// there and not copied by a call.
#[inline(always)]
fn zero_and_edit<V: View>(
    view: &V,
    changes: &mut Changes,
    place: Option<usize>,
    block: u32,
    list: &[u8],
) -> Edited
    requires place { IsSuperPlace changes.old place }
    requires below { block < 262144 }
    requires fits { length list.now ≤ 202 }
    ensures { PutsAndEdits (V.shown view.now) changes.old changes.new block (replicate 512 0) 1 6 list.now result }
{
    let Some(place) = place else {
        return put_and_edit(view, changes, block, &[0; 512], 1, 6, list);
    };
    // no list of a volume names the super-block
    if block == 1 {
        return put_and_edit(view, changes, block, &[0; 512], 1, 6, list);
    }
    match changes.put_zeros(block) {
        Ok(()) => {
            changes.patch_at(place, 6, list);
            Edited::Done
        }
        Err(_) => Edited::NoMemory,
    }
}

/// The count and the list of a block of the free chain.
fn list_bytes(block: &[u8; 512]) -> [u8; 202]
    ensures bytes { result ≡ take 202 block.now }
    ensures sized { length result ≡ 202 }
{
    let mut list = [0; 202];
    list.copy_from_slice(&block[..202]);
    list
}
