ghost use Rattle.std.specs.Prelude.{OnOk, ◌≤◌, vec_len};
ghost use Rattle.mb_file.specs.Walking.{Collects, FitsVolume, LacksBlock, LacksIndex, PushesParts, PushesUnder};

use mb_iface::{Changes, Need, Others, View, seen};
use mb_layout::Dinode;
use mb_word::long_at;
use std::alloc::{AllocError, Global};

/// What became of blocks that were to be listed.
#[derive(Clone, Copy, Debug, PartialEq, Drop)]
pub(crate) enum Walked {
    /// They are listed.
    Done,
    /// The view lacks an index block.
    Need(Need),
    /// Memory was wanted and not given.
    NoMemory,
}

/// The blocks that an inode holds.
#[derive(Drop)]
pub(crate) enum Collected {
    /// All of them, each once.
    Blocks(Vec<u32>),
    /// The view lacks these blocks.
    Need(Need),
    /// Memory was wanted and not given.
    NoMemory,
}

/// How many parts a file of a size has, the last one perhaps in part.
pub(crate) fn parts_of(size: u32) -> u32
    ensures { result ≤ 8388608 }
{
    size.div_ceil(512)
}

/// How many index blocks a file of so many parts has, where none of them is a hole.
pub(crate) fn index_blocks(parts: u32) -> u32
    requires { parts ≤ 8388608 }
    ensures { result ≤ 65537 }
{
    if parts <= 10 {
        return 0;
    }
    if parts <= 138 {
        return 1;
    }
    2 + (parts - 138).div_ceil(128)
}

/// Lists the parts to which an index block's addresses lead, the last first; nothing for address 0, nor
/// for what no volume has, as `push_under` says. The loop knows no branch, for most index blocks have
/// 128 parts.
fn push_parts(index: &[u8; 512], list: &mut Vec<u32>) -> Result<(), AllocError>
    requires { vec_len list.old ≤ 262144 }
    ensures parts { OnOk result (PushesParts index.now list.old.items list.new.items) }
    ensures few { vec_len list.new ≤ 262144 }
{
    let mut parts = [0; 128];
    let mut count = 0u32;
    for passed in 0..128usize {
        let part = long_at(index, 4 * (127 - passed));
        parts[passed] = part;
        count += u32::from(part.wrapping_sub(1) < 262_143);
    }
    if count < 128 || list.len() + 128 > 262_144 {
        return push_some(index, list);
    }
    list.extend_from_slice(&parts)
}

/// Lists the parts of an index block as `push_parts` does, one by one.
fn push_some(index: &[u8; 512], list: &mut Vec<u32>) -> Result<(), AllocError>
    requires { vec_len list.old ≤ 262144 }
    ensures parts { OnOk result (PushesParts index.now list.old.items list.new.items) }
    ensures few { vec_len list.new ≤ 262144 }
{
    let mut parts = [0; 128];
    let mut count = 0;
    for passed in 0..128usize {
        let part = long_at(index, 4 * (127 - passed));
        parts[count] = part;
        // what is no part is written over by the next one: 0, which wraps, and 262,144 or more
        count += usize::from(part.wrapping_sub(1) < 262_143);
    }
    if list.len() + count > 262_144 {
        return Ok(());
    }
    list.extend_from_slice(&parts[..count])
}

/// Lists the block to which an address leads and all that stands under it, so many levels of index
/// blocks down; nothing for address 0. More blocks than a volume can have are not listed, nor an
/// address of 262,144 or more: no volume has them. The places of index blocks in the list go to
/// `heads`, which promises nothing.
fn push_under<V: View>(
    view: &V,
    changes: &Changes,
    address: u32,
    levels: u8,
    list: &mut Vec<u32>,
    heads: &mut Vec<u32>,
) -> Walked
    requires { vec_len list.old ≤ 262144 }
    ensures under { PushesUnder (V.shown view.now) changes.now address levels list.old.items list.new.items result }
    ensures few { vec_len list.new ≤ 262144 }
{
    if address == 0 {
        return Walked::Done;
    }
    if address >= 262_144 {
        return Walked::Done;
    }
    if list.len() >= 262_144 {
        return Walked::Done;
    }
    match list.push(address) {
        Ok(()) => {}
        Err(_) => return Walked::NoMemory,
    }
    if levels == 0 {
        return Walked::Done;
    }
    let _ = heads.push(list.len() as u32 - 1);
    let Some(index) = seen(view, changes, address) else {
        return Walked::Need(Need::one(address));
    };
    if levels == 1 {
        return match push_parts(index, list) {
            Ok(()) => Walked::Done,
            Err(_) => Walked::NoMemory,
        };
    }
    for passed in 0..128usize {
        let child = long_at(index, 4 * (127 - passed));
        if child == 0 {
            continue;
        }
        match push_under(view, changes, child, levels - 1, list, heads) {
            Walked::Done => {}
            Walked::Need(need) => return Walked::Need(need),
            Walked::NoMemory => return Walked::NoMemory,
        }
    }
    Walked::Done
}

/// The blocks that the view lacks among those to which an index block's addresses lead, but for the last
/// `passed` of them: at most fifteen, and 0 behind them.
fn lacking_beside<V: View>(
    view: &V,
    changes: &Changes,
    index: &[u8; 512],
    passed: usize,
) -> Others {
    let mut others = [0; 15];
    let mut count = 0;
    for more in passed..128usize {
        if count == 15 {
            break;
        }
        let block = long_at(index, 4 * (127 - more));
        if block > 0 && block < 262_144 && seen(view, changes, block).is_none() {
            others[count] = block;
            count += 1;
        }
    }
    Others::of(others)
}

/// The first index block that the view lacks among those to which an address leads, so many levels down,
/// and beside it those that it lacks behind it in the same index block, so that they are asked for
/// together.
fn lacking_index<V: View>(view: &V, changes: &Changes, address: u32, levels: u8) -> Option<Need>
    ensures { LacksIndex (V.shown view.now) changes.now address levels result }
{
    if levels == 0 {
        return None;
    }
    if address == 0 {
        return None;
    }
    if address >= 262_144 {
        return None;
    }
    let Some(index) = seen(view, changes, address) else {
        return Some(Need::one(address));
    };
    if levels == 1 {
        return None;
    }
    for passed in 0..128usize {
        let child = long_at(index, 4 * (127 - passed));
        if child == 0 {
            continue;
        }
        if let Some(need) = lacking_index(view, changes, child, levels - 1) {
            if levels > 2 {
                return Some(need);
            }
            return Some(need.with(lacking_beside(view, changes, index, passed + 1)));
        }
    }
    None
}

/// The run of blocks that the view lacks from a part's block on, and that are wanted of so many parts; where the view
/// has the block, the part is taken off these, and at a hole all are. It stands in each of its callers, whose way is
/// short there.
#[inline(always)]
pub(crate) fn lacking_part<V: View>(view: &V, block: u32, left: &mut u32) -> Option<Need>
    ensures { LacksBlock (V.shown view.now) block result }
{
    if block == 0 || block >= 262_144 {
        *left = 0;
        return None;
    }
    if view.get(block).is_none() {
        // among more than ten parts an index block may stand
        let wanted = left.saturating_add(u32::from(*left > 10));
        return Some(Need::run(view, block, wanted.max(1)));
    }
    *left = left.saturating_sub(1);
    None
}

/// The first run of blocks that the view lacks among the parts under an index block, so many levels down, the first
/// ones first, of so many parts: those that are there are taken off these, and all at a hole and where an index block
/// on the way is not there.
pub(crate) fn lacking_under<V: View>(
    view: &V,
    changes: &Changes,
    address: u32,
    levels: u8,
    left: &mut u32,
) -> Option<Need>
    requires { 1 ≤ levels }
    ensures { LacksIndex (V.shown view.now) changes.now address levels result }
{
    if address == 0 || address >= 262_144 {
        *left = 0;
        return None;
    }
    let Some(index) = seen(view, changes, address) else {
        *left = 0;
        return None;
    };
    for place in 0..128usize {
        if *left == 0 {
            return None;
        }
        let child = long_at(index, 4 * place);
        let need = if levels == 1 {
            lacking_part(view, child, left)
        } else {
            lacking_under(view, changes, child, levels - 1, left)
        };
        if let Some(need) = need {
            return Some(need);
        }
    }
    None
}

/// The blocks that an inode's thirteen addresses lead to, the last first: an index block, and then what
/// stands under its own. Index blocks are asked for before any block is listed. `heads` gets their places
/// in the list, as a guess.
pub(crate) fn collect<V: View>(
    alloc: Global,
    view: &V,
    changes: &Changes,
    inode: &Dinode,
    heads: &mut Vec<u32>,
) -> Collected
    ensures lists { Collects (V.shown view.now) changes.now inode.now result }
    ensures few { FitsVolume result }
{
    for place in 10..13u8 {
        if let Some(need) = lacking_index(view, changes, inode.address(place), place - 9) {
            return Collected::Need(need);
        }
    }
    let expected = parts_of(inode.size) + index_blocks(parts_of(inode.size));
    let Ok(mut list) = Vec::with_capacity(alloc, expected.min(4_096) as usize) else {
        return Collected::NoMemory;
    };
    for passed in 0..13u8 {
        let place = 12 - passed;
        let address = inode.address(place);
        let levels = place.saturating_sub(9);
        match push_under(view, changes, address, levels, &mut list, heads) {
            Walked::Done => {}
            Walked::Need(need) => return Collected::Need(need),
            Walked::NoMemory => return Collected::NoMemory,
        }
    }
    Collected::Blocks(list)
}
