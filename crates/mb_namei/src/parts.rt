ghost use Rattle.std.specs.Prelude.{◌≡◌, ◌≤◌, ◌<◌, ◌+◌, None, IfSome};
ghost use Rattle.mb_iface.specs.Needs.{IsNeed};
ghost use Rattle.mb_namei.specs.Addresses.{AreOf};
ghost use Rattle.mb_namei.specs.Parts.{Fetches};

use crate::addresses::Addresses;
use mb_bmap::{Located, address};
use mb_iface::{Changes, Need, Others, View, seen};

/// How many parts are asked for at once at first. To gather a block in vain costs less than to begin anew.
pub(crate) const AT_ONCE: u32 = 8;

/// A part of a file, read from its block.
#[derive(Drop)]
pub(crate) enum Fetched<'a> {
    /// Its bytes.
    Bytes(&'a [u8; 512]),
    /// No block is there for it.
    Hole,
    /// The view lacks its block, or one on the way to it.
    Need(Need),
}

/// A part of a file that has so many parts, whose addresses are at hand where its inode's block is there. It stands in each of
/// its callers, whose way is short where the part's address is at hand and its block is there.
#[inline(always)]
pub(crate) fn fetch_by<'a, V: View>(
    view: &'a V,
    changes: &'a Changes,
    addresses: Option<Addresses<'_>>,
    ino: u16,
    part: u32,
    parts: u32,
) -> Fetched<'a>
    requires few { parts ≤ 2113674 }
    requires part { part < parts }
    requires known { IfSome addresses (AreOf (V.shown view.now) changes.now ino) }
    ensures { Fetches (V.shown view.now) changes.now ino part result }
{
    if let Some(addresses) = addresses {
        if let Some(block) = addresses.near(part) {
            if let Some(bytes) = seen(view, changes, block) {
                return Fetched::Bytes(bytes);
            }
        }
    }
    fetch(view, changes, ino, part, parts)
}

/// A part of a file that has so many parts. It stands in each of its callers, too.
#[inline(always)]
pub(crate) fn fetch<'a, V: View>(
    view: &'a V,
    changes: &'a Changes,
    ino: u16,
    part: u32,
    parts: u32,
) -> Fetched<'a>
    requires few { parts ≤ 2113674 }
    requires part { part < parts }
    ensures { Fetches (V.shown view.now) changes.now ino part result }
{
    let block = match address(view, changes, ino, part) {
        Located::At(block) => block,
        Located::Missing { .. } => return Fetched::Hole,
        Located::Need(need) => return Fetched::Need(need),
    };
    if block >= 262_144 {
        return Fetched::Hole;
    }
    match seen(view, changes, block) {
        Some(bytes) => Fetched::Bytes(bytes),
        None => Fetched::Need(lacked(view, changes, ino, part, parts, block)),
    }
}

/// What is asked for where the view lacks a part's block: eight parts, and later as many as were passed before
/// it and one more, at most 32, so what is asked for doubles while a file is gone through. Its neighbours are
/// asked for with it, and beside them up to fifteen blocks that stand apart. It stays out of its callers.
#[inline(never)]
fn lacked<V: View>(view: &V, changes: &Changes, ino: u16, part: u32, parts: u32, block: u32) -> Need
    requires few { parts ≤ 2113674 }
    requires part { part < parts }
    requires some { 1 ≤ block }
    requires below { block < 262144 }
    requires lacking { V.shown view.now block ≡ None }
    ensures need { IsNeed (V.shown view.now) result }
    ensures first { result.first ≡ block }
{
    let most = (part + 1).max(AT_ONCE).min(parts - part).min(32);
    if most == 1 {
        return Need::one(block);
    }
    let Some(addresses) = Addresses::read(view, changes, ino) else {
        return Need::one(block);
    };
    let wanted = neighbours(view, changes, &addresses, part, block, most);
    let run = Need::run(view, block, wanted);
    let others = others_of(view, changes, &addresses, part + run.count, part + most);
    run.with(others)
}

/// How many parts from one on, at most so many, stand at neighbouring blocks, as far as that can be
/// told.
fn neighbours<V: View>(
    view: &V,
    changes: &Changes,
    addresses: &Addresses<'_>,
    part: u32,
    block: u32,
    most: u32,
) -> u32
    requires most { 1 ≤ most }
    requires few { part + most ≤ 2113674 }
    requires below { block < 262144 }
    ensures { 1 ≤ result }
{
    for more in 1..most {
        match addresses.block(view, changes, part + more) {
            Some(next) if next == block + more => {}
            _ => return more,
        }
    }
    most
}

/// The blocks that the view lacks of the parts from one on and before another, as far as their addresses
/// can be told: at most fifteen, and 0 behind them. The file's first index block is the first of them where
/// the view lacks it and parts that are asked for next stand under it.
fn others_of<V: View>(
    view: &V,
    changes: &Changes,
    addresses: &Addresses<'_>,
    from: u32,
    to: u32,
) -> Others
    requires { to ≤ 2113674 }
{
    let mut others = [0; 15];
    let mut count = 0;
    if let Some(index) = addresses.lacking_index(2 * to + 1) {
        others[0] = index;
        count = 1;
    }
    for part in from..to {
        let Some(block) = addresses.block(view, changes, part) else {
            break;
        };
        if view.get(block).is_none() {
            if count == 15 {
                break;
            }
            others[count] = block;
            count += 1;
        }
    }
    Others::of(others)
}
