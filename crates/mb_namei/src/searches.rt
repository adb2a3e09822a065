ghost use Rattle.std.specs.Prelude.{◌≤◌, ◌<◌, ◌*◌, IfSome};
ghost use Rattle.mb_namei.specs.Addresses.{AreOf};
ghost use Rattle.mb_namei.specs.Searching.{Seeks, CountsUsed};
ghost use Rattle.mb_namei.specs.PartSearches.{SeeksInPart, CountsInPart};

use crate::addresses::Addresses;
use crate::frontiers::lacking_part;
use crate::parts::{Fetched, fetch, fetch_by};
use crate::slots::{Glimpse, count_slots, scan_slots};
use mb_iface::{Changes, Need, View};
use mb_kinds::Name;

/// Where a name stands in a directory, or where it can be entered. A slot is told by its place in the
/// directory, from 0.
#[derive(Clone, Copy, Debug, PartialEq, Drop)]
pub enum Sought {
    /// The used slot with the name, and its number.
    Found { at: u32, ino: u16 },
    /// No used slot has the name; the first empty one.
    Empty { at: u32 },
    /// No used slot has the name, and none is empty.
    Full,
    /// The view lacks the inode's block, or a block of the directory.
    Need(Need),
}

/// The used slots of a directory.
#[derive(Clone, Copy, Debug, PartialEq, Drop)]
pub enum Counted {
    /// So many.
    Used(u32),
    /// The view lacks the inode's block, or a block of the directory.
    Need(Need),
}

/// What a part of a directory says of a name.
#[derive(Clone, Copy, Debug, PartialEq, Drop)]
pub(crate) enum PartSought {
    /// The first used slot with the name, and its number.
    Found { at: u32, ino: u16 },
    /// None has the name; the first empty slot so far, or the number of slots where none is.
    Unnamed { empty: u32 },
    /// No block is there for the part.
    Hole,
    /// The view lacks a block.
    Need(Need),
}

/// How many slots of a part of a directory are in use.
#[derive(Clone, Copy, Debug, PartialEq, Drop)]
enum PartCounted {
    /// So many.
    Used(u32),
    /// No block is there for the part.
    Hole,
    /// The view lacks a block.
    Need(Need),
}

/// From how many parts on a directory's addresses are looked up once for all of them. Of fewer each goes by the inode, which
/// takes less where the first of them is lacking.
const MANY: u32 = 5;

/// Searches a directory of so many bytes for a name, slot after slot (V7 dir(5)), 32 of them in a
/// block. What it answers is promised where each part below the size has a block, as in every
/// directory of a volume; a hole ends the search as if no slot were there.
#[inline(always)]
pub fn search<V: View>(view: &V, changes: &Changes, dir: u16, size: u32, name: &Name) -> Sought
    ensures { Seeks (V.shown view.now) changes.now dir size name.now result }
{
    let parts = (size / 16).div_ceil(32).min(2_113_674);
    if let Some(need) = lacking_part(view, changes, dir, parts, name) {
        return Sought::Need(need);
    }
    if parts < MANY {
        return search_by(view, changes, None, dir, size, name);
    }
    search_far(view, changes, dir, size, name)
}

/// Searches a directory of many parts. It stays out of its caller, whose way to a directory of few parts is short.
#[inline(never)]
fn search_far<V: View>(view: &V, changes: &Changes, dir: u16, size: u32, name: &Name) -> Sought
    ensures { Seeks (V.shown view.now) changes.now dir size name.now result }
{
    let addresses = Addresses::read(view, changes, dir);
    search_by(view, changes, addresses, dir, size, name)
}

/// Searches a directory part after part, whose addresses are at hand where there are any. It stands in its callers: where none
/// are, each part goes by the inode.
#[inline(always)]
fn search_by<V: View>(
    view: &V,
    changes: &Changes,
    addresses: Option<Addresses<'_>>,
    dir: u16,
    size: u32,
    name: &Name,
) -> Sought
    requires known { IfSome addresses (AreOf (V.shown view.now) changes.now dir) }
    ensures { Seeks (V.shown view.now) changes.now dir size name.now result }
{
    let count = size / 16;
    let parts = count.div_ceil(32).min(2_113_674);
    let mut empty = count;
    for part in 0..parts {
        match search_part(view, changes, addresses, dir, part, count, empty, name) {
            PartSought::Found { at, ino } => return Sought::Found { at, ino },
            PartSought::Unnamed { empty: first } => empty = first,
            PartSought::Hole => return Sought::Full,
            PartSought::Need(need) => return Sought::Need(need),
        }
    }
    if empty < count {
        return Sought::Empty { at: empty };
    }
    Sought::Full
}

/// Counts the used slots of a directory of so many bytes. What it answers is promised where each part
/// below the size has a block, as in every directory of a volume; a hole has none.
pub fn count_used<V: View>(view: &V, changes: &Changes, dir: u16, size: u32) -> Counted
    ensures { CountsUsed (V.shown view.now) changes.now dir size result }
{
    let count = size / 16;
    let parts = count.div_ceil(32).min(2_113_674);
    let mut used = 0;
    for part in 0..parts {
        match count_part(view, changes, dir, part, count) {
            PartCounted::Used(more) => used += more,
            PartCounted::Hole => return Counted::Used(used),
            PartCounted::Need(need) => return Counted::Need(need),
        }
    }
    Counted::Used(used)
}

/// Searches the slots of one part, where the first empty slot before it is `empty`. It stands in each of
/// its callers, as `fetch_by` does in it.
#[inline(always)]
fn search_part<V: View>(
    view: &V,
    changes: &Changes,
    addresses: Option<Addresses<'_>>,
    dir: u16,
    part: u32,
    count: u32,
    empty: u32,
    name: &Name,
) -> PartSought
    requires part { 32 * part < count }
    requires few { part < 2113674 }
    requires slots { count ≤ 268435455 }
    requires known { IfSome addresses (AreOf (V.shown view.now) changes.now dir) }
    ensures { SeeksInPart (V.shown view.now) changes.now dir part count empty name.now result }
{
    let parts = count.div_ceil(32).min(2_113_674);
    let bytes = match fetch_by(view, changes, addresses, dir, part, parts) {
        Fetched::Bytes(bytes) => bytes,
        Fetched::Hole => return PartSought::Hole,
        Fetched::Need(need) => return PartSought::Need(need),
    };
    let here = (count - 32 * part).min(32);
    match scan_slots(bytes, here, name) {
        Glimpse::Named { place, ino } => PartSought::Found {
            at: 32 * part + place,
            ino,
        },
        Glimpse::Unnamed { empty: place } => {
            if place >= here {
                return PartSought::Unnamed { empty };
            }
            if 32 * part + place >= empty {
                return PartSought::Unnamed { empty };
            }
            PartSought::Unnamed {
                empty: 32 * part + place,
            }
        }
    }
}

/// Counts the used slots of one part.
fn count_part<V: View>(view: &V, changes: &Changes, dir: u16, part: u32, count: u32) -> PartCounted
    requires part { 32 * part < count }
    requires few { part < 2113674 }
    requires slots { count ≤ 268435455 }
    ensures { CountsInPart (V.shown view.now) changes.now dir part count result }
{
    let parts = count.div_ceil(32).min(2_113_674);
    match fetch(view, changes, dir, part, parts) {
        Fetched::Bytes(bytes) => {
            PartCounted::Used(count_slots(bytes, (count - 32 * part).min(32)))
        }
        Fetched::Hole => PartCounted::Hole,
        Fetched::Need(need) => PartCounted::Need(need),
    }
}
