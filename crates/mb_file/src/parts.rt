ghost use Rattle.std.specs.Prelude.{◌<◌, ◌≤◌, ◌+◌};
ghost use Rattle.mb_file.specs.Finding.{FindsPart, Looks, LooksUnder};

use mb_bmap::{Located, address, address_at, route};
use mb_iface::{Changes, Need, View, seen};
use mb_word::long_at;

/// Where a part of a file stands.
#[derive(Clone, Copy, Debug, PartialEq, Drop)]
pub(crate) enum PartAt {
    /// In this block, which is 1 to 262,143.
    Block(u32),
    /// Nowhere: it reads as zeros.
    Hole,
    /// The view lacks the inode's block, or an index block on the way.
    Need(Need),
}

/// The block of a part of a file. Parts from 2,113,674 on, which no file has, are told as holes, and so
/// is an address of 262,144 or more, which no volume has.
pub(crate) fn part_at<V: View>(view: &V, changes: &Changes, ino: u16, part: u32) -> PartAt
    ensures { FindsPart (V.shown view.now) changes.now ino part result }
{
    if part >= 2_113_674 {
        return PartAt::Hole;
    }
    match address(view, changes, ino, part) {
        Located::At(block) => {
            if block >= 262_144 {
                PartAt::Hole
            } else {
                PartAt::Block(block)
            }
        }
        Located::Missing { .. } => PartAt::Hole,
        Located::Need(need) => PartAt::Need(need),
    }
}

/// What is there of the blocks of some parts of a file.
#[derive(Clone, Copy, Debug, PartialEq, Drop)]
pub(crate) enum Looked {
    /// All that the file has of them; about so many blocks it has not, its index blocks among them.
    Missing(u32),
    /// The view lacks the inode's block, an index block, or a run of the parts' blocks.
    Need(Need),
}

/// Looks whether the view has the blocks of the parts from one on up to an end, with the index blocks
/// on the way to them: at up to 128 parts at a time, whose addresses stand in one index block.
pub(crate) fn look<V: View>(view: &V, changes: &Changes, ino: u16, first: u32, end: u32) -> Looked
    requires { end ≤ 8388608 }
    ensures { Looks (V.shown view.now) changes.now ino result }
{
    let mut missing = 0u32;
    let mut part = first;
    while part < end {
        let next = end.min(group_end(part));
        match look_in_group(view, changes, ino, part, next) {
            Looked::Missing(more) => missing = missing.saturating_add(more),
            Looked::Need(need) => return Looked::Need(need),
        }
        part = next;
    }
    Looked::Missing(missing)
}

/// The end of the parts whose addresses stand beside a part's: those of the inode itself, or the 128 of
/// an index block.
fn group_end(part: u32) -> u32
    requires { part < 8388608 }
    ensures later { part < result }
    ensures near { result ≤ part + 128 }
{
    if part < 10 {
        return 10;
    }
    part + (128 - (part - 10) % 128)
}

/// Looks at parts whose addresses stand beside each other, from one on up to an end.
fn look_in_group<V: View>(view: &V, changes: &Changes, ino: u16, part: u32, end: u32) -> Looked
    requires order { part ≤ end }
    requires few { end ≤ 8388608 }
    ensures { Looks (V.shown view.now) changes.now ino result }
{
    if part >= 2_113_674 {
        return Looked::Missing(0);
    }
    let depth = route(part).depth;
    if depth == 0 {
        return look_at_each(view, changes, ino, part, end);
    }
    match address_at(view, changes, ino, part, depth - 1) {
        Located::At(index) => {
            if index >= 262_144 {
                return Looked::Missing(0);
            }
            look_under(view, changes, index, (part - 10) % 128, end - part)
        }
        Located::Missing { level } => Looked::Missing(end - part + u32::from(depth - level)),
        Located::Need(need) => Looked::Need(need),
    }
}

/// Looks at parts one by one.
fn look_at_each<V: View>(view: &V, changes: &Changes, ino: u16, first: u32, end: u32) -> Looked
    ensures { Looks (V.shown view.now) changes.now ino result }
{
    let mut missing = 0u32;
    for part in first..end {
        match part_at(view, changes, ino, part) {
            PartAt::Block(block) => {
                let Some(_found) = seen(view, changes, block) else {
                    return Looked::Need(Need::run(view, block, end - part));
                };
            }
            PartAt::Hole => missing = missing.saturating_add(1),
            PartAt::Need(need) => return Looked::Need(need),
        }
    }
    Looked::Missing(missing)
}

/// Looks at so many parts whose addresses stand in an index block from a place on.
fn look_under<V: View>(view: &V, changes: &Changes, index: u32, place: u32, count: u32) -> Looked
    requires some { 0 < index }
    requires below { index < 262144 }
    requires place { place < 128 }
    ensures { LooksUnder (V.shown view.now) changes.now index result }
{
    let Some(bytes) = seen(view, changes, index) else {
        return Looked::Need(Need::one(index));
    };
    let end = place + count.min(128 - place);
    let mut missing = 0u32;
    for at in place..end {
        let block = long_at(bytes, 4 * at as usize);
        if block == 0 {
            missing = missing.saturating_add(1);
        } else if block < 262_144 {
            let Some(_found) = seen(view, changes, block) else {
                return Looked::Need(Need::run(view, block, end - at));
            };
        }
    }
    Looked::Missing(missing)
}
