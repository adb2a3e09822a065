ghost use Rattle.std.specs.Prelude.{◌≤◌, ◌<◌};
ghost use Rattle.mb_namei.specs.Frontiers.{LacksPart};

use crate::addresses::Addresses;
use crate::parts::{AT_ONCE, Fetched, fetch};
use crate::slots::{Glimpse, front_place, scan_slots};
use mb_iface::{Changes, Need, View, seen};
use mb_kinds::Name;

/// The next blocks that the view lacks of a directory's parts, as long as the parts that it got last do not
/// have the name: so a search that begins anew with more blocks goes through each block about twice in all,
/// and through those of a directory of more than 16 that stand apart, which come by eight, up to five
/// times. The parts are got in a row, so the last one is there only where all are. Nothing where all parts are
/// asked for at once.
#[inline(always)]
pub(crate) fn lacking_part<V: View>(
    view: &V,
    changes: &Changes,
    dir: u16,
    parts: u32,
    name: &Name,
) -> Option<Need>
    requires { parts ≤ 2113674 }
    ensures { LacksPart (V.shown view.now) changes.now dir result }
{
    if parts <= AT_ONCE {
        return None;
    }
    lacking_of_many(view, changes, dir, parts, name)
}

/// The same of a directory of many parts. It stays out of its callers, whose way through few parts is
/// short.
#[inline(never)]
fn lacking_of_many<V: View>(
    view: &V,
    changes: &Changes,
    dir: u16,
    parts: u32,
    name: &Name,
) -> Option<Need>
    requires many { 9 ≤ parts }
    requires few { parts ≤ 2113674 }
    ensures { LacksPart (V.shown view.now) changes.now dir result }
{
    let addresses = Addresses::read(view, changes, dir)?;
    if is_there(view, changes, &addresses, parts - 1) {
        return None;
    }
    let part = parts_there(view, changes, &addresses, parts);
    if has_name_before(view, changes, &addresses, part, name) {
        return None;
    }
    match fetch(view, changes, dir, part, parts) {
        Fetched::Need(need) => Some(need),
        _ => None,
    }
}

/// Whether the block of a part is there. A part without a block is not.
fn is_there<V: View>(view: &V, changes: &Changes, addresses: &Addresses<'_>, part: u32) -> bool
    requires { part < 2113674 }
{
    match addresses.block(view, changes, part) {
        Some(block) => seen(view, changes, block).is_some(),
        None => false,
    }
}

/// How many parts are there, where they are got in a row and the last one is not.
fn parts_there<V: View>(view: &V, changes: &Changes, addresses: &Addresses<'_>, parts: u32) -> u32
    requires some { 1 ≤ parts }
    requires few { parts ≤ 2113674 }
    ensures { result < parts }
{
    let mut there = 0;
    let mut lacking = parts - 1;
    while there < lacking {
        let middle = there + (lacking - there) / 2;
        if is_there(view, changes, addresses, middle) {
            there = middle + 1;
        } else {
            lacking = middle;
        }
    }
    there
}

/// Whether a name stands in the parts that were got last before one: all of the first eight, later those from its
/// half on, but no more than are asked for at once.
fn has_name_before<V: View>(
    view: &V,
    changes: &Changes,
    addresses: &Addresses<'_>,
    part: u32,
    name: &Name,
) -> bool
    requires { part < 2113674 }
{
    let from = if part <= AT_ONCE {
        0
    } else {
        (part / 2).max(part.saturating_sub(32))
    };
    for before in from..part {
        if has_name(view, changes, addresses, before, name) {
            return true;
        }
    }
    false
}

/// Whether a name stands in a part with 32 slots, whose block is there.
fn has_name<V: View>(
    view: &V,
    changes: &Changes,
    addresses: &Addresses<'_>,
    part: u32,
    name: &Name,
) -> bool
    requires { part < 2113674 }
{
    let Some(block) = addresses.block(view, changes, part) else {
        return false;
    };
    let Some(bytes) = seen(view, changes, block) else {
        return false;
    };
    front_place(bytes, name) < 32 && matches!(scan_slots(bytes, 32, name), Glimpse::Named { .. })
}
