ghost use Rattle.std.specs.Prelude.{◌≤◌, ◌<◌, ◌+◌, length};
ghost use Rattle.mb_iface.specs.Pairs.{Holds, HoldsBoth, PutsAndEdits};

use crate::change_lists::Changes;
use crate::edits::Edited;
use crate::views::View;

/// Makes a block a changed one, with the bytes that it has.
fn hold<V: View>(view: &V, changes: &mut Changes, block: u32) -> Edited
    requires { block < 262144 }
    ensures { Holds (V.shown view.now) changes.old changes.new block result }
{
    if changes.get(block).is_some() {
        return Edited::Done;
    }
    let Some(found) = view.get(block) else {
        return Edited::Lacking;
    };
    match changes.put(block, found) {
        Ok(()) => Edited::Done,
        Err(_) => Edited::NoMemory,
    }
}

/// Makes two blocks changed ones, with the bytes that they have, or none, so that `Changes::patch`
/// changes bytes of both in place and needs no memory. What is changed already is not copied.
pub fn hold_both<V: View>(view: &V, changes: &mut Changes, block: u32, then: u32) -> Edited
    requires first { block < 262144 }
    requires second { then < 262144 }
    ensures { HoldsBoth (V.shown view.now) changes.old changes.new block then result }
{
    if changes.get(block).is_some() {
        return hold(view, changes, then);
    }
    if changes.get(then).is_some() {
        return hold(view, changes, block);
    }
    let Some(found) = view.get(block) else {
        return Edited::Lacking;
    };
    let Some(after) = view.get(then) else {
        return Edited::Lacking;
    };
    match changes.put_both(block, found, then, after) {
        Ok(()) => Edited::Done,
        Err(_) => Edited::NoMemory,
    }
}

/// Writes a block whole, which the view need not have, and then changes bytes of a block from an
/// offset on, in place where that is changed already, or does neither. `Lacking` is of the block
/// whose bytes are changed.
pub fn put_and_edit<V: View>(
    view: &V,
    changes: &mut Changes,
    put: u32,
    whole: &[u8; 512],
    block: u32,
    at: usize,
    bytes: &[u8],
) -> Edited
    requires put_below { put < 262144 }
    requires below { block < 262144 }
    requires fits { at + length bytes.now ≤ 512 }
    ensures { PutsAndEdits (V.shown view.now) changes.old changes.new put whole.now block at bytes.now result }
{
    if put == block || changes.get(block).is_some() {
        return match changes.put(put, whole) {
            Ok(()) => {
                let _ = changes.patch(block, at, bytes);
                Edited::Done
            }
            Err(_) => Edited::NoMemory,
        };
    }
    let Some(found) = view.get(block) else {
        return Edited::Lacking;
    };
    match changes.put_both(put, whole, block, found) {
        Ok(()) => {
            let _ = changes.patch(block, at, bytes);
            Edited::Done
        }
        Err(_) => Edited::NoMemory,
    }
}
