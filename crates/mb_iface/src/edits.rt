ghost use Rattle.std.specs.Prelude.{◌≡◌, ◌≤◌, ◌<◌, ◌+◌, None, length};
ghost use Rattle.mb_kinds.specs.Changed.{changed};
ghost use Rattle.mb_iface.specs.Edits.{Edits, EditsBoth};

use crate::change_lists::Changes;
use crate::views::View;

/// What became of bytes of blocks that were to be changed.
#[derive(Clone, Copy, Debug, PartialEq, Drop)]
pub enum Edited {
    /// They are changed, and each block is a changed one.
    Done,
    /// A block is neither changed nor in the view; nothing was changed.
    Lacking,
    /// Memory was wanted and not given, which comes only where a block was not changed before;
    /// nothing was changed.
    NoMemory,
}

/// Changes bytes of a block from an offset on, and keeps its other bytes: in place where the block is
/// changed already, else in a copy of the view's block. Bytes that end past 512 are not taken. It
/// stands in each of its callers, so that a few bytes are stored there and not copied by a call.
#[inline(always)]
pub fn edit<V: View>(view: &V, changes: &mut Changes, block: u32, at: usize, bytes: &[u8]) -> Edited
    requires below { block < 262144 }
    requires fits { at + length bytes.now ≤ 512 }
    ensures { Edits (V.shown view.now) changes.old changes.new block at bytes.now result }
{
    if changes.patch(block, at, bytes) {
        return Edited::Done;
    }
    edit_copy(view, changes, block, at, bytes)
}

/// Changes bytes of a block that is not changed yet, in a copy of the view's block. It stays out of its
/// callers, whose way in place is short.
#[inline(never)]
fn edit_copy<V: View>(
    view: &V,
    changes: &mut Changes,
    block: u32,
    at: usize,
    bytes: &[u8],
) -> Edited
    requires unchanged { changed changes.old block ≡ None }
    requires below { block < 262144 }
    requires fits { at + length bytes.now ≤ 512 }
    ensures { Edits (V.shown view.now) changes.old changes.new block at bytes.now result }
{
    let Some(found) = view.get(block) else {
        return Edited::Lacking;
    };
    match changes.put(block, found) {
        Ok(()) => {
            let _ = changes.patch(block, at, bytes);
            Edited::Done
        }
        Err(_) => Edited::NoMemory,
    }
}

/// Changes bytes of one block from two offsets on, one after the other, or none.
pub fn edit_both<V: View>(
    view: &V,
    changes: &mut Changes,
    block: u32,
    at: usize,
    bytes: &[u8],
    beside: usize,
    more: &[u8],
) -> Edited
    requires below { block < 262144 }
    requires fits { at + length bytes.now ≤ 512 }
    requires more_fits { beside + length more.now ≤ 512 }
    ensures { EditsBoth (V.shown view.now) changes.old changes.new block at bytes.now beside more.now result }
{
    match edit(view, changes, block, at, bytes) {
        Edited::Done => {
            let _ = changes.patch(block, beside, more);
            Edited::Done
        }
        Edited::Lacking => Edited::Lacking,
        Edited::NoMemory => Edited::NoMemory,
    }
}
