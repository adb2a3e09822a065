ghost use Rattle.std.specs.Prelude.{◌<◌};
ghost use Rattle.mb_dirs.specs.Entering.{SetsSlot};
ghost use Rattle.mb_dirs.specs.SlotBlocks.{PutsSlot};

use crate::steps::Advanced;
use mb_bmap::{Located, address};
use mb_iface::{Changes, Edited, Need, View, edit};
use mb_kinds::Name;
use mb_word::put_word;

/// Writes the slot at a place of a directory, counted from 0, which is one of its slots.
pub(crate) fn set_slot<V: View>(
    view: &V,
    changes: &mut Changes,
    dir: u16,
    at: u32,
    name: &Name,
    ino: u16,
) -> Advanced
    ensures { SetsSlot (V.shown view.now) changes.old changes.new dir at name.now ino result }
{
    // no directory of a volume has so many slots
    if at >= 67_637_568 {
        return Advanced::Done;
    }
    let block = match address(view, changes, dir, at / 32) {
        Located::At(block) => block,
        Located::Missing { .. } => return Advanced::Done,
        Located::Need(need) => return Advanced::Need(need),
    };
    // nor an address 262,144 or more
    if block >= 262_144 {
        return Advanced::Done;
    }
    match put_slot(view, changes, block, (at % 32) as u8, name, ino) {
        Edited::Done => Advanced::Done,
        Edited::Lacking => Advanced::Need(Need::one(block)),
        Edited::NoMemory => Advanced::NoMemory,
    }
}

/// Writes the slot at a place, one of 32, of a directory's block.
pub(crate) fn put_slot<V: View>(
    view: &V,
    changes: &mut Changes,
    block: u32,
    place: u8,
    name: &Name,
    ino: u16,
) -> Edited
    requires below { block < 262144 }
    requires place { place < 32 }
    ensures { PutsSlot (V.shown view.now) changes.old changes.new block place name.now ino result }
{
    let mut bytes = [0; 16];
    put_word(&mut bytes, 0, ino);
    bytes[2..16].copy_from_slice(name);
    edit(view, changes, block, 16 * place as usize, &bytes)
}
