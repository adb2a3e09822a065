ghost use Rattle.std.specs.Prelude.{◌≤◌, ◌<◌, ◌+◌, length};
ghost use Rattle.mb_bmap.specs.Hanging.{HangsAt, SetsBytes};
ghost use Rattle.mb_bmap.specs.Ways.{route_of};

use crate::addresses::{Located, address_at};
use crate::ways::route;
use mb_alloc::Hung;
use mb_iface::{Changes, Edited, Need, View, edit, put_and_edit};
use mb_layout::{inode_block, inode_place};
use mb_word::{put_addr, put_long};

/// Hangs a block at a level of the way to a part, level 0 being the inode's own address: writes the
/// address there, and fills the block with zeros where it is an index block (V7 filsys(5)). It asks
/// for the block that holds the address alone: that the view has the block handed in is for the
/// caller to see to. Where an address before that level is a hole nothing is changed.
pub fn hang<V: View>(
    view: &V,
    changes: &mut Changes,
    ino: u16,
    part: u32,
    level: u8,
    block: u32,
) -> Hung
    requires part { part < 2113674 }
    requires level { level ≤ (route_of part).depth }
    requires block { block < 262144 }
    ensures { HangsAt (V.shown view.now) changes.old changes.new ino (route_of part) level block result }
{
    let way = route(part);
    let is_index = level < way.depth;
    if level == 0 {
        let at = 64 * inode_place(ino) as usize + 12 + 3 * way.places[0] as usize;
        let mut address = [0; 3];
        put_addr(&mut address, 0, block);
        return set_bytes(
            view,
            changes,
            inode_block(ino),
            at,
            &address,
            is_index,
            block,
        );
    }
    match address_at(view, changes, ino, part, level - 1) {
        Located::At(index) => {
            if index >= 262_144 {
                return Hung::Done;
            }
            let at = 4 * way.places[usize::from(level)] as usize;
            let mut address = [0; 4];
            put_long(&mut address, 0, block);
            set_bytes(view, changes, index, at, &address, is_index, block)
        }
        Located::Missing { .. } => Hung::Done,
        Located::Need(need) => Hung::Need(need),
    }
}

/// Changes bytes of a block, and fills another block with zeros before that where it is an index block.
fn set_bytes<V: View>(
    view: &V,
    changes: &mut Changes,
    holder: u32,
    at: usize,
    bytes: &[u8],
    is_index: bool,
    block: u32,
) -> Hung
    requires some { 0 < holder }
    requires below { holder < 262144 }
    requires fits { at + length bytes.now ≤ 512 }
    requires block { block < 262144 }
    ensures { SetsBytes (V.shown view.now) changes.old changes.new holder at bytes.now is_index block result }
{
    if is_index {
        return match put_and_edit(view, changes, block, &[0; 512], holder, at, bytes) {
            Edited::Done => Hung::Done,
            Edited::Lacking => Hung::Need(Need::one(holder)),
            Edited::NoMemory => Hung::NoMemory,
        };
    }
    match edit(view, changes, holder, at, bytes) {
        Edited::Done => Hung::Done,
        Edited::Lacking => Hung::Need(Need::one(holder)),
        Edited::NoMemory => Hung::NoMemory,
    }
}
