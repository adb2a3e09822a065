ghost use Rattle.mb_dirs.specs.Entering.{ClearsSlot, EntersName, RewritesSlot};

use crate::fields::{FieldChange, set_fields};
use crate::grows::grow;
use crate::slot_writes::set_slot;
use crate::steps::Advanced;
use mb_iface::{Changes, Need, View};
use mb_kinds::Name;

/// Where a new name goes in a directory.
#[derive(Clone, Copy, Debug, PartialEq, Drop)]
pub enum Gap {
    /// Its first empty slot, by the place in the directory, from 0.
    At(u32),
    /// No slot is empty: behind all of them.
    End,
}

/// What became of a step that takes blocks.
#[derive(Clone, Copy, Debug, PartialEq, Drop)]
pub enum Entered {
    /// It is done.
    Done,
    /// The free chain has fewer blocks than are wanted.
    NoneLeft,
    /// The view lacks these blocks.
    Need(Need),
    /// Memory was wanted and not given.
    NoMemory,
}

/// Enters a name of an inode in a directory (V7 dir(5)): in its first empty slot, or behind its slots,
/// where it grows by one, with a block of its own where the last one is full. The directory's link
/// count becomes `links`, and its mtime and ctime `moment`.
pub fn enter<V: View>(
    view: &V,
    changes: &mut Changes,
    dir: u16,
    links: u16,
    moment: u32,
    gap: Gap,
    name: &Name,
    ino: u16,
) -> Entered
    ensures { EntersName (V.shown view.now) changes.old changes.new dir links moment gap name.now ino result }
{
    let at = match gap {
        Gap::At(at) => at,
        Gap::End => return grow(view, changes, dir, links, moment, name, ino),
    };
    match rewrite_slot(view, changes, dir, links, moment, at, name, ino) {
        Advanced::Done => Entered::Done,
        Advanced::Need(need) => Entered::Need(need),
        Advanced::NoMemory => Entered::NoMemory,
    }
}

/// Empties the slot at a place of a directory, which is that of the name: its number becomes 0, and the
/// name stays in it. The directory's link count becomes `links`, and its mtime and ctime `moment`.
pub fn clear_slot<V: View>(
    view: &V,
    changes: &mut Changes,
    dir: u16,
    links: u16,
    moment: u32,
    at: u32,
    name: &Name,
) -> Advanced
    ensures { ClearsSlot (V.shown view.now) changes.old changes.new dir links moment at name.now result }
{
    rewrite_slot(view, changes, dir, links, moment, at, name, 0)
}

/// Writes the slot at a place of a directory, with the directory's link count and times.
fn rewrite_slot<V: View>(
    view: &V,
    changes: &mut Changes,
    dir: u16,
    links: u16,
    moment: u32,
    at: u32,
    name: &Name,
    ino: u16,
) -> Advanced
    ensures { RewritesSlot (V.shown view.now) changes.old changes.new dir links moment at name.now ino result }
{
    let touch = FieldChange::Touch { links, moment };
    match set_fields(view, changes, dir, &touch) {
        Advanced::Done => set_slot(view, changes, dir, at, name, ino),
        Advanced::Need(need) => Advanced::Need(need),
        Advanced::NoMemory => Advanced::NoMemory,
    }
}
