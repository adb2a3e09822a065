ghost use Rattle.std.specs.Prelude.{◌≡◌, IfOk, IfSome, not, position};
ghost use Rattle.mb_tree.specs.Lookup.{is_used, is_named};
ghost use Rattle.mb_tree.specs.Effect.{touched, linked, unlinked, made, entered, emptied, with_name, without_name, on_slots, with_link, without_link, wrote, blanked, with_mode, with_owner, with_times, first_slots, cleared, written};
ghost use Rattle.std.specs.Prelude.{◌<◌, ◌≤◌, ◌+◌, ◌^◌, length};
ghost use Rattle.mb_tree.specs.Changes.{changed_by, HasLinkRoom};

use crate::contents::put_bytes;
use crate::inodes::{KIND, is_used};
use crate::lookups::is_named;
use crate::maps::Map;
use crate::nodes::{Body, Node, PlainSlot, PlainSlots};
use mb_kinds::{Name, Seq};
use std::alloc::{AllocError, Global};

/// What an operation does to one inode, but for bytes that are written.
#[derive(Clone, Copy)]
pub enum Change {
    /// A name entered in a directory.
    Enter { name: Name, ino: u16 },
    /// A directory's name entered in a directory, whose link count grows by the new one's `..`.
    EnterDir { name: Name, ino: u16 },
    /// The slot of a name emptied.
    Leave { name: Name },
    /// The slot of a directory's name emptied.
    LeaveDir { name: Name },
    /// One name more.
    Link,
    /// The bytes dropped.
    Blank,
    /// The mode set, but for the kind.
    Mode { mode: u16 },
    /// The owner set.
    Owner { uid: u16, gid: u16 },
    /// The times of access and content set.
    Times { atime: u32, mtime: u32 },
}

/// `.` as a slot's name.
pub const DOT: Name = [46, 0, 0, 0, 0, 0, 0, 0, 0, 0, 0, 0, 0, 0];
/// `..` as a slot's name.
pub const DOT_DOT: Name = [46, 46, 0, 0, 0, 0, 0, 0, 0, 0, 0, 0, 0, 0];

/// The place of the first empty slot.
fn first_empty(slots: &[PlainSlot]) -> Option<usize>
    ensures { result ≡ position (λ slot. not (is_used slot)) slots.now }
{
    slots.iter().position(|slot| !is_used(slot))
}

/// The place of the used slot with a name.
fn place_of(slots: &[PlainSlot], name: &Name) -> Option<usize>
    ensures { result ≡ position (is_named name.now) slots.now }
{
    slots.iter().position(|slot| is_named(name, slot))
}

/// A slot entered: the first empty one, else one more at the end.
fn entered(mut slots: PlainSlots, name: Name, ino: u16) -> Result<PlainSlots, AllocError>
    ensures { IfOk result (λ next. next ≡ entered name ino slots) }
{
    let mut slot = PlainSlot { ino, name };
    let Some(at) = first_empty(slots.as_slice()) else {
        slots.push(slot)?;
        return Ok(slots);
    };
    slots.swap(at, &mut slot);
    Ok(slots)
}

/// The slot of a name emptied.
fn emptied(mut slots: PlainSlots, name: &Name) -> PlainSlots
    ensures { result ≡ emptied name.now slots }
{
    let mut slot = PlainSlot {
        ino: 0,
        name: *name,
    };
    let Some(at) = place_of(slots.as_slice(), name) else {
        return slots;
    };
    slots.swap(at, &mut slot);
    slots
}

/// A directory's content with a name entered.
fn body_with(body: Body, name: Name, ino: u16) -> Result<Body, AllocError>
    ensures { IfOk result (λ next. next ≡ on_slots (entered name ino) body) }
{
    match body {
        Body::Directory { slots } => Ok(Body::Directory {
            slots: entered(slots, name, ino)?,
        }),
        body => Ok(body),
    }
}

/// A directory's content with the slot of a name emptied.
fn body_without(body: Body, name: &Name) -> Body
    ensures { result ≡ on_slots (emptied name.now) body }
{
    match body {
        Body::Directory { slots } => Body::Directory {
            slots: emptied(slots, name),
        },
        body => body,
    }
}

/// The first two slots of a directory.
pub fn first_slots(alloc: Global, ino: u16, parent: u16) -> Result<PlainSlots, AllocError>
    ensures { IfOk result (λ slots. slots ≡ first_slots ino parent) }
{
    let mut slots = Seq::new(alloc);
    slots.push(PlainSlot { ino, name: DOT })?;
    slots.push(PlainSlot {
        ino: parent,
        name: DOT_DOT,
    })?;
    Ok(slots)
}

/// A new inode.
pub fn made(mode: u16, nlink: u16, uid: u16, gid: u16, moment: u32, body: Body) -> Node
    ensures { result ≡ made mode nlink uid gid moment body }
{
    Node {
        mode,
        nlink,
        uid,
        gid,
        atime: moment,
        mtime: moment,
        ctime: moment,
        body,
    }
}

/// A directory with a name entered.
fn with_name(node: Node, moment: u32, name: Name, ino: u16) -> Result<Node, AllocError>
    ensures { IfOk result (λ next. next ≡ with_name moment name ino node) }
{
    Ok(Node {
        mtime: moment,
        ctime: moment,
        body: body_with(node.body, name, ino)?,
        ..node
    })
}

/// A directory with the slot of a name emptied.
fn without_name(node: Node, moment: u32, name: &Name) -> Node
    ensures { result ≡ without_name moment name.now node }
{
    Node {
        mtime: moment,
        ctime: moment,
        body: body_without(node.body, name),
        ..node
    }
}

/// The same with one link more, for a name of a directory.
fn with_link(node: Node, moment: u32, name: Name, ino: u16) -> Result<Node, AllocError>
    requires { node.nlink < 65535 }
    ensures { IfOk result (λ next. next ≡ with_link moment name ino node) }
{
    let nlink = node.nlink + 1;
    Ok(Node {
        nlink,
        ..with_name(node, moment, name, ino)?
    })
}

/// The same with one link less, for a name of a directory.
fn without_link(node: Node, moment: u32, name: &Name) -> Node
    ensures { result ≡ without_link moment name.now node }
{
    let nlink = node.nlink.saturating_sub(1);
    Node {
        nlink,
        ..without_name(node, moment, name)
    }
}

/// An inode with one name more.
fn linked(node: Node, moment: u32) -> Node
    requires { node.nlink < 65535 }
    ensures { result ≡ linked moment node }
{
    Node {
        nlink: node.nlink + 1,
        ctime: moment,
        ..node
    }
}

/// An inode with one name less.
pub fn unlinked(node: Node, moment: u32) -> Node
    ensures { result ≡ unlinked moment node }
{
    Node {
        nlink: node.nlink.saturating_sub(1),
        ctime: moment,
        ..node
    }
}

/// A file without its bytes.
fn cleared(alloc: Global, body: Body) -> Body
    ensures { result ≡ cleared body }
{
    match body {
        Body::Regular { .. } => Body::Regular {
            size: 0,
            parts: Map::new(alloc),
        },
        body => body,
    }
}

/// A file with bytes put at an offset.
fn written(body: Body, offset: u32, bytes: &[u8]) -> Result<Body, AllocError>
    requires { offset + length bytes.now < 2 ^ 32 }
    ensures { IfOk result (λ next. next ≡ written offset bytes.now body) }
{
    match body {
        Body::Regular { size, mut parts } => {
            put_bytes(&mut parts, offset, bytes)?;
            Ok(Body::Regular {
                size: size.max(offset + bytes.len() as u32),
                parts,
            })
        }
        body => Ok(body),
    }
}

/// A file with its bytes dropped.
fn blanked(alloc: Global, node: Node, moment: u32) -> Node
    ensures { result ≡ blanked moment node }
{
    Node {
        mtime: moment,
        ctime: moment,
        body: cleared(alloc, node.body),
        ..node
    }
}

/// A file with bytes written.
pub fn wrote(node: Node, moment: u32, offset: u32, bytes: &[u8]) -> Result<Node, AllocError>
    requires { offset + length bytes.now < 2 ^ 32 }
    ensures { IfOk result (λ next. next ≡ wrote moment offset bytes.now node) }
{
    Ok(Node {
        mtime: moment,
        ctime: moment,
        body: written(node.body, offset, bytes)?,
        ..node
    })
}

/// An inode with a mode of its kind.
fn with_mode(node: Node, mode: u16, moment: u32) -> Node
    ensures { result ≡ with_mode mode moment node }
{
    Node {
        mode: node.mode & KIND | mode,
        ctime: moment,
        ..node
    }
}

/// An inode with an owner.
fn with_owner(node: Node, uid: u16, gid: u16, moment: u32) -> Node
    ensures { result ≡ with_owner uid gid moment node }
{
    Node {
        uid,
        gid,
        ctime: moment,
        ..node
    }
}

/// An inode with times.
fn with_times(node: Node, atime: u32, mtime: u32, moment: u32) -> Node
    ensures { result ≡ with_times atime mtime moment node }
{
    Node {
        atime,
        mtime,
        ctime: moment,
        ..node
    }
}

/// An inode after a change, at a moment.
pub fn changed(alloc: Global, node: Node, change: Change, moment: u32) -> Result<Node, AllocError>
    requires { HasLinkRoom change node.nlink }
    ensures { IfOk result (λ next. next ≡ changed_by change moment node) }
{
    match change {
        Change::Enter { name, ino } => with_name(node, moment, name, ino),
        Change::EnterDir { name, ino } => with_link(node, moment, name, ino),
        Change::Leave { name } => Ok(without_name(node, moment, &name)),
        Change::LeaveDir { name } => Ok(without_link(node, moment, &name)),
        Change::Link => Ok(linked(node, moment)),
        Change::Blank => Ok(blanked(alloc, node, moment)),
        Change::Mode { mode } => Ok(with_mode(node, mode, moment)),
        Change::Owner { uid, gid } => Ok(with_owner(node, uid, gid, moment)),
        Change::Times { atime, mtime } => Ok(with_times(node, atime, mtime, moment)),
    }
}
