use mb_tree::{Body, Node, Parts, PlainSlots, Tree};
use std::alloc::{AllocError, Global};

/// In what two trees differ.
#[derive(Clone, Copy, Debug, PartialEq, Drop)]
pub enum Apart {
    /// In the number of the last inode.
    Last,
    /// In how many blocks the files can hold.
    Capacity,
    /// In the numbers of the inodes that are there.
    Numbers,
    /// In an inode, the first one.
    Inode(u32),
}

fn have_same_slots(one: &PlainSlots, other: &PlainSlots) -> bool {
    if one.len() != other.len() {
        return false;
    }
    for (at, slot) in one.as_slice().iter().enumerate() {
        match other.get(at) {
            Some(same) => {
                if slot.ino != same.ino || slot.name != same.name {
                    return false;
                }
            }
            None => return false,
        }
    }
    true
}

fn have_same_parts(heap: Global, one: &Parts, other: &Parts) -> Result<bool, AllocError> {
    let keys = one.keys(heap)?;
    if keys != other.keys(heap)? {
        return Ok(false);
    }
    for key in &keys {
        match (one.get(*key), other.get(*key)) {
            (Some(part), Some(same)) => {
                if *part != *same {
                    return Ok(false);
                }
            }
            _ => return Ok(false),
        }
    }
    Ok(true)
}

fn have_same_bodies(heap: Global, one: &Body, other: &Body) -> Result<bool, AllocError> {
    match (one, other) {
        (
            Body::Regular { size, parts },
            Body::Regular {
                size: length,
                parts: rest,
            },
        ) => Ok(*size == *length && have_same_parts(heap, parts, rest)?),
        (Body::Directory { slots }, Body::Directory { slots: rest }) => {
            Ok(have_same_slots(slots, rest))
        }
        (
            Body::Special { size, area },
            Body::Special {
                size: length,
                area: rest,
            },
        ) => Ok(*size == *length && *area == *rest),
        _ => Ok(false),
    }
}

fn are_same(heap: Global, one: &Node, other: &Node) -> Result<bool, AllocError> {
    let fields = one.mode == other.mode && one.nlink == other.nlink;
    let owner = one.uid == other.uid && one.gid == other.gid;
    let times = one.atime == other.atime && one.mtime == other.mtime && one.ctime == other.ctime;
    Ok(fields && owner && times && have_same_bodies(heap, &one.body, &other.body)?)
}

/// In what two trees differ: every field of each inode is compared, each part of a file that is there, and the slots of a
/// directory in their order, the empty ones with their names.
pub fn tree_difference(
    heap: Global,
    one: &Tree,
    other: &Tree,
) -> Result<Option<Apart>, AllocError> {
    if one.last != other.last {
        return Ok(Some(Apart::Last));
    }
    if one.cap != other.cap {
        return Ok(Some(Apart::Capacity));
    }
    let inos = one.nodes.keys(heap)?;
    if inos != other.nodes.keys(heap)? {
        return Ok(Some(Apart::Numbers));
    }
    for ino in &inos {
        match (one.nodes.get(*ino), other.nodes.get(*ino)) {
            (Some(node), Some(same)) => {
                if !are_same(heap, node, same)? {
                    return Ok(Some(Apart::Inode(*ino)));
                }
            }
            _ => return Ok(Some(Apart::Inode(*ino))),
        }
    }
    Ok(None)
}
