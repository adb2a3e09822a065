use mb_kinds::Seq;
use mb_tree::{Body, DOT, DOT_DOT, Node, Nodes, Parts, PlainSlot, Tree};
use std::alloc::{AllocError, Global};

/// A slot whose name is one letter.
pub fn letter(ino: u16, letter: u8) -> PlainSlot {
    PlainSlot {
        ino,
        name: [letter, 0, 0, 0, 0, 0, 0, 0, 0, 0, 0, 0, 0, 0],
    }
}

/// The slots of a directory: `.`, `..`, and some more.
pub fn directory(
    heap: Global,
    ino: u16,
    parent: u16,
    more: &[PlainSlot],
) -> Result<Body, AllocError> {
    let mut slots = Seq::new(heap);
    slots.push(PlainSlot { ino, name: DOT })?;
    slots.push(PlainSlot {
        ino: parent,
        name: DOT_DOT,
    })?;
    for slot in more {
        slots.push(*slot)?;
    }
    Ok(Body::Directory { slots })
}

/// A regular file of that size, with parts that are zeros but for their first byte.
pub fn regular(heap: Global, size: u32, parts: &[(u32, u8)]) -> Result<Body, AllocError> {
    let mut all = Parts::new(heap);
    for (number, first) in parts {
        let mut bytes = [0; 512];
        bytes[0] = *first;
        all.insert(*number, bytes)?;
    }
    Ok(Body::Regular { size, parts: all })
}

/// An inode of uid 0, gid 0 and the times 0.
pub fn plain(mode: u16, nlink: u16, body: Body) -> Node {
    Node {
        mode,
        nlink,
        uid: 0,
        gid: 0,
        atime: 0,
        mtime: 0,
        ctime: 0,
        body,
    }
}

/// A tree of these inodes.
pub fn tree(heap: Global, last: u16, cap: u32, all: Vec<(u32, Node)>) -> Result<Tree, AllocError> {
    let mut nodes = Nodes::new(heap);
    for (ino, node) in all {
        nodes.insert(ino, node)?;
    }
    Ok(Tree { nodes, last, cap })
}
