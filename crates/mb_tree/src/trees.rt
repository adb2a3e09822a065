use crate::nodes::Nodes;

/// The content of a volume: its inodes in use, the number of its last inode, and how many blocks its
/// files can hold in all, index blocks among them.
#[derive(Drop)]
pub struct Tree {
    pub nodes: Nodes,
    pub last: u16,
    pub cap: u32,
}
