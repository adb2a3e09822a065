ghost use Rattle.std.specs.Prelude.{ℕ, List, ◌≡◌, ◌+◌, ◌≤◌, Option, Some, IfSome, IfOk, OnOk};
ghost use Rattle.mb_word.specs.Fields as fields;
ghost use Rattle.mb_layout.specs.Inode.{dinode_at};
ghost use Rattle.mb_tree.specs.Opening as opening;
ghost use Rattle.mb_tree.specs.Opening.{swept};
ghost use Rattle.mb_tree.specs.Volume.{last_inode};
ghost use Rattle.mb_tree.specs.declared.nodes.Node.{Node as NodeValue};
ghost use Rattle.mb_rules.specs.TreeOf.{body_at, node_at, tree_of};
ghost use Rattle.mb_check.specs.Directories.{KeepsAll};
ghost use Rattle.mb_check.specs.SlotTests.{IsBroken};
ghost use Rattle.mb_check_files.specs.Passes.{DeviceCause};
ghost use Rattle.mb_check_tree.specs.Filling.{HasBelow};
ghost use Rattle.mb_check_tree.specs.Sweeping.{kept_node};

use crate::listings::directory_slots;
use crate::parts::file_parts;
use mb_check::kept_of;
use mb_check_files::{InodeTable, Stop};
use mb_edge::Disk;
use mb_kinds::NoMemory;
use mb_layout::{Dinode, inode_block, inode_place};
use mb_tree::{Body, Node, Nodes, is_directory, is_regular};
use std::alloc::Global;

/// What an inode in use holds.
fn body<D: Disk>(
    alloc: Global,
    disk: &mut D,
    table: &InodeTable,
    ino: u16,
    inode: &Dinode,
) -> Result<Body, Stop>
    ensures body { IfOk result (λ body.
        IfSome (D.told disk.old) (λ image. KeepsAll image.at table.now → 1 ≤ ino → ino ≤ last_inode image.at
        → inode.now ≡ dinode_at (image.at (fields.inode_block ino)) (fields.inode_place ino)
        → body ≡ body_at image.at ino)) }
    ensures unbroken { IsBroken result → ⊥ }
    ensures told { D.told disk.new ≡ D.told disk.old }
    ensures cause { DeviceCause (D.faults disk.old) (D.faults disk.new) result }
{
    let size = inode.size;
    if is_regular(inode.mode) {
        let parts = file_parts(alloc, disk, inode)?;
        return Ok(Body::Regular { size, parts });
    }
    if is_directory(inode.mode) {
        let slots = directory_slots(alloc, disk, table, &kept_of(table, ino))?;
        return Ok(Body::Directory { slots });
    }
    let area = inode.area;
    Ok(Body::Special { size, area })
}

/// An inode with all that it holds, where it is in use.
pub fn node<D: Disk>(
    alloc: Global,
    disk: &mut D,
    table: &InodeTable,
    ino: u16,
) -> Result<Option<Node>, Stop>
    ensures node { IfOk result (λ node.
        IfSome (D.told disk.old) (λ image. KeepsAll image.at table.now → 1 ≤ ino → ino ≤ last_inode image.at
        → node ≡ node_at image.at ino)) }
    ensures unbroken { IsBroken result → ⊥ }
    ensures told { D.told disk.new ≡ D.told disk.old }
    ensures cause { DeviceCause (D.faults disk.old) (D.faults disk.new) result }
{
    let mut block = [0; 512];
    disk.read(inode_block(ino), &mut block)?;
    let found = Dinode::read(&block, inode_place(ino));
    if found.mode == 0 {
        return Ok(None);
    }
    let body = body(alloc, disk, table, ino, &found)?;
    Ok(Some(Node {
        mode: found.mode,
        nlink: found.nlink,
        uid: found.uid,
        gid: found.gid,
        atime: found.atime,
        mtime: found.mtime,
        ctime: found.ctime,
        body,
    }))
}

/// Whether an inode is a file that no slot leads to. Inode 1 is none.
fn is_nameless(ino: u16, node: &Node) -> bool
    ensures { result ≡ opening.is_nameless ino (Some node.now) }
{
    node.nlink == 0 && !is_directory(node.mode) && ino != 1
}

/// An inode behind those of lower numbers, where it is in use and a slot leads to it.
fn add_node(nodes: &mut Nodes, ino: u16, node: Option<Node>) -> Result<(), NoMemory>
    ensures { OnOk result ((value : ℕ → Option NodeValue) → HasBelow nodes.old ino value
        → value ino ≡ kept_node ino node → HasBelow nodes.new (ino + 1) value) }
{
    let Some(node) = node else {
        return Ok(());
    };
    if is_nameless(ino, &node) {
        return Ok(());
    }
    nodes.insert(u32::from(ino), node)?;
    Ok(())
}

/// The inodes in use, but for the files that no slot leads to.
pub fn swept_nodes<D: Disk>(
    alloc: Global,
    disk: &mut D,
    table: &InodeTable,
    last: u16,
) -> Result<Nodes, Stop>
    ensures nodes { IfOk result (λ nodes.
        IfSome (D.told disk.old) (λ image. KeepsAll image.at table.now → last ≡ last_inode image.at
        → nodes ≡ swept (tree_of image).nodes)) }
    ensures unbroken { IsBroken result → ⊥ }
    ensures told { D.told disk.new ≡ D.told disk.old }
    ensures cause { DeviceCause (D.faults disk.old) (D.faults disk.new) result }
{
    let mut nodes = Nodes::new(alloc);
    for before in 0..last {
        let found = node(alloc, disk, table, before + 1)?;
        add_node(&mut nodes, before + 1, found)?;
    }
    Ok(nodes)
}
