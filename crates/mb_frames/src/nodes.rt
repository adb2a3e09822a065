//! The nodes' memory. Each node lies in a block of its own, and links name it by its address.
ghost use Rattle.std.specs.Prelude.{◌≡◌, [], ◌∷◌, List, IsTrue, Some, slice_get, drop};
ghost use Rattle.std.specs.Borrow.{sem};
ghost use Rattle.std.specs.Box.{box_allocator};
ghost use Rattle.mb_frames.specs.Cells.{Cell, cell, is_at, node_at, places, IsFresh};

use crate::node::{Node, NodePtr};
use std::alloc::Global;
use std::marker::{Model, PhantomData, Send};

/// The owner of the nodes, the newest first.
pub(crate) struct Nodes {
    mark: PhantomData<*mut Node>,
    ghost cells: { List Cell },
}

impl Model for Nodes {
    ghost use Rattle.mb_frames.specs.Ownership.{cells_own, cells_lent};

    ghost also_owns = { λ n. cells_own n.cells };

    ghost also_shares = { λ n _ κ. cells_lent n.cells κ };
}

unsafe impl Send for Nodes {}

impl Nodes {
    ghost use Rattle.mb_frames.specs.Lends.{LendsNode};

    pub(crate) fn new() -> Nodes
        ensures { result.cells ≡ [] }
    {
        Nodes { mark: PhantomData }
    }

    /// Lets go of the owner. Each node has been given back before.
    pub(crate) fn finish(self)
        requires { self.cells ≡ [] }
    {
        let Nodes { mark: _ } = self;
    }

    /// Takes a node in.
    pub(crate) fn adopt(&mut self, node: Box<Node>) -> NodePtr
        ensures cells { self.new.cells ≡ cell (box_allocator node) result.ptr node.value ∷ self.old.cells }
        ensures fresh { IsFresh result.ptr (places self.old.cells) }
    {
        NodePtr {
            ptr: Box::into_raw(node),
        }
    }

    /// Gives the newest node back.
    pub(crate) fn give_back(&mut self, alloc: Global, at: NodePtr) -> Box<Node>
        requires { slice_get (places self.old.cells) 0 ≡ Some at.ptr }
        ensures { places self.new.cells ≡ drop 1 (places self.old.cells) }
    {
        unsafe { Box::from_raw(alloc, at.ptr) }
    }

    pub(crate) fn node(&self, at: NodePtr) -> &Node
        requires { IsTrue (is_at at.ptr self.now.cells) }
        ensures { result.now ≡ node_at at.ptr self.now.cells result.now }
    {
        unsafe { &*at.ptr }
    }

    pub(crate) fn node_mut(&mut self, at: NodePtr) -> &mut Node
        requires { IsTrue (is_at at.ptr self.old.cells) }
        ensures* writes_back { sem 𝓛 (LendsNode self.entry at.ptr result) }
        ensures value { result.now ≡ node_at at.ptr self.old.cells result.now }
    {
        unsafe { &mut *at.ptr }
    }
}
