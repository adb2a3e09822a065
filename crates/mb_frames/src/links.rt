//! Changes of links, counted.
ghost use Rattle.std.specs.Prelude.{◌≡◌, ◌+◌, ◌-◌, ◌^◌, [], map, min, IsTrue};
ghost use Rattle.mb_frames.specs.Cells.{is_at, next_at, prev_at, head_at, block_at, bytes_at, Links as LinksBy, Moves, Writes, Fills, Adds, AddsHead};
ghost use Rattle.mb_frames.specs.Walks.{pages_at, IsRing, Walked};

use crate::node::{Node, NodePtr};
use crate::nodes::Nodes;

/// The nodes, and how often a link of one was written. At its greatest value the count stands still.
pub(crate) struct Links {
    pub(crate) nodes: Nodes,
    pub(crate) writes: u64,
}

impl Links {
    pub(crate) fn new() -> Links
        ensures cells { result.nodes.cells ≡ [] }
        ensures writes { result.writes ≡ 0 }
    {
        Links {
            nodes: Nodes::new(),
            writes: 0,
        }
    }

    #[tactic(auto, using(crate::proofs::Cells::next_read))]
    pub(crate) fn next(&self, at: NodePtr) -> NodePtr
        requires { IsTrue (is_at at.ptr self.now.nodes.cells) }
        ensures { result.ptr ≡ next_at self.now.nodes.cells at.ptr }
    {
        self.nodes.node(at).next
    }

    #[tactic(auto, using(crate::proofs::Cells::prev_read))]
    pub(crate) fn prev(&self, at: NodePtr) -> NodePtr
        requires { IsTrue (is_at at.ptr self.now.nodes.cells) }
        ensures { result.ptr ≡ prev_at self.now.nodes.cells at.ptr }
    {
        self.nodes.node(at).prev
    }

    #[tactic(auto, using(crate::proofs::Cells::head_read))]
    pub(crate) fn is_head(&self, at: NodePtr) -> bool
        requires { IsTrue (is_at at.ptr self.now.nodes.cells) }
        ensures { result ≡ head_at self.now.nodes.cells at.ptr }
    {
        self.nodes.node(at).is_head
    }

    #[tactic(auto, using(crate::proofs::Cells::block_read))]
    pub(crate) fn block(&self, at: NodePtr) -> u32
        requires { IsTrue (is_at at.ptr self.now.nodes.cells) }
        ensures { result ≡ block_at self.now.nodes.cells at.ptr }
    {
        self.nodes.node(at).block
    }

    #[tactic(auto, using(crate::proofs::Cells::bytes_read))]
    pub(crate) fn bytes(&self, at: NodePtr) -> &[u8; 512]
        requires { IsTrue (is_at at.ptr self.now.nodes.cells) }
        ensures { result.now ≡ bytes_at self.now.nodes.cells at.ptr }
    {
        &self.nodes.node(at).bytes
    }

    /// Goes from the first node after the head to the one that comes `most` steps later, or else to the head. Returns
    /// that node and the number of steps.
    pub(crate) fn walk(&self, head: NodePtr, most: u32) -> (NodePtr, u32)
        requires { IsRing self.now.nodes.cells head.ptr }
        ensures { Walked self.now.nodes.cells head.ptr most result.0.ptr result.1 }
    {
        let mut at = self.next(head);
        let mut steps = 0;
        'steps: while steps < most && !self.is_head(at) {
            at = self.next(at);
            steps += 1;
        }
        (at, steps)
    }

    pub(crate) fn write(&mut self, at: NodePtr, bytes: &[u8; 512])
        requires { IsTrue (is_at at.ptr self.old.nodes.cells) }
        ensures cells { Writes self.old.nodes.cells self.new.nodes.cells at.ptr (block_at self.old.nodes.cells at.ptr) bytes.now }
        ensures writes { self.new.writes ≡ self.old.writes }
    {
        self.nodes.node_mut(at).bytes = *bytes;
    }

    /// Makes a page one of that block.
    pub(crate) fn store(&mut self, at: NodePtr, block: u32, bytes: &[u8; 512])
        requires { IsTrue (is_at at.ptr self.old.nodes.cells) }
        ensures cells { Writes self.old.nodes.cells self.new.nodes.cells at.ptr block bytes.now }
        ensures writes { self.new.writes ≡ self.old.writes }
    {
        let node = self.nodes.node_mut(at);
        node.block = block;
        node.bytes = *bytes;
    }

    /// Writes the bytes into each page of the ring.
    pub(crate) fn fill(&mut self, head: NodePtr, bytes: &[u8; 512])
        requires { IsRing self.old.nodes.cells head.ptr }
        ensures cells { Fills self.old.nodes.cells self.new.nodes.cells (map (λ g.
            g.place) (pages_at self.old.nodes.cells head.ptr)) bytes.now }
        ensures writes { self.new.writes ≡ self.old.writes }
    {
        let mut at = self.next(head);
        'pages: while !self.is_head(at) {
            self.write(at, bytes);
            at = self.next(at);
        }
    }

    /// Two link writes: `b` comes after `a`, and `a` before `b`.
    pub(crate) fn link(&mut self, a: NodePtr, b: NodePtr)
        requires { IsTrue (is_at a.ptr self.old.nodes.cells) × IsTrue (is_at b.ptr self.old.nodes.cells) }
        ensures cells { LinksBy self.old.nodes.cells self.new.nodes.cells a.ptr b.ptr }
        ensures writes { self.new.writes ≡ min (self.old.writes + 2) (2 ^ 64 - 1) }
    {
        self.nodes.node_mut(a).next = b;
        self.nodes.node_mut(b).prev = a;
        self.writes = self.writes.saturating_add(2);
    }

    /// Six link writes: takes the run from `first` to `last` out, and links it in before `target`.
    pub(crate) fn move_run(&mut self, first: NodePtr, last: NodePtr, target: NodePtr)
        requires ends { IsTrue (is_at first.ptr self.old.nodes.cells)
            × IsTrue (is_at last.ptr self.old.nodes.cells) × IsTrue (is_at target.ptr self.old.nodes.cells) }
        requires sides { IsTrue (is_at (prev_at self.old.nodes.cells first.ptr) self.old.nodes.cells)
            × IsTrue (is_at (next_at self.old.nodes.cells last.ptr) self.old.nodes.cells)
            × IsTrue (is_at (prev_at self.old.nodes.cells target.ptr) self.old.nodes.cells) }
        ensures cells { Moves self.old.nodes.cells self.new.nodes.cells first.ptr last.ptr target.ptr }
        ensures writes { self.new.writes ≡ min (self.old.writes + 6) (2 ^ 64 - 1) }
    {
        let before = self.prev(first);
        let after = self.next(last);
        let tail = self.prev(target);
        self.link(before, after);
        self.link(tail, first);
        self.link(last, target);
    }

    /// Takes a page in, and links it in before `target`.
    pub(crate) fn add(&mut self, mut node: Box<Node>, target: NodePtr) -> NodePtr
        requires { IsTrue (is_at target.ptr self.old.nodes.cells)
            × IsTrue (is_at (prev_at self.old.nodes.cells target.ptr) self.old.nodes.cells) }
        ensures cells { Adds self.old.nodes.cells self.new.nodes.cells result.ptr target.ptr }
        ensures writes { self.new.writes ≡ min (self.old.writes + 4) (2 ^ 64 - 1) }
    {
        node.is_head = false;
        let tail = self.prev(target);
        let at = self.nodes.adopt(node);
        self.link(tail, at);
        self.link(at, target);
        at
    }

    /// Takes a head in, whose ring is empty.
    pub(crate) fn add_head(&mut self, mut node: Box<Node>) -> NodePtr
        ensures { AddsHead self.old.nodes.cells self.new.nodes.cells result.ptr }
    {
        node.is_head = true;
        let at = self.nodes.adopt(node);
        self.link(at, at);
        at
    }
}
