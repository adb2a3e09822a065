//! One page with its two links, and the address of one.
ghost use Rattle.std.specs.Prelude.{◌≡◌, ⊤};
ghost use denote.RawPtr.{null_ptr};

use std::marker::Send;
use std::ptr;

/// A page, with the number of its block, or the head of a ring, which holds no bytes of a caller.
#[derive(Drop)]
pub(crate) struct Node {
    pub(crate) next: NodePtr,
    pub(crate) prev: NodePtr,
    pub(crate) is_head: bool,
    pub(crate) block: u32,
    pub(crate) bytes: [u8; 512],
}

/// Where a node lies. It owns nothing.
#[derive(Clone, Copy)]
pub(crate) struct NodePtr {
    pub(crate) ptr: *mut Node,
}

unsafe impl Send for NodePtr {}

impl Node {
    /// A node that is linked to none, with zeros.
    pub(crate) fn unlinked() -> Node {
        Node {
            next: NodePtr::nowhere(),
            prev: NodePtr::nowhere(),
            is_head: false,
            block: 0,
            bytes: [0; 512],
        }
    }
}

impl NodePtr {
    /// The address of no node.
    pub(crate) fn nowhere() -> NodePtr
        ensures { result.ptr ≡ null_ptr }
    {
        NodePtr {
            ptr: ptr::null_mut(),
        }
    }
}
