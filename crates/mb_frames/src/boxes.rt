//! Memory for nodes, before any is linked.
ghost use Rattle.std.specs.Prelude.{◌≡◌, IfOk, vec_len};

use crate::node::Node;
use mb_kinds::NoMemory;
use std::alloc::Global;

/// So many blocks, each for a node.
pub(crate) fn boxes(alloc: Global, count: usize) -> Result<Vec<Box<Node>>, NoMemory>
    ensures { IfOk result (λ nodes. vec_len nodes ≡ count) }
{
    let mut nodes = Vec::with_capacity(alloc, count)?;
    'nodes: while nodes.len() < count {
        nodes.push(Box::new(alloc, Node::unlinked())?)?;
    }
    Ok(nodes)
}
