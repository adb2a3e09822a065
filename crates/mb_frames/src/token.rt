//! The name of a page.
ghost use Rattle.std.specs.Prelude.{◌≡◌};

use crate::node::NodePtr;
use std::marker::Model;

/// Names one page for as long as the page stands in a ring of its [`Rings`](crate::Rings). Clauses see it as the page's place.
#[derive(Drop)]
pub struct Token {
    pub(crate) at: NodePtr,
}

impl Model for Token {
    ghost use denote.RawPtr.{Ptr};

    ghost Value = { Ptr };

    ghost view = { λ t. t.at.ptr };
}
