//! Path look-up over a view of blocks (V7 namei): an inode read from its block, a name searched in a
//! directory's slots, a path taken apart from its front, and the answers to the queries that find an
//! inode, the place of a path's last component, what stat tells, and how many slots are in use. Where
//! a block is wanted that neither the changes nor the view have, it is asked for.
//!
//! `specs/Inodes.antt` says what it means to read an inode, and law `inodes_are_nodes` that on a volume
//! it is the reference tree's node. `specs/Searching.antt` says what a search of a directory finds,
//! `specs/Components.antt` what the first component of a path is, `specs/Lookups.antt` what one
//! component leads to. The queries promise `Finds` of `mb_iface`.
#![tactic(auto)]

mod addresses;
mod components;
mod frontiers;
mod inodes;
mod laws;
mod lookups;
mod parts;
mod queries;
mod searches;
mod slots;

pub use components::{Component, first_component};
pub use inodes::{Looked, info, stat_by};
pub use laws::inodes_are_nodes;
pub use lookups::{LookedUp, look_up};
pub use queries::{find, info_of, place, used};
pub use searches::{Counted, Sought, count_used, search};
