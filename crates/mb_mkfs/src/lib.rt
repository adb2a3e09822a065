//! Fresh volumes of V7 (mkfs(1M), filsys(5)).
//!
//! `specs/Volume.antt` gives every byte of the fresh volume of so many blocks and inodes (`fresh`) by the number of its
//! block, with the free lists in closed form (`specs/FreeLists.antt`). The laws say that it is what freeing its blocks one
//! after another lays, and that it is a volume of the tree that has the root alone.
//!
//! `make` writes it, block by block from the numbers alone: `specs/Made.antt` says what stands on the disk then.
#![tactic(auto)]

mod free_lists;
mod laws;
mod making;
mod shapes;

pub use laws::{fresh_is_volume, worked_numbers};
pub use making::{MakeFault, make};
