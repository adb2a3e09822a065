//! The reference model's machine of a volume, read from its disk: the tree that the bytes show, without the files that have
//! no name, and a session of each caller. `machine` is what `specs/Opening.antt` of the reference model says of the volume
//! that the disk holds; `specs/Opened.antt` says what it answers where the disk holds none.
//!
//! `sound` of the checker tells whether the image is a volume. The inodes are then read in the order of their numbers, each
//! with all that it holds (`specs/Filling.antt`, `specs/Listings.antt`).
#![tactic(auto)]

mod listings;
mod machines;
mod nodes;
mod parts;

pub use listings::directory_slots;
pub use machines::machine;
pub use nodes::{node, swept_nodes};
pub use parts::file_parts;
