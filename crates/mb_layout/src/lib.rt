//! The parts of a V7 volume's blocks as values: the super-block, inodes with their addresses, the
//! slots of a directory, the blocks of the free chain and the entries of an index block (V7
//! filsys(5), dir(5)). Each is read from the bytes of its block and written there. Every byte
//! pattern is taken, nothing is refused, and a write changes no byte outside its fields: whether a
//! field's value is in range is for those to say who read it.
//!
//! A reader gives the value that the block's bytes stand for, field by field as `mb_word` has them
//! (`super_at`, `chain_at`, `dinode_at`, `slot_at` of `specs/`); a writer leaves the value's bytes
//! there (`super_bytes` and the like). The law functions say that the two undo each other and leave
//! every other place of the block as it reads; for an inode `inode_written` says it field by field
//! (`IsDinodeWritten` of `specs/InodeWrites.antt`).
#![tactic(auto)]

mod arrays;
mod chains;
mod dinodes;
mod indexes;
mod laws;
mod places;
mod slots;
mod super_blocks;

pub use chains::Chain;
pub use dinodes::Dinode;
pub use indexes::{index_at, put_index};
pub use laws::{
    addresses_in_area, inode_places, inode_written, keeps_others, reads_back, writes_back,
};
pub use places::{inode_block, inode_place};
pub use slots::Slot;
pub use super_blocks::Super;
