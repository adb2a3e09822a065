//! The free chain of a V7 volume and the numbers of free inodes (filsys(5)): a block taken or put
//! back, a number picked for a new inode, an inode freed. Every block is read from the changes first
//! and from the view otherwise, and asked for where neither has it. On any answer but success the
//! changes are as before; every block changed is one that the view has.
//!
//! What the calls say is said where the blocks keep rules 2 to 4 of a volume (`KeepsRules` of
//! `mb_blocks`), a chain in a circle among them, and whatever the view: no tree is spoken of.
//! `specs/Taking.antt` and `specs/Freeing.antt` say it of blocks, by the steps `IsTaken` and `IsFreed`
//! of `mb_blocks`; `specs/Numbers.antt` of numbers and their cache (`pick_of`), `specs/Inodes.antt`
//! of an inode freed.
#![tactic(auto)]

mod frees;
mod inodes;
mod laws;
mod numbers;
mod picks;
mod takes;
mod writes;

pub use frees::{Hung, free_block};
pub use inodes::free_inode;
pub use laws::number_picks;
pub use numbers::{Freedom, tell_free};
pub use picks::{Picked, pick_inode};
pub use takes::{Taken, take_block, take_zeroed};
