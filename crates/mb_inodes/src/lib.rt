//! Inodes of a V7 volume read from their blocks and written there (filsys(5)), under the changes of an
//! operation. Where a block is wanted that neither the changes nor the view have, it is asked for.
//!
//! `specs/Inodes.antt` says what is read and what is written.
#![tactic(auto)]

mod inodes;

pub use inodes::{Inode, read_inode, write_inode};
