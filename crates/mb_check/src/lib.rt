//! The checker: `sound` goes through all rules of a volume in the order of the scan, and tells the first broken one with its
//! block, or what the volume holds. `specs/Whole.antt` says what it answers.
//!
//! The super-block, the free chain and the inodes are gone through by `mb_check_files`, which keeps what is wanted here. Then
//! comes the root, and then the slots of all directories in the order of their numbers: each block of a directory is read,
//! its slots are tested by rules 11, 10 and 12 (`specs/SlotTests.antt`), with the names so far in a `NameSet`, and counted
//! (`specs/Tallies.antt`): how many lead to an inode, which of them stand after the second of a directory, and where each second
//! slot leads. `reached` reads each directory that the root reaches once more (`specs/Reaching.antt`). Rules 13 and 14 are
//! tested by what was counted and reached, without the disk (`specs/ParentTests.antt`).
#![tactic(auto)]

mod directories;
mod links;
mod names;
mod parts;
mod reaching;
mod scans;
mod slot_walks;
mod slots;
mod tallies;

pub use names::NameSet;
pub use parts::{kept_of, parts_of, read_part, slots_of_part};
pub use reaching::Reach;
pub use scans::{OpenFault, Scan, sound};
pub use tallies::{Late, SlotCounts, Tally};
