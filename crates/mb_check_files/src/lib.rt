//! The first parts of the scan: the super-block, the free chain, and the inodes with all that they hold.
//!
//! Each pass goes through its part of the list of tests that `mb_rules` calls the scan of an image, reads each block once,
//! and ends at the first broken rule. Which blocks were met is kept as one flag a block: `specs/Passes.antt` says what the
//! flags stand for, and what a pass says of the walk of its items. `specs/PartLists.antt` and `specs/InodeTables.antt` say
//! what is kept of the inodes for the passes after these.
#![tactic(auto)]

mod addresses;
mod areas;
mod bounds;
mod chains;
mod inodes;
mod met;
mod part_lists;
mod stops;
mod super_blocks;
mod surveys;

pub use addresses::{double, part, single, triple};
pub use areas::area;
pub use bounds::Bounds;
pub use chains::chain;
pub use inodes::{InodeKept, InodeTable, each_inode};
pub use met::met_count;
pub use part_lists::{PartList, Run};
pub use stops::Stop;
pub use super_blocks::super_block;
pub use surveys::{VolumeFiles, volume_files};
