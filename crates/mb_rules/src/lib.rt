//! The rules of a volume as one list of tests in a fixed order, and what is proved of that list.
//!
//! `specs/Items.antt` says what a scan goes through: tests, and addresses that may be met once. `specs/Scan.antt`
//! puts the whole list together from the super-block (`specs/SuperBlock.antt`), the free chain
//! (`specs/FreeChain.antt`), the inodes with their addresses (`specs/Files.antt`), the slots of directories
//! (`specs/Slots.antt`), and parents with link counts (`specs/Parents.antt`); the scan of an image is the first
//! test that fails, with the block that is reported. `specs/TreeOf.antt` is the tree that an image's bytes show.
//!
//! The crate is theory alone: its public functions are laws, each the contract of a function without a body.
//! They say that the scan goes through the free chain and the addresses of files exactly where these are as the
//! definition of a volume asks (`specs/FreeChainLaws.antt`, `specs/FilesLaws.antt`), and that what it counts and
//! reaches is what the tree has (`specs/ReachedLaws.antt`). `mb_scan_laws` puts them together: the scan finds nothing
//! exactly where the image is a volume.
#![tactic(auto)]

mod findings;
mod laws;

pub use findings::Finding;
pub use laws::{
    bound_suffices, chain_accepted, chain_accepts, counts_links, files_accept, files_accepted,
    reached_is, reaches_all,
};
