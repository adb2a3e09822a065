//! The page cache over a disk: the checkpointed and the current pages, clean pages, how often each block was installed, and
//! how many calls in flight pin it.
//!
//! A contract sees a `Cache` as a `CacheState` (`specs/State.antt`): lists of pages over a disk. What is seen of a block
//! is its current page, else its checkpointed page, else the disk's block: `seen`, and the law `seen_in_layers`. The
//! current pages are an exact list. Of the checkpointed pages contracts say what is read under them and that a
//! write-back takes one of them. What a fault leaves of pages is `pages_damaged` (`specs/Pages.antt`), what a stamp is `stamp_of`
//! (`specs/Stamps.antt`), what is kept of a block with its stamp a `KeptBlock` (`specs/Kept.antt`), and the laws by which a
//! caller reasons stand in `specs/CacheLaws.antt`.
//!
//! The pages stand in two rings (`mb_layers`), so that the number of pages does not count in a drop of the current pages, and in
//! a checkpoint those alone whose block has two: the links that they write are counted.
//!
//! A block that has no page is read from the disk once: what was read, and what was written back, is kept as a clean page
//! (`specs/Clean.antt`), of which there are at most 1,024. Each is as the disk holds it, so nothing that is seen depends on them.
//!
//! `reserve` and `reserve_pins` take the memory of what follows; no other call but `new` and `pin` is refused for want of it: `read` and
//! `flush_one` take some for a clean page, and go on without it.
#![tactic(auto)]

mod answers;
mod caches;
mod clean;
mod laws;
mod numbers;
mod pins;
mod stamps;

pub use answers::{Flushed, ReadFault};
pub use caches::Cache;
pub use laws::{damage_of_pages, installs, seen_in_layers};
