//! Copies of blocks, as they were seen when they were gathered, each with the stamp that its block had.
//!
//! A contract sees `Copies` as a list of blocks with their copies, each block once, and the room (`Roomy`). A block's copy is
//! found by chains of blocks (`specs/Chains.antt`). `Reads` are what one gathering reads, in order, the run that is needed and
//! then the others (`specs/Reads.antt`); `Copies::store` puts them in, `Copies::take` does so without a copy of the bytes, and
//! `Copies::least_stale` names the least block of others' copies that is not kept with the same bytes and the present stamp
//! (`specs/Stale.antt`). `Blocks` are those that an operation wants which is done again in a recovery: read as they are seen,
//! and kept for no call.
//!
//! What a call looks at is much like what the calls before it looked at, so `Foresight` remembers that. Its answers are guesses:
//! no contract sees them.
//!
//! Room is kept from call to call: copies and reads are emptied and not dropped.
#![tactic(auto)]

mod blocks;
mod copies;
mod foresight;
mod kept_blocks;
mod places;
mod reads;

pub use blocks::Blocks;
pub use copies::Copies;
pub use foresight::Foresight;
pub use kept_blocks::KeptBlock;
pub use reads::Reads;
