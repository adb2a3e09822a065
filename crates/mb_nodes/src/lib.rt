//! Trees between the steps of an operation: theory alone, no code that runs.
//!
//! An image stores a tree (`IsStored` of `specs/Stored.antt`) where it is a volume of it but for the tree's soundness:
//! so an operation that is half done has a tree too. Each step of an operation is a law: from blocks that store a tree,
//! and writes that keep to the relations of `mb_blocks`, to blocks that store the next tree and keep what a volume
//! keeps (`Follows`). A chain of such steps whose last tree is sound ends in a volume, by `volume_is_stored`.
//! `specs/Underway.antt` says what holds between two writes of one step, for steps that write more than once.
//!
//! The laws' statements are in `specs/Laws.antt`. The lemma files of `proofs/` are public, for the proofs of the
//! crates above.
#![tactic(auto)]

mod laws;

pub use laws::{
    cache_written, cleared, directory_grown, directory_made, directory_refused, erased, fields_set,
    file_made, fresh_is_volume, hole_filled, part_put, size_set, slot_bytes, slot_set,
    volume_is_stored, worked_numbers,
};
