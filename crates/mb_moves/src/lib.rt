//! Steps of an operation in a row: theory alone, no code that runs.
//!
//! A step leads from blocks that store a tree to blocks that store the next one, keeps what a volume keeps, and leaves
//! no block near that was not near before (`Advances` of `specs/Advancing.antt`): so whatever an operation asks for
//! between its steps may be asked for at its start, and steps in a row are one step. `AdvancesTo` says it of changes
//! over an image. An operation is done where its steps end at the tree after its effect (`operation_done`).
//!
//! `specs/Laws.antt` has the steps, `specs/NeedLaws.antt` which blocks are near, `specs/TreeLaws.antt` the equations
//! that take an operation's effect apart. The lemma files of `proofs/` are public, for the proofs of the crates above.
#![tactic(auto)]

mod laws;
mod need_laws;
mod tree_laws;

pub use laws::{
    cache_advances, changes_in_a_row, cleared_advances, directory_advances, erased_advances,
    fields_advance, file_advances, growth_advances, hole_advances, operation_done, part_advances,
    size_advances, slot_advances, steps_in_a_row,
};
pub use need_laws::{had_is_near, midway, ready_for, touched_is_near, worked_looks};
pub use tree_laws::{changed_there, cost_with_more, nodes_lost, room_is_there, slots_entered};
