//! Jobs that are generated from a number: calls of two callers on sixteen names, and faults that strike them.
//!
//! `specs/Generator.antt` is the job of a number, over the words that PCG32 draws for it: `specs/Calls.antt`
//! has the table of the calls, `specs/Faults.antt` the rules. `generate` makes exactly that job. `specs/Laws.antt`
//! says what a driver and a core may rely on, as of a job that a text writes.
#![tactic(auto)]

mod calls;
mod draws;
mod exits;
mod generator;
mod laws;
mod ordinals;
mod rows;
mod rules;

pub use generator::generate;
pub use laws::generated_are_fit;
