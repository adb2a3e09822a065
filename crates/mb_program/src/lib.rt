//! The program without its edge: `membrane`, over every source, disk and sink, with the program's own contract.
//!
//! `specs/Outcomes.antt` says how each way to start it ends, and what is held then; `specs/Held.antt` where the disk is at the
//! end; `specs/Completes.antt` when nothing but want of memory stands between a run and its end.
#![tactic(auto)]

mod deciding;
mod finish;
mod laws;
mod manners;
mod outcomes;
mod program;
mod running;

pub use finish::{Finish, Held};
pub use laws::{
    check_completes, makes_complete, runs_complete, soaks_complete, survivors_complete,
};
pub use outcomes::Outcome;
pub use program::{membrane, membrane_alone, print};
