//! The gate of the restart layer: whether a ticket may pass, and what a call in flight did that is taken back when
//! the call is unwound.
//!
//! `verdict` is exact: `specs/Verdicts.antt` says what each ticket is answered. A contract sees an undo log as the list
//! of its steps, the newest last, and its room, the number of steps that it takes without memory. `pop` never wants
//! memory, so unwinding cannot meet want of it.
#![tactic(auto)]

mod gates;
mod ulogs;
mod verdicts;

pub use gates::verdict;
pub use ulogs::{Ulog, Undo};
pub use verdicts::Verdict;
