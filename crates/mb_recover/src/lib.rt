//! A recovery after a fault, step by step.
//!
//! `recover_step` asks a core which step comes next (`phase`), asks the hook where a step is a fault point, and makes the
//! step. What each answer means is `Recovers` (`specs/Steps.antt`): the equation of that step over the core.
#![tactic(auto)]

mod steps;

pub use steps::{Stepped, recover_step};
