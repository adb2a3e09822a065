//! Laws of fault plans: theory alone, no code that runs. How often a plan fires is bounded by its rules
//! (`fires_at_most`).
#![tactic(auto)]

mod laws;

pub use laws::fires_at_most;
