//! Fault plans: rules that say at which fault points a call is struck and with what damage, as a fault
//! injector (`mb_edge::Hook`).
//!
//! `specs/Fires.antt` says where the rules of a plan fire and which damage is done there. The hook of a
//! plan faults exactly there, lends exactly that damage, and counts its faults. A plan without rules is a
//! hook that never faults.
#![tactic(auto)]

mod hooks;
mod marked;
mod plans;
mod rules;

pub use hooks::PlanHook;
pub use plans::Plan;
pub use rules::Rule;
