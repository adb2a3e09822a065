//! A job whose callers run in threads of their own.
//!
//! `drive_threads` shares a core by `mb_volume`'s `Volume`, gives each caller its pass and its fault injector, and runs
//! the callers' calls in as many threads. When all are back it takes the core out again. What it leaves is
//! `IsDrivenApart` of `mb_run`: each caller's calls stand in the history in its order, whatever the schedule was.
#![tactic(auto)]

mod driving;
mod worker;

pub use driving::drive_threads;
