//! A volume that threads share.
//!
//! `Volume` keeps the core of a volume behind the turn of `mb_turn`; each caller has a `Pass`. `Volume::call` makes one
//! call of the pass's caller, by the steps that the driver of a job makes (`mb_run`), but the turn is held for one event
//! at a time: entering, gathering, finishing with the checkpoint that is then due, leaving, a fault, one step of a
//! recovery. The call is performed, and the fault injector asked, outside, over the caller's own copies.
//!
//! Promised, for every schedule: what a call adds to its caller's part of the core (`specs/Called.antt`), where a part is
//! what stays as it is while others have the turn (`specs/Parts.antt`). How a call stands between two holds is in
//! `specs/Underway.antt`. A call may wait for other threads, so it owes no return.
#![tactic(auto)]

mod attempt;
mod events;
mod examples;
mod holds;
mod performing;
mod shared;
mod volume;

pub use examples::worked_firsts;
pub use shared::SharedCore;
pub use volume::Volume;
