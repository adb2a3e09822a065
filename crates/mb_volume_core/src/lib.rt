//! The event core of a volume, as the driver of a job calls it.
//!
//! `VolumeCore` is `mb_core_events`' `Core` as an `EventCore` of `mb_run`: what the driver sees of it is `sight_of`
//! (`specs/CoreSight.antt` of `mb_run`), and each event's equation and answer becomes what the driver asks of it. Its type's
//! invariant is that of `Core`, so it is always in order (`Right` of `mb_core_spec`).
#![tactic(auto)]

mod answers;
mod volume_core;

pub use volume_core::{Origin, VolumeCore};
