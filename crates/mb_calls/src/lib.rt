//! A call over gathered blocks: what `step` of the reference model does, asked of a file system's code that
//! reads a view of blocks, before anything is changed.
//!
//! `perform` asks all questions of the call's row, decides after, and acts once; `Performing::go` does the
//! same and keeps how far the call's paths were followed, and a write's plan, for when the view has grown. Each
//! returns on every view. `Performed::Ready` is the model's step of the call on every volume of which the view is
//! a part, for all sessions that the call cannot tell from those it was given (`IsReadyFor` of `specs/Performed.antt`);
//! `Performed::Need` names blocks, the first of which the view lacks, near the inodes at which the call looks; the only
//! other answer is want of memory. Nothing here waits, and nothing outside is called.
//!
//! `specs/Looked.antt` says at which inodes a call looks, `specs/Halts.antt` what a question's result stands
//! for, `specs/Continuing.antt` how a row is decided from the results of its questions, `specs/Spots.antt`
//! what is told beside a place, `specs/Following.antt` how far a path has been followed, and what a kept plan is.
//!
//! The tests are of what needs no volume: calls that ask nothing, the order of refusals and Needs, where a path
//! is cut. A `FileSys` keeps its contract or is none, so the tests of calls that look at a tree stand above the
//! V7 file system.
#![tactic(auto)]

mod asks;
mod decisions;
mod halts;
mod performing;
mod planning;
mod resuming;
mod spots;
#[cfg(test)]
mod tests;
mod walks;

pub use performing::{KeptPlan, Performed, ReadyCall, perform};
pub use resuming::{Performing, walks_go_on};
pub use walks::{Ahead, PathWalk, PathWalks};
