//! The lock of the file system layer: one value that several callers change, one at a time.
//!
//! A `Turn` keeps the value. Each caller has a `Pass`, which knows the value as that caller saw it
//! last. `Turn::take` waits until the turn is free and lends the value, `Turn::give` puts it back.
//! What a value stands for is its `Booked`: a list of entries that only grows, a stand of each
//! caller, and an origin that never changes.
//!
//! Promised, for every schedule: the value that is taken has the pass's origin, its list begins with
//! all that the pass has seen, what others added holds no entry of this caller, and this caller's
//! stand is as the pass left it. The words for it are in `specs/Passes.antt`, the laws by which it
//! composes in `specs/Laws.antt`, and the rule that every step on the shared table keeps is in
//! `specs/Rule.antt`. `each` runs one errand for each of many owners in threads of their own.
//!
//! Not promised: that a thread which waits gets the turn, nor in which order those that wait do.
#![tactic(auto)]

mod booked;
mod errand;
mod laws;
mod pass;
mod rule;
mod sight;
#[cfg(test)]
mod tests;
mod turn;

pub use booked::Booked;
pub use errand::{Errand, each};
pub use laws::{follows_composes, others_came, own_entries};
pub use pass::Pass;
pub use turn::{PassList, Turn};
