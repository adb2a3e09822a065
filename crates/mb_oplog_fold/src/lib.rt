//! The fold of the operation log, before a recovery does it again: a write that stands right behind another becomes one
//! write with it, and of attributes that were set twice in a row the later ones stand.
//!
//! `fold` leaves the folded list of `mb_folds`, whose law says that it leads from each tree to where the list led. The
//! log is gone through once, and a folded copy of it is made before it changes, so that want of memory leaves it as it
//! was.
#![tactic(auto)]

mod copies;
mod folds;
mod joins;

pub use folds::fold;
