//! The reference model beside what was answered: a tool for tests, and their examples of it. `first_difference` steps a
//! machine through a history and finds the first entry that is not the model's. `first_line_apart` does the same with the
//! printed text of a job, which tells neither moments nor numbers of inodes. `tree_difference` compares two trees inode by
//! inode.
#![tactic(auto)]

mod histories;
mod lines;
#[cfg(test)]
mod tests;
mod transcripts;
mod trees;

pub use histories::{Cause, Difference, first_difference};
pub use transcripts::first_line_apart;
pub use trees::{Apart, tree_difference};
