//! The callers' sessions: who each caller is, its current directory, its file creation mask, its descriptors and its
//! open files.
//!
//! A contract sees `Sessions` as the list of the reference model's sessions, in the order of the callers' numbers, and
//! every change is the model's (`mb_tree`'s `specs/Sessions.antt`): a new open file takes the least free place, the
//! lowest free descriptor is the model's, a place is free again once no descriptor has it. The descriptors and open
//! files of a caller are arrays in place, so a copy of all sessions is one allocation, and one into sessions that are
//! there takes none.
//!
//! `specs/OpenFiles.antt` says what a descriptor is on, and how counts of open files tell those of the model.
#![tactic(auto)]

mod counting;
mod open_files;
mod sameness;
mod sessions;

pub use open_files::OpenFile;
pub use sessions::Sessions;
