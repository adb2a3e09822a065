//! Worked examples of the reference model: single calls, as they were worked out by hand, and above them callers who meet at
//! one name, the forms of paths, and what is used up. They are tests. Beside them stands a law: what a volume keeps while its
//! tree changes, on numbers (`specs/Worked.antt`).
#![tactic(auto)]

#[cfg(test)]
mod call_tests;
mod laws;
#[cfg(test)]
mod meeting_tests;
#[cfg(test)]
mod walk;

pub use laws::worked_kept;
