//! Worked examples of the parts of the core that are lists with room, or stand on them: verdicts and undo logs, the operation
//! log and its folding, sessions, the history. They are tests alone.
#![tactic(auto)]

#[cfg(test)]
mod fold_tests;
#[cfg(test)]
mod gate_tests;
#[cfg(test)]
mod journal_tests;
#[cfg(test)]
mod log_tests;
#[cfg(test)]
mod room_tests;
#[cfg(test)]
mod session_tests;
