//! Jobs whose callers run in threads of their own: that calls of two callers are inside at the same time, and that the history
//! of eight callers is the reference model's, with faults and without. They are tests alone.
#![tactic(auto)]

#[cfg(test)]
mod jobs;
#[cfg(test)]
mod meeting_tests;
#[cfg(test)]
mod model_tests;
#[cfg(test)]
mod runs;
