//! Walks through the events of the core, over V7 and a disk in memory: the answer to each event, the history, the fault
//! records and the trace of the worked examples of several callers and of recoveries; and each of these walks again over a
//! disk of which one call fails, for every call that it makes. They are tests alone.
//!
//! A `Recorder` stands between the driver and the core, and notes each answer.
#![tactic(auto)]

#[cfg(test)]
mod checks;
#[cfg(test)]
mod example_tests;
#[cfg(test)]
mod examples;
#[cfg(test)]
mod failing_tests;
#[cfg(test)]
mod notes;
#[cfg(test)]
mod recorder;
#[cfg(test)]
mod walks;
