//! Worked examples of calls over a V7 file system: each call of the table with its reply, and longer runs. The reference
//! model answers alike, over all blocks at once as over those that a call asks for, and after each call the image is a
//! volume of its tree. They are tests alone.
#![tactic(auto)]

#[cfg(test)]
mod call_tests;
#[cfg(test)]
mod example_tests;
#[cfg(test)]
mod tables;
