//! Worked examples of path look-up on a small volume written by the format: paths with their errors,
//! places, names searched in a directory of many blocks, and queries that are run to their end by the
//! blocks that they ask for. They are tests alone.
#![tactic(auto)]

#[cfg(test)]
mod path_tests;
#[cfg(test)]
mod place_tests;
#[cfg(test)]
mod search_tests;
#[cfg(test)]
mod volumes;
