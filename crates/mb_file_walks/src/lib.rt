//! Worked examples of the contents of files on small volumes written by the format: bytes put and read,
//! files emptied, holes, and a volume used up, by calls that are run to their end with the blocks that
//! they ask for. They are tests alone.
#![tactic(auto)]

#[cfg(test)]
mod hole_tests;
#[cfg(test)]
mod level_tests;
#[cfg(test)]
mod space_tests;
#[cfg(test)]
mod volumes;
