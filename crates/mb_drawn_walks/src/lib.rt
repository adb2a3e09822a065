//! Runs of calls over a V7 file system that are drawn: the reference model answers alike, and the image is a volume of its
//! tree, after every tenth of many calls on a small volume and after each operation on a larger one. They are tests alone.
#![tactic(auto)]

#[cfg(test)]
mod agreement_tests;
#[cfg(test)]
mod draws;
#[cfg(test)]
mod tallies;
