//! Worked examples of blocks on small volumes: the free chain, the ways to parts, and calls that are
//! run to their end by the blocks that they ask for. They are tests alone.
#![tactic(auto)]

#[cfg(test)]
mod chain_tests;
#[cfg(test)]
mod count_tests;
#[cfg(test)]
mod ended_tests;
#[cfg(test)]
mod fill_tests;
#[cfg(test)]
mod hang_tests;
#[cfg(test)]
mod lacking_tests;
#[cfg(test)]
mod number_tests;
#[cfg(test)]
mod part_tests;
#[cfg(test)]
mod volumes;
